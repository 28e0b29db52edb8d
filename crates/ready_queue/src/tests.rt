use crate::Ready;
use std::alloc::AllocError;

/// Two callers of a queue for five steps push three numbers, which one of them pops in their order; then there is none.
#[test]
#[tactic(auto, unfolding(crate::specs::PassViews::same))]
fn three_numbers_come_out_in_their_order(rt: HostRuntime) -> Result<(), AllocError> {
    let (ready, mut passes) = Ready::new(rt.alloc(), 5, 2)?;
    assert_eq!(rt; passes.len(), 2);
    let Some(mut first) = passes.pop() else {
        return Err(AllocError);
    };
    let Some(mut second) = passes.pop() else {
        return Err(AllocError);
    };
    ready.push(&rt, &mut first, 5);
    ready.push(&rt, &mut second, 5);
    ready.push(&rt, &mut first, 1);
    assert_eq!(rt; ready.pop(&rt, &mut second), Some(5));
    assert_eq!(rt; ready.pop(&rt, &mut second), Some(5));
    assert_eq!(rt; ready.pop(&rt, &mut second), Some(1));
    assert_eq!(rt; ready.pop(&rt, &mut second), None);
    Ok(())
}

/// A queue for no step can be made, and nothing is found in it.
#[test]
fn a_queue_for_no_step_is_empty(rt: HostRuntime) -> Result<(), AllocError> {
    let (ready, mut passes) = Ready::new(rt.alloc(), 0, 1)?;
    let Some(mut pass) = passes.pop() else {
        return Err(AllocError);
    };
    assert_eq!(rt; ready.pop(&rt, &mut pass), None);
    Ok(())
}
