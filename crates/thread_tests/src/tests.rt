//! A job means the same by any number of workers, however its steps are held or delayed.

use crate::gates::{Counting, Delaying, Holding, Pair, Until};
use crate::jobs::{BESIDE, FACTORS, FAILING, PRODUCTS, SYLVESTER, fails_at, leaves, ran};
use std::sync::atomic::Ordering::SeqCst;
use std::test::Fail;

#[test]
fn any_number_of_workers_leaves_the_same(rt: HostRuntime) -> Result<(), Fail> {
    let alloc = rt.alloc();
    for due in [PRODUCTS, FACTORS, SYLVESTER] {
        for workers in 1..=16 {
            let gate = Delaying::new(u64::from(workers));
            let finished = ran(&rt, alloc, due.text, workers, &gate)?;
            assert!(rt; leaves(&finished.outcome, &due));
        }
    }
    Ok(())
}

#[test]
fn the_first_bad_pivot_is_that_of_the_first_statement(rt: HostRuntime) -> Result<(), Fail> {
    let alloc = rt.alloc();
    let gate = Holding::new(Pair { step: 1, other: 5 }, Until::Left);
    let held = ran(&rt, alloc, FAILING, 2, &gate)?;
    assert!(rt; gate.has_met());
    assert!(rt; fails_at(&held.outcome, 1, 1));
    for run in 0..500_u32 {
        let gate = Delaying::new(u64::from(run));
        let finished = ran(&rt, alloc, FAILING, 2 + run % 7, &gate)?;
        assert!(rt; fails_at(&finished.outcome, 1, 1), "run {run}");
    }
    Ok(())
}

#[test]
fn a_bad_pivot_is_named_wherever_it_stands(rt: HostRuntime) -> Result<(), Fail> {
    let alloc = rt.alloc();
    for (place, text) in [(0, BESIDE[0]), (1, BESIDE[1]), (2, BESIDE[2])] {
        for (step, other) in [(1, 5), (5, 1), (2, 5), (5, 3)] {
            let gate = Holding::new(Pair { step, other }, Until::Left);
            let finished = ran(&rt, alloc, text, 2, &gate)?;
            assert!(rt; gate.has_met());
            assert!(rt; fails_at(&finished.outcome, 2, place));
        }
    }
    Ok(())
}

#[test]
fn the_gate_stands_round_each_step_that_is_done(rt: HostRuntime) -> Result<(), Fail> {
    let alloc = rt.alloc();
    // Of the eight steps the tests of the pivots fail, and the three behind each of them are skipped.
    for (text, due) in [(PRODUCTS.text, 0x1_1111_1111_1110), (FAILING, 0x10_0010)] {
        let gate = Counting::new();
        let _ = ran(&rt, alloc, text, 2, &gate)?;
        assert_eq!(rt; gate.entered.load(SeqCst), due);
        assert_eq!(rt; gate.left.load(SeqCst), due);
    }
    Ok(())
}
