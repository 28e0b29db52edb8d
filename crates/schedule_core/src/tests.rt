ghost use Rattle.std.specs.Prelude.{◌≡◌, ◌≤◌, IfOk, length};
ghost use Rattle.equation.specs.Jobs.{IsJob};
ghost use Rattle.dependence_queue.specs.Edges.{most_accesses};
ghost use Rattle.step_replays.specs.Fits.{FitsJob};

use super::*;
use equation::Job;
use issue_list::{Choice, issue};
use job_blocks::JobBlocks;
use job_text::{Stop, read_job};
use matrix_core::Matrix;
use std::alloc::{AllocError, Global};
use std::test::Fail;
use step_replays::StepList;
use task_values::{Outcome, replay};

const LU: &str =
    "flame 1\nmodulus 101\noperation lu\ndims n\nwork W general n n\nequation lu X = W\nend\n";

const IDENTITY: &str = "matrix A 4 4\n1 0 0 0\n0 1 0 0\n0 0 1 0\n0 0 0 1\nend\ndo lu A\n";

/// Its first step meets a bad pivot in row 1 and column 1.
const ONES: &str = "matrix A 4 4\n1 1 1 1\n1 1 1 1\n1 1 1 1\n1 1 1 1\nend\ndo lu A\n";

const SCHEDULE: [Event; 10] = [
    Event::Start(1),
    Event::Finish(1),
    Event::Start(3),
    Event::Start(2),
    Event::Finish(2),
    Event::Finish(3),
    Event::Start(4),
    Event::Finish(4),
    Event::Start(5),
    Event::Finish(5),
];

/// Step 4 begins while step 3 writes what it reads.
const OVERLAPPING: [Event; 10] = [
    Event::Start(1),
    Event::Finish(1),
    Event::Start(3),
    Event::Start(2),
    Event::Finish(2),
    Event::Start(4),
    Event::Finish(3),
    Event::Finish(4),
    Event::Start(5),
    Event::Finish(5),
];

/// The job of operations and of what stands behind them.
fn job_of(alloc: Global, operations: &str, rest: &str) -> Result<Job, AllocError>
    requires operations { length operations.now ≤ 1000 }
    requires rest { length rest.now ≤ 1000 }
    ensures { IfOk result IsJob }
{
    let mut text = operations.as_bytes().to_vec(alloc)?;
    text.extend_from_slice(rest.as_bytes())?;
    match read_job(alloc, text.as_slice(), Stop::Nothing) {
        Ok((job, _)) => Ok(job),
        Err(_) => Err(AllocError),
    }
}

/// Its steps by first variants, under a block size.
fn steps_of(alloc: Global, job: &Job, b: u32) -> Result<StepList, AllocError>
    requires job { IsJob job.now }
    requires size { 1 ≤ b }
    ensures fit { IfOk result (FitsJob job.now b) }
    ensures few { IfOk result (λ steps. length steps ≤ most_accesses) }
{
    match issue(alloc, job, b, &Choice::First) {
        Ok(steps) => Ok(steps),
        Err(_) => Err(AllocError),
    }
}

/// What the steps of a matrix's factorisation come to by these events.
fn come_to(alloc: Global, matrix: &str, events: &[Event]) -> Result<Option<Outcome>, AllocError>
    requires { length matrix.now ≤ 1000 }
{
    let job = job_of(alloc, LU, matrix)?;
    let steps = steps_of(alloc, &job, 2)?;
    let list = EventList::from_vec(events.to_vec(alloc)?);
    run_events(alloc, &job, 2, &steps, &list)
}

/// What they come to in their order.
fn come_to_in_order(alloc: Global, matrix: &str) -> Result<Outcome, AllocError>
    requires { length matrix.now ≤ 1000 }
{
    let job = job_of(alloc, LU, matrix)?;
    let steps = steps_of(alloc, &job, 2)?;
    replay(alloc, &job, 2, &steps)
}

/// The first block once the first step has ended.
fn first_block(alloc: Global, matrix: &str) -> Result<Option<Matrix>, AllocError>
    requires { length matrix.now ≤ 1000 }
{
    let job = job_of(alloc, LU, matrix)?;
    let steps = steps_of(alloc, &job, 2)?;
    let blocks = JobBlocks::new(alloc, &job, 2)?;
    let mut machine = Machine::new(alloc, &job, 2, &steps)?;
    if blocks.count() == 0 || !machine.start(1) || !machine.finish(1) {
        return Ok(None);
    }
    Ok(Some(machine.block(0).copy(alloc)?))
}

/// Operations by which a system is solved: factors, and two triangular systems.
const SYSTEM: &str =
    "flame 1\nmodulus 101\noperation lu\ndims n\nwork W general n n\nequation lu X = W\nend\noperation ulow\ndims n m\nwork W general n m\nknown T unitlower n n\nequation T * X = W\nend\noperation upp\ndims n m\nwork W general n m\nknown T upper n n\nequation T * X = W\nend\n";

const STATEMENTS: &str =
    "matrix A 2 2\n2 1\n4 5\nend\nmatrix B 2 1\n3\n9\nend\ndo lu A\ndo ulow B A\ndo upp B A\n";

/// The beginning and then the end of each of so many steps.
fn ordered(alloc: Global, count: u32) -> Result<EventList, AllocError> {
    let mut events = EventList::new(alloc);
    for before in 0..count {
        events.push(Event::Start(before + 1))?;
        events.push(Event::Finish(before + 1))?;
    }
    Ok(events)
}

/// What the steps of three statements come to, on blocks of one entry.
fn solved(alloc: Global) -> Result<Option<Outcome>, AllocError> {
    let job = job_of(alloc, SYSTEM, STATEMENTS)?;
    let steps = steps_of(alloc, &job, 1)?;
    let events = ordered(alloc, steps.len() as u32)?;
    run_events(alloc, &job, 1, &steps, &events)
}

/// Whether two matrices are left, with these entries.
fn leaves_two(outcome: &Outcome, first: &[u64], second: &[u64]) -> bool {
    match outcome {
        Outcome::Done(matrices) => match matrices.as_slice() {
            [a, b] => a.entries() == first && b.entries() == second,
            _ => false,
        },
        Outcome::BadPivot { .. } => false,
    }
}

#[test]
fn three_statements_are_done(rt: HostRuntime) -> Result<(), Fail> {
    let outcome = solved(rt.alloc())?;
    let left = outcome.is_some_and(|outcome| {
        leaves_two(&outcome, [2, 1, 2, 3].as_slice(), [1, 1].as_slice())
    });
    assert!(rt; left);
    Ok(())
}

/// Whether one matrix is left, with these entries.
fn leaves(outcome: &Outcome, entries: &[u64]) -> bool {
    match outcome {
        Outcome::Done(matrices) => {
            matrices.len() == 1 && matrices.as_slice()[0].entries() == entries
        }
        Outcome::BadPivot { .. } => false,
    }
}

#[test]
fn schedules_of_five_steps(rt: HostRuntime) -> Result<(), Fail> {
    let alloc = rt.alloc();
    let identity = [1, 0, 0, 0, 0, 1, 0, 0, 0, 0, 1, 0, 0, 0, 0, 1];
    let whole = come_to(alloc, IDENTITY, SCHEDULE.as_slice())?;
    assert!(rt; whole.is_some_and(|outcome| leaves(&outcome, identity.as_slice())));
    let in_order = come_to_in_order(alloc, IDENTITY)?;
    assert!(rt; leaves(&in_order, identity.as_slice()));
    assert!(rt; come_to(alloc, IDENTITY, OVERLAPPING.as_slice())?.is_none());
    assert!(rt; come_to(alloc, IDENTITY, &SCHEDULE[..9])?.is_none());
    Ok(())
}

/// Beginnings that no schedule has: no step, one that ends before it begins, one that begins twice or ends twice, one before what
/// it reads, and numbers of no step.
const WRONG: [&[Event]; 7] = [
    &[],
    &[Event::Finish(1)],
    &[Event::Start(1), Event::Start(1)],
    &[Event::Start(1), Event::Finish(1), Event::Finish(1)],
    &[Event::Start(2)],
    &[Event::Start(0)],
    &[Event::Start(6)],
];

#[test]
fn other_lists_are_none(rt: HostRuntime) -> Result<(), Fail> {
    for (i, events) in WRONG.iter().enumerate() {
        assert!(rt;
            come_to(rt.alloc(), IDENTITY, events)?.is_none(),
            "case {i}"
        );
    }
    Ok(())
}

#[test]
fn a_step_that_fails_stops_the_others(rt: HostRuntime) -> Result<(), Fail> {
    let outcome = come_to(rt.alloc(), ONES, SCHEDULE.as_slice())?;
    let bad = matches!(
        outcome,
        Some(Outcome::BadPivot {
            statement: 1,
            row: 1,
            col: 1,
        })
    );
    assert!(rt; bad);
    let block = first_block(rt.alloc(), ONES)?;
    assert!(rt; block.is_some_and(|kept| kept.entries() == [1, 1, 1, 1].as_slice()));
    Ok(())
}
