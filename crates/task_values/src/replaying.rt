//! The replay of a list of steps.

ghost use Rattle.std.specs.Prelude.{◌≡◌, ◌≤◌, length, IfOk};
ghost use Rattle.equation.specs.Jobs.{IsJob};
ghost use Rattle.step_replays.specs.Fits.{FitsJob};
ghost use Rattle.task_values.specs.Outcomes.{IsMeaning, IsOnlyMeaning, IsReplayOutcome};
ghost use Rattle.task_values.specs.Progress.{IsGone, IsRun};

use crate::outcome::Outcome;
use crate::run::Run;
use crate::store::Store;
use equation::Job;
use job_blocks::JobBlocks;
use std::alloc::{AllocError, Global};
use step_replays::StepList;

/// What a run came to, once all its steps were gone through. Its one error is want of memory.
pub fn outcome_of(
    alloc: Global,
    blocks: &JobBlocks<'_>,
    run: &Run<'_>,
    store: Store,
) -> Result<Outcome, AllocError>
    requires job { blocks.now ≡ record { job = run.now.job.now; b = run.now.b } }
    requires run { IsRun run.now }
    requires gone { IsGone run.now (length run.now.steps.now) store }
    ensures { IfOk result (IsReplayOutcome run.now.job.now run.now.b run.now.steps.now) }
{
    match store.failure {
        None => Ok(Outcome::Done(blocks.gathered(alloc, store.blocks)?)),
        Some(failure) => Ok(Outcome::BadPivot {
            statement: failure.statement,
            row: failure.row,
            col: failure.col,
        }),
    }
}

/// Goes through all steps of a run.
fn run_steps(alloc: Global, blocks: &JobBlocks<'_>, run: &Run<'_>) -> Result<Store, AllocError>
    requires job { blocks.now ≡ record { job = run.now.job.now; b = run.now.b } }
    requires run { IsRun run.now }
    ensures { IfOk result (IsGone run.now (length run.now.steps.now)) }
{
    let mut store = Store::first(alloc, blocks)?;
    for n in 0..run.steps.len() {
        store.go(alloc, run, n);
    }
    Ok(store)
}

/// Does steps that fit a job under block size b, one after another, by the kernels on whole blocks, and answers what they come
/// to: the one list of matrices that the job means, or its first bad pivot. Its one error is want of memory.
pub fn replay(alloc: Global, job: &Job, b: u32, steps: &StepList) -> Result<Outcome, AllocError>
    requires job { IsJob job.now }
    requires size { 1 ≤ b }
    requires fit { FitsJob job.now b steps.now }
    ensures replayed { IfOk result (IsReplayOutcome job.now b steps.now) }
    ensures meaning { IfOk result (IsMeaning job.now) }
    ensures only { IfOk result (IsOnlyMeaning job.now) }
{
    let blocks = JobBlocks::new(alloc, job, b)?;
    let run = Run {
        job,
        b,
        steps: steps.as_slice(),
    };
    let store = run_steps(alloc, &blocks, &run)?;
    outcome_of(alloc, &blocks, &run, store)
}
