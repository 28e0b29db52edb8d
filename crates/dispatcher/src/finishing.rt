//! The steps of a plan, run from the first to the last.

ghost use Rattle.std.specs.Prelude.{◌≡◌, ◌*◌, ◌≤◌, ℕ, length, IfOk};
ghost use Rattle.dependence_queue.specs.Edges.{edges_of};
ghost use Rattle.schedule_core.specs.EventBlocks.{step_access};
ghost use Rattle.schedule_core.specs.Schedules.{IsSchedule};
ghost use Rattle.schedule_core.specs.StepAccesses.{accesses_of};
ghost use Rattle.task_values.specs.Outcomes.{IsMeaning, IsOnlyMeaning, IsReplayOutcome};
ghost use Rattle.block_store.specs.Keys.{step_count};
ghost use Rattle.block_store.specs.Plays.{NotHolds, StandsForAll};
ghost use Rattle.block_store.specs.Seats.{key_of, view, IsSeatOf};
ghost use Rattle.dispatcher.specs.Crews.{IsBoardOf, IsReplayFailure};
ghost use Rattle.dispatcher.specs.Plans.{IsPlan, workers_of_plan};

use crate::crew::Crew;
use crate::plan::Plan;
use crate::running::{Ran, run};
use block_store::{Board, Seat};
use dependence_queue::Edges;
use job_blocks::JobBlocks;
use outside_io::Gate;
use schedule_core::EventList;
use std::alloc::{AllocError, Global};
use std::sync::Wait;
use std::thread::Threads;
use task_values::{Failure, Outcome};

/// What the steps of a plan came to, and the schedule by which they went.
#[derive(Drop)]
pub struct Finished {
    pub schedule: EventList,
    pub outcome: Outcome,
}

/// Runs the steps of a plan by as many workers as it asks for, though by no more than there are steps, and answers what a replay
/// of the steps comes to: the one list of matrices that the job means, or its first bad pivot. The edges are the direct ones
/// between the steps. Its one error is want of memory.
pub fn run_steps<R: Threads + Wait + Sync, G: Gate>(
    rt: &R,
    alloc: Global,
    plan: &Plan<'_>,
    edges: &Edges,
    gate: &G,
) -> Result<Finished, AllocError>
    requires plan { IsPlan plan.now }
    requires edges { edges.now ≡ edges_of (accesses_of plan.now.steps.now) }
    ensures schedule { IfOk result (λ finished. IsSchedule (step_access plan.now.steps.now)
        (length plan.now.steps.now) finished.schedule) }
    ensures replayed { IfOk result (λ finished.
        IsReplayOutcome plan.now.job.now plan.now.b plan.now.steps.now finished.outcome) }
    ensures meaning { IfOk result (λ finished. IsMeaning plan.now.job.now finished.outcome) }
    ensures only { IfOk result (λ finished. IsOnlyMeaning plan.now.job.now finished.outcome) }
{
    let workers = worker_count(plan);
    let (board, seats) = Board::new(alloc, plan.job, plan.b, plan.steps, edges, workers)?;
    let crew = Crew::new(alloc, plan, &board, seats)?;
    let Ran {
        schedule,
        failed,
        seat,
    } = run(rt, plan, &board, edges, crew, gate);
    let outcome = outcome_by(alloc, plan, board, seat, failed)?;
    Ok(Finished { schedule, outcome })
}

/// As many workers as the plan asks for, though no more than there are steps, and one at least.
fn worker_count(plan: &Plan<'_>) -> u32
    requires { IsPlan plan.now }
    ensures { result ≡ workers_of_plan plan.now }
{
    plan.workers.min(plan.steps.len() as u32).max(1)
}

/// What the steps of a plan came to, once all have ended: the bad pivot that was noted, or else the matrices of the blocks that the
/// board leaves, by a seat that stands for all workers. Its one error is want of memory.
fn outcome_by(
    alloc: Global,
    plan: &Plan<'_>,
    board: Board,
    seat: Seat,
    failed: Option<Failure>,
) -> Result<Outcome, AllocError>
    requires plan { IsPlan plan.now }
    requires board { IsBoardOf plan.now board }
    requires seat { IsSeatOf board seat }
    requires all { StandsForAll (key_of board) (view seat) }
    requires ended { (view seat).clock ≡ 2 * step_count (key_of board) }
    requires free { (x : ℕ) → NotHolds (view seat) x }
    requires failed { IsReplayFailure (key_of board) failed }
    ensures { IfOk result (IsReplayOutcome plan.now.job.now plan.now.b plan.now.steps.now) }
{
    match failed {
        None => {
            let closed = board.close(alloc, seat)?;
            let blocks = JobBlocks::new(alloc, plan.job, plan.b)?;
            Ok(Outcome::Done(blocks.gathered(alloc, closed.blocks)?))
        }
        Some(failure) => Ok(Outcome::BadPivot {
            statement: failure.statement,
            row: failure.row,
            col: failure.col,
        }),
    }
}
