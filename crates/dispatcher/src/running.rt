//! The steps of a board are taken by the workers of a crew.

ghost use Rattle.std.specs.Prelude.{◌≡◌, ◌*◌, ◌≤◌, ◌<◌, ℕ, length, slice_get, Some};
ghost use Rattle.dependence_queue.specs.Edges.{edges_of};
ghost use Rattle.schedule_core.specs.EventBlocks.{step_access};
ghost use Rattle.schedule_core.specs.Schedules.{IsSchedule};
ghost use Rattle.schedule_core.specs.StepAccesses.{accesses_of};
ghost use Rattle.block_store.specs.Keys.{step_count};
ghost use Rattle.block_store.specs.Plays.{NotHolds, StandsForAll};
ghost use Rattle.block_store.specs.Seats.{key_of, view, IsSameSeat, IsSeatOf};
ghost use Rattle.block_store.specs.Stamps.{AreByStamps};
ghost use Rattle.ready_queue.specs.PassViews.{times};
ghost use Rattle.ready_queue.specs.Queues.{IsFirstPass, IsPassOf};
ghost use Rattle.ready_queue.specs.Queues as queues;
ghost use Rattle.dispatcher.specs.declared.worker.Worker.{Worker};
ghost use Rattle.dispatcher.specs.SharedRuns.{IsSharedRun};
ghost use Rattle.dispatcher.specs.Crews.{IsBoardOf, IsCrew, IsFirstBadPivot, IsReplayFailure};
ghost use Rattle.dispatcher.specs.Plans.{IsPlan};
ghost use Rattle.dispatcher.specs.Joining.{standing, HasEnded};
ghost use Rattle.dispatcher.specs.Telling.{root, HasPushedRoots};
ghost use Rattle.dispatcher.specs.Workers.{IsNewWorker, IsWorker};

use crate::crew::Crew;
use crate::plan::Plan;
use crate::shared_run::SharedRun;
use crate::worker::Worker;
use block_store::{Board, Seat};
use crossbeam_utils::sync::EventCount;
use dependence_queue::Edges;
use outside_io::Gate;
use ready_queue::Pass;
use schedule_core::EventList;
use std::sync::Wait;
use std::thread::Threads;
use task_values::{Failure, Run};

/// What a run came to: the schedule that the stamps of its workers' seats are, the bad pivot of the least statement, if a step met
/// one, and the seat that stands for all workers, by which the board is closed.
#[derive(Drop)]
pub struct Ran {
    pub schedule: EventList,
    pub failed: Option<Failure>,
    pub seat: Seat,
}

impl SharedRun<'_> {
    /// Pushes each step into which no edge goes.
    fn push_first<R: Wait>(&self, rt: &R, pass: &mut Pass)
        requires shared { IsSharedRun self.now }
        requires pass { IsFirstPass self.now.ready.now pass.old }
        ensures pass { IsPassOf self.now.ready.now pass.new }
        ensures first { (x : ℕ) → times x (queues.view pass.new).pushed
            ≤ root (key_of self.now.board.now) x }
        ensures roots { HasPushedRoots (key_of self.now.board.now) pass.new }
    {
        for n in 0..self.run.steps.len() as u32 {
            if self.edges.preds(n + 1) == 0 {
                self.ready.push(rt, pass, n + 1);
            }
        }
    }

    /// A new worker pushes them.
    fn open<R: Wait>(&self, rt: &R, worker: &mut Worker)
        requires shared { IsSharedRun self.now }
        requires worker { IsNewWorker self.now.board.now self.now.ready.now worker.old }
        ensures worker { IsWorker self.now.board.now self.now.ready.now worker.new }
        ensures same { IsSameSeat worker.old.seat worker.new.seat }
        ensures roots { HasPushedRoots (key_of self.now.board.now) worker.new.pass }
    {
        self.push_first(rt, &mut worker.pass);
    }

    /// One of the workers pushes the steps into which no edge goes, and then all take steps until all have ended.
    fn go<R: Threads + Wait + Sync, G: Gate>(&self, rt: &R, workers: &mut [Worker], gate: &G)
        requires shared { IsSharedRun self.now }
        requires some { 0 < length workers.old }
        requires workers { (k : ℕ) (w : Worker) → slice_get workers.old k ≡ Some w
            → IsNewWorker self.now.board.now self.now.ready.now w }
        ensures roots { (w : Worker) → slice_get workers.new 0 ≡ Some w
            → HasPushedRoots (key_of self.now.board.now) w.pass }
        ensures ended { (k : ℕ) (w : Worker) → slice_get workers.new k ≡ Some w
            → HasEnded self.now.board.now self.now.ready.now w }
        ensures all { (k : ℕ) → standing k workers.new ≡ standing k workers.old }
        ensures many { length workers.new ≡ length workers.old }
    {
        self.open(rt, &mut workers[0]);
        self.work_all(rt, workers, gate);
    }
}

/// Runs the steps of a board by the workers of its crew, on threads, each step once those before it that it conflicts with
/// have ended: it answers the events in the order of the stamps that the workers drew on the board, which is a schedule of the
/// steps. The gate stands round the work of each step that isn't skipped. It takes no memory.
pub fn run<R: Threads + Wait + Sync, G: Gate>(
    rt: &R,
    plan: &Plan<'_>,
    board: &Board,
    edges: &Edges,
    crew: Crew,
    gate: &G,
) -> Ran
    requires plan { IsPlan plan.now }
    requires board { IsBoardOf plan.now board.now }
    requires edges { edges.now ≡ edges_of (accesses_of plan.now.steps.now) }
    requires crew { IsCrew board.now crew }
    ensures seat { IsSeatOf board.now result.seat }
    ensures all { StandsForAll (key_of board.now) (view result.seat) }
    ensures ended { (view result.seat).clock ≡ 2 * step_count (key_of board.now) }
    ensures free { (x : ℕ) → NotHolds (view result.seat) x }
    ensures stamps { AreByStamps (view result.seat).facts result.schedule }
    ensures schedule { IsSchedule (step_access plan.now.steps.now) (length plan.now.steps.now)
        result.schedule }
    ensures failed { IsReplayFailure (key_of board.now) result.failed }
    ensures pivot { IsFirstBadPivot plan.now.job.now result.failed }
{
    let Crew {
        mut workers,
        ready,
        sizes,
        room,
    } = crew;
    let event_count = EventCount::new();
    let shared = SharedRun {
        run: Run {
            job: plan.job,
            b: plan.b,
            steps: plan.steps.as_slice(),
        },
        edges,
        board,
        ready: &ready,
        sizes: sizes.as_slice(),
        event_count: &event_count,
    };
    shared.go(rt, workers.as_mut_slice(), gate);
    shared.collect(workers, room)
}
