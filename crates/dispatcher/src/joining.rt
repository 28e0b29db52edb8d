//! The workers are joined, once all steps have ended.

ghost use Rattle.std.specs.Prelude.{◌≡◌, ◌*◌, ◌<◌, ℕ, length, slice_get, Some};
ghost use Rattle.schedule_core.specs.EventBlocks.{step_access};
ghost use Rattle.schedule_core.specs.Schedules.{IsSchedule};
ghost use Rattle.block_store.specs.Keys.{step_count};
ghost use Rattle.block_store.specs.Plays.{IsWhole, NotHolds, StandsForAll};
ghost use Rattle.block_store.specs.Seats.{key_of, view, IsSeatOf};
ghost use Rattle.block_store.specs.Stamps.{AreByStamps};
ghost use Rattle.block_store.specs.Sums.{below};
ghost use Rattle.block_store.specs.Views.{both_views};
ghost use Rattle.dispatcher.specs.declared.worker.Worker.{Worker};
ghost use Rattle.dispatcher.specs.SharedRuns.{IsSharedRun};
ghost use Rattle.dispatcher.specs.Crews.{IsReplayFailure};
ghost use Rattle.dispatcher.specs.Joining.{both_noted, HasEnded, IsJoined, IsJoinedLog, standing};
ghost use Rattle.dispatcher.specs.Workers.{IsWorker};

use crate::running::Ran;
use crate::shared_run::SharedRun;
use crate::worker::Worker;
use block_store::Seat;
use schedule_core::{Event, EventList, lesser};
use task_values::Failure;

/// What workers did that were joined: the seat that stands for them, what happened by the stamps that they drew, and of the steps
/// that failed the one of the least statement.
#[derive(Drop)]
pub struct Joined {
    pub seat: Seat,
    pub log: Vec<Option<Event>>,
    pub failed: Option<Failure>,
}

impl Joined {
    /// What one worker did.
    fn of(worker: Worker) -> Joined
        ensures seat { result.seat ≡ worker.seat }
        ensures log { result.log ≡ worker.log }
        ensures failed { result.failed ≡ worker.failed }
    {
        let Worker {
            seat,
            log,
            failed,
            ..
        } = worker;
        Joined { seat, log, failed }
    }
}

/// Takes over the events of another log, where this one has none.
fn join_logs(into: &mut [Option<Event>], from: &[Option<Event>])
    requires { length into.old ≡ length from.now }
    ensures { IsJoinedLog into.old from.now into.new }
{
    for at in 0..into.len() {
        if into[at].is_none() {
            into[at] = from[at];
        }
    }
}

/// The failure of the lesser statement, of two that may be none.
fn lesser_noted(noted: Option<Failure>, other: Option<Failure>) -> Option<Failure>
    ensures { result ≡ both_noted noted other }
{
    match other {
        None => noted,
        Some(failure) => Some(lesser(noted, failure)),
    }
}

/// The events of a log by their stamps.
fn put_in_order(log: &[Option<Event>], schedule: &mut [Event])
    requires long { length log.now ≡ length schedule.old }
    requires full { (n : ℕ) → n < length log.now → (e : Event) × (slice_get log.now n ≡ Some (Some e)) }
    ensures many { length schedule.new ≡ length schedule.old }
    ensures each { (n : ℕ) (e : Event) → slice_get schedule.new n ≡ Some e
        → slice_get log.now n ≡ Some (Some e) }
{
    for at in 0..schedule.len() {
        match log[at] {
            Some(event) => schedule[at] = event,
            None => unreachable!(),
        }
    }
}

impl SharedRun<'_> {
    /// Joins one worker more.
    fn join_worker(&self, joined: &mut Joined, worker: Worker)
        requires shared { IsSharedRun self.now }
        requires joined { IsJoined self.now.board.now joined.old }
        requires worker { IsWorker self.now.board.now self.now.ready.now worker }
        ensures joined { IsJoined self.now.board.now joined.new }
        ensures view { view joined.new.seat ≡ both_views (view joined.old.seat) (view worker.seat) }
    {
        let Worker {
            seat,
            log,
            failed,
            ..
        } = worker;
        self.board.join(&mut joined.seat, seat);
        join_logs(joined.log.as_mut_slice(), log.as_slice());
        joined.failed = lesser_noted(joined.failed, failed);
    }

    /// Joins all workers, and loads the clock with their seat.
    fn join_all(&self, mut workers: Vec<Worker>) -> Joined
        requires shared { IsSharedRun self.now }
        requires some { 0 < length workers.items }
        requires workers { (k : ℕ) (w : Worker) → slice_get workers.items k ≡ Some w
            → HasEnded self.now.board.now self.now.ready.now w }
        requires all { (k : ℕ) → standing k workers.items
            ≡ below (key_of self.now.board.now).workers k }
        ensures joined { IsJoined self.now.board.now result }
        ensures all { StandsForAll (key_of self.now.board.now) (view result.seat) }
        ensures whole { IsWhole (key_of self.now.board.now)
            (2 * step_count (key_of self.now.board.now)) (view result.seat) }
        ensures ended { (view result.seat).clock ≡ 2 * step_count (key_of self.now.board.now) }
    {
        let Some(last) = workers.pop() else {
            unreachable!()
        };
        let mut joined = Joined::of(last);
        while let Some(worker) = workers.pop() {
            self.join_worker(&mut joined, worker);
        }
        self.board.clock(&mut joined.seat);
        joined
    }

    /// Joins the workers of a run, puts their events in the order of the stamps, in a room for them, and answers what they came to.
    pub(crate) fn collect(&self, workers: Vec<Worker>, room: Vec<Event>) -> Ran
        requires shared { IsSharedRun self.now }
        requires some { 0 < length workers.items }
        requires workers { (k : ℕ) (w : Worker) → slice_get workers.items k ≡ Some w
            → HasEnded self.now.board.now self.now.ready.now w }
        requires all { (k : ℕ) → standing k workers.items
            ≡ below (key_of self.now.board.now).workers k }
        requires room { length room.items ≡ 2 * step_count (key_of self.now.board.now) }
        ensures seat { IsSeatOf self.now.board.now result.seat }
        ensures all { StandsForAll (key_of self.now.board.now) (view result.seat) }
        ensures ended { (view result.seat).clock ≡ 2 * step_count (key_of self.now.board.now) }
        ensures free { (x : ℕ) → NotHolds (view result.seat) x }
        ensures stamps { AreByStamps (view result.seat).facts result.schedule }
        ensures schedule { IsSchedule (step_access self.now.run.steps.now)
            (length self.now.run.steps.now) result.schedule }
        ensures failed { IsReplayFailure (key_of self.now.board.now) result.failed }
    {
        let joined = self.join_all(workers);
        let mut schedule = room;
        put_in_order(joined.log.as_slice(), schedule.as_mut_slice());
        let Joined { seat, failed, .. } = joined;
        Ran {
            schedule: EventList::from_vec(schedule),
            failed,
            seat,
        }
    }
}
