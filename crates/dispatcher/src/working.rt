//! What a worker does until all steps have ended.

ghost use Rattle.std.specs.Prelude.{◌≡◌, ◌<◌, ◌⊎◌, ◌∷◌, ℕ, length, slice_get, slice_set, IfNone, IfSome, Some, true};
ghost use Rattle.dispatcher.specs.declared.worker.Worker.{Worker};
ghost use Rattle.block_store.specs.declared.view.Fact.TheVariants.{Began, Ended};
ghost use Rattle.block_store.specs.Keys.{is_bad, IsOutcome, IsStep};
ghost use Rattle.block_store.specs.Plays.{HasBegun, HasClaimed, HasPut, NotBegun, NotEnded, NotPut};
ghost use Rattle.block_store.specs.Seats.{key_of, view, IsSameSeat};
ghost use Rattle.block_store.specs.Views.{learned};
ghost use Rattle.dispatcher.specs.SharedRuns.{IsSharedRun};
ghost use Rattle.dispatcher.specs.Telling.{HasEndedAs, HasHandled, HasToldNone, KeepsFacts, KeepsPushes};
ghost use Rattle.ready_queue.specs.Queues as queues;
ghost use Rattle.dispatcher.specs.Workers.{HasSeenEnd, IsWorker, noted_after};

use crate::shared_run::SharedRun;
use crate::worker::Worker;
use block_store::StepOutcome;
use outside_io::Gate;
use schedule_core::{Event, lesser};
use std::sync::Wait;
use std::thread::{Threads, for_each_mut};
use task_values::Failure;

/// Whether a step failed or was skipped.
fn is_stopped(outcome: StepOutcome) -> bool
    ensures { result ≡ is_bad outcome }
{
    match outcome {
        StepOutcome::Ran => false,
        StepOutcome::Skipped | StepOutcome::Failed { .. } => true,
    }
}

/// Keeps an event at the place that is its stamp.
fn log_event(log: &mut Vec<Option<Event>>, stamp: u64, event: Event)
    requires { stamp < length log.old.items }
    ensures { log.new.items ≡ slice_set log.old.items stamp (Some event) }
{
    log[stamp as usize] = Some(event);
}

impl SharedRun<'_> {
    /// Begins a step that this worker has claimed.
    fn begin(&self, worker: &mut Worker, t: u32)
        requires shared { IsSharedRun self.now }
        requires worker { IsWorker self.now.board.now self.now.ready.now worker.old }
        requires claimed { HasClaimed (view worker.old.seat) t }
        requires begun { NotBegun (view worker.old.seat) t }
        ensures worker { IsWorker self.now.board.now self.now.ready.now worker.new }
        ensures same { IsSameSeat worker.old.seat worker.new.seat }
        ensures pass { worker.new.pass ≡ worker.old.pass }
        ensures begun { (stamp : ℕ)
            × (view worker.new.seat ≡ learned (Began t stamp) (view worker.old.seat)) }
    {
        let start = self.board.begin(&mut worker.seat, t);
        log_event(&mut worker.log, start, Event::Start(t));
    }

    /// Ends a step that this worker has begun, with the outcome that it has in the replay of the steps.
    fn end(&self, worker: &mut Worker, t: u32, outcome: StepOutcome)
        requires shared { IsSharedRun self.now }
        requires worker { IsWorker self.now.board.now self.now.ready.now worker.old }
        requires step { IsStep (key_of self.now.board.now) t }
        requires begun { HasBegun (view worker.old.seat) t }
        requires ended { NotEnded (view worker.old.seat) t }
        requires right { IsOutcome (key_of self.now.board.now) t outcome }
        requires done { (is_bad outcome ≡ true) ⊎ HasPut (view worker.old.seat) t }
        ensures worker { IsWorker self.now.board.now self.now.ready.now worker.new }
        ensures same { IsSameSeat worker.old.seat worker.new.seat }
        ensures pass { worker.new.pass ≡ worker.old.pass }
        ensures ended { (stamp : ℕ)
            × (view worker.new.seat ≡ learned (Ended t stamp outcome) (view worker.old.seat)) }
    {
        let finish = self.board.end(&mut worker.seat, t, outcome);
        log_event(&mut worker.log, finish, Event::Finish(t));
        self.note(&mut worker.failed, t, outcome);
    }

    /// Begins a step that this worker has claimed, does it and ends it. Whether it failed or was skipped.
    fn carry_out<R: Wait, G: Gate>(&self, rt: &R, worker: &mut Worker, t: u32, gate: &G) -> bool
        requires shared { IsSharedRun self.now }
        requires worker { IsWorker self.now.board.now self.now.ready.now worker.old }
        requires step { IsStep (key_of self.now.board.now) t }
        requires claimed { HasClaimed (view worker.old.seat) t }
        requires begun { NotBegun (view worker.old.seat) t }
        requires ended { NotEnded (view worker.old.seat) t }
        requires put { NotPut (view worker.old.seat) t }
        requires fresh { HasToldNone t (view worker.old.seat) }
        ensures worker { IsWorker self.now.board.now self.now.ready.now worker.new }
        ensures same { IsSameSeat worker.old.seat worker.new.seat }
        ensures pass { worker.new.pass ≡ worker.old.pass }
        ensures facts { KeepsFacts (view worker.old.seat) (view worker.new.seat) }
        ensures ended { HasEndedAs result t (view worker.new.seat) }
        ensures fresh { HasToldNone t (view worker.new.seat) }
    {
        self.begin(worker, t);
        let outcome = self.do_step(rt, &mut worker.seat, &mut worker.buffers, t, gate);
        self.end(worker, t, outcome);
        is_stopped(outcome)
    }

    /// Notes a step that failed, where no noted one is of a lesser statement.
    fn note(&self, failed: &mut Option<Failure>, t: u32, outcome: StepOutcome)
        requires shared { IsSharedRun self.now }
        requires step { IsStep (key_of self.now.board.now) t }
        ensures { failed.new ≡ noted_after (key_of self.now.board.now) t outcome failed.old }
    {
        if let StepOutcome::Failed { row, col } = outcome {
            let failure = Failure {
                statement: self.run.steps[t as usize - 1].statement,
                row,
                col,
            };
            *failed = Some(lesser(*failed, failure));
        }
    }

    /// Does a step, where this worker is the one that claims it, and tells the steps behind it.
    fn handle<R: Wait, G: Gate>(&self, rt: &R, worker: &mut Worker, t: u32, gate: &G)
        requires shared { IsSharedRun self.now }
        requires worker { IsWorker self.now.board.now self.now.ready.now worker.old }
        requires step { IsStep (key_of self.now.board.now) t }
        ensures worker { IsWorker self.now.board.now self.now.ready.now worker.new }
        ensures same { IsSameSeat worker.old.seat worker.new.seat }
        ensures pushes { KeepsPushes worker.old.pass worker.new.pass }
        ensures popped { (queues.view worker.new.pass).popped
            ≡ (queues.view worker.old.pass).popped }
        ensures facts { KeepsFacts (view worker.old.seat) (view worker.new.seat) }
        ensures handled { HasHandled (key_of self.now.board.now) t (view worker.old.seat)
            (view worker.new.seat) }
    {
        let claimed = self.board.claim(&mut worker.seat, t);
        if !claimed {
            return;
        }
        let bad = self.carry_out(rt, worker, t, gate);
        self.tell_all(rt, &mut worker.seat, &mut worker.pass, t, bad);
    }

    /// Whether all steps have ended, by the clock. A worker that sees it wakes those that sleep.
    fn is_over(&self, worker: &mut Worker) -> bool
        requires shared { IsSharedRun self.now }
        requires worker { IsWorker self.now.board.now self.now.ready.now worker.old }
        ensures worker { IsWorker self.now.board.now self.now.ready.now worker.new }
        ensures same { IsSameSeat worker.old.seat worker.new.seat }
        ensures pass { worker.new.pass ≡ worker.old.pass }
        ensures facts { (view worker.new.seat).facts ≡ (view worker.old.seat).facts }
        ensures over { result ≡ true
            → HasSeenEnd self.now.board.now self.now.ready.now worker.old worker.new }
    {
        let clock = self.board.clock(&mut worker.seat);
        if clock != 2 * self.run.steps.len() as u64 {
            return false;
        }
        self.event_count.notify_all();
        true
    }

    /// Pops the number of a step, where there is one.
    fn pop<R: Wait>(&self, rt: &R, worker: &mut Worker) -> Option<u32>
        requires shared { IsSharedRun self.now }
        requires worker { IsWorker self.now.board.now self.now.ready.now worker.old }
        ensures worker { IsWorker self.now.board.now self.now.ready.now worker.new }
        ensures same { IsSameSeat worker.old.seat worker.new.seat }
        ensures pushes { KeepsPushes worker.old.pass worker.new.pass }
        ensures facts { (view worker.new.seat).facts ≡ (view worker.old.seat).facts }
        ensures popped { IfSome result (λ t. (queues.view worker.new.pass).popped
            ≡ t ∷ (queues.view worker.old.pass).popped) }
        ensures none { IfNone result ((queues.view worker.new.pass).popped
            ≡ (queues.view worker.old.pass).popped) }
        ensures step { IfSome result (IsStep (key_of self.now.board.now)) }
    {
        self.ready.pop(rt, &mut worker.pass)
    }

    /// The number of a step to be claimed, or none once all steps have ended. Where there is none yet, it sleeps until one is
    /// pushed or all have ended.
    fn next<R: Wait>(&self, rt: &R, worker: &mut Worker) -> Option<u32>
        requires shared { IsSharedRun self.now }
        requires worker { IsWorker self.now.board.now self.now.ready.now worker.old }
        ensures worker { IsWorker self.now.board.now self.now.ready.now worker.new }
        ensures same { IsSameSeat worker.old.seat worker.new.seat }
        ensures pushes { KeepsPushes worker.old.pass worker.new.pass }
        ensures facts { (view worker.new.seat).facts ≡ (view worker.old.seat).facts }
        ensures popped { IfSome result (λ t. (queues.view worker.new.pass).popped
            ≡ t ∷ (queues.view worker.old.pass).popped) }
        ensures none { IfNone result ((queues.view worker.new.pass).popped
            ≡ (queues.view worker.old.pass).popped) }
        ensures step { IfSome result (IsStep (key_of self.now.board.now)) }
        ensures over { IfNone result
            (HasSeenEnd self.now.board.now self.now.ready.now worker.old worker.new) }
    {
        for _ in rt.forever() {
            if let Some(t) = self.pop(rt, worker) {
                return Some(t);
            }
            let call = self.event_count.prepare_wait();
            if let Some(t) = self.pop(rt, worker) {
                return Some(t);
            }
            if self.is_over(worker) {
                return None;
            }
            call.wait(rt);
        }
        unreachable!()
    }

    /// Takes steps until all have ended.
    fn work<R: Wait, G: Gate>(&self, rt: &R, worker: &mut Worker, gate: &G)
        requires shared { IsSharedRun self.now }
        requires worker { IsWorker self.now.board.now self.now.ready.now worker.old }
        ensures { HasSeenEnd self.now.board.now self.now.ready.now worker.old worker.new }
    {
        for _ in rt.forever() {
            match self.next(rt, worker) {
                Some(t) => self.handle(rt, worker, t, gate),
                None => return,
            }
        }
        unreachable!()
    }

    /// Each worker takes steps until all have ended, in a thread of its own where one can be made.
    pub(crate) fn work_all<R: Threads + Wait + Sync, G: Gate>(
        &self,
        rt: &R,
        workers: &mut [Worker],
        gate: &G,
    )
        requires shared { IsSharedRun self.now }
        requires workers { (k : ℕ) (w : Worker) → slice_get workers.old k ≡ Some w
            → IsWorker self.now.board.now self.now.ready.now w }
        ensures done { (k : ℕ) (w v : Worker) → slice_get workers.old k ≡ Some w
            → slice_get workers.new k ≡ Some v → HasSeenEnd self.now.board.now self.now.ready.now w v }
        ensures many { length workers.new ≡ length workers.old }
    {
        let count = workers.len().max(1);
        for_each_mut(
            rt,
            workers,
            count,
            &|_, worker: &mut Worker|
                requires shared { IsSharedRun self.now }
                requires worker { IsWorker self.now.board.now self.now.ready.now worker.now }
                ensures { HasSeenEnd self.entry.now.board.now self.entry.now.ready.now
                    worker.entry.now worker.exit.now }
            { self.work(rt, worker, gate) },
        );
    }
}
