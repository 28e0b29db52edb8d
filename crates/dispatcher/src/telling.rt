//! The steps behind one that has ended are told so, and those that wait for nothing more are pushed.

ghost use Rattle.std.specs.Prelude.{◌≡◌, ◌<◌, ℕ};
ghost use Rattle.block_store.specs.Keys.{edge, IsStep};
ghost use Rattle.block_store.specs.Plays.{NotMarked, NotNoticed};
ghost use Rattle.block_store.specs.Seats.{key_of, view, IsSame, IsSeatOf};
ghost use Rattle.ready_queue.specs.Queues.{IsPassOf};
ghost use Rattle.ready_queue.specs.Queues as queues;
ghost use Rattle.dispatcher.specs.SharedRuns.{IsSharedRun};
ghost use Rattle.dispatcher.specs.Telling.{HasEndedAs, HasTold, HasToldAll, HasToldNone, IsTied, KeepsPushes, marked_view, told_view};

use crate::shared_run::SharedRun;
use block_store::Seat;
use ready_queue::Pass;
use std::sync::Wait;

impl SharedRun<'_> {
    /// Marks step `next` to be skipped where t failed or was skipped.
    fn mark(&self, seat: &mut Seat, t: u32, next: u32, bad: bool)
        requires shared { IsSharedRun self.now }
        requires seat { IsSeatOf self.now.board.now seat.old }
        requires edge { 0 < edge (key_of self.now.board.now) t next }
        requires ended { HasEndedAs bad t (view seat.old) }
        requires unmarked { NotMarked (view seat.old) t next }
        ensures same { IsSame seat.old seat.new }
        ensures marked { view seat.new ≡ marked_view bad t next (view seat.old) }
    {
        if bad {
            self.board.mark_skip(seat, t, next);
        }
    }

    /// Tells step `next` that t has ended, first that it is to be skipped where t failed or was skipped, and pushes it where no
    /// edge into it is left.
    fn tell<R: Wait>(&self, rt: &R, seat: &mut Seat, pass: &mut Pass, t: u32, next: u32, bad: bool)
        requires shared { IsSharedRun self.now }
        requires seat { IsSeatOf self.now.board.now seat.old }
        requires pass { IsPassOf self.now.ready.now pass.old }
        requires tied { IsTied (key_of self.now.board.now) pass.old (view seat.old) }
        requires edge { 0 < edge (key_of self.now.board.now) t next }
        requires ended { HasEndedAs bad t (view seat.old) }
        requires unnoticed { NotNoticed (view seat.old) t next }
        requires unmarked { NotMarked (view seat.old) t next }
        ensures same { IsSame seat.old seat.new }
        ensures told { (left : ℕ) × (view seat.new ≡ told_view bad t next left (view seat.old)) }
        ensures pass { IsPassOf self.now.ready.now pass.new }
        ensures pushes { KeepsPushes pass.old pass.new }
        ensures popped { (queues.view pass.new).popped ≡ (queues.view pass.old).popped }
        ensures tied { IsTied (key_of self.now.board.now) pass.new (view seat.new) }
    {
        self.mark(seat, t, next, bad);
        let left = self.board.notify(seat, t, next);
        let was_last = left == 0;
        if was_last {
            self.ready.push(rt, pass, next);
            self.event_count.notify_one();
        }
    }

    /// Tells each step to which an edge goes from t that t has ended.
    pub(crate) fn tell_all<R: Wait>(
        &self,
        rt: &R,
        seat: &mut Seat,
        pass: &mut Pass,
        t: u32,
        bad: bool,
    )
        requires shared { IsSharedRun self.now }
        requires seat { IsSeatOf self.now.board.now seat.old }
        requires step { IsStep (key_of self.now.board.now) t }
        requires pass { IsPassOf self.now.ready.now pass.old }
        requires tied { IsTied (key_of self.now.board.now) pass.old (view seat.old) }
        requires ended { HasEndedAs bad t (view seat.old) }
        requires fresh { HasToldNone t (view seat.old) }
        ensures same { IsSame seat.old seat.new }
        ensures told { HasTold t (view seat.old) (view seat.new) }
        ensures all { HasToldAll (key_of self.now.board.now) t (view seat.new) }
        ensures ended { HasEndedAs bad t (view seat.new) }
        ensures pass { IsPassOf self.now.ready.now pass.new }
        ensures pushes { KeepsPushes pass.old pass.new }
        ensures popped { (queues.view pass.new).popped ≡ (queues.view pass.old).popped }
        ensures tied { IsTied (key_of self.now.board.now) pass.new (view seat.new) }
    {
        let mut place = 0;
        while let Some(next) = self.edges.succ(t, place) {
            self.tell(rt, seat, pass, t, next, bad);
            place += 1;
        }
    }
}
