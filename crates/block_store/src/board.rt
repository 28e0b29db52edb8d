//! The calls of the board. Each makes only the atomic steps that its comment names.

ghost use Rattle.std.specs.Prelude.{◌≡◌, ◌+◌, ◌*◌, ◌%◌, ◌<◌, ◌≤◌, ◌↔◌, ◌⊎◌, ℕ, List, [], true, false, length, IsTrue};
ghost use Rattle.step_replays.specs.Replays.{StepResult};
ghost use Rattle.block_store.specs.declared.outcome.StepOutcome.TheVariants.{Skipped};
ghost use Rattle.block_store.specs.declared.view.Fact.TheVariants.{Began, Claimed, Ended, Marked, Noticed, Refused};
ghost use Rattle.block_store.specs.Keys.{edge, is_bad, outcome_at, step_count, IsOutcome, IsReplayOf, IsStep};
ghost use Rattle.block_store.specs.Plays.{HasBegun, HasClaimed, HasEndedBad, HasPut, IsFresh, IsNewStamp, IsWhole, MayNotify, NoLast};
ghost use Rattle.block_store.specs.Plays.{NotBegun, NotEnded, NotHolds, NotMarked, NotNoticed, StandsForAll};
ghost use Rattle.block_store.specs.Seats.{key_of, view, IsSame, IsSeatOf};
ghost use Rattle.block_store.specs.Views.{both_views, kept_view, learned, new_view, timed};

use crate::outcome::StepOutcome;
use crate::plays::{Begins, Both, Claims, Ends, Halves, Loads, Looks, Marks, Notices, Subject};
use crate::seat::{Board, Seat};
use std::marker::Brand;

/// The bit of a step's word that says that it is claimed, and the one that says that it is to be skipped.
const CLAIMED: u64 = 1 << 32;

const MARK: u64 = 1 << 33;

impl Board {
    /// Claims a step for this seat, where all edges into it are noticed and no seat has claimed it.
    ///
    /// It exchanges the step's word from 0 to claimed, and where it found the bare mark, from that to claimed and marked. A step
    /// that it refuses was claimed by another seat, or still waits for an edge.
    pub fn claim(&self, seat: &mut Seat, t: u32) -> bool
        requires seat { IsSeatOf self.now seat.old }
        requires step { IsStep (key_of self.now) t }
        ensures same { IsSame seat.old seat.new }
        ensures claimed { result ≡ true → (view seat.new ≡ learned (Claimed t) (view seat.old))
            × IsFresh t (view seat.old) }
        ensures refused { result ≡ false → (word : ℕ) × (0 < word % 8589934592)
            × (view seat.new ≡ learned (Refused t word) (view seat.old)) }
    {
        let shared = &self.table.shared;
        let word = t as usize;
        let found = shared.compare_exchange::<Claims>(&mut seat.inner, word, 0, CLAIMED);
        if found == MARK {
            let marked = MARK + CLAIMED;
            let again = shared.compare_exchange::<Claims>(&mut seat.inner, word, MARK, marked);
            return again == MARK;
        }
        found == 0
    }

    /// A step that this seat has claimed begins. The answer is its start stamp, which an addition of 1 to the clock drew.
    pub fn begin(&self, seat: &mut Seat, t: u32) -> u64
        requires seat { IsSeatOf self.now seat.old }
        requires claimed { HasClaimed (view seat.old) t }
        requires fresh { NotBegun (view seat.old) t }
        ensures same { IsSame seat.old seat.new }
        ensures begun { view seat.new ≡ learned (Began t result) (view seat.old) }
        ensures stamp { IsNewStamp result (view seat.old) }
    {
        self.begin_named::<Brand>(seat, t)
    }

    fn begin_named<J: Subject>(&self, seat: &mut Seat, t: u32) -> u64
        requires named { t ≡ J.step }
        requires seat { IsSeatOf self.now seat.old }
        requires claimed { HasClaimed (view seat.old) t }
        requires fresh { NotBegun (view seat.old) t }
        ensures same { IsSame seat.old seat.new }
        ensures begun { view seat.new ≡ learned (Began t result) (view seat.old) }
        ensures stamp { IsNewStamp result (view seat.old) }
    {
        let _ = t;
        let shared = &self.table.shared;
        shared.fetch_add::<Begins<J>>(&mut seat.inner, 0, 1)
    }

    /// A step that this seat has begun ends, with the outcome that it has in the replay of the steps. Where it ran, it has put
    /// its block; the seat holds none. The answer is its finish stamp, which an addition of 1 to the clock drew.
    pub fn end(&self, seat: &mut Seat, t: u32, outcome: StepOutcome) -> u64
        requires seat { IsSeatOf self.now seat.old }
        requires begun { HasBegun (view seat.old) t }
        requires fresh { NotEnded (view seat.old) t }
        requires right { IsOutcome (key_of self.now) t outcome }
        requires done { (is_bad outcome ≡ true) ⊎ HasPut (view seat.old) t }
        requires free { (x : ℕ) → NotHolds (view seat.old) x }
        ensures same { IsSame seat.old seat.new }
        ensures ended { view seat.new ≡ learned (Ended t result outcome) (view seat.old) }
        ensures stamp { IsNewStamp result (view seat.old) }
    {
        self.end_named::<Brand>(seat, t, outcome)
    }

    fn end_named<J: Subject>(&self, seat: &mut Seat, t: u32, outcome: StepOutcome) -> u64
        requires named { (t ≡ J.step) × (outcome ≡ J.outcome) }
        requires seat { IsSeatOf self.now seat.old }
        requires begun { HasBegun (view seat.old) t }
        requires fresh { NotEnded (view seat.old) t }
        requires right { IsOutcome (key_of self.now) t outcome }
        requires done { (is_bad outcome ≡ true) ⊎ HasPut (view seat.old) t }
        requires free { (x : ℕ) → NotHolds (view seat.old) x }
        ensures same { IsSame seat.old seat.new }
        ensures ended { view seat.new ≡ learned (Ended t result outcome) (view seat.old) }
        ensures stamp { IsNewStamp result (view seat.old) }
    {
        let _ = (t, outcome);
        let shared = &self.table.shared;
        shared.fetch_add::<Ends<J>>(&mut seat.inner, 0, 1)
    }

    /// Tells step `next` that `t`, which this seat has ended, has done so. The answer is the number of edges into `next` that
    /// aren't noticed yet, which a subtraction of 1 from the word of `next` left.
    pub fn notify(&self, seat: &mut Seat, t: u32, next: u32) -> u64
        requires seat { IsSeatOf self.now seat.old }
        requires edge { 0 < edge (key_of self.now) t next }
        requires ended { MayNotify (view seat.old) t next }
        requires fresh { NotNoticed (view seat.old) t next }
        ensures same { IsSame seat.old seat.new }
        ensures noticed { view seat.new ≡ learned (Noticed t next result) (view seat.old) }
        ensures first { NoLast next (view seat.old) }
    {
        self.notify_named::<Brand>(seat, t, next)
    }

    fn notify_named<J: Subject>(&self, seat: &mut Seat, t: u32, next: u32) -> u64
        requires named { t ≡ J.step }
        requires seat { IsSeatOf self.now seat.old }
        requires edge { 0 < edge (key_of self.now) t next }
        requires ended { MayNotify (view seat.old) t next }
        requires fresh { NotNoticed (view seat.old) t next }
        ensures same { IsSame seat.old seat.new }
        ensures noticed { view seat.new ≡ learned (Noticed t next result) (view seat.old) }
        ensures first { NoLast next (view seat.old) }
    {
        let _ = t;
        let shared = &self.table.shared;
        let found = shared.fetch_sub::<Notices<J>>(&mut seat.inner, next as usize, 1);
        found % CLAIMED - 1
    }

    /// Marks step `next` to be skipped, since `t` failed or was skipped. It comes before `notify` for the same two steps. It
    /// sets a bit in the word of `next`.
    pub fn mark_skip(&self, seat: &mut Seat, t: u32, next: u32)
        requires seat { IsSeatOf self.now seat.old }
        requires edge { 0 < edge (key_of self.now) t next }
        requires ended { HasEndedBad (view seat.old) t }
        requires fresh { NotMarked (view seat.old) t next }
        ensures same { IsSame seat.old seat.new }
        ensures marked { view seat.new ≡ learned (Marked t next) (view seat.old) }
    {
        self.mark_named::<Brand>(seat, t, next)
    }

    fn mark_named<J: Subject>(&self, seat: &mut Seat, t: u32, next: u32)
        requires named { t ≡ J.step }
        requires seat { IsSeatOf self.now seat.old }
        requires edge { 0 < edge (key_of self.now) t next }
        requires ended { HasEndedBad (view seat.old) t }
        requires fresh { NotMarked (view seat.old) t next }
        ensures same { IsSame seat.old seat.new }
        ensures marked { view seat.new ≡ learned (Marked t next) (view seat.old) }
    {
        let _ = t;
        let shared = &self.table.shared;
        shared.fetch_or::<Marks<J>>(&mut seat.inner, next as usize, MARK);
    }

    /// Whether a step that this seat has claimed is skipped in the replay of the steps. It loads the step's word.
    pub fn is_skipped(&self, seat: &mut Seat, t: u32) -> bool
        requires seat { IsSeatOf self.now seat.old }
        requires step { IsStep (key_of self.now) t }
        requires claimed { HasClaimed (view seat.old) t }
        ensures same { IsSame seat.old seat.new }
        ensures view { view seat.new ≡ view seat.old }
        ensures skipped { (results : List StepResult) → IsReplayOf (key_of self.now) results
            → (IsTrue result ↔ (outcome_at results t ≡ Skipped)) }
    {
        let shared = &self.table.shared;
        let found = shared.load::<Looks>(&mut seat.inner, t as usize);
        found >= MARK
    }

    /// Loads the clock, which is the number of stamps that were drawn. Where the seat stands for all workers, its view has all
    /// that the rule of the board says of all seats.
    pub fn clock(&self, seat: &mut Seat) -> u64
        requires { IsSeatOf self.now seat.old }
        ensures same { IsSame seat.old seat.new }
        ensures view { view seat.new ≡ timed result (view seat.old) }
        ensures later { (view seat.old).clock ≤ result }
        ensures bound { result ≤ 2 * step_count (key_of self.now) }
        ensures whole { StandsForAll (key_of self.now) (view seat.old)
            → IsWhole (key_of self.now) result (view seat.new) }
    {
        let shared = &self.table.shared;
        shared.load::<Loads>(&mut seat.inner, 0)
    }

    /// A new seat for the first of the workers that this seat stands for.
    pub(crate) fn split(&self, seat: &mut Seat) -> Seat
        requires seat { IsSeatOf self.now seat.old }
        requires more { 1 < length (view seat.old).workers }
        ensures old { (seat.new.inner.table_id ≡ seat.old.inner.table_id)
            × (view seat.new ≡ kept_view (view seat.old))
            × (seat.new.inner.me.1 ≡ seat.old.inner.me.1) }
        ensures new { IsSeatOf self.now result × (view result ≡ new_view (view seat.old))
            × (result.inner.me.1 ≡ []) }
    {
        let inner = self.table.shared.split_seat::<Halves>(&mut seat.inner);
        Seat { inner }
    }

    /// The seat's view gains all that the other's has, and it stands for the other's workers too.
    pub fn join(&self, seat: &mut Seat, other: Seat)
        requires seat { IsSeatOf self.now seat.old }
        requires other { IsSeatOf self.now other × (other.inner.me.1 ≡ []) }
        ensures same { (seat.new.inner.table_id ≡ seat.old.inner.table_id)
            × ((view seat.new).key ≡ (view seat.old).key)
            × (seat.new.inner.me.1 ≡ seat.old.inner.me.1) }
        ensures view { view seat.new ≡ both_views (view seat.old) (view other) }
    {
        let Seat { inner } = other;
        let shared = &self.table.shared;
        shared.join_seat::<Both>(&mut seat.inner, inner);
    }
}
