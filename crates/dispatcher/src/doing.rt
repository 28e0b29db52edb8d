//! One step, done on a worker's buffers.

ghost use Rattle.std.specs.Prelude.{◌≡◌, ◌⊎◌, ◌-◌, ◌<◌, ℕ, true};
ghost use Rattle.atomic_table.specs.Table.{rest};
ghost use Rattle.residue_sums.specs.Grids.{Grid};
ghost use Rattle.matrix_parts.specs.Lent.{grid_of, IsPart};
ghost use Rattle.task_values.specs.FoundBlocks.{ComesTo, result_of};
ghost use Rattle.block_store.specs.Blocks.{access_of, block_count};
ghost use Rattle.block_store.specs.Keys.{is_bad, IsOutcome, IsStep};
ghost use Rattle.block_store.specs.Plays.{HasClaimed, HasPut, IsRunning, NotHolds};
ghost use Rattle.block_store.specs.Seats.{key_of, view, IsSame, IsSameSeat, IsSeatOf};
ghost use Rattle.dispatcher.specs.Copying.{HasBlockSize, HoldsOne, IsActive, IsKeptOn};
ghost use Rattle.dispatcher.specs.SharedRuns.{IsSharedRun, AreBuffers};
ghost use Rattle.dispatcher.specs.Doing.{HasMovedBlocks};

use crate::buffers::Buffers;
use crate::shared_run::SharedRun;
use block_kernels::StoredBlocks;
use block_store::{Seat, StepOutcome};
use equation::Place;
use matrix_parts::{PartMut, whole_of};
use outside_io::Gate;
use std::sync::Wait;

impl SharedRun<'_> {
    /// Does a step that this seat has begun: copies the blocks that it reads into the worker's buffers, keeps the block that it
    /// writes, lets its kernel change a copy of that, and puts the copy in its place; where the kernel meets a bad pivot, the block
    /// goes back as it was. A step that is skipped moves nothing. The gate stands round all that but for a skipped step.
    pub(crate) fn do_step<R: Wait, G: Gate>(
        &self,
        rt: &R,
        seat: &mut Seat,
        buffers: &mut Buffers,
        t: u32,
        gate: &G,
    ) -> StepOutcome
        requires shared { IsSharedRun self.now }
        requires seat { IsSeatOf self.now.board.now seat.old }
        requires step { IsStep (key_of self.now.board.now) t }
        requires claimed { HasClaimed (view seat.old) t }
        requires runs { IsRunning (view seat.old) t }
        requires free { (x : ℕ) → NotHolds (view seat.old) x }
        requires buffers { AreBuffers (key_of self.now.board.now) buffers.old }
        ensures same { IsSame seat.old seat.new }
        ensures moved { HasMovedBlocks t (view seat.old) (view seat.new) }
        ensures free { (x : ℕ) → NotHolds (view seat.new) x }
        ensures outcome { IsOutcome (key_of self.now.board.now) t result }
        ensures put { (is_bad result ≡ true) ⊎ HasPut (view seat.new) t }
        ensures buffers { AreBuffers (key_of self.now.board.now) buffers.new }
    {
        if self.board.is_skipped(seat, t) {
            return StepOutcome::Skipped;
        }
        gate.enter(t);
        let outcome = self.compute(rt, seat, buffers, t);
        gate.leave(t);
        outcome
    }

    /// Does a step that isn't skipped.
    fn compute<R: Wait>(
        &self,
        rt: &R,
        seat: &mut Seat,
        buffers: &mut Buffers,
        t: u32,
    ) -> StepOutcome
        requires shared { IsSharedRun self.now }
        requires seat { IsSeatOf self.now.board.now seat.old }
        requires step { IsStep (key_of self.now.board.now) t }
        requires active { IsActive (key_of self.now.board.now) t }
        requires runs { IsRunning (view seat.old) t }
        requires free { (x : ℕ) → NotHolds (view seat.old) x }
        requires buffers { AreBuffers (key_of self.now.board.now) buffers.old }
        ensures same { IsSame seat.old seat.new }
        ensures moved { HasMovedBlocks t (view seat.old) (view seat.new) }
        ensures free { (x : ℕ) → NotHolds (view seat.new) x }
        ensures outcome { IsOutcome (key_of self.now.board.now) t result }
        ensures put { (is_bad result ≡ true) ⊎ HasPut (view seat.new) t }
        ensures buffers { AreBuffers (key_of self.now.board.now) buffers.new }
    {
        let count = self.copy_reads(rt, seat, t, &mut buffers.reads, &mut buffers.cuts);
        let x = self.written(t);
        let size = self.size(x);
        let len = size.rows as usize * size.cols as usize;
        let write = buffers.write.as_mut_slice();
        let mut part = whole_of(&mut write[..len], size.rows, size.cols);
        self.keep_whole(rt, seat, t, x, &mut part);
        let reads = StoredBlocks::of_room(&buffers.reads, &buffers.cuts[..count]);
        let numbers = &buffers.numbers[..count];
        let n = t as usize - 1;
        let bad = self
            .run
            .step(n, &reads, numbers, &mut part, &mut buffers.spare);
        let outcome = self.hand_back(seat, t, x, &part, bad);
        let _ = write.len();
        outcome
    }

    /// Puts what a step left in the block that this seat kept for it, or, where it met a bad pivot, gives the block back.
    fn hand_back(
        &self,
        seat: &mut Seat,
        t: u32,
        x: u32,
        part: &PartMut<'_>,
        bad: Option<Place>,
    ) -> StepOutcome
        requires shared { IsSharedRun self.now }
        requires seat { IsSeatOf self.now.board.now seat.old }
        requires step { IsStep (key_of self.now.board.now) t }
        requires block { x < block_count (key_of self.now.board.now) }
        requires writes { x ≡ (access_of (key_of self.now.board.now) t).write }
        requires runs { IsRunning (view seat.old) t }
        requires holds { HoldsOne x (view seat.old) }
        requires top { (g : Grid) × IsKeptOn (key_of self.now.board.now) t x
            (rest seat.old.inner.me.1) seat.old.inner.me.1 g }
        requires part { IsPart part.now }
        requires size { HasBlockSize (key_of self.now.board.now) x (grid_of part.now) }
        requires comes { ComesTo self.now.run (t - 1) (result_of bad (grid_of part.now)) }
        ensures same { IsSameSeat seat.old seat.new }
        ensures rest { seat.new.inner.me.1 ≡ rest seat.old.inner.me.1 }
        ensures moved { HasMovedBlocks t (view seat.old) (view seat.new) }
        ensures free { (y : ℕ) → NotHolds (view seat.new) y }
        ensures outcome { IsOutcome (key_of self.now.board.now) t result }
        ensures put { (is_bad result ≡ true) ⊎ HasPut (view seat.new) t }
    {
        match bad {
            None => {
                self.board.put_out(seat, t, x, &part.as_part());
                StepOutcome::Ran
            }
            Some(Place { row, col }) => {
                self.board.give(seat, t, x);
                StepOutcome::Failed { row, col }
            }
        }
    }
}
