//! The blocks of a step come to a worker's buffers.

ghost use Rattle.std.specs.Prelude.{◌≡◌, ◌<◌, ◌≤◌, ◌*◌, ℕ, length, slice_index, true};
ghost use Rattle.matrix_parts.specs.Lent.{grid_of, loan_of, IsKept, IsPart};
ghost use Rattle.block_store.specs.Blocks.{access_of, block_cols, block_count, block_rows, uses, IsFound};
ghost use Rattle.block_store.specs.Keys.{IsStep};
ghost use Rattle.block_store.specs.Plays.{IsRunning, NotHolds};
ghost use Rattle.block_store.specs.Seats.{key_of, view, IsSame, IsSameSeat, IsSeatOf};
ghost use Rattle.dispatcher.specs.Copying.{block_with, AreCopied, HasBlockSize, HasCopied, HoldsOne, IsKeptOn};
ghost use Rattle.dispatcher.specs.SharedRuns.{entries_of, entry_count, IsSharedRun};

use crate::shared_run::{SharedRun, Size};
use block_kernels::Cut;
use block_store::{Copied, Rect, Seat};
use dependence_queue::Access;
use matrix_parts::{PartMut, whole_of};
use std::sync::Wait;
use std::thread::yield_now;

impl<'a> SharedRun<'a> {
    /// What a step uses.
    fn access(&self, t: u32) -> &'a Access
        requires shared { IsSharedRun self.now }
        requires step { IsStep (key_of self.now.board.now) t }
        ensures { result.now ≡ access_of (key_of self.now.board.now) t }
    {
        &self.run.steps[t as usize - 1].access
    }

    /// The block that a step writes.
    pub(crate) fn written(&self, t: u32) -> u32
        requires shared { IsSharedRun self.now }
        requires step { IsStep (key_of self.now.board.now) t }
        ensures is { result ≡ (access_of (key_of self.now.board.now) t).write }
        ensures there { result < block_count (key_of self.now.board.now) }
    {
        self.access(t).write
    }

    /// How many blocks a step reads.
    fn read_count(&self, t: u32) -> usize
        requires shared { IsSharedRun self.now }
        requires step { IsStep (key_of self.now.board.now) t }
        ensures { result ≡ length (access_of (key_of self.now.board.now) t).reads }
    {
        self.access(t).reads.len()
    }

    /// Block k of those that a step reads, from 0.
    fn read_at(&self, t: u32, k: usize) -> u32
        requires shared { IsSharedRun self.now }
        requires step { IsStep (key_of self.now.board.now) t }
        requires within { k < length (access_of (key_of self.now.board.now) t).reads }
        ensures is { result ≡ slice_index (access_of (key_of self.now.board.now) t).reads k }
        ensures there { result < block_count (key_of self.now.board.now) }
        ensures used { uses (key_of self.now.board.now) t result ≡ true }
    {
        self.access(t).reads.as_slice()[k]
    }

    /// The shape of a block.
    pub(crate) fn size(&self, x: u32) -> Size
        requires shared { IsSharedRun self.now }
        requires block { x < block_count (key_of self.now.board.now) }
        ensures rows { result.rows ≡ block_rows (key_of self.now.board.now) x }
        ensures cols { result.cols ≡ block_cols (key_of self.now.board.now) x }
    {
        self.sizes[x as usize]
    }

    /// All of a block.
    fn whole(&self, x: u32) -> Rect
        requires shared { IsSharedRun self.now }
        requires block { x < block_count (key_of self.now.board.now) }
        ensures { result ≡ record {
          row = 0;
          col = 0;
          rows = block_rows (key_of self.now.board.now) x;
          cols = block_cols (key_of self.now.board.now) x;
        } }
    {
        let size = self.size(x);
        Rect {
            row: 0,
            col: 0,
            rows: size.rows,
            cols: size.cols,
        }
    }

    /// Copies a whole block that a step uses into a part of its size. While another seat holds the block, it lets other threads
    /// run and tries again.
    fn copy_whole<R: Wait>(&self, rt: &R, seat: &mut Seat, t: u32, x: u32, buffer: &mut PartMut<'_>)
        requires shared { IsSharedRun self.now }
        requires seat { IsSeatOf self.now.board.now seat.old }
        requires block { x < block_count (key_of self.now.board.now) }
        requires runs { IsRunning (view seat.old) t }
        requires uses { uses (key_of self.now.board.now) t x ≡ true }
        requires free { (y : ℕ) → NotHolds (view seat.old) y }
        requires part { IsPart buffer.old }
        requires size { HasBlockSize (key_of self.now.board.now) x (grid_of buffer.old) }
        ensures same { IsSame seat.old seat.new }
        ensures copied { HasCopied (view seat.old) (view seat.new) }
        ensures free { (y : ℕ) → NotHolds (view seat.new) y }
        ensures loan { loan_of buffer.new ≡ loan_of buffer.old }
        ensures part { IsPart buffer.new }
        ensures kept { IsKept buffer.old buffer.new }
        ensures found { IsFound (key_of self.now.board.now) t x (grid_of buffer.new) }
    {
        let part = self.whole(x);
        for _ in rt.forever() {
            match self.board.copy_in(seat, t, x, part, buffer) {
                Copied::Whole => return,
                Copied::Away => yield_now(),
            }
        }
        unreachable!()
    }

    /// Copies a whole block that a step uses into as many numbers as it has entries.
    fn copy_block<R: Wait>(&self, rt: &R, seat: &mut Seat, t: u32, x: u32, entries: &mut [u64])
        requires shared { IsSharedRun self.now }
        requires seat { IsSeatOf self.now.board.now seat.old }
        requires block { x < block_count (key_of self.now.board.now) }
        requires runs { IsRunning (view seat.old) t }
        requires uses { uses (key_of self.now.board.now) t x ≡ true }
        requires free { (y : ℕ) → NotHolds (view seat.old) y }
        requires room { length entries.old ≡ entry_count (key_of self.now.board.now) x }
        ensures same { IsSame seat.old seat.new }
        ensures copied { HasCopied (view seat.old) (view seat.new) }
        ensures free { (y : ℕ) → NotHolds (view seat.new) y }
        ensures found { IsFound (key_of self.now.board.now) t x
            (block_with (key_of self.now.board.now) x entries.new) }
    {
        let size = self.size(x);
        let mut part = whole_of(entries, size.rows, size.cols);
        self.copy_whole(rt, seat, t, x, &mut part);
        let _ = entries.len();
    }

    /// Copies the blocks that a step reads into a room, each behind the ones before, and notes where each of them stands. How many
    /// there are.
    pub(crate) fn copy_reads<R: Wait>(
        &self,
        rt: &R,
        seat: &mut Seat,
        t: u32,
        room: &mut [u64],
        cuts: &mut [Cut],
    ) -> usize
        requires shared { IsSharedRun self.now }
        requires seat { IsSeatOf self.now.board.now seat.old }
        requires step { IsStep (key_of self.now.board.now) t }
        requires runs { IsRunning (view seat.old) t }
        requires free { (y : ℕ) → NotHolds (view seat.old) y }
        requires room { entries_of (key_of self.now.board.now)
            (access_of (key_of self.now.board.now) t).reads ≤ length room.old }
        requires cuts { length (access_of (key_of self.now.board.now) t).reads ≤ length cuts.old }
        ensures same { IsSame seat.old seat.new }
        ensures copied { HasCopied (view seat.old) (view seat.new) }
        ensures free { (y : ℕ) → NotHolds (view seat.new) y }
        ensures count { result ≡ length (access_of (key_of self.now.board.now) t).reads }
        ensures reads { AreCopied (key_of self.now.board.now) t result room.new cuts.new
            (length room.new) }
    {
        let count = self.read_count(t);
        let mut at = 0;
        for k in 0..count {
            let x = self.read_at(t, k);
            let size = self.size(x);
            let end = at + size.rows as usize * size.cols as usize;
            self.copy_block(rt, seat, t, x, &mut room[at..end]);
            cuts[k] = Cut {
                at,
                rows: size.rows,
                cols: size.cols,
            };
            at = end;
        }
        count
    }

    /// Copies the block that a step writes into a part of its size, and keeps the block. While another seat holds it, it lets other
    /// threads run and tries again.
    pub(crate) fn keep_whole<R: Wait>(
        &self,
        rt: &R,
        seat: &mut Seat,
        t: u32,
        x: u32,
        buffer: &mut PartMut<'_>,
    )
        requires shared { IsSharedRun self.now }
        requires seat { IsSeatOf self.now.board.now seat.old }
        requires block { x < block_count (key_of self.now.board.now) }
        requires writes { x ≡ (access_of (key_of self.now.board.now) t).write }
        requires runs { IsRunning (view seat.old) t }
        requires free { (y : ℕ) → NotHolds (view seat.old) y }
        requires part { IsPart buffer.old }
        requires size { HasBlockSize (key_of self.now.board.now) x (grid_of buffer.old) }
        ensures same { IsSameSeat seat.old seat.new }
        ensures copied { HasCopied (view seat.old) (view seat.new) }
        ensures holds { HoldsOne x (view seat.new) }
        ensures top { IsKeptOn (key_of self.now.board.now) t x seat.old.inner.me.1
            seat.new.inner.me.1 (grid_of buffer.new) }
        ensures loan { loan_of buffer.new ≡ loan_of buffer.old }
        ensures part { IsPart buffer.new }
        ensures kept { IsKept buffer.old buffer.new }
    {
        let part = self.whole(x);
        for _ in rt.forever() {
            match self.board.keep(seat, t, x, part, buffer) {
                Copied::Whole => return,
                Copied::Away => yield_now(),
            }
        }
        unreachable!()
    }
}
