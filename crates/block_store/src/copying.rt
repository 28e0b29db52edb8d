//! Rectangles of blocks go into buffers, and buffers into blocks.

ghost use Rattle.std.specs.Prelude.{◌≡◌, ◌==◌, ◌+◌, ◌<◌, ◌≤◌, ℕ, true, ◌∷◌, length, slice_index};
ghost use Rattle.atomic_table.specs.Table.{rest};
ghost use Rattle.residue_sums.specs.Grids.{Grid, entry};
ghost use Rattle.matrix_parts.specs.Lent.{grid_of, loan_of, IsKept, IsPart};
ghost use Rattle.block_store.specs.declared.rect.Copied.TheVariants as copied;
ghost use Rattle.block_store.specs.declared.view.Fact.TheVariants.{Away, Gave, Put, Took};
ghost use Rattle.block_store.specs.Blocks.{access_of, block_cols, block_count, block_rows, uses};
ghost use Rattle.block_store.specs.Blocks.{IsFound, IsLeft, KeepShapes};
ghost use Rattle.block_store.specs.Parts.{part_of, HasSizeOf, IsInside};
ghost use Rattle.block_store.specs.Plays.{Holds, IsRunning, NotHolds};
ghost use Rattle.block_store.specs.Seats.{key_of, view, IsSame, IsSameSeat, IsSeatOf};
ghost use Rattle.block_store.specs.Views.{learned};

use crate::rect::{Copied, Rect};
use crate::seat::{Board, Seat};
use matrix_core::Matrix;
use matrix_parts::{Part, PartMut, whole, whole_of};

impl Board {
    /// Copies a rectangle of a block that a running step of this seat uses, as the step finds it, into a part, and gives the block
    /// back. Where the block is away, nothing is copied.
    ///
    /// It takes the block (`take`) and gives it back (`give`).
    pub fn copy_in(
        &self,
        seat: &mut Seat,
        t: u32,
        block: u32,
        part: Rect,
        buffer: &mut PartMut<'_>,
    ) -> Copied
        requires seat { IsSeatOf self.now seat.old }
        requires block { block < block_count (key_of self.now) }
        requires runs { IsRunning (view seat.old) t }
        requires uses { uses (key_of self.now) t block ≡ true }
        requires free { NotHolds (view seat.old) block }
        requires shapes { KeepShapes (key_of self.now) }
        requires inside { IsInside part (block_rows (key_of self.now) block)
            (block_cols (key_of self.now) block) }
        requires part { IsPart buffer.old }
        requires size { HasSizeOf part (grid_of buffer.old) }
        ensures same { IsSame seat.old seat.new }
        ensures loan { loan_of buffer.new ≡ loan_of buffer.old }
        ensures part { IsPart buffer.new }
        ensures kept { IsKept buffer.old buffer.new }
        ensures whole { result ≡ copied.Whole
            → (view seat.new ≡ learned (Gave block) (learned (Took block) (view seat.old)))
            × ((g : Grid) × (grid_of buffer.new ≡ part_of g part)
            × IsFound (key_of self.now) t block g) }
        ensures away { result ≡ copied.Away → (view seat.new ≡ learned (Away block) (view seat.old))
            × (grid_of buffer.new ≡ grid_of buffer.old) }
    {
        if !self.take(seat, t, block) {
            return Copied::Away;
        }
        self.read(seat, block, part, buffer);
        self.give(seat, t, block);
        Copied::Whole
    }

    /// Copies a rectangle of the block that a running step of this seat writes, as the step finds it, into a part. The block stays
    /// with the seat, until the step puts it (`put_out`) or gives it back (`give`). Where the block is away, nothing is copied.
    pub fn keep(
        &self,
        seat: &mut Seat,
        t: u32,
        block: u32,
        part: Rect,
        buffer: &mut PartMut<'_>,
    ) -> Copied
        requires seat { IsSeatOf self.now seat.old }
        requires block { block < block_count (key_of self.now) }
        requires runs { IsRunning (view seat.old) t }
        requires writes { ((access_of (key_of self.now) t).write == block) ≡ true }
        requires shapes { KeepShapes (key_of self.now) }
        requires inside { IsInside part (block_rows (key_of self.now) block)
            (block_cols (key_of self.now) block) }
        requires part { IsPart buffer.old }
        requires size { HasSizeOf part (grid_of buffer.old) }
        ensures same { IsSameSeat seat.old seat.new }
        ensures loan { loan_of buffer.new ≡ loan_of buffer.old }
        ensures part { IsPart buffer.new }
        ensures kept { IsKept buffer.old buffer.new }
        ensures whole { result ≡ copied.Whole
            → (view seat.new ≡ learned (Took block) (view seat.old))
            × ((g : Grid) × (grid_of buffer.new ≡ part_of g part)
            × (seat.new.inner.me.1 ≡ (block, g) ∷ seat.old.inner.me.1)
            × IsFound (key_of self.now) t block g) }
        ensures away { result ≡ copied.Away → (view seat.new ≡ learned (Away block) (view seat.old))
            × (seat.new.inner.me.1 ≡ seat.old.inner.me.1)
            × (grid_of buffer.new ≡ grid_of buffer.old) }
    {
        if !self.take(seat, t, block) {
            return Copied::Away;
        }
        self.read(seat, block, part, buffer);
        Copied::Whole
    }

    /// Writes a buffer over the whole block that this seat kept, and puts the block, which then has what its step leaves in it.
    pub fn put_out(&self, seat: &mut Seat, t: u32, block: u32, buffer: &Part<'_>)
        requires seat { IsSeatOf self.now seat.old }
        requires block { block < block_count (key_of self.now) }
        requires runs { IsRunning (view seat.old) t }
        requires writes { ((access_of (key_of self.now) t).write == block) ≡ true }
        requires holds { Holds (view seat.old) block }
        requires top { (g : Grid) × (seat.old.inner.me.1 ≡ (block, g) ∷ rest seat.old.inner.me.1)
            × (g.rows ≡ buffer.now.rows) × (g.cols ≡ buffer.now.cols) }
        requires left { IsLeft (key_of self.now) t block buffer.now }
        ensures same { IsSameSeat seat.old seat.new }
        ensures put { (view seat.new ≡ learned (Put t block) (view seat.old))
            × (seat.new.inner.me.1 ≡ rest seat.old.inner.me.1) }
    {
        self.write(seat, block, buffer);
        self.put(seat, t, block);
    }

    /// Copies a rectangle of the block that this seat took last.
    fn read(&self, seat: &mut Seat, block: u32, part: Rect, buffer: &mut PartMut<'_>)
        requires seat { IsSeatOf self.now seat.old }
        requires top { (g : Grid) × (seat.old.inner.me.1 ≡ (block, g) ∷ rest seat.old.inner.me.1)
            × IsInside part g.rows g.cols }
        requires part { IsPart buffer.old }
        requires size { HasSizeOf part (grid_of buffer.old) }
        ensures same { seat.new.inner ≡ seat.old.inner }
        ensures loan { loan_of buffer.new ≡ loan_of buffer.old }
        ensures part { IsPart buffer.new }
        ensures kept { IsKept buffer.old buffer.new }
        ensures read { (g : Grid)
            × (seat.old.inner.me.1 ≡ (block, g) ∷ rest seat.old.inner.me.1)
            × (grid_of buffer.new ≡ part_of g part) }
    {
        let slot = seat.inner.slot_mut(&self.table.shared, block as usize);
        copy_part(slot, part, buffer);
    }

    /// Writes a buffer over the block that this seat took last.
    fn write(&self, seat: &mut Seat, block: u32, buffer: &Part<'_>)
        requires seat { IsSeatOf self.now seat.old }
        requires top { (g : Grid) × (seat.old.inner.me.1 ≡ (block, g) ∷ rest seat.old.inner.me.1)
            × (g.rows ≡ buffer.now.rows) × (g.cols ≡ buffer.now.cols) }
        ensures same { IsSameSeat seat.old seat.new × (view seat.new ≡ view seat.old) }
        ensures written { seat.new.inner.me.1 ≡ (block, buffer.now) ∷ rest seat.old.inner.me.1 }
    {
        let slot = seat.inner.slot_mut(&self.table.shared, block as usize);
        write_over(slot, buffer);
    }
}

/// Copies a rectangle of a matrix into a part of its size.
fn copy_part(matrix: &Matrix, part: Rect, buffer: &mut PartMut<'_>)
    requires inside { IsInside part matrix.now.rows matrix.now.cols }
    requires part { IsPart buffer.old }
    requires size { HasSizeOf part (grid_of buffer.old) }
    ensures loan { loan_of buffer.new ≡ loan_of buffer.old }
    ensures part { IsPart buffer.new }
    ensures kept { IsKept buffer.old buffer.new }
    ensures copied { grid_of buffer.new ≡ part_of matrix.now part }
{
    let entries = whole(matrix);
    let _rows = matrix.rows();
    for i in 0..part.rows {
        let piece = row_piece(&entries, part.row + i, part.col, part.cols);
        buffer.write_row(i, 0, piece);
    }
}

/// So many entries of row i of a part, from a column on.
fn row_piece<'a>(part: &'a Part<'_>, i: u32, from: u32, count: u32) -> &'a [u64]
    requires row_in { i < part.now.rows }
    requires within { from + count ≤ part.now.cols }
    ensures len { length result.now ≡ count }
    ensures entries { (j : ℕ) → j < count
        → slice_index result.now j ≡ entry part.now i (from + j) }
{
    let _cols = part.cols();
    let start = from as usize;
    &part.row(i)[start..start + count as usize]
}

/// Writes a part over a matrix of its size.
fn write_over(matrix: &mut Matrix, buffer: &Part<'_>)
    requires rows { matrix.old.rows ≡ buffer.now.rows }
    requires cols { matrix.old.cols ≡ buffer.now.cols }
    ensures { matrix.new ≡ buffer.now }
{
    let (rows, cols) = (matrix.rows(), matrix.cols());
    let entries = matrix.entries_mut();
    let mut w = whole_of(entries, rows, cols);
    copy_rows(buffer, &mut w);
    let _ = entries.len();
}

/// Copies all rows of a part into another one of its size.
fn copy_rows(from: &Part<'_>, to: &mut PartMut<'_>)
    requires part { IsPart to.old }
    requires rows { (grid_of to.old).rows ≡ from.now.rows }
    requires cols { (grid_of to.old).cols ≡ from.now.cols }
    ensures loan { loan_of to.new ≡ loan_of to.old }
    ensures part { IsPart to.new }
    ensures kept { IsKept to.old to.new }
    ensures copied { grid_of to.new ≡ from.now }
{
    for i in 0..from.rows() {
        to.write_row(i, 0, from.row(i));
    }
}
