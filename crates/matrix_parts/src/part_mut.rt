ghost use Rattle.std.specs.Prelude.{◌≡◌, ◌≢◌, ◌⊎◌, ℕ, ◌+◌, ◌-◌, ◌*◌, ◌<◌, ◌≤◌, ◌++◌, length, slice_index};
ghost use Rattle.std.specs.Borrow.{sem};
ghost use Rattle.residue_sums.specs.Grids.{entry, with_entry};
ghost use Rattle.matrix_parts.specs.Lent.{grid_of, loan_of, IsPart, IsKept, EndsAsBoth, EndsAsPart, AreRowsOf};
ghost use Rattle.matrix_parts.specs.Rects.{IsBlockOf};

use crate::part::Part;
use matrix_core::Matrix;
use std::slice;

/// A part of a matrix that is lent to be written: so many rows of so many entries, each row side by side in the lent
/// numbers, and each a stride behind the one before it.
///
/// Contracts see its entries as `grid_of`, and the loan that it holds as `loan_of`, so that the lender knows what its
/// numbers are once the part is gone. A call that keeps the loan and ensures `IsKept` has written to entries of the part
/// alone.
#[derive(Drop)]
pub struct PartMut<'a> {
    pub(crate) entries: &'a mut [u64],
    pub(crate) first: usize,
    pub(crate) stride: usize,
    pub(crate) rows: u32,
    pub(crate) cols: u32,
}

/// Numbers that are a matrix row by row, as one part.
pub fn whole_of<'a>(entries: &'a mut [u64], rows: u32, cols: u32) -> PartMut<'a>
    requires { length entries.old ≡ rows * cols }
    ensures loan { loan_of result ≡ entries.entry.ghost_name }
    ensures part { IsPart result }
    ensures grid { grid_of result ≡ record { rows = rows; cols = cols; entries = entries.old } }
    ensures first { result.first ≡ 0 }
    ensures stride { result.stride ≡ cols }
    ensures rows { result.rows ≡ rows }
    ensures cols { result.cols ≡ cols }
    ensures entries { result.entries.now ≡ entries.old }
{
    PartMut {
        entries,
        first: 0,
        stride: cols as usize,
        rows,
        cols,
    }
}

/// The whole matrix as one part. Once it is gone, the matrix has the entries that the part ended with.
pub fn whole_mut<'a>(m: &'a mut Matrix) -> PartMut<'a>
    ensures* ends_as { sem 𝓛 (EndsAsPart m.entry result) }
    ensures part { IsPart result }
    ensures grid { grid_of result ≡ m.old }
    ensures first { result.first ≡ 0 }
    ensures stride { result.stride ≡ m.old.cols }
    ensures rows { result.rows ≡ m.old.rows }
    ensures cols { result.cols ≡ m.old.cols }
    ensures entries { result.entries.now ≡ m.old.entries }
{
    let (rows, cols) = (m.rows(), m.cols());
    whole_of(m.entries_mut(), rows, cols)
}

/// Where row `at` begins among `len` numbers, which end where there is no such row.
fn place_of_row(first: usize, stride: usize, rows: u32, at: u32, len: usize) -> usize
    requires { at < rows → first + at * stride ≤ len }
    ensures within { result ≤ len }
    ensures begins { at < rows → result ≡ first + at * stride }
    ensures end { rows ≤ at → result ≡ len }
{
    if at < rows {
        first + at as usize * stride
    } else {
        len
    }
}

impl<'a> PartMut<'a> {
    /// How many rows there are.
    pub fn rows(&self) -> u32
        ensures { result ≡ self.now.rows }
    {
        self.rows
    }

    /// How many columns there are.
    pub fn cols(&self) -> u32
        ensures { result ≡ self.now.cols }
    {
        self.cols
    }

    /// The same entries, lent to be read.
    pub fn as_part(&self) -> Part<'_>
        requires part { IsPart self.now }
        ensures { result ≡ grid_of self.now }
    {
        Part::of(self.entries, self.first, self.stride, self.rows, self.cols)
    }

    /// The entry in row i and column j.
    pub fn get(&self, i: u32, j: u32) -> u64
        requires part { IsPart self.now }
        requires row_in { i < self.now.rows }
        requires col_in { j < self.now.cols }
        ensures { result ≡ entry (grid_of self.now) i j }
    {
        self.as_part().get(i, j)
    }

    /// The rows above row `at`, and those from it on. The two parts don't overlap: what was lent to this part ends as the
    /// numbers that the first one ends with, and then those that the second one ends with.
    pub fn split_rows(self, at: u32) -> (PartMut<'a>, PartMut<'a>)
        requires part { IsPart self }
        requires at { at ≤ self.rows }
        ensures* ends_as { sem 𝓛 (EndsAsBoth self.entry result ◌++◌) }
        ensures parts { IsPart result.0 × IsPart result.1 }
        ensures above { IsBlockOf (grid_of self.entry) 0 0 at self.entry.cols (grid_of result.0) }
        ensures below { IsBlockOf (grid_of self.entry) at 0 (self.entry.rows - at) self.entry.cols
            (grid_of result.1) }
        ensures joined { AreRowsOf self.entry at result }
    {
        let PartMut {
            entries,
            first,
            stride,
            rows,
            cols,
        } = self;
        let len = entries.len();
        let cut = place_of_row(first, stride, rows, at, len);
        let numbers = entries.as_mut_ptr();
        unsafe {
            (
                PartMut {
                    entries: slice::from_raw_parts_mut(numbers, cut),
                    first,
                    stride,
                    rows: at,
                    cols,
                },
                PartMut {
                    entries: slice::from_raw_parts_mut(numbers.add(cut), len - cut),
                    first: 0,
                    stride,
                    rows: rows - at,
                    cols,
                },
            )
        }
    }

    /// Writes the entry in row i and column j. No other entry changes.
    pub fn set(&mut self, i: u32, j: u32, v: u64)
        requires part { IsPart self.old }
        requires row_in { i < self.old.rows }
        requires col_in { j < self.old.cols }
        ensures loan { loan_of self.new ≡ loan_of self.old }
        ensures part { IsPart self.new }
        ensures kept { IsKept self.old self.new }
        ensures grid { grid_of self.new ≡ with_entry (grid_of self.old) i j v }
        ensures here { entry (grid_of self.new) i j ≡ v }
        ensures others { (a b : ℕ) → a < self.old.rows → b < self.old.cols → (a ≢ i) ⊎ (b ≢ j)
            → entry (grid_of self.new) a b ≡ entry (grid_of self.old) a b }
    {
        let at = self.first + i as usize * self.stride + j as usize;
        self.entries[at] = v;
    }

    /// Writes numbers side by side into row i, from a column on. No other entry changes.
    pub fn write_row(&mut self, i: u32, from: u32, values: &[u64])
        requires part { IsPart self.old }
        requires row_in { i < self.old.rows }
        requires within { from + length values.now ≤ self.old.cols }
        ensures loan { loan_of self.new ≡ loan_of self.old }
        ensures part { IsPart self.new }
        ensures kept { IsKept self.old self.new }
        ensures here { (j : ℕ) → j < length values.now → entry (grid_of self.new) i (from + j) ≡ slice_index values.now j }
        ensures others { (a b : ℕ) → a < self.old.rows → b < self.old.cols → (a ≢ i) ⊎ ((b < from) ⊎ (from + length values.now ≤ b))
            → entry (grid_of self.new) a b ≡ entry (grid_of self.old) a b }
    {
        let _cols = self.cols();
        for j in 0..values.len() {
            self.set(i, from + j as u32, values[j]);
        }
    }
}
