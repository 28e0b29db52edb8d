ghost use Rattle.std.specs.Prelude.{◌≡◌, ℕ, ◌+◌, ◌-◌, ◌*◌, ◌<◌, ◌≤◌, length, slice_index};
ghost use Rattle.residue_sums.specs.Grids.{Grid, IsFull, entry};
ghost use Rattle.matrix_parts.specs.Rects.{rect, IsWithin, IsBlockOf};

use matrix_core::Matrix;
use std::marker::Model;

/// A part of a matrix that is lent to be read: so many rows and columns side by side.
#[derive(Drop)]
pub struct Part<'a> {
    entries: &'a [u64],
    first: usize,
    stride: usize,
    rows: u32,
    cols: u32,
}

impl<'a> Model for Part<'a> {
    ghost use Rattle.std.specs.Prelude.{length};
    ghost use Rattle.residue_sums.specs.Grids.{Grid};
    ghost use Rattle.matrix_parts.specs.Rects.{rect, IsWithin};

    ghost Value = { Grid };

    ghost view = { λ p. rect p.entries.now p.first p.stride p.rows p.cols };

    ghost invariant = { λ p. IsWithin (length p.entries.now) p.first p.stride p.rows p.cols };
}

/// The whole matrix as one part.
pub fn whole<'a>(m: &'a Matrix) -> Part<'a>
    ensures { result ≡ m.now }
{
    let (rows, cols) = (m.rows(), m.cols());
    Part {
        entries: m.entries(),
        first: 0,
        stride: cols as usize,
        rows,
        cols,
    }
}

/// Entries that lie row by row as one part.
pub fn part_of_slice<'a>(entries: &'a [u64], rows: u32, cols: u32) -> Part<'a>
    requires { length entries.now ≡ rows * cols }
    ensures { result ≡ record { rows = rows; cols = cols; entries = entries.now } }
{
    Part {
        entries,
        first: 0,
        stride: cols as usize,
        rows,
        cols,
    }
}

impl<'a> Part<'a> {
    /// The rectangle of these entries.
    pub fn of(entries: &'a [u64], first: usize, stride: usize, rows: u32, cols: u32) -> Part<'a>
        requires { IsWithin (length entries.now) first stride rows cols }
        ensures { result ≡ rect entries.now first stride rows cols }
    {
        Part {
            entries,
            first,
            stride,
            rows,
            cols,
        }
    }

    /// The same part, lent once more.
    pub fn reborrow(&self) -> Part<'a>
        ensures { result ≡ self.now }
    {
        Part {
            entries: self.entries,
            first: self.first,
            stride: self.stride,
            rows: self.rows,
            cols: self.cols,
        }
    }

    /// How many rows there are.
    pub fn rows(&self) -> u32
        ensures rows { result ≡ self.now.rows }
        ensures full { IsFull self.now }
    {
        self.rows
    }

    /// How many columns there are.
    pub fn cols(&self) -> u32
        ensures cols { result ≡ self.now.cols }
        ensures full { IsFull self.now }
    {
        self.cols
    }

    /// The entries of row i, which lie side by side.
    pub fn row(&self, i: u32) -> &[u64]
        requires row_in { i < self.now.rows }
        ensures len { length result.now ≡ self.now.cols }
        ensures entries { (j : ℕ) → j < self.now.cols → slice_index result.now j ≡ entry self.now i j }
    {
        let start = self.first + i as usize * self.stride;
        &self.entries[start..start + self.cols as usize]
    }

    /// The entry in row i and column j.
    pub fn get(&self, i: u32, j: u32) -> u64
        requires row_in { i < self.now.rows }
        requires col_in { j < self.now.cols }
        ensures { result ≡ entry self.now i j }
    {
        self.row(i)[j as usize]
    }

    /// The rows above row `at`, and those from it on.
    pub fn split_rows(self, at: u32) -> (Part<'a>, Part<'a>)
        requires { at ≤ self.rows }
        ensures above { IsBlockOf self.entry 0 0 at self.entry.cols result.0 }
        ensures below { IsBlockOf self.entry at 0 (self.entry.rows - at) self.entry.cols result.1 }
    {
        let Part {
            entries,
            first,
            stride,
            rows,
            cols,
        } = self;
        let below = if at < rows {
            first + at as usize * stride
        } else {
            0
        };
        (
            Part::of(entries, first, stride, at, cols),
            Part::of(entries, below, stride, rows - at, cols),
        )
    }

    /// The columns left of column `at`, and those from it on.
    pub fn split_cols(self, at: u32) -> (Part<'a>, Part<'a>)
        requires { at ≤ self.cols }
        ensures left { IsBlockOf self.entry 0 0 self.entry.rows at result.0 }
        ensures right { IsBlockOf self.entry 0 at self.entry.rows (self.entry.cols - at) result.1 }
    {
        let Part {
            entries,
            first,
            stride,
            rows,
            cols,
        } = self;
        let right = if 0 < rows { first + at as usize } else { 0 };
        (
            Part::of(entries, first, stride, rows, at),
            Part::of(entries, right, stride, rows, cols - at),
        )
    }
}
