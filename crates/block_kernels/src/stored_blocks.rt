//! The blocks that tasks read, by number: the matrices of a store, or what lies in a room of numbers.

ghost use Rattle.std.specs.Prelude.{◌≡◌, ◌<◌, length, map, All};
ghost use Rattle.residue_sums.specs.Grids.{Grid, IsFull};
ghost use Rattle.equation.specs.Jobs.{nth_grid};
ghost use Rattle.block_kernels.specs.LaidBlocks.{cut_grid, laid_grid, IsInRoom};

use matrix_core::Matrix;
use matrix_parts::{Part, part_of_slice};
use std::marker::Model;

/// Where a block lies in a room of numbers: its entries stand row by row from a place on.
#[derive(Clone, Copy)]
pub struct Cut {
    pub at: usize,
    pub rows: u32,
    pub cols: u32,
}

/// A block as it lies in memory: its entries row by row.
#[derive(Clone, Copy)]
pub(crate) struct LaidBlock<'a> {
    pub(crate) entries: &'a [u64],
    pub(crate) rows: u32,
    pub(crate) cols: u32,
}

/// Where the blocks lie.
#[derive(Clone, Copy)]
enum Places<'a> {
    Store(&'a [Matrix]),
    Room { entries: &'a [u64], cuts: &'a [Cut] },
}

/// Blocks by number, lent to be read: whole matrices, or cuts of a room of numbers. Contracts see the list of the blocks, so that
/// whoever reads them needn't know where they lie.
#[derive(Drop)]
pub struct StoredBlocks<'a> {
    places: Places<'a>,
}

impl<'a> Model for StoredBlocks<'a> {
    ghost use Rattle.std.specs.Prelude.{List};
    ghost use Rattle.residue_sums.specs.Grids.{Grid};

    ghost Value = { List Grid };

    ghost use Rattle.block_kernels.specs.LaidBlocks.{grids_at, AreAt};

    ghost view = { λ s. grids_at s.places };

    ghost invariant = { λ s. AreAt s.places };
}

/// A whole matrix, as it lies.
fn laid_matrix(block: &Matrix) -> LaidBlock<'_>
    ensures grid { laid_grid result ≡ block.now }
    ensures full { IsFull (laid_grid result) }
{
    LaidBlock {
        entries: block.entries(),
        rows: block.rows(),
        cols: block.cols(),
    }
}

/// What lies at a cut of a room.
fn laid_cut<'a>(entries: &'a [u64], cut: Cut) -> LaidBlock<'a>
    requires { IsInRoom (length entries.now) cut }
    ensures grid { laid_grid result ≡ cut_grid entries.now cut }
    ensures full { IsFull (laid_grid result) }
{
    let count = cut.rows as usize * cut.cols as usize;
    LaidBlock {
        entries: &entries[cut.at..cut.at + count],
        rows: cut.rows,
        cols: cut.cols,
    }
}

impl<'a> StoredBlocks<'a> {
    /// The matrices of a store.
    pub fn of_matrices(store: &'a [Matrix]) -> StoredBlocks<'a>
        ensures { result ≡ store.now }
    {
        StoredBlocks {
            places: Places::Store(store),
        }
    }

    /// The blocks that lie at these cuts of a room. The cuts may overlap.
    pub fn of_room(entries: &'a [u64], cuts: &'a [Cut]) -> StoredBlocks<'a>
        requires { All (IsInRoom (length entries.now)) cuts.now }
        ensures { result ≡ map (cut_grid entries.now) cuts.now }
    {
        StoredBlocks {
            places: Places::Room { entries, cuts },
        }
    }

    /// The same blocks, lent once more.
    pub fn reborrow(&self) -> StoredBlocks<'_>
        ensures { result ≡ self.now }
    {
        StoredBlocks {
            places: self.places,
        }
    }

    /// The block of this number, as it lies.
    pub(crate) fn laid(&self, number: u32) -> LaidBlock<'_>
        requires { number < length self.now }
        ensures grid { laid_grid result ≡ nth_grid self.now number }
        ensures full { IsFull (laid_grid result) }
    {
        match self.places {
            Places::Store(store) => laid_matrix(&store[number as usize]),
            Places::Room { entries, cuts } => laid_cut(entries, cuts[number as usize]),
        }
    }

    /// The block of this number, as one part.
    pub fn block(&self, number: u32) -> Part<'_>
        requires { number < length self.now }
        ensures { result ≡ nth_grid self.now number }
    {
        let laid = self.laid(number);
        part_of_slice(laid.entries, laid.rows, laid.cols)
    }
}
