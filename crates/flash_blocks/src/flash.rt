ghost use Rattle.std.specs.Prelude.{◌≡◌, ◌<◌, ◌≤◌, length};
ghost use Rattle.std.specs.Borrow.{sem};
ghost use Rattle.residue_sums.specs.Sums.{part_count};
ghost use Rattle.flash_blocks.specs.Flashes.{block_count, block_place, flash_block};
ghost use Rattle.flash_blocks.specs.LentBlocks.{LendsBlock};

use matrix_core::Matrix;
use std::marker::Model;

/// A matrix of so many rows and columns under a block size, as its blocks row by row. Rows and columns of
/// blocks are numbered from 0.
///
/// The block size is at least 1, and there are as many blocks as the rows and columns have parts: none where
/// there is no row or no column. A block may have any shape.
#[derive(Debug, Drop)]
pub struct Flash {
    b: u32,
    rows: u32,
    cols: u32,
    blocks: Vec<Matrix>,
}

impl Model for Flash {
    ghost use Rattle.flash_blocks.specs.Flashes.{BlockedGrid, IsFlash};

    ghost Value = { BlockedGrid };

    ghost view = { λ f. record { b = f.b; rows = f.rows; cols = f.cols; blocks = f.blocks.items } };

    ghost invariant = { λ f. IsFlash (record {
      b = f.b;
      rows = f.rows;
      cols = f.cols;
      blocks = f.blocks.items;
    }) };
}

impl Flash {
    /// The flash of these blocks, row by row. It takes no memory, and with `into_blocks` serves who keeps the
    /// blocks of several matrices in one list.
    pub fn from_blocks(b: u32, rows: u32, cols: u32, blocks: Vec<Matrix>) -> Flash
        requires size { 1 ≤ b }
        requires count { length blocks.items ≡ block_count b rows cols }
        ensures { result ≡ record { b = b; rows = rows; cols = cols; blocks = blocks.items } }
    {
        Flash {
            b,
            rows,
            cols,
            blocks,
        }
    }

    /// The blocks as a vector, row by row. It takes no memory.
    pub fn into_blocks(self) -> Vec<Matrix>
        ensures blocks { result.items ≡ self.blocks }
        ensures count { length result.items ≡ block_count self.b self.rows self.cols }
    {
        let Flash {
            b: _,
            rows: _,
            cols: _,
            blocks,
        } = self;
        blocks
    }

    /// The block size.
    pub fn b(&self) -> u32
        ensures size { result ≡ self.now.b }
        ensures positive { 1 ≤ result }
    {
        self.b
    }

    /// How many rows the whole matrix has.
    pub fn rows(&self) -> u32
        ensures { result ≡ self.now.rows }
    {
        self.rows
    }

    /// How many columns the whole matrix has.
    pub fn cols(&self) -> u32
        ensures { result ≡ self.now.cols }
    {
        self.cols
    }

    /// Lends block (i, j).
    pub fn block(&self, i: u32, j: u32) -> &Matrix
        requires row_in { i < part_count self.now.rows self.now.b }
        requires col_in { j < part_count self.now.cols self.now.b }
        ensures { result.now ≡ flash_block self.now i j }
    {
        let at = self.place(i, j);
        &self.blocks[at]
    }

    /// Lends block (i, j) to be written. What is written there may have any shape.
    pub fn block_mut(&mut self, i: u32, j: u32) -> &mut Matrix
        requires row_in { i < part_count self.old.rows self.old.b }
        requires col_in { j < part_count self.old.cols self.old.b }
        ensures* writes_back { sem 𝓛 (LendsBlock self.entry i j result) }
        ensures block { result.now ≡ flash_block self.old i j }
    {
        let at = self.place(i, j);
        &mut self.blocks[at]
    }

    // the place of block (i, j) among the blocks
    fn place(&self, i: u32, j: u32) -> usize
        requires row_in { i < part_count self.now.rows self.now.b }
        requires col_in { j < part_count self.now.cols self.now.b }
        ensures place { result ≡ block_place self.now i j }
        ensures bound { result < length self.now.blocks }
    {
        i as usize * self.cols.div_ceil(self.b) as usize + j as usize
    }
}
