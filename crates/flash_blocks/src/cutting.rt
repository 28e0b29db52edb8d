ghost use Rattle.std.specs.Prelude.{◌≡◌, ◌++◌, ◌*◌, ◌<◌, ◌≤◌, map, IfOk, OnOk};
ghost use Rattle.std.specs.List.{range_with_len};
ghost use Rattle.residue_sums.specs.Sums.{part_count};
ghost use Rattle.flash_blocks.specs.Blocks.{block_of};
ghost use Rattle.flash_blocks.specs.Flashes.{cut_of};

use crate::flash::Flash;
use crate::rows::row_piece;
use matrix_core::Matrix;
use std::alloc::{AllocError, Global};

/// The blocks of a matrix under block size b, each copied. Its one error is want of memory.
pub fn cut(alloc: Global, matrix: &Matrix, b: u32) -> Result<Flash, AllocError>
    requires { 1 ≤ b }
    ensures { IfOk result (λ flash. flash ≡ cut_of b matrix.now) }
{
    let (rows, cols) = (matrix.rows(), matrix.cols());
    let (down, across) = (rows.div_ceil(b), cols.div_ceil(b));
    let mut blocks = Vec::with_capacity(alloc, down as usize * across as usize)?;
    for i in 0..down {
        copy_blocks(alloc, matrix, b, i, &mut blocks)?;
    }
    Ok(Flash::from_blocks(b, rows, cols, blocks))
}

// appends the blocks that have part i of the rows
fn copy_blocks(
    alloc: Global,
    matrix: &Matrix,
    b: u32,
    i: u32,
    blocks: &mut Vec<Matrix>,
) -> Result<(), AllocError>
    requires size { 1 ≤ b }
    requires row_in { i < part_count matrix.now.rows b }
    ensures { OnOk result (blocks.new.items ≡ blocks.old.items
        ++ map (block_of b matrix.now i) (range_with_len 0 (part_count matrix.now.cols b))) }
{
    for j in 0..matrix.cols().div_ceil(b) {
        blocks.push(copy_block(alloc, matrix, b, i, j)?)?;
    }
    Ok(())
}

// block (i, j), copied
fn copy_block(alloc: Global, matrix: &Matrix, b: u32, i: u32, j: u32) -> Result<Matrix, AllocError>
    requires row_in { i * b < matrix.now.rows }
    requires col_in { j * b < matrix.now.cols }
    ensures { IfOk result (λ block. block ≡ block_of b matrix.now i j) }
{
    let (height, width) = (matrix.rows(), matrix.cols());
    let (top, left) = (i * b, j * b);
    let (rows, cols) = (b.min(height - top), b.min(width - left));
    let mut entries = Vec::with_capacity(alloc, rows as usize * cols as usize)?;
    for r in 0..rows {
        entries.extend_from_slice(row_piece(matrix, top + r, left, cols))?;
    }
    Ok(Matrix::from_entries(rows, cols, entries))
}
