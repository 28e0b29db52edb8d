ghost use Rattle.std.specs.Prelude.{◌≡◌, ◌++◌, ◌<◌, map, IfOk, OnOk};
ghost use Rattle.std.specs.List.{range_with_len};
ghost use Rattle.flash_blocks.specs.Blocks.{gathered, grid_of};
ghost use Rattle.flash_blocks.specs.Flashes.{flash_block, HasShapes};

use crate::flash::Flash;
use crate::rows::row_piece;
use matrix_core::Matrix;
use std::alloc::{AllocError, Global};

/// The matrix that has these blocks, each of which has the shape of its parts. Its one error is want of
/// memory.
pub fn gather(alloc: Global, flash: &Flash) -> Result<Matrix, AllocError>
    requires { HasShapes flash.now }
    ensures { IfOk result (λ matrix. matrix
        ≡ grid_of (gathered flash.now.b (flash_block flash.now)) flash.now.rows flash.now.cols) }
{
    let (rows, cols) = (flash.rows(), flash.cols());
    let mut entries = Vec::with_capacity(alloc, rows as usize * cols as usize)?;
    for r in 0..rows {
        append_row(flash, r, &mut entries)?;
    }
    Ok(Matrix::from_entries(rows, cols, entries))
}

// appends row r of the whole matrix: from each block of its part of the rows, one row
fn append_row(flash: &Flash, r: u32, entries: &mut Vec<u64>) -> Result<(), AllocError>
    requires shapes { HasShapes flash.now }
    requires row_in { r < flash.now.rows }
    ensures { OnOk result (entries.new.items ≡ entries.old.items
        ++ map (gathered flash.now.b (flash_block flash.now) r) (range_with_len 0 flash.now.cols)) }
{
    let b = flash.b();
    let (part, inner) = (r / b, r % b);
    let across = flash.cols().div_ceil(b);
    for j in 0..across {
        let block = flash.block(part, j);
        entries.extend_from_slice(row_piece(block, inner, 0, block.cols()))?;
    }
    Ok(())
}

#[cfg(test)]
mod tests {
    use super::*;
    use crate::cut;
    use std::test::Fail;

    // the matrix that is gathered from the blocks of another
    fn gathered_again(alloc: Global, matrix: &Matrix) -> Result<Matrix, AllocError> {
        let flash = cut(alloc, matrix, 2)?;
        gather(alloc, &flash)
    }

    #[test]
    fn blocks_are_cut_and_gathered(rt: HostRuntime) -> Result<(), Fail> {
        let alloc = rt.alloc();
        let numbers = Vec::from_slice(alloc, &[1, 2, 3, 4, 5, 6, 7, 8, 9])?;
        let again = gathered_again(alloc, &Matrix::from_entries(3, 3, numbers))?;
        assert_eq!(rt; again.entries(), [1, 2, 3, 4, 5, 6, 7, 8, 9].as_slice());
        Ok(())
    }
}
