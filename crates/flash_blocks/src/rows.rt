ghost use Rattle.std.specs.Prelude.{◌≡◌, ◌+◌, ◌<◌, ◌≤◌, map};
ghost use Rattle.std.specs.List.{range_with_len};
ghost use Rattle.residue_sums.specs.Grids.{entry};

use matrix_core::Matrix;

// lends n entries of row r, from column c on
pub(crate) fn row_piece(matrix: &Matrix, r: u32, c: u32, n: u32) -> &[u64]
    requires row_in { r < matrix.now.rows }
    requires cols_in { c + n ≤ matrix.now.cols }
    ensures { result.now ≡ map (λ k. entry matrix.now r (c + k)) (range_with_len 0 n) }
{
    let first = r as usize * matrix.cols() as usize + c as usize;
    &matrix.entries()[first..first + n as usize]
}
