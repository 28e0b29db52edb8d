ghost use Rattle.std.specs.Prelude.{◌≡◌, ◌≢◌, ℕ, ◌+◌, ◌*◌, ◌<◌, ◌≤◌, ◌^◌, length, slice_index, OnOk, IfErr, MatchOption};
ghost use Rattle.residue_sums.specs.Residues.{Cong, IsUnit};
ghost use Rattle.residue_sums.specs.Grids.{entry};
ghost use Rattle.matrix_parts.specs.Lent.{grid_of, IsPart};

use crate::bad_pivot::BadPivot;
use crate::panel_rows::RowPiece;
use field_word::Modulus;
use matrix_parts::PartMut;
use row_products::Reducer;

/// What the entries of column j below row i are multiplied by once row i is written, where those of row i were multiplied
/// by `scale`: the inverse of the pivot from the diagonal on, and `scale` above. None where the pivot is no unit.
pub(crate) fn next_scale(m: Modulus, w: &PartMut<'_>, i: u32, j: u32, scale: u64) -> Option<u64>
    requires part { IsPart w.now }
    requires square { w.now.rows ≡ w.now.cols }
    requires row_in { i < w.now.rows }
    requires col_in { j < w.now.cols }
    requires residues { (a b : ℕ) → a < w.now.rows → b < w.now.cols
        → entry (grid_of w.now) a b < m }
    requires scale { scale < m }
    ensures on_diagonal { i ≡ j → MatchOption result (¬ (IsUnit m (entry (grid_of w.now) j j)))
        (λ next. Cong m (entry (grid_of w.now) j j * next) 1
        × IsUnit m (entry (grid_of w.now) j j)) }
    ensures elsewhere { i ≢ j → MatchOption result ⊥ (λ next. next ≡ scale) }
    ensures range { MatchOption result (i ≡ j) (λ next. next < m) }
{
    let _modulus = m.value();
    if i == j {
        m.inverse(w.get(j, j))
    } else {
        Some(scale)
    }
}

/// Keeps the inverse of the pivot of a row once that row is written, where the pivot is in the piece, or names the pivot where
/// it is no unit.
pub(crate) fn keep_inverse(
    m: Reducer,
    w: &PartMut<'_>,
    at: RowPiece,
    inverses: &mut [u64],
) -> Result<(), BadPivot>
    requires part { IsPart w.now }
    requires square { w.now.rows ≡ w.now.cols }
    requires row_in { at.row < w.now.rows }
    requires residues { (a b : ℕ) → a < w.now.rows → b < w.now.cols
        → entry (grid_of w.now) a b < m }
    requires small { (j : ℕ) → j < length inverses.old → slice_index inverses.old j < m }
    requires few { length inverses.old < 2 ^ 31 }
    ensures small { (j : ℕ) → j < length inverses.old → slice_index inverses.new j < m }
    ensures here { OnOk result ((j : ℕ) → j < length inverses.old → at.from + j ≡ at.row
        → Cong m (entry (grid_of w.now) at.row at.row * slice_index inverses.new j) 1
        × IsUnit m (entry (grid_of w.now) at.row at.row)) }
    ensures others { (j : ℕ) → at.from + j ≢ at.row
        → slice_index inverses.new j ≡ slice_index inverses.old j }
    ensures bad { IfErr result (λ place. (place.row ≡ at.row) × (place.col ≡ at.row)
        × (at.from ≤ at.row) × (at.row < at.from + length inverses.old)
        × ¬ (IsUnit m (entry (grid_of w.now) at.row at.row))) }
{
    let modulus = m.modulus();
    if at.row < at.from || inverses.len() <= (at.row - at.from) as usize {
        return Ok(());
    }
    match modulus.inverse(w.get(at.row, at.row)) {
        Some(inverse) => inverses[(at.row - at.from) as usize] = inverse,
        None => {
            return Err(BadPivot {
                row: at.row,
                col: at.row,
            });
        }
    }
    Ok(())
}
