//! Factors of a square part in place, piece by piece of columns, and in each piece row by row.

ghost use Rattle.std.specs.Prelude.{◌≡◌, ℕ, ◌+◌, ◌*◌, ◌^◌, ◌<◌, ◌≤◌, length, slice_index};
ghost use Rattle.residue_sums.specs.Residues.{Cong};
ghost use Rattle.residue_sums.specs.Grids.{entry};
ghost use Rattle.matrix_parts.specs.Lent.{grid_of, loan_of, IsPart, IsKept};
ghost use Rattle.part_factors.specs.ColumnFactors.{first_row_of, IsPanel, IsRowFound, IsSearched};
ghost use Rattle.part_factors.specs.PanelRows.{in_panel};

use crate::bad_pivot::BadPivot;
use crate::factoring::{FactorKind, Factoring};
use crate::panel_rows::{
    FEW_NUMBERS, FEW_ROWS, LINE_GAP, MANY_NUMBERS, MANY_ROWS, RowPiece, WIDTH,
};
use crate::pivots_met::keep_inverse;
use crate::{ldl_rows, lu_rows};
use matrix_parts::PartMut;

/// Finds the entries of one row in a piece, and keeps in the panel what later rows meet.
fn find_row(
    factoring: &Factoring,
    w: &mut PartMut<'_>,
    at: RowPiece,
    panel: &mut [u64],
    inverses: &[u64],
    values: &mut [u64],
)
    requires part { IsPart w.old }
    requires square { w.old.rows ≡ w.old.cols }
    requires row_in { at.row < w.old.rows }
    requires few { w.old.rows < 2 ^ 31 }
    requires begun { first_row_of factoring.now.kind at.from ≤ at.row }
    requires within { at.from + length values.old ≤ w.old.cols }
    requires height { w.old.cols ≤ at.height }
    requires pivots { length inverses.now ≡ length values.old }
    requires lines { length panel.old ≡ length values.old * at.height }
    requires residues { (a b : ℕ) → a < w.old.rows → b < w.old.cols
        → entry (grid_of w.old) a b < factoring.now.m }
    requires small_inverses { (j : ℕ) → j < length inverses.now
        → slice_index inverses.now j < factoring.now.m }
    requires inverts { (j : ℕ) → j < length inverses.now → at.from + j < at.row
        → Cong factoring.now.m (entry (grid_of w.old) (at.from + j) (at.from + j)
        * slice_index inverses.now j) 1 }
    requires panel { IsPanel factoring.now.kind factoring.now.m at.from (length values.old) at.row
        (in_panel panel.old at.height 0) (entry (grid_of w.old)) }
    ensures loan { loan_of w.new ≡ loan_of w.old }
    ensures part { IsPart w.new }
    ensures kept { IsKept w.old w.new }
    ensures residues { (a b : ℕ) → a < w.old.rows → b < w.old.cols
        → entry (grid_of w.new) a b < factoring.now.m }
    ensures found { IsRowFound factoring.now.m w.old.rows factoring.now.kind at.row at.from
        (at.from + length values.old) (entry (grid_of w.old)) (entry (grid_of w.new)) }
    ensures panel { IsPanel factoring.now.kind factoring.now.m at.from (length values.old)
        (at.row + 1) (in_panel panel.new at.height 0) (entry (grid_of w.new)) }
{
    let _cols = w.cols();
    match factoring.kind {
        FactorKind::Lu => lu_rows::find_row(factoring.m, w, at, panel, inverses, values),
        FactorKind::Ldl => ldl_rows::find_row(factoring.m, w, at, panel, inverses, values),
    }
}

/// Finds the columns of a piece from column `from` on, as many as there is room for values and inverses, or meets the first
/// pivot in it that is no unit. The panel has as many lines of n numbers, or more.
fn find_piece(
    factoring: &Factoring,
    w: &mut PartMut<'_>,
    from: u32,
    panel: &mut [u64],
    inverses: &mut [u64],
    values: &mut [u64],
) -> Result<(), BadPivot>
    requires part { IsPart w.old }
    requires square { w.old.rows ≡ w.old.cols }
    requires few { w.old.rows < 2 ^ 31 }
    requires within { from + length values.old ≤ w.old.cols }
    requires pivots { length inverses.old ≡ length values.old }
    requires lines { length panel.old ≡ length values.old * (w.old.rows + LINE_GAP) }
    requires residues { (a b : ℕ) → a < w.old.rows → b < w.old.cols
        → entry (grid_of w.old) a b < factoring.now.m }
    ensures loan { loan_of w.new ≡ loan_of w.old }
    ensures part { IsPart w.new }
    ensures kept { IsKept w.old w.new }
    ensures residues { (a b : ℕ) → a < w.old.rows → b < w.old.cols
        → entry (grid_of w.new) a b < factoring.now.m }
    ensures outcome { IsSearched factoring.now.m w.old.rows factoring.now.kind
        from (from + length values.old) (entry (grid_of w.old)) (entry (grid_of w.new)) result }
{
    let _modulus = factoring.m.modulus();
    let height = w.rows() as usize + LINE_GAP;
    inverses.fill(0);
    for i in factoring.first_row(from)..w.rows() {
        let at = RowPiece {
            row: i,
            from,
            height,
        };
        find_row(factoring, w, at, panel, inverses, values);
        keep_inverse(factoring.m, w, at, inverses)?;
    }
    Ok(())
}

/// Finds the factors piece by piece, with room for the panel of a piece, or meets the first pivot that is no unit.
fn find_with(factoring: &Factoring, w: &mut PartMut<'_>, panel: &mut [u64]) -> Result<(), BadPivot>
    requires part { IsPart w.old }
    requires square { w.old.rows ≡ w.old.cols }
    requires few { w.old.rows < 2 ^ 31 }
    requires room { w.old.rows + LINE_GAP ≤ length panel.old }
    requires residues { (a b : ℕ) → a < w.old.rows → b < w.old.cols
        → entry (grid_of w.old) a b < factoring.now.m }
    ensures loan { loan_of w.new ≡ loan_of w.old }
    ensures part { IsPart w.new }
    ensures kept { IsKept w.old w.new }
    ensures residues { (a b : ℕ) → a < w.old.rows → b < w.old.cols
        → entry (grid_of w.new) a b < factoring.now.m }
    ensures outcome { IsSearched factoring.now.m w.old.rows factoring.now.kind 0 w.old.rows
        (entry (grid_of w.old)) (entry (grid_of w.new)) result }
{
    let mut inverses = [0; WIDTH];
    let mut values = [0; WIDTH];
    let cols = w.cols();
    let height = cols as usize + LINE_GAP;
    let width = usize::min(WIDTH, panel.len() / height);
    let mut from = 0;
    while from < cols {
        let here = usize::min(width, (cols - from) as usize);
        find_piece(
            factoring,
            w,
            from,
            &mut panel[..here * height],
            &mut inverses[..here],
            &mut values[..here],
        )?;
        from += here as u32;
    }
    Ok(())
}

/// The same for a part of at most `FEW_ROWS` rows.
pub(crate) fn find_few(factoring: &Factoring, w: &mut PartMut<'_>) -> Result<(), BadPivot>
    requires part { IsPart w.old }
    requires square { w.old.rows ≡ w.old.cols }
    requires few { w.old.rows ≤ FEW_ROWS }
    requires residues { (a b : ℕ) → a < w.old.rows → b < w.old.cols
        → entry (grid_of w.old) a b < factoring.now.m }
    ensures loan { loan_of w.new ≡ loan_of w.old }
    ensures part { IsPart w.new }
    ensures kept { IsKept w.old w.new }
    ensures residues { (a b : ℕ) → a < w.old.rows → b < w.old.cols
        → entry (grid_of w.new) a b < factoring.now.m }
    ensures outcome { IsSearched factoring.now.m w.old.rows factoring.now.kind 0 w.old.rows
        (entry (grid_of w.old)) (entry (grid_of w.new)) result }
{
    find_with(factoring, w, &mut [0; FEW_NUMBERS])
}

/// The same for a part of at most `MANY_ROWS` rows.
pub(crate) fn find_many(factoring: &Factoring, w: &mut PartMut<'_>) -> Result<(), BadPivot>
    requires part { IsPart w.old }
    requires square { w.old.rows ≡ w.old.cols }
    requires many { w.old.rows ≤ MANY_ROWS }
    requires residues { (a b : ℕ) → a < w.old.rows → b < w.old.cols
        → entry (grid_of w.old) a b < factoring.now.m }
    ensures loan { loan_of w.new ≡ loan_of w.old }
    ensures part { IsPart w.new }
    ensures kept { IsKept w.old w.new }
    ensures residues { (a b : ℕ) → a < w.old.rows → b < w.old.cols
        → entry (grid_of w.new) a b < factoring.now.m }
    ensures outcome { IsSearched factoring.now.m w.old.rows factoring.now.kind 0 w.old.rows
        (entry (grid_of w.old)) (entry (grid_of w.new)) result }
{
    find_with(factoring, w, &mut [0; MANY_NUMBERS])
}
