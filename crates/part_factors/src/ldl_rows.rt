//! A row of the factors L * D * L' in a piece of columns, on and below the diagonal.
//!
//! The panel of a piece has a line for each of its columns: the row of L with the column's number, times D, as numbers side
//! by side, so that later rows meet it as sums of products along rows.

ghost use Rattle.std.specs.Prelude.{◌≡◌, ◌≢◌, ℕ, min, ◌+◌, ◌-◌, ◌*◌, ◌%◌, ◌^◌, ◌<◌, ◌≤◌, length, slice_index};
ghost use Rattle.residue_sums.specs.Residues.{Cong};
ghost use Rattle.residue_sums.specs.Sums.{sum_below};
ghost use Rattle.residue_sums.specs.Grids.{entry};
ghost use Rattle.matrix_parts.specs.Lent.{grid_of, loan_of, IsPart, IsKept};
ghost use Rattle.part_factors.specs.declared.factoring.FactorKind.TheVariants.{Ldl};
ghost use Rattle.part_factors.specs.ColumnFactors.{IsRowFound};
ghost use Rattle.part_factors.specs.PanelRows.{in_panel};

use crate::panel_rows::{RowPiece, product_sum, row_values};
use matrix_parts::PartMut;
use row_products::{Panel, Reducer};

/// Finds the entries of one row in a piece that lie below the diagonal, as many as there are values.
fn find_below(
    m: Reducer,
    w: &mut PartMut<'_>,
    at: RowPiece,
    panel: &[u64],
    inverses: &[u64],
    values: &mut [u64],
)
    requires part { IsPart w.old }
    requires square { w.old.rows ≡ w.old.cols }
    requires row_in { at.row < w.old.rows }
    requires within { at.from + length values.old ≤ at.row }
    requires height { at.row < at.height }
    requires pivots { length values.old ≤ length inverses.now }
    requires lines { length values.old * at.height ≤ length panel.now }
    requires residues { (a b : ℕ) → a < w.old.rows → b < w.old.cols
        → entry (grid_of w.old) a b < m }
    requires small_inverses { (j : ℕ) → j < length inverses.now → slice_index inverses.now j < m }
    requires inverts { (j : ℕ) → j < length values.old
        → Cong m (entry (grid_of w.old) (at.from + j) (at.from + j)
        * slice_index inverses.now j) 1 }
    requires scaled { (j k : ℕ) → j < length values.old → k < at.from + j
        → in_panel panel.now at.height 0 j k
        ≡ entry (grid_of w.old) k k * entry (grid_of w.old) (at.from + j) k % m }
    ensures loan { loan_of w.new ≡ loan_of w.old }
    ensures part { IsPart w.new }
    ensures kept { IsKept w.old w.new }
    ensures residues { (a b : ℕ) → a < w.old.rows → b < w.old.cols
        → entry (grid_of w.new) a b < m }
    ensures found { IsRowFound m w.old.rows Ldl at.row at.from
        (at.from + length values.old) (entry (grid_of w.old)) (entry (grid_of w.new)) }
{
    let _rows = w.rows();
    let _modulus = m.modulus();
    {
        let part = w.as_part();
        let lines = Panel {
            entries: panel,
            height: at.height,
            from: at.from as usize,
        };
        row_values(
            m,
            part.row(at.row),
            at.row as usize,
            lines,
            inverses,
            values,
        );
    }
    w.write_row(at.row, at.from, values);
}

/// Fills the line of a row of the piece's own diagonal: the row of L, times D.
fn fill_line(m: Reducer, w: &PartMut<'_>, at: RowPiece, panel: &mut [u64])
    requires part { IsPart w.now }
    requires square { w.now.rows ≡ w.now.cols }
    requires row_in { at.row < w.now.rows }
    requires begun { at.from ≤ at.row }
    requires height { at.row < at.height }
    requires line { (at.row - at.from + 1) * at.height ≤ length panel.old }
    requires residues { (a b : ℕ) → a < w.now.rows → b < w.now.cols
        → entry (grid_of w.now) a b < m }
    ensures here { (k : ℕ) → k < at.row → in_panel panel.new at.height 0 (at.row - at.from) k
        ≡ entry (grid_of w.now) k k * entry (grid_of w.now) at.row k % m }
    ensures others { (j k : ℕ) → k < at.height → j ≢ at.row - at.from
        → in_panel panel.new at.height 0 j k ≡ in_panel panel.old at.height 0 j k }
{
    let _modulus = m.modulus();
    let _rows = w.rows();
    let start = (at.row - at.from) as usize * at.height;
    for k in 0..at.row {
        panel[start + k as usize] = m.product(w.get(k, k), w.get(at.row, k));
    }
}

/// What is left of entry i of a row without the products of the entries before it and of a line.
fn diagonal_value(m: Reducer, row: &[u64], i: usize, line: &[u64]) -> u64
    requires within { i < length row.now }
    requires len { length line.now ≡ i }
    requires few { i < 2 ^ 31 }
    requires small_row { (k : ℕ) → k < length row.now → slice_index row.now k < m }
    requires small_line { (k : ℕ) → k < i → slice_index line.now k < m }
    ensures value { Cong m
        (sum_below (λ k. slice_index row.now k * slice_index line.now k) i + result)
        (slice_index row.now i) }
    ensures range { result < m }
{
    let modulus = m.modulus();
    let sum = product_sum(m, &row[..i], line);
    modulus.sub(row[i], sum)
}

/// Finds the diagonal entry of a row, of which the entries before it are found, and of which the line has the row times D.
fn find_diagonal(m: Reducer, w: &mut PartMut<'_>, row: u32, line: &[u64])
    requires part { IsPart w.old }
    requires square { w.old.rows ≡ w.old.cols }
    requires row_in { row < w.old.rows }
    requires len { length line.now ≡ row }
    requires few { row < 2 ^ 31 }
    requires residues { (a b : ℕ) → a < w.old.rows → b < w.old.cols
        → entry (grid_of w.old) a b < m }
    requires scaled { (k : ℕ) → k < row
        → slice_index line.now k ≡ entry (grid_of w.old) k k * entry (grid_of w.old) row k % m }
    ensures loan { loan_of w.new ≡ loan_of w.old }
    ensures part { IsPart w.new }
    ensures kept { IsKept w.old w.new }
    ensures residues { (a b : ℕ) → a < w.old.rows → b < w.old.cols
        → entry (grid_of w.new) a b < m }
    ensures found { IsRowFound m w.old.rows Ldl row row (row + 1)
        (entry (grid_of w.old)) (entry (grid_of w.new)) }
{
    let _modulus = m.modulus();
    let _rows = w.rows();
    let value = diagonal_value(m, w.as_part().row(row), row as usize, line);
    w.set(row, row, value);
}

/// Finds the diagonal entry of a row and fills its line, where it is in a piece of so many columns.
fn close_row(m: Reducer, w: &mut PartMut<'_>, at: RowPiece, panel: &mut [u64], width: usize)
    requires part { IsPart w.old }
    requires square { w.old.rows ≡ w.old.cols }
    requires row_in { at.row < w.old.rows }
    requires few { w.old.rows < 2 ^ 31 }
    requires begun { at.from ≤ at.row }
    requires height { at.from + width ≤ at.height }
    requires lines { length panel.old ≡ width * at.height }
    requires residues { (a b : ℕ) → a < w.old.rows → b < w.old.cols
        → entry (grid_of w.old) a b < m }
    requires scaled { (j k : ℕ) → j < width → at.from + j < at.row → k < at.from + j
        → in_panel panel.old at.height 0 j k
        ≡ entry (grid_of w.old) k k * entry (grid_of w.old) (at.from + j) k % m }
    ensures loan { loan_of w.new ≡ loan_of w.old }
    ensures part { IsPart w.new }
    ensures kept { IsKept w.old w.new }
    ensures residues { (a b : ℕ) → a < w.old.rows → b < w.old.cols
        → entry (grid_of w.new) a b < m }
    ensures found { IsRowFound m w.old.rows Ldl at.row
        (min at.row (at.from + width)) (at.from + width)
        (entry (grid_of w.old)) (entry (grid_of w.new)) }
    ensures scaled { (j k : ℕ) → j < width → at.from + j < at.row + 1 → k < at.from + j
        → in_panel panel.new at.height 0 j k
        ≡ entry (grid_of w.new) k k * entry (grid_of w.new) (at.from + j) k % m }
{
    let _rows = w.rows();
    let line = (at.row - at.from) as usize;
    if line < width {
        fill_line(m, w, at, panel);
        let lines = Panel {
            entries: panel,
            height: at.height,
            from: 0,
        };
        find_diagonal(m, w, at.row, lines.line(line, at.row as usize));
    }
}

/// Finds the entries of one row in a piece, on and below the diagonal, and the line of the row where later rows meet it.
pub(crate) fn find_row(
    m: Reducer,
    w: &mut PartMut<'_>,
    at: RowPiece,
    panel: &mut [u64],
    inverses: &[u64],
    values: &mut [u64],
)
    requires part { IsPart w.old }
    requires square { w.old.rows ≡ w.old.cols }
    requires row_in { at.row < w.old.rows }
    requires few { w.old.rows < 2 ^ 31 }
    requires begun { at.from ≤ at.row }
    requires within { at.from + length values.old ≤ w.old.cols }
    requires height { w.old.cols ≤ at.height }
    requires pivots { length inverses.now ≡ length values.old }
    requires lines { length panel.old ≡ length values.old * at.height }
    requires residues { (a b : ℕ) → a < w.old.rows → b < w.old.cols
        → entry (grid_of w.old) a b < m }
    requires small_inverses { (j : ℕ) → j < length inverses.now → slice_index inverses.now j < m }
    requires inverts { (j : ℕ) → j < length inverses.now → at.from + j < at.row
        → Cong m (entry (grid_of w.old) (at.from + j) (at.from + j)
        * slice_index inverses.now j) 1 }
    requires scaled { (j k : ℕ) → j < length values.old → at.from + j < at.row → k < at.from + j
        → in_panel panel.old at.height 0 j k
        ≡ entry (grid_of w.old) k k * entry (grid_of w.old) (at.from + j) k % m }
    ensures loan { loan_of w.new ≡ loan_of w.old }
    ensures part { IsPart w.new }
    ensures kept { IsKept w.old w.new }
    ensures residues { (a b : ℕ) → a < w.old.rows → b < w.old.cols
        → entry (grid_of w.new) a b < m }
    ensures found { IsRowFound m w.old.rows Ldl at.row at.from
        (at.from + length values.old) (entry (grid_of w.old)) (entry (grid_of w.new)) }
    ensures scaled { (j k : ℕ) → j < length values.old → at.from + j < at.row + 1 → k < at.from + j
        → in_panel panel.new at.height 0 j k
        ≡ entry (grid_of w.new) k k * entry (grid_of w.new) (at.from + j) k % m }
{
    let _rows = w.rows();
    let width = values.len();
    let reach = usize::min((at.row - at.from) as usize, width);
    find_below(m, w, at, panel, inverses, &mut values[..reach]);
    close_row(m, w, at, panel, width);
}
