//! A row of the factors L * U in a piece of columns.
//!
//! The columns of a piece are copied into a panel as they are found, each as a line of numbers side by side, so that a row of
//! the part meets them as sums of products along rows.

ghost use Rattle.std.specs.Prelude.{◌≡◌, ℕ, ◌+◌, ◌*◌, ◌<◌, ◌≤◌, length, slice_index};
ghost use Rattle.residue_sums.specs.Residues.{Cong};
ghost use Rattle.residue_sums.specs.Grids.{entry};
ghost use Rattle.matrix_parts.specs.Lent.{grid_of, loan_of, IsPart, IsKept};
ghost use Rattle.part_factors.specs.declared.factoring.FactorKind.TheVariants.{Lu};
ghost use Rattle.part_factors.specs.ColumnFactors.{IsRowFound};
ghost use Rattle.part_factors.specs.PanelRows.{in_panel};

use crate::panel_rows::{RowPiece, copy_row, row_values};
use matrix_parts::PartMut;
use row_products::{Panel, Reducer};

/// Finds the entries of one row in a piece, and copies them into the panel where later rows read them.
pub(crate) fn find_row(
    m: Reducer,
    w: &mut PartMut<'_>,
    at: RowPiece,
    panel: &mut [u64],
    inverses: &[u64],
    values: &mut [u64],
)
    requires part { IsPart w.old }
    requires square { w.old.rows ≡ w.old.cols }
    requires row_in { at.row < w.old.rows }
    requires within { at.from + length values.old ≤ w.old.cols }
    requires height { at.from + length values.old ≤ at.height }
    requires pivots { length inverses.now ≡ length values.old }
    requires lines { length panel.old ≡ length values.old * at.height }
    requires residues { (a b : ℕ) → a < w.old.rows → b < w.old.cols
        → entry (grid_of w.old) a b < m }
    requires small_inverses { (j : ℕ) → j < length inverses.now → slice_index inverses.now j < m }
    requires inverts { (j : ℕ) → j < length inverses.now → at.from + j < at.row
        → Cong m (entry (grid_of w.old) (at.from + j) (at.from + j)
        * slice_index inverses.now j) 1 }
    requires copied { (j k : ℕ) → j < length values.old → k < at.row
        → k < at.from + length values.old
        → in_panel panel.old at.height 0 j k ≡ entry (grid_of w.old) k (at.from + j) }
    ensures loan { loan_of w.new ≡ loan_of w.old }
    ensures part { IsPart w.new }
    ensures kept { IsKept w.old w.new }
    ensures residues { (a b : ℕ) → a < w.old.rows → b < w.old.cols
        → entry (grid_of w.new) a b < m }
    ensures found { IsRowFound m w.old.rows Lu at.row at.from
        (at.from + length values.old) (entry (grid_of w.old)) (entry (grid_of w.new)) }
    ensures copied { (j k : ℕ) → j < length values.old → k < at.row + 1
        → k < at.from + length values.old
        → in_panel panel.new at.height 0 j k ≡ entry (grid_of w.new) k (at.from + j) }
{
    let _rows = w.rows();
    {
        let part = w.as_part();
        let lines = Panel {
            entries: panel,
            height: at.height,
            from: at.from as usize,
        };
        row_values(
            m,
            part.row(at.row),
            at.row as usize,
            lines,
            inverses,
            values,
        );
    }
    w.write_row(at.row, at.from, values);
    copy_row(panel, at, values);
}
