//! A panel of the second factor, and three rows of the first at a time.

ghost use Rattle.std.specs.Prelude.{◌≡◌, min, ℕ, ◌+◌, ◌-◌, ◌*◌, ◌%◌, ◌<◌, ◌≤◌, ◌^◌, length, slice_index};
ghost use Rattle.residue_sums.specs.Grids.{entry};
ghost use Rattle.matrix_parts.specs.Lent.{grid_of, loan_of, IsPart, IsKept};
ghost use Rattle.matrix_parts.specs.Opers.{op_rows, op_cols, op_table, IsOper};
ghost use Rattle.part_updates.specs.Changes.{panel_sum, IsChanged};

use crate::changes::{Change, change_row};
use crate::updates::rows::{Tile, filled_row, rows_from, tile_sums};
use matrix_parts::{Oper, PartMut};
use row_products::Panel;

/// Changes so many rows of a tile by their residues, which stand row behind row.
fn change_tile(change: &Change, w: &mut PartMut<'_>, tile: Tile, count: usize, residues: &[u64])
    requires part { IsPart w.old }
    requires rows_in { tile.row + count ≤ w.old.rows }
    requires cols_in { tile.left + tile.lines ≤ w.old.cols }
    requires sizes { count * tile.lines ≤ length residues.now }
    requires old { (i j : ℕ) → i < w.old.rows → j < w.old.cols → entry (grid_of w.old) i j < change.now.m }
    requires residues { (p : ℕ) → p < count * tile.lines → slice_index residues.now p < change.now.m }
    ensures loan { loan_of w.new ≡ loan_of w.old }
    ensures part { IsPart w.new }
    ensures kept { IsKept w.old w.new }
    ensures changed { IsChanged change.now.m change.now.minus change.now.inside
        (λ i j. slice_index residues.now ((i - tile.row) * tile.lines + (j - tile.left)))
        tile.row (tile.row + count) tile.left (tile.left + tile.lines) (grid_of w.old) (grid_of w.new) }
{
    let _rows = w.rows();
    for r in 0..count {
        change_row(
            change,
            w,
            tile.row + r as u32,
            tile.left,
            filled_row(residues, r, tile.lines),
        );
    }
}

/// Changes up to three rows by the sums of their products with the lines of the panel.
fn update_tile(
    change: &Change,
    w: &mut PartMut<'_>,
    a: &Oper<'_>,
    tile: Tile,
    panel: Panel<'_>,
    scratch: &mut [u64],
)
    requires part { IsPart w.old }
    requires oper { IsOper a.now }
    requires rows { op_rows a.now ≡ w.old.rows }
    requires row_in { tile.row < w.old.rows }
    requires cols_in { tile.left + tile.lines ≤ w.old.cols }
    requires within { tile.inner + panel.height ≤ op_cols a.now }
    requires whole { panel.from ≡ 0 }
    requires few { panel.height < 2 ^ 31 }
    requires room { tile.lines * panel.height ≤ length panel.entries.now }
    requires scratch { 3 * panel.height + 3 * tile.lines ≤ length scratch.old }
    requires old { (i j : ℕ) → i < w.old.rows → j < w.old.cols → entry (grid_of w.old) i j < change.now.m }
    requires small_a { (i k : ℕ) → i < op_rows a.now → k < op_cols a.now → op_table a.now i k < 2 ^ 32 }
    requires small_panel { (j k : ℕ) → j < tile.lines → k < panel.height → slice_index panel.entries.now (j * panel.height + k) < 2 ^ 32 }
    ensures loan { loan_of w.new ≡ loan_of w.old }
    ensures part { IsPart w.new }
    ensures kept { IsKept w.old w.new }
    ensures changed { IsChanged change.now.m change.now.minus change.now.inside
        (λ i j. panel_sum (op_table a.now) i tile.inner panel.entry.entries.now panel.entry.height (j - tile.left) % change.now.m)
        tile.row (tile.row + min 3 (w.old.rows - tile.row)) tile.left (tile.left + tile.lines) (grid_of w.old) (grid_of w.new) }
{
    let (rows, rest) = scratch.split_at_mut(3 * panel.height);
    let sums = &mut rest[..3 * tile.lines];
    tile_sums(change.m, a, tile, panel, rows, sums);
    change_tile(change, w, tile, rows_from(tile.row, w.rows()), sums);
}

/// Changes the columns of a piece by the sums of the products of all rows with the lines of the panel.
pub(crate) fn update_panel(
    change: &Change,
    w: &mut PartMut<'_>,
    a: &Oper<'_>,
    piece: Tile,
    panel: Panel<'_>,
    scratch: &mut [u64],
)
    requires part { IsPart w.old }
    requires oper { IsOper a.now }
    requires rows { op_rows a.now ≡ w.old.rows }
    requires cols_in { piece.left + piece.lines ≤ w.old.cols }
    requires within { piece.inner + panel.height ≤ op_cols a.now }
    requires whole { panel.from ≡ 0 }
    requires few { panel.height < 2 ^ 31 }
    requires room { piece.lines * panel.height ≤ length panel.entries.now }
    requires scratch { 3 * panel.height + 3 * piece.lines ≤ length scratch.old }
    requires old { (i j : ℕ) → i < w.old.rows → j < w.old.cols → entry (grid_of w.old) i j < change.now.m }
    requires small_a { (i k : ℕ) → i < op_rows a.now → k < op_cols a.now → op_table a.now i k < 2 ^ 32 }
    requires small_panel { (j k : ℕ) → j < piece.lines → k < panel.height → slice_index panel.entries.now (j * panel.height + k) < 2 ^ 32 }
    ensures loan { loan_of w.new ≡ loan_of w.old }
    ensures part { IsPart w.new }
    ensures kept { IsKept w.old w.new }
    ensures changed { IsChanged change.now.m change.now.minus change.now.inside
        (λ i j. panel_sum (op_table a.now) i piece.inner panel.entry.entries.now panel.entry.height (j - piece.left) % change.now.m)
        0 w.old.rows piece.left (piece.left + piece.lines) (grid_of w.old) (grid_of w.new) }
{
    for t in 0..w.rows().div_ceil(3) {
        let tile = Tile {
            row: 3 * t,
            left: piece.left,
            inner: piece.inner,
            lines: piece.lines,
        };
        update_tile(change, w, a, tile, panel, scratch);
    }
}
