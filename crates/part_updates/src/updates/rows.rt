//! The sums of three rows of the first factor and of the lines of a panel of the second.

ghost use Rattle.std.specs.Prelude.{◌≡◌, false, min, ℕ, ◌+◌, ◌-◌, ◌*◌, ◌<◌, ◌≤◌, IsTrue, length, slice_index};
ghost use Rattle.structure_rules.specs.declared.Structure.TheVariants.{General};
ghost use Rattle.matrix_parts.specs.Opers.{op_rows, op_cols, op_table, IsOper};
ghost use Rattle.part_updates.specs.Tiles.{IsTile, AreTileSums};

use crate::updates::spans::span_of;
use matrix_parts::Oper;
use operand_lines::fill_lines;
use row_products::{Panel, Reducer, Rows, three_row_sums};
use structure_rules::Structure;

/// Where three rows of a part of a product go: rows from `row` on and `lines` columns from `left` on. The inner numbers go
/// from `inner` on.
#[derive(Clone, Copy, Debug)]
pub(crate) struct Tile {
    pub(crate) row: u32,
    pub(crate) left: u32,
    pub(crate) inner: u32,
    pub(crate) lines: usize,
}

/// How many rows of so many there are from one on, at most three.
pub(crate) fn rows_from(row: u32, rows: u32) -> usize
    requires { row < rows }
    ensures { result ≡ min 3 (rows - row) }
{
    u32::min(3, rows - row) as usize
}

/// Whether the rows of an operand lie side by side as they are.
pub(crate) fn is_plain(a: &Oper<'_>) -> bool
    ensures { IsTrue result → (a.now.structure ≡ General) × (a.now.primed ≡ false) }
{
    a.structure == Structure::General && !a.primed
}

/// Part of row i of an operand that is general and isn't primed, as it lies in the matrix.
fn plain_row<'b>(a: &'b Oper<'_>, i: u32, from: u32, width: usize) -> &'b [u64]
    requires general { a.now.structure ≡ General }
    requires straight { a.now.primed ≡ false }
    requires row_in { i < op_rows a.now }
    requires within { from + width ≤ op_cols a.now }
    ensures len { length result.now ≡ width }
    ensures entries { (k : ℕ) → k < width → slice_index result.now k ≡ op_table a.now i (from + k) }
{
    let start = from as usize;
    &a.part.row(i)[start..start + width]
}

/// Part of line j of rows that lie one behind the other.
pub(crate) fn filled_row(rows: &[u64], j: usize, width: usize) -> &[u64]
    requires { j * width + width ≤ length rows.now }
    ensures len { length result.now ≡ width }
    ensures entries { (k : ℕ) → k < width → slice_index result.now k ≡ slice_index rows.now (j * width + k) }
{
    let start = j * width;
    &rows[start..start + width]
}

/// The sums for an operand whose rows lie side by side as they are.
fn plain_sums(m: Reducer, a: &Oper<'_>, tile: Tile, panel: Panel<'_>, sums: &mut [u64])
    requires general { a.now.structure ≡ General }
    requires straight { a.now.primed ≡ false }
    requires tile { IsTile a.now tile panel }
    requires sizes { length sums.old ≡ 3 * tile.lines }
    ensures sums { AreTileSums m a.now tile panel.entry sums.new }
    ensures range { (p : ℕ) → p < 3 * tile.lines → slice_index sums.new p < m }
{
    let count = rows_from(tile.row, a.rows()) as u32;
    let second = tile.row + u32::min(1, count - 1);
    let third = tile.row + u32::min(2, count - 1);
    let rows = Rows {
        first: plain_row(a, tile.row, tile.inner, panel.height),
        second: plain_row(a, second, tile.inner, panel.height),
        third: plain_row(a, third, tile.inner, panel.height),
    };
    three_row_sums(m, rows, panel, tile.lines, sums);
}

/// The sums for any operand, whose rows are copied first, but for inner numbers at which they are all zero by structure.
fn filled_sums(
    m: Reducer,
    a: &Oper<'_>,
    tile: Tile,
    panel: Panel<'_>,
    rows: &mut [u64],
    sums: &mut [u64],
)
    requires oper { IsOper a.now }
    requires tile { IsTile a.now tile panel }
    requires scratch { 3 * panel.height ≤ length rows.old }
    requires sizes { length sums.old ≡ 3 * tile.lines }
    ensures sums { AreTileSums m a.now tile panel.entry sums.new }
    ensures range { (p : ℕ) → p < 3 * tile.lines → slice_index sums.new p < m }
{
    let _cols = a.cols();
    let count = rows_from(tile.row, a.rows());
    let span = span_of(a, tile.row, count, tile.inner, panel.height);
    let inner = tile.inner + span.begin as u32;
    fill_lines(a, tile.row, inner, span.width, count, rows);
    let lines = Rows {
        first: filled_row(rows, 0, span.width),
        second: filled_row(rows, usize::min(1, count - 1), span.width),
        third: filled_row(rows, usize::min(2, count - 1), span.width),
    };
    let needed = Panel {
        entries: panel.entries,
        height: panel.height,
        from: span.begin,
    };
    three_row_sums(m, lines, needed, tile.lines, sums);
}

/// For three rows of an operand, or as many as are left, and each line of the panel the sum of their products, modulo m.
pub(crate) fn tile_sums(
    m: Reducer,
    a: &Oper<'_>,
    tile: Tile,
    panel: Panel<'_>,
    rows: &mut [u64],
    sums: &mut [u64],
)
    requires oper { IsOper a.now }
    requires tile { IsTile a.now tile panel }
    requires scratch { 3 * panel.height ≤ length rows.old }
    requires sizes { length sums.old ≡ 3 * tile.lines }
    ensures sums { AreTileSums m a.now tile panel.entry sums.new }
    ensures range { (p : ℕ) → p < 3 * tile.lines → slice_index sums.new p < m }
{
    if is_plain(a) {
        plain_sums(m, a, tile, panel, sums);
    } else {
        filled_sums(m, a, tile, panel, rows, sums);
    }
}
