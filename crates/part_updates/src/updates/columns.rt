ghost use Rattle.std.specs.Prelude.{◌≡◌, ℕ, ◌+◌, ◌*◌, ◌<◌, ◌≤◌, ◌^◌, length};
ghost use Rattle.residue_sums.specs.Grids.{AreResidues, entry};
ghost use Rattle.equation.specs.Kernels.{IsUpdated};
ghost use Rattle.matrix_parts.specs.Lent.{grid_of, loan_of, IsPart, IsKept};
ghost use Rattle.matrix_parts.specs.Opers.{op_rows, op_cols, op_table};
ghost use Rattle.part_updates.specs.Changes.{part_product, IsChanged};
ghost use Rattle.part_updates.specs.ProductFactors.{second_table, AreFactors, HaveSmallEntries};

use crate::changes::Change;
use crate::updates::factors::{Factors, Piece, fill_second, needed_of};
use crate::updates::rows::{Tile, is_plain};
use crate::updates::tiles::update_panel;
use matrix_parts::{Oper, PartMut};
use row_products::Panel;

/// The inner numbers of a product from `inner` on, so many.
#[derive(Clone, Copy, Debug)]
struct Depth {
    inner: u32,
    height: usize,
}

/// How many lines of so many numbers have room beside the copies of three rows and the sums of a tile.
fn lines_in(room: usize, height: usize) -> usize
    requires some { 0 < height }
    requires room { 40 * height ≤ room }
    ensures fits { result * height + (3 * height + 3 * result) ≤ room }
    ensures some { 0 < result }
{
    (room - 3 * height) / (height + 3)
}

/// Changes the columns of a piece by a part of a product.
fn update_piece(
    change: &Change,
    w: &mut PartMut<'_>,
    factors: &Factors<'_>,
    piece: Piece,
    room: &mut [u64],
)
    requires part { IsPart w.old }
    requires factors { AreFactors factors.now }
    requires rows { op_rows factors.now.first ≡ w.old.rows }
    requires cols { op_cols factors.now.second ≡ w.old.cols }
    requires cols_in { piece.left + piece.lines ≤ w.old.cols }
    requires within { piece.inner + piece.height ≤ op_cols factors.now.first }
    requires few { piece.height < 2 ^ 31 }
    requires room { piece.lines * piece.height + (3 * piece.height + 3 * piece.lines) ≤ length room.old }
    requires old { (i j : ℕ) → i < w.old.rows → j < w.old.cols → entry (grid_of w.old) i j < change.now.m }
    requires small { HaveSmallEntries factors.now }
    ensures loan { loan_of w.new ≡ loan_of w.old }
    ensures part { IsPart w.new }
    ensures kept { IsKept w.old w.new }
    ensures changed { IsChanged change.now.m change.now.minus change.now.inside
        (part_product change.now.m piece.inner piece.height (op_table factors.now.first) (second_table change.now.m factors.now))
        0 w.old.rows piece.left (piece.left + piece.lines) (grid_of w.old) (grid_of w.new) }
{
    let (panel, scratch) = room.split_at_mut(piece.lines * piece.height);
    fill_second(change.m, factors, piece, panel);
    let tile = Tile {
        row: 0,
        left: piece.left,
        inner: piece.inner,
        lines: piece.lines,
    };
    let entries = Panel {
        entries: panel,
        height: piece.height,
        from: 0,
    };
    update_panel(change, w, &factors.first, tile, entries, scratch);
}

/// Changes the columns of a piece by a part of a product, of whose inner numbers those are left out at which the second factor
/// is zero by structure.
fn update_needed(
    change: &Change,
    w: &mut PartMut<'_>,
    factors: &Factors<'_>,
    piece: Piece,
    room: &mut [u64],
)
    requires part { IsPart w.old }
    requires factors { AreFactors factors.now }
    requires rows { op_rows factors.now.first ≡ w.old.rows }
    requires cols { op_cols factors.now.second ≡ w.old.cols }
    requires cols_in { piece.left + piece.lines ≤ w.old.cols }
    requires within { piece.inner + piece.height ≤ op_cols factors.now.first }
    requires few { piece.height < 2 ^ 31 }
    requires room { piece.lines * piece.height + (3 * piece.height + 3 * piece.lines) ≤ length room.old }
    requires old { (i j : ℕ) → i < w.old.rows → j < w.old.cols → entry (grid_of w.old) i j < change.now.m }
    requires small { HaveSmallEntries factors.now }
    ensures loan { loan_of w.new ≡ loan_of w.old }
    ensures part { IsPart w.new }
    ensures kept { IsKept w.old w.new }
    ensures changed { IsChanged change.now.m change.now.minus change.now.inside
        (part_product change.now.m piece.inner piece.height (op_table factors.now.first) (second_table change.now.m factors.now))
        0 w.old.rows piece.left (piece.left + piece.lines) (grid_of w.old) (grid_of w.new) }
{
    let needed = needed_of(factors, piece);
    update_piece(change, w, factors, needed, room);
}

/// Changes all columns by a part of a product.
fn update_columns(
    change: &Change,
    w: &mut PartMut<'_>,
    factors: &Factors<'_>,
    depth: Depth,
    room: &mut [u64],
)
    requires part { IsPart w.old }
    requires factors { AreFactors factors.now }
    requires rows { op_rows factors.now.first ≡ w.old.rows }
    requires cols { op_cols factors.now.second ≡ w.old.cols }
    requires within { depth.inner + depth.height ≤ op_cols factors.now.first }
    requires few { depth.height < 2 ^ 31 }
    requires some { 0 < depth.height }
    requires room { 40 * depth.height ≤ length room.old }
    requires old { (i j : ℕ) → i < w.old.rows → j < w.old.cols → entry (grid_of w.old) i j < change.now.m }
    requires small { HaveSmallEntries factors.now }
    ensures loan { loan_of w.new ≡ loan_of w.old }
    ensures part { IsPart w.new }
    ensures kept { IsKept w.old w.new }
    ensures changed { IsChanged change.now.m change.now.minus change.now.inside
        (part_product change.now.m depth.inner depth.height (op_table factors.now.first) (second_table change.now.m factors.now))
        0 w.old.rows 0 w.old.cols (grid_of w.old) (grid_of w.new) }
{
    let cols = w.cols();
    let most = lines_in(room.len(), depth.height);
    let mut left = 0;
    while left < cols {
        let lines = usize::min(most, (cols - left) as usize);
        let piece = Piece {
            left,
            lines,
            inner: depth.inner,
            height: depth.height,
        };
        update_needed(change, w, factors, piece, room);
        left += lines as u32;
    }
}

/// The greatest height of a piece whose rows are copied before they are multiplied. It is short, so that a panel has many
/// lines and each copy serves all of them.
const COPIED_HEIGHT: u32 = 256;

/// How high a piece is at most in a buffer of so many numbers.
fn height_in(room: usize, a: &Oper<'_>) -> u32
    requires some { 40 ≤ room }
    requires few { room < 2 ^ 31 }
    ensures some { 0 < result }
    ensures fits { 40 * result ≤ room }
{
    let most = (room / 40) as u32;
    if is_plain(a) {
        most
    } else {
        u32::min(most, COPIED_HEIGHT)
    }
}

/// Adds a product to the entries inside, or subtracts it, in a buffer of at least forty numbers.
pub(crate) fn update_in(
    change: &Change,
    w: &mut PartMut<'_>,
    factors: &Factors<'_>,
    room: &mut [u64],
)
    requires part { IsPart w.old }
    requires factors { AreFactors factors.now }
    requires rows { op_rows factors.now.first ≡ w.old.rows }
    requires cols { op_cols factors.now.second ≡ w.old.cols }
    requires some_room { 40 ≤ length room.old }
    requires little_room { length room.old < 2 ^ 31 }
    requires residues { AreResidues change.now.m (grid_of w.old) }
    requires small { HaveSmallEntries factors.now }
    ensures loan { loan_of w.new ≡ loan_of w.old }
    ensures part { IsPart w.new }
    ensures kept { IsKept w.old w.new }
    ensures updated { IsUpdated change.now.m change.now.minus change.now.inside (op_cols factors.now.first) (op_table factors.now.first) (second_table change.now.m factors.now)
        (grid_of w.old) (grid_of w.new) }
{
    let _modulus = change.m.modulus();
    let all = factors.first.cols();
    let most = height_in(room.len(), &factors.first);
    let mut inner = 0;
    while inner < all {
        let height = u32::min(most, all - inner);
        let depth = Depth {
            inner,
            height: height as usize,
        };
        update_columns(change, w, factors, depth, room);
        inner += height;
    }
}
