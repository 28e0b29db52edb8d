//! Residues that are added to entries of a part, or subtracted from them.

ghost use Rattle.std.specs.Prelude.{◌≡◌, ◌≢◌, ◌⊎◌, ℕ, ◌+◌, ◌<◌, ◌≤◌, length, slice_index};
ghost use Rattle.residue_sums.specs.Grids.{entry};
ghost use Rattle.structure_rules.specs.Structures.{IsInside, IsZero};
ghost use Rattle.matrix_parts.specs.Lent.{grid_of, loan_of, IsPart, IsKept};
ghost use Rattle.part_updates.specs.Changes.{added};

use matrix_parts::PartMut;
use row_products::Reducer;
use structure_rules::Structure;

/// What happens to the entries of a structure: residues modulo m are added, or subtracted.
#[derive(Clone, Copy, Debug)]
pub(crate) struct Change {
    pub(crate) m: Reducer,
    pub(crate) minus: bool,
    pub(crate) inside: Structure,
}

/// The sum of two residues, or their difference.
fn changed(change: &Change, a: u64, b: u64) -> u64
    requires first { a < change.now.m }
    requires second { b < change.now.m }
    ensures value { result ≡ added change.now.m change.now.minus a b }
    ensures range { result < change.now.m }
{
    if change.minus {
        change.m.modulus().sub(a, b)
    } else {
        change.m.modulus().add(a, b)
    }
}

/// Changes the entry in row i and column j where it is inside.
fn change_entry(change: &Change, w: &mut PartMut<'_>, i: u32, j: u32, residue: u64)
    requires part { IsPart w.old }
    requires row_in { i < w.old.rows }
    requires col_in { j < w.old.cols }
    requires old { entry (grid_of w.old) i j < change.now.m }
    requires residue { residue < change.now.m }
    ensures loan { loan_of w.new ≡ loan_of w.old }
    ensures part { IsPart w.new }
    ensures kept { IsKept w.old w.new }
    ensures here { IsInside change.now.inside i j
        → entry (grid_of w.new) i j ≡ added change.now.m change.now.minus (entry (grid_of w.old) i j) residue }
    ensures range { entry (grid_of w.new) i j < change.now.m }
    ensures zero { IsZero change.now.inside i j
        → entry (grid_of w.new) i j ≡ entry (grid_of w.old) i j }
    ensures others { (a b : ℕ) → a < w.old.rows → b < w.old.cols → (a ≢ i) ⊎ (b ≢ j)
        → entry (grid_of w.new) a b ≡ entry (grid_of w.old) a b }
{
    if change.inside.inside(i, j) {
        let value = changed(change, w.get(i, j), residue);
        w.set(i, j, value);
    }
}

/// Changes the entries of row i from a column on where they are inside, each by its residue.
pub(crate) fn change_row(change: &Change, w: &mut PartMut<'_>, i: u32, from: u32, residues: &[u64])
    requires part { IsPart w.old }
    requires row_in { i < w.old.rows }
    requires within { from + length residues.now ≤ w.old.cols }
    requires old { (j : ℕ) → j < length residues.now
        → entry (grid_of w.old) i (from + j) < change.now.m }
    requires residues { (j : ℕ) → j < length residues.now
        → slice_index residues.now j < change.now.m }
    ensures loan { loan_of w.new ≡ loan_of w.old }
    ensures part { IsPart w.new }
    ensures kept { IsKept w.old w.new }
    ensures here { (j : ℕ) → j < length residues.now → IsInside change.now.inside i (from + j)
        → entry (grid_of w.new) i (from + j)
        ≡ added change.now.m change.now.minus (entry (grid_of w.old) i (from + j)) (slice_index residues.now j) }
    ensures range { (j : ℕ) → j < length residues.now
        → entry (grid_of w.new) i (from + j) < change.now.m }
    ensures zero { (j : ℕ) → j < length residues.now → IsZero change.now.inside i (from + j)
        → entry (grid_of w.new) i (from + j) ≡ entry (grid_of w.old) i (from + j) }
    ensures others { (a b : ℕ) → a < w.old.rows → b < w.old.cols
        → (a ≢ i) ⊎ ((b < from) ⊎ (from + length residues.now ≤ b))
        → entry (grid_of w.new) a b ≡ entry (grid_of w.old) a b }
{
    let _cols = w.cols();
    for j in 0..residues.len() {
        change_entry(change, w, i, from + j as u32, residues[j]);
    }
}
