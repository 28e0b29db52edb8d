//! Systems with packed factors L and D on the right, solved in place.

ghost use Rattle.std.specs.Prelude.{◌≡◌, ◌≢◌, ◌⊎◌, ℕ, ◌*◌, ◌%◌, ◌<◌};
ghost use Rattle.residue_sums.specs.Grids.{AreResidues, entry};
ghost use Rattle.matrix_parts.specs.Lent.{grid_of, loan_of, IsPart, IsKept};
ghost use Rattle.equation.specs.Kernels.{IsSolvedRightLdl};
ghost use Rattle.part_solves.specs.Conditions.{HasInverses};

use crate::solves::solve_right;
use field_word::Modulus;
use matrix_parts::{Oper, Part, PartMut};
use row_products::Reducer;
use structure_rules::Structure;

/// Multiplies each entry of row i by the number that stands in its column of one row of scales.
fn scale_row(m: Reducer, w: &mut PartMut<'_>, i: u32, scales: &Part<'_>)
    requires part { IsPart w.old }
    requires row_in { i < w.old.rows }
    requires one_row { scales.now.rows ≡ 1 }
    requires cols { scales.now.cols ≡ w.old.cols }
    requires residues { (b : ℕ) → b < w.old.cols → entry (grid_of w.old) i b < m }
    requires scales { (b : ℕ) → b < w.old.cols → entry scales.now 0 b < m }
    ensures loan { loan_of w.new ≡ loan_of w.old }
    ensures part { IsPart w.new }
    ensures kept { IsKept w.old w.new }
    ensures here { (b : ℕ) → b < w.old.cols
        → entry (grid_of w.new) i b ≡ (entry (grid_of w.old) i b * entry scales.now 0 b) % m }
    ensures others { (a b : ℕ) → a < w.old.rows → b < w.old.cols → a ≢ i
        → entry (grid_of w.new) a b ≡ entry (grid_of w.old) a b }
{
    let _modulus = m.modulus();
    for j in 0..w.cols() {
        let scaled = m.product(w.get(i, j), scales.get(0, j));
        w.set(i, j, scaled);
    }
}

/// Multiplies each column by its number in one row of scales.
fn scale_columns(m: Reducer, w: &mut PartMut<'_>, scales: &Part<'_>)
    requires part { IsPart w.old }
    requires one_row { scales.now.rows ≡ 1 }
    requires cols { scales.now.cols ≡ w.old.cols }
    requires residues { (a b : ℕ) → a < w.old.rows → b < w.old.cols
        → entry (grid_of w.old) a b < m }
    requires scales { (b : ℕ) → b < w.old.cols → entry scales.now 0 b < m }
    ensures loan { loan_of w.new ≡ loan_of w.old }
    ensures part { IsPart w.new }
    ensures kept { IsKept w.old w.new }
    ensures scaled { (a b : ℕ) → a < w.old.rows → b < w.old.cols
        → entry (grid_of w.new) a b ≡ (entry (grid_of w.old) a b * entry scales.now 0 b) % m }
{
    for i in 0..w.rows() {
        scale_row(m, w, i, scales);
    }
}

/// Solves `X * D * L' = w` in place, for residues modulo m.
///
/// w is k by n. f is n by n and packs L, unit lower, below its diagonal and D on it; its other entries are not read.
/// `inverses` is one row of n with the inverses of f's diagonal.
pub fn solve_right_ldl(m: Modulus, f: Part<'_>, inverses: Part<'_>, w: &mut PartMut<'_>)
    requires part { IsPart w.old }
    requires rows { f.rows ≡ w.old.cols }
    requires cols { f.cols ≡ w.old.cols }
    requires inverses { HasInverses m w.old.cols (entry f) inverses }
    requires residues { AreResidues m (grid_of w.old) }
    requires factor { AreResidues m f }
    ensures loan { loan_of w.new ≡ loan_of w.old }
    ensures part { IsPart w.new }
    ensures kept { IsKept w.old w.new }
    ensures solved { IsSolvedRightLdl m (entry f.entry) (grid_of w.old) (grid_of w.new) }
{
    let _modulus = m.value();
    let lower = Oper {
        part: f,
        structure: Structure::UnitLower,
        primed: true,
    };
    solve_right(m, lower, inverses.reborrow(), w, Structure::General);
    scale_columns(Reducer::new(m), w, &inverses);
}
