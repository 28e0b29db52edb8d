//! Factors of a square part in place, column by column and entry by entry: for parts that are larger than a panel, and what the
//! faster way is compared with.

ghost use Rattle.std.specs.Prelude.{◌≡◌, ℕ, ◌+◌, ◌*◌, ◌<◌, ◌≤◌};
ghost use Rattle.residue_sums.specs.Residues.{Cong};
ghost use Rattle.residue_sums.specs.Grids.{entry};
ghost use Rattle.matrix_parts.specs.Lent.{grid_of, loan_of, IsPart, IsKept};
ghost use Rattle.part_factors.specs.declared.factoring.FactorKind.TheVariants.{Lu, Ldl};
ghost use Rattle.part_factors.specs.ColumnFactors.{first_row_of, terms_of, IsRowFound, IsSearched};

use crate::bad_pivot::BadPivot;
use crate::factoring::{FactorKind, Factoring};
use crate::pivots_met::next_scale;
use field_word::Modulus;
use matrix_parts::PartMut;

/// The sum of the other terms in the equation of the entry in row i and column j, of L * U.
#[tactic(auto, using(residue_sums::proofs::Sums::mod_sum_step))]
fn lu_terms(m: Modulus, w: &PartMut<'_>, i: u32, j: u32) -> u64
    requires part { IsPart w.now }
    requires square { w.now.rows ≡ w.now.cols }
    requires row_in { i < w.now.rows }
    requires col_in { j < w.now.cols }
    requires residues { (a b : ℕ) → a < w.now.rows → b < w.now.cols
        → entry (grid_of w.now) a b < m }
    ensures value { Cong m result (terms_of Lu (entry (grid_of w.now)) i j) }
    ensures range { result < m }
{
    let _modulus = m.value();
    let mut sum = 0;
    for k in 0..u32::min(i, j) {
        sum = m.add(sum, m.mul(w.get(i, k), w.get(k, j)));
    }
    sum
}

/// The same of L * D * L'.
fn ldl_terms(m: Modulus, w: &PartMut<'_>, i: u32, j: u32) -> u64
    requires part { IsPart w.now }
    requires square { w.now.rows ≡ w.now.cols }
    requires row_in { i < w.now.rows }
    requires lower { j ≤ i }
    requires residues { (a b : ℕ) → a < w.now.rows → b < w.now.cols
        → entry (grid_of w.now) a b < m }
    ensures value { Cong m result (terms_of Ldl (entry (grid_of w.now)) i j) }
    ensures range { result < m }
{
    let _modulus = m.value();
    let mut sum = 0;
    for k in 0..j {
        let scaled = m.mul(w.get(k, k), w.get(j, k));
        sum = m.add(sum, m.mul(w.get(i, k), scaled));
    }
    sum
}

/// The same of either.
fn other_terms(factoring: &Factoring, w: &PartMut<'_>, i: u32, j: u32) -> u64
    requires part { IsPart w.now }
    requires square { w.now.rows ≡ w.now.cols }
    requires row_in { i < w.now.rows }
    requires col_in { j < w.now.cols }
    requires begun { first_row_of factoring.now.kind j ≤ i }
    requires residues { (a b : ℕ) → a < w.now.rows → b < w.now.cols
        → entry (grid_of w.now) a b < factoring.now.m }
    ensures value { Cong factoring.now.m result
        (terms_of factoring.now.kind (entry (grid_of w.now)) i j) }
    ensures range { result < factoring.now.m }
{
    let m = factoring.m.modulus();
    match factoring.kind {
        FactorKind::Lu => lu_terms(m, w, i, j),
        FactorKind::Ldl => ldl_terms(m, w, i, j),
    }
}

/// Writes the entry in row i and column j. It is multiplied by `scale`: the inverse of its column's pivot below the
/// diagonal, and 1 on it and above.
fn write_entry(factoring: &Factoring, w: &mut PartMut<'_>, i: u32, j: u32, scale: u64)
    requires part { IsPart w.old }
    requires square { w.old.rows ≡ w.old.cols }
    requires row_in { i < w.old.rows }
    requires col_in { j < w.old.cols }
    requires begun { first_row_of factoring.now.kind j ≤ i }
    requires residues { (a b : ℕ) → a < w.old.rows → b < w.old.cols
        → entry (grid_of w.old) a b < factoring.now.m }
    requires scale { scale < factoring.now.m }
    requires lower { j < i → Cong factoring.now.m (entry (grid_of w.old) j j * scale) 1 }
    requires upper { i ≤ j → scale ≡ 1 }
    ensures loan { loan_of w.new ≡ loan_of w.old }
    ensures part { IsPart w.new }
    ensures kept { IsKept w.old w.new }
    ensures residues { (a b : ℕ) → a < w.old.rows → b < w.old.cols
        → entry (grid_of w.new) a b < factoring.now.m }
    ensures found { IsRowFound factoring.now.m w.old.rows factoring.now.kind i j (j + 1)
        (entry (grid_of w.old)) (entry (grid_of w.new)) }
{
    let m = factoring.m.modulus();
    let rest = m.sub(w.get(i, j), other_terms(factoring, w, i, j));
    let value = m.mul(rest, scale);
    w.set(i, j, value);
}

/// Finds column j, from the first of its rows on, or meets its pivot that is no unit.
fn find_column(factoring: &Factoring, w: &mut PartMut<'_>, j: u32) -> Result<(), BadPivot>
    requires part { IsPart w.old }
    requires square { w.old.rows ≡ w.old.cols }
    requires col_in { j < w.old.cols }
    requires residues { (a b : ℕ) → a < w.old.rows → b < w.old.cols
        → entry (grid_of w.old) a b < factoring.now.m }
    ensures loan { loan_of w.new ≡ loan_of w.old }
    ensures part { IsPart w.new }
    ensures kept { IsKept w.old w.new }
    ensures residues { (a b : ℕ) → a < w.old.rows → b < w.old.cols
        → entry (grid_of w.new) a b < factoring.now.m }
    ensures outcome { IsSearched factoring.now.m w.old.rows factoring.now.kind j (j + 1)
        (entry (grid_of w.old)) (entry (grid_of w.new)) result }
{
    let m = factoring.m.modulus();
    let mut scale = 1;
    for i in factoring.first_row(j)..w.rows() {
        write_entry(factoring, w, i, j, scale);
        match next_scale(m, w, i, j, scale) {
            Some(next) => scale = next,
            None => return Err(BadPivot { row: i, col: j }),
        }
    }
    Ok(())
}

/// Finds the factors column by column, or meets the first pivot that is no unit.
pub(crate) fn find_by_columns(factoring: &Factoring, w: &mut PartMut<'_>) -> Result<(), BadPivot>
    requires part { IsPart w.old }
    requires square { w.old.rows ≡ w.old.cols }
    requires residues { (a b : ℕ) → a < w.old.rows → b < w.old.cols
        → entry (grid_of w.old) a b < factoring.now.m }
    ensures loan { loan_of w.new ≡ loan_of w.old }
    ensures part { IsPart w.new }
    ensures kept { IsKept w.old w.new }
    ensures residues { (a b : ℕ) → a < w.old.rows → b < w.old.cols
        → entry (grid_of w.new) a b < factoring.now.m }
    ensures outcome { IsSearched factoring.now.m w.old.rows factoring.now.kind 0 w.old.rows
        (entry (grid_of w.old)) (entry (grid_of w.new)) result }
{
    for j in 0..w.cols() {
        find_column(factoring, w, j)?;
    }
    Ok(())
}
