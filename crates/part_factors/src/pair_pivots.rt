//! The inverses of the pivots of two triangular operands, one for each pair of diagonal entries, or the first pair that has
//! none.

ghost use Rattle.std.specs.Prelude.{◌≡◌, ◌≢◌, ◌↔◌, ℕ, ◌+◌, ◌*◌, ◌%◌, ◌<◌, OnOk, Err};
ghost use Rattle.residue_sums.specs.Grids.{AreResidues, entry};
ghost use Rattle.matrix_parts.specs.Opers.{op_rows, op_cols, op_table, IsOper};
ghost use Rattle.matrix_parts.specs.Lent.{grid_of, loan_of, IsPart, IsKept};
ghost use Rattle.equation.specs.Kernels.{AreInversesOfPairs};
ghost use Rattle.equation.specs.Pivots.{IsFirstByRows};
ghost use Rattle.part_factors.specs.declared.bad_pivot.BadPivot.{BadPivot};
ghost use Rattle.part_factors.specs.BadPlaces.{place_of, pair_pivots, IsFirstInRow};

use crate::bad_pivot::BadPivot;
use crate::pivot_lists::diagonal_entry;
use field_word::Modulus;
use matrix_parts::{Oper, PartMut};

/// The sum of diagonal entry i of t and diagonal entry j of u, or their difference.
fn pair_pivot(m: Modulus, t: &Oper<'_>, u: &Oper<'_>, minus: bool, i: u32, j: u32) -> u64
    requires opers { IsOper t.now × IsOper u.now }
    requires row_in { (i < op_rows t.now) × (i < op_cols t.now) }
    requires col_in { (j < op_rows u.now) × (j < op_cols u.now) }
    requires residues { AreResidues m t.now.part × AreResidues m u.now.part }
    ensures value { result ≡ pair_pivots m minus (op_table t.now) (op_table u.now) i j }
    ensures range { result < m }
{
    let (first, second) = (diagonal_entry(m, t, i), diagonal_entry(m, u, j));
    if minus {
        m.sub(first, second)
    } else {
        m.add(first, second)
    }
}

/// Writes the inverses of row i, or names the first pivot of the row that is no unit.
fn put_row(
    m: Modulus,
    t: &Oper<'_>,
    u: &Oper<'_>,
    minus: bool,
    i: u32,
    out: &mut PartMut<'_>,
) -> Result<(), BadPivot>
    requires part { IsPart out.old }
    requires opers { IsOper t.now × IsOper u.now }
    requires rows { (op_rows t.now ≡ out.old.rows) × (op_cols t.now ≡ out.old.rows) }
    requires cols { (op_rows u.now ≡ out.old.cols) × (op_cols u.now ≡ out.old.cols) }
    requires row_in { i < out.old.rows }
    requires factors { AreResidues m t.now.part × AreResidues m u.now.part }
    ensures loan { loan_of out.new ≡ loan_of out.old }
    ensures part { IsPart out.new }
    ensures kept { IsKept out.old out.new }
    ensures inverts { OnOk result ((j : ℕ) → j < out.old.cols
        → (pair_pivots m minus (op_table t.now) (op_table u.now) i j * entry (grid_of out.new) i j) % m ≡ 1) }
    ensures range { OnOk result ((j : ℕ) → j < out.old.cols → entry (grid_of out.new) i j < m) }
    ensures others { (a b : ℕ) → a < out.old.rows → b < out.old.cols → a ≢ i
        → entry (grid_of out.new) a b ≡ entry (grid_of out.old) a b }
    ensures bad_pivot { (place : BadPivot) → result ≡ Err place
        → IsFirstInRow m out.old.cols i (pair_pivots m minus (op_table t.now) (op_table u.now)) place }
{
    let _modulus = m.value();
    for j in 0..out.cols() {
        match m.inverse(pair_pivot(m, t, u, minus, i, j)) {
            Some(inverse) => {
                out.set(i, j, inverse);
            }
            None => return Err(BadPivot { row: i, col: j }),
        }
    }
    Ok(())
}

/// Writes into row i and column j of `out` the inverse of the sum of diagonal entry i of t and diagonal entry j of u, or of
/// their difference where `minus` is true, or names the first of them, row by row, that is no unit modulo m. What an error
/// leaves in `out` is open.
pub fn pivots_sylvester(
    m: Modulus,
    t: Oper<'_>,
    u: Oper<'_>,
    minus: bool,
    out: &mut PartMut<'_>,
) -> Result<(), BadPivot>
    requires part { IsPart out.old }
    requires opers { IsOper t × IsOper u }
    requires rows { (op_rows t ≡ out.old.rows) × (op_cols t ≡ out.old.rows) }
    requires cols { (op_rows u ≡ out.old.cols) × (op_cols u ≡ out.old.cols) }
    requires factors { AreResidues m t.part × AreResidues m u.part }
    ensures loan { loan_of out.new ≡ loan_of out.old }
    ensures part { IsPart out.new }
    ensures kept { IsKept out.old out.new }
    ensures inverses { OnOk result
        (AreInversesOfPairs m minus (op_table t.entry) (op_table u.entry) (grid_of out.old) (grid_of out.new)) }
    ensures bad_pivot { (place : BadPivot) → (result ≡ Err place)
        ↔ IsFirstByRows m out.old.rows out.old.cols (pair_pivots m minus (op_table t.entry) (op_table u.entry)) (place_of place) }
{
    let _modulus = m.value();
    for i in 0..out.rows() {
        match put_row(m, &t, &u, minus, i, out) {
            Ok(()) => {}
            Err(place) => return Err(place),
        }
    }
    Ok(())
}
