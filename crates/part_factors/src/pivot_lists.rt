//! The inverses of pivots, in a block of their own, or the first pivot that has none.

ghost use Rattle.std.specs.Prelude.{◌≡◌, ◌↔◌, ℕ, ◌+◌, ◌*◌, ◌<◌, OnOk, Err};
ghost use Rattle.residue_sums.specs.Grids.{AreResidues, entry};
ghost use Rattle.matrix_parts.specs.Opers.{op_rows, op_cols, op_table, IsOper};
ghost use Rattle.matrix_parts.specs.Lent.{grid_of, loan_of, IsPart, IsKept};
ghost use Rattle.equation.specs.Kernels.{AreInverses};
ghost use Rattle.equation.specs.Pivots.{IsFirstOnDiagonal};
ghost use Rattle.part_factors.specs.declared.bad_pivot.BadPivot.{BadPivot};
ghost use Rattle.part_factors.specs.BadPlaces.{place_of};

use crate::bad_pivot::BadPivot;
use field_word::Modulus;
use matrix_parts::{Oper, PartMut};

/// The entry of row i on the diagonal of an operand.
pub(crate) fn diagonal_entry(m: Modulus, t: &Oper<'_>, i: u32) -> u64
    requires oper { IsOper t.now }
    requires row_in { i < op_rows t.now }
    requires col_in { i < op_cols t.now }
    requires residues { AreResidues m t.now.part }
    ensures value { result ≡ op_table t.now i i }
    ensures range { result < m }
{
    let _modulus = m.value();
    let _rows = t.part.rows();
    t.get(i, i)
}

/// Writes the inverses of the n diagonal entries of t into `out`, one row of n, or names the first of them that is no unit
/// modulo m. What an error leaves in `out` is open.
pub fn pivots(m: Modulus, t: Oper<'_>, out: &mut PartMut<'_>) -> Result<(), BadPivot>
    requires part { IsPart out.old }
    requires oper { IsOper t }
    requires one_row { out.old.rows ≡ 1 }
    requires rows { op_rows t ≡ out.old.cols }
    requires cols { op_cols t ≡ out.old.cols }
    requires factor { AreResidues m t.part }
    ensures loan { loan_of out.new ≡ loan_of out.old }
    ensures part { IsPart out.new }
    ensures kept { IsKept out.old out.new }
    ensures inverses { OnOk result (AreInverses m (op_table t.entry) (grid_of out.old)
        (grid_of out.new)) }
    ensures bad_pivot { (place : BadPivot) → (result ≡ Err place)
        ↔ IsFirstOnDiagonal m out.old.cols (λ i. op_table t.entry i i) (place_of place) }
{
    let _modulus = m.value();
    for i in 0..out.cols() {
        match m.inverse(diagonal_entry(m, &t, i)) {
            Some(inverse) => {
                out.set(0, i, inverse);
            }
            None => return Err(BadPivot { row: i, col: i }),
        }
    }
    Ok(())
}
