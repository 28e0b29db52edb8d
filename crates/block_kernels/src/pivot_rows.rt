//! The inverses of the pivots of a triangular block, in numbers of their own.

ghost use Rattle.std.specs.Prelude.{◌≡◌, ◌↔◌, ◌<◌, ℕ, Err, length, OnOk};
ghost use Rattle.residue_sums.specs.Residues.{IsUnit};
ghost use Rattle.residue_sums.specs.Grids.{AreResidues};
ghost use Rattle.matrix_parts.specs.Opers.{op_cols, op_rows, op_table, IsOper};
ghost use Rattle.equation.specs.Pivots.{IsFirstOnDiagonal};
ghost use Rattle.kernel_lib.specs.BadPivot.{BadPivot};
ghost use Rattle.kernel_lib.specs.BadPlaces.{place_of};
ghost use Rattle.kernel_lib.specs.Conditions.{HasInverses};

use field_word::Modulus;
use kernel_lib::{BadPivot, pivots};
use matrix_parts::{Oper, whole_of};

/// Writes the inverses of the entries on the diagonal of t, or names the first of them that is no unit modulo m.
pub(crate) fn write_inverses(m: Modulus, t: Oper<'_>, row: &mut [u64]) -> Result<(), BadPivot>
    requires oper { IsOper t }
    requires square { op_cols t ≡ op_rows t }
    requires count { length row.old ≡ op_rows t }
    requires factor { AreResidues m t.part }
    ensures inverses { OnOk result (HasInverses m (op_rows t.entry) (op_table t.entry)
        (record { rows = 1; cols = op_rows t.entry; entries = row.new })) }
    ensures bad_pivot { (place : BadPivot) → (result ≡ Err place)
        ↔ IsFirstOnDiagonal m (op_rows t.entry) (λ i. op_table t.entry i i) (place_of place) }
    ensures count { length row.new ≡ length row.old }
{
    let mut out = whole_of(row, 1, t.rows());
    pivots(m, t, &mut out)
}

/// Writes the inverses of the entries on the diagonal of t, which are units.
pub(crate) fn write_unit_inverses(m: Modulus, t: Oper<'_>, row: &mut [u64])
    requires oper { IsOper t }
    requires square { op_cols t ≡ op_rows t }
    requires count { length row.old ≡ op_rows t }
    requires factor { AreResidues m t.part }
    requires units { (i : ℕ) → i < op_rows t → IsUnit m (op_table t i i) }
    ensures inverses { HasInverses m (op_rows t.entry) (op_table t.entry)
        (record { rows = 1; cols = op_rows t.entry; entries = row.new }) }
    ensures count { length row.new ≡ length row.old }
{
    // none of them is named
    let _ = write_inverses(m, t, row);
}
