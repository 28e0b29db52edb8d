//! The factors of a square part in place, without pivoting.

ghost use Rattle.std.specs.Prelude.{◌≡◌, ◌↔◌, ℕ, ◌<◌, Err, OnOk};
ghost use Rattle.residue_sums.specs.Residues.{IsUnit};
ghost use Rattle.residue_sums.specs.Grids.{AreResidues, entry};
ghost use Rattle.matrix_parts.specs.Lent.{grid_of, loan_of, IsPart, IsKept};
ghost use Rattle.equation.specs.Kernels.{IsFactoredLu, IsFactoredLdl};
ghost use Rattle.equation.specs.Pivots.{IsBadForLu, IsBadForLdl};
ghost use Rattle.part_factors.specs.declared.bad_pivot.BadPivot.{BadPivot};
ghost use Rattle.part_factors.specs.ColumnFactors.{IsSearched};

use crate::bad_pivot::BadPivot;
use crate::columns::find_by_columns;
use crate::factoring::{FactorKind, Factoring};
use crate::panel_rows::{FEW_ROWS, MANY_ROWS};
use crate::pieces::{find_few, find_many};
use field_word::Modulus;
use matrix_parts::PartMut;
use row_products::Reducer;

/// Finds the factors by panels where the part isn't too large for one, and else entry by entry.
fn find_factors(m: Modulus, kind: FactorKind, w: &mut PartMut<'_>) -> Result<(), BadPivot>
    requires part { IsPart w.old }
    requires square { w.old.rows ≡ w.old.cols }
    requires residues { (a b : ℕ) → a < w.old.rows → b < w.old.cols
        → entry (grid_of w.old) a b < m }
    ensures loan { loan_of w.new ≡ loan_of w.old }
    ensures part { IsPart w.new }
    ensures kept { IsKept w.old w.new }
    ensures residues { (a b : ℕ) → a < w.old.rows → b < w.old.cols
        → entry (grid_of w.new) a b < m }
    ensures outcome { IsSearched m w.old.rows kind 0 w.old.rows
        (entry (grid_of w.old)) (entry (grid_of w.new)) result }
{
    let factoring = Factoring {
        m: Reducer::new(m),
        kind,
    };
    let rows = w.rows();
    if rows <= FEW_ROWS {
        find_few(&factoring, w)
    } else if rows <= MANY_ROWS {
        find_many(&factoring, w)
    } else {
        find_by_columns(&factoring, w)
    }
}

/// Factors the square part w in place, modulo m and without pivoting: L, whose ones on the diagonal aren't stored, stands
/// below the diagonal, and U on it and above.
///
/// Where a pivot is no unit modulo m, the answer names the first such one, and what the part then holds isn't said.
pub fn factor_lu(m: Modulus, w: &mut PartMut<'_>) -> Result<(), BadPivot>
    requires part { IsPart w.old }
    requires square { w.old.rows ≡ w.old.cols }
    requires residues { AreResidues m (grid_of w.old) }
    ensures loan { loan_of w.new ≡ loan_of w.old }
    ensures part { IsPart w.new }
    ensures kept { IsKept w.old w.new }
    ensures factored { OnOk result (IsFactoredLu m (grid_of w.old) (grid_of w.new)) }
    ensures units { OnOk result ((i : ℕ) → i < w.old.rows → IsUnit m (entry (grid_of w.new) i i)) }
    ensures bad_pivot { (place : BadPivot) → (result ≡ Err place) ↔
        ((place.col ≡ place.row) × (place.row < w.old.rows)
        × IsBadForLu m (entry (grid_of w.old)) place.row) }
{
    let _modulus = m.value();
    find_factors(m, FactorKind::Lu, w)
}

/// Factors the square part w in place, modulo m and without pivoting, into L * D * L': L, whose ones on the diagonal aren't
/// stored, stands below the diagonal, and D on it. No entry above the diagonal is read or written.
///
/// Where a pivot is no unit modulo m, the answer names the first such one, and what the part then holds isn't said.
pub fn factor_ldl(m: Modulus, w: &mut PartMut<'_>) -> Result<(), BadPivot>
    requires part { IsPart w.old }
    requires square { w.old.rows ≡ w.old.cols }
    requires residues { AreResidues m (grid_of w.old) }
    ensures loan { loan_of w.new ≡ loan_of w.old }
    ensures part { IsPart w.new }
    ensures kept { IsKept w.old w.new }
    ensures factored { OnOk result (IsFactoredLdl m (grid_of w.old) (grid_of w.new)) }
    ensures units { OnOk result ((i : ℕ) → i < w.old.rows → IsUnit m (entry (grid_of w.new) i i)) }
    ensures bad_pivot { (place : BadPivot) → (result ≡ Err place) ↔
        ((place.col ≡ place.row) × (place.row < w.old.rows)
        × IsBadForLdl m (entry (grid_of w.old)) place.row) }
{
    let _modulus = m.value();
    find_factors(m, FactorKind::Ldl, w)
}
