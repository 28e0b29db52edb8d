//! Systems with a triangular factor on the left or on the right, solved in place.

ghost use Rattle.std.specs.Prelude.{◌≡◌, ◌≢◌, ◌<◌, ◌⊎◌};
ghost use Rattle.residue_sums.specs.Grids.{AreResidues, entry};
ghost use Rattle.structure_rules.specs.declared.Structure.TheVariants.{General};
ghost use Rattle.structure_rules.specs.Structures.{IsTriangular, IsWorkStructure};
ghost use Rattle.matrix_parts.specs.Opers.{op_rows, op_cols, op_table, IsOper};
ghost use Rattle.matrix_parts.specs.Lent.{grid_of, loan_of, IsPart, IsKept};
ghost use Rattle.equation.specs.Kernels.{IsSolvedLeft, IsSolvedRight};
ghost use Rattle.part_solves.specs.Conditions.{IsUnitTriangle, HasInverses};

use crate::line_systems::LineSystem;
use field_word::Modulus;
use matrix_parts::{Oper, Part, PartMut};
use row_products::Reducer;
use structure_rules::Structure;

/// Solves `t * X = w` in place, on the entries of the structure `inside`, for residues modulo m.
///
/// w is n by k and t is n by n and triangular, with units on its diagonal. `inverses` is one row of n with their inverses; a
/// unit triangular t does not read it.
pub fn solve_left(
    m: Modulus,
    t: Oper<'_>,
    inverses: Part<'_>,
    w: &mut PartMut<'_>,
    inside: Structure,
)
    requires part { IsPart w.old }
    requires oper { IsOper t }
    requires triangular { IsTriangular t.structure }
    requires work { IsWorkStructure inside }
    requires square { inside ≢ General → w.old.rows ≡ w.old.cols }
    requires rows { op_rows t ≡ w.old.rows }
    requires cols { op_cols t ≡ w.old.rows }
    requires inverses { IsUnitTriangle t.structure
        ⊎ HasInverses m w.old.rows (op_table t) inverses }
    requires residues { AreResidues m (grid_of w.old) }
    requires factor { AreResidues m t.part }
    ensures loan { loan_of w.new ≡ loan_of w.old }
    ensures part { IsPart w.new }
    ensures kept { IsKept w.old w.new }
    ensures solved { IsSolvedLeft m inside (op_table t.entry) (grid_of w.old) (grid_of w.new) }
{
    let system = LineSystem {
        reducer: Reducer::new(m),
        table: t,
        inverses,
        inside,
        turned: true,
    };
    system.solve(w);
}

/// Solves `X * t = w` in place, on the entries of the structure `inside`, for residues modulo m.
///
/// w is k by n and t is n by n and triangular, with units on its diagonal. `inverses` is one row of n with their inverses; a
/// unit triangular t does not read it.
pub fn solve_right(
    m: Modulus,
    t: Oper<'_>,
    inverses: Part<'_>,
    w: &mut PartMut<'_>,
    inside: Structure,
)
    requires part { IsPart w.old }
    requires oper { IsOper t }
    requires triangular { IsTriangular t.structure }
    requires work { IsWorkStructure inside }
    requires square { inside ≢ General → w.old.rows ≡ w.old.cols }
    requires rows { op_rows t ≡ w.old.cols }
    requires cols { op_cols t ≡ w.old.cols }
    requires inverses { IsUnitTriangle t.structure
        ⊎ HasInverses m w.old.cols (op_table t) inverses }
    requires residues { AreResidues m (grid_of w.old) }
    requires factor { AreResidues m t.part }
    ensures loan { loan_of w.new ≡ loan_of w.old }
    ensures part { IsPart w.new }
    ensures kept { IsKept w.old w.new }
    ensures solved { IsSolvedRight m inside (op_table t.entry) (grid_of w.old) (grid_of w.new) }
{
    let system = LineSystem {
        reducer: Reducer::new(m),
        table: t.turned(),
        inverses,
        inside,
        turned: false,
    };
    system.solve(w);
}
