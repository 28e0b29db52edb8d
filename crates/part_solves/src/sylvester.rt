//! Systems with a triangular factor on either side, `T * X + X * U` or `T * X - X * U`, solved in place.

ghost use Rattle.std.specs.Prelude.{◌≡◌, ◌≢◌, ◌⊎◌, ℕ, ◌+◌, ◌*◌, ◌%◌, ◌<◌};
ghost use Rattle.residue_sums.specs.Residues.{Cong};
ghost use Rattle.residue_sums.specs.Tables.{Table};
ghost use Rattle.residue_sums.specs.Grids.{AreResidues, entry};
ghost use Rattle.structure_rules.specs.Structures.{IsTriangular};
ghost use Rattle.matrix_parts.specs.Opers.{op_rows, op_cols, op_table, IsOper};
ghost use Rattle.matrix_parts.specs.Lent.{grid_of, loan_of, IsPart, IsKept};
ghost use Rattle.equation.specs.Kernels.{IsSolvedSylvester};
ghost use Rattle.part_solves.specs.Conditions.{HasInversesOfPairs};
ghost use Rattle.part_solves.specs.LineSystems.{IsEquation, order_in};
ghost use Rattle.part_solves.specs.SylvesterSystems.{sign, IsSylvester, IsSylvesterBlock, IsSylvesterTo, AreColumnsSolved};

use crate::line_systems::{Equation, LineSystem, unknown};
use field_word::Modulus;
use matrix_parts::{Oper, Part, PartMut};
use row_products::Reducer;
use structure_rules::Structure;

/// A system on a block whose columns go by one triangular table and whose rows by another.
#[derive(Drop)]
pub(crate) struct SylvesterSystem<'a> {
    /// The factor on the left, and the columns that it reads.
    pub(crate) columns: LineSystem<'a>,
    /// The factor on the right, transposed, and the rows that it reads.
    pub(crate) rows: LineSystem<'a>,
    /// Whether what the rows read is subtracted.
    pub(crate) negative: bool,
    /// The inverses of the pivots, one for each entry of the block.
    pub(crate) inverses: Part<'a>,
}

/// The sum of two residues, or their difference.
pub(crate) fn combined_residues(m: Modulus, negative: bool, a: u64, b: u64) -> u64
    requires first { a < m }
    requires second { b < m }
    ensures value { Cong m result (a + sign m negative * b) }
    ensures range { result < m }
{
    let _value = m.value();
    if negative { m.sub(a, b) } else { m.add(a, b) }
}

impl<'a> SylvesterSystem<'a> {
    /// Solves for one entry: its row's equation and its column's.
    fn solve_entry(&self, w: &mut PartMut<'_>, row: Equation, col: Equation)
        requires ready { IsSylvester self.now }
        requires part { IsPart w.old }
        requires block { IsSylvesterBlock self.now (grid_of w.old) }
        requires row { IsEquation self.now.columns.table row }
        requires col { IsEquation self.now.rows.table col }
        ensures loan { loan_of w.new ≡ loan_of w.old }
        ensures part { IsPart w.new }
        ensures kept { IsKept w.old w.new }
        ensures solved { (before : Table)
            → IsSylvesterTo self.now before (entry (grid_of w.old))
            (order_in self.now.columns.table row.unknown * op_rows self.now.rows.table + order_in self.now.rows.table col.unknown)
            → IsSylvesterTo self.now before (entry (grid_of w.new))
            (order_in self.now.columns.table row.unknown * op_rows self.now.rows.table + order_in self.now.rows.table col.unknown + 1) }
        ensures residues { (a b : ℕ) → a < w.old.rows → b < w.old.cols
            → entry (grid_of w.new) a b < self.now.columns.reducer }
    {
        self.rows.has_residues();
        let m = self.columns.reducer;
        let (i, j) = (row.unknown, col.unknown);
        let left = self.columns.plain_sum(w, j, row);
        let right = self.rows.plain_sum(w, i, col);
        let sum = combined_residues(m.modulus(), self.negative, left, right);
        let value = unknown(m, w.get(i, j), sum, self.inverses.get(i, j));
        w.set(i, j, value);
    }

    /// Solves for the entries of a row.
    fn solve_row(&self, w: &mut PartMut<'_>, row: Equation)
        requires ready { IsSylvester self.now }
        requires part { IsPart w.old }
        requires block { IsSylvesterBlock self.now (grid_of w.old) }
        requires row { IsEquation self.now.columns.table row }
        ensures loan { loan_of w.new ≡ loan_of w.old }
        ensures part { IsPart w.new }
        ensures kept { IsKept w.old w.new }
        ensures solved { (before : Table)
            → IsSylvesterTo self.now before (entry (grid_of w.old)) (order_in self.now.columns.table row.unknown * op_rows self.now.rows.table)
            → IsSylvesterTo self.now before (entry (grid_of w.new))
            (order_in self.now.columns.table row.unknown * op_rows self.now.rows.table + op_rows self.now.rows.table) }
        ensures residues { (a b : ℕ) → a < w.old.rows → b < w.old.cols
            → entry (grid_of w.new) a b < self.now.columns.reducer }
    {
        for r in 0..self.rows.size() {
            self.solve_entry(w, row, self.rows.equation_at(r));
        }
    }

    /// Solves for all entries, one after another.
    pub(crate) fn solve_plainly(&self, w: &mut PartMut<'_>)
        requires ready { IsSylvester self.now }
        requires part { IsPart w.old }
        requires block { IsSylvesterBlock self.now (grid_of w.old) }
        ensures loan { loan_of w.new ≡ loan_of w.old }
        ensures part { IsPart w.new }
        ensures kept { IsKept w.old w.new }
        ensures solved { AreColumnsSolved self.now 0 (op_rows self.now.rows.table) (grid_of w.old)
            (grid_of w.new) }
    {
        for r in 0..self.columns.size() {
            self.solve_row(w, self.columns.equation_at(r));
        }
    }
}

/// Solves `t * X + X * u = w` in place, or `t * X - X * u = w` where `minus` is true, for residues modulo m.
///
/// w is n by k, t is n by n and u k by k, both triangular, and each sum of a diagonal entry of t and one of u, or each
/// difference, is a unit. `inverses` has w's shape, and in row i and column j the inverse for t's entry i and u's entry j.
pub fn solve_sylvester(
    m: Modulus,
    t: Oper<'_>,
    u: Oper<'_>,
    minus: bool,
    inverses: Part<'_>,
    w: &mut PartMut<'_>,
)
    requires part { IsPart w.old }
    requires opers { IsOper t × IsOper u }
    requires triangular { IsTriangular t.structure × IsTriangular u.structure }
    requires rows { op_rows t ≡ w.old.rows }
    requires left { op_cols t ≡ w.old.rows }
    requires cols { op_cols u ≡ w.old.cols }
    requires right { op_rows u ≡ w.old.cols }
    requires inverses { HasInversesOfPairs m w.old.rows w.old.cols minus (op_table t)
        (op_table u) inverses }
    requires residues { AreResidues m (grid_of w.old) }
    requires factors { AreResidues m t.part × AreResidues m u.part }
    ensures loan { loan_of w.new ≡ loan_of w.old }
    ensures part { IsPart w.new }
    ensures kept { IsKept w.old w.new }
    ensures solved { IsSolvedSylvester m minus (op_table t.entry) (op_table u.entry) (grid_of w.old)
        (grid_of w.new) }
{
    let _modulus = m.value();
    let reducer = Reducer::new(m);
    let columns = LineSystem {
        reducer,
        table: t,
        inverses: inverses.reborrow(),
        inside: Structure::General,
        turned: true,
    };
    let rows = LineSystem {
        reducer,
        table: u.turned(),
        inverses: inverses.reborrow(),
        inside: Structure::General,
        turned: false,
    };
    let system = SylvesterSystem {
        columns,
        rows,
        negative: minus,
        inverses,
    };
    system.solve(w);
}
