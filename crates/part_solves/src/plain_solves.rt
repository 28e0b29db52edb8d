//! A triangular system, solved on the lines of a part entry by entry: for lines that are longer than a buffer, and what the
//! faster way is compared with.

ghost use Rattle.std.specs.Prelude.{◌≡◌, ◌≢◌, ℕ, ◌+◌, ◌*◌, ◌%◌, ◌<◌, ◌≤◌, ◌⊎◌};
ghost use Rattle.residue_sums.specs.Sums.{sum_below};
ghost use Rattle.residue_sums.specs.Tables.{oriented};
ghost use Rattle.residue_sums.specs.Grids.{entry};
ghost use Rattle.matrix_parts.specs.Opers.{op_rows, op_table};
ghost use Rattle.matrix_parts.specs.Lent.{grid_of, loan_of, IsPart, IsKept};
ghost use Rattle.part_solves.specs.LineSystems.{IsReadable, IsReady, IsEquation, IsFor, IsInLine, IsSolvedTo, AreLinesSolved, line_table, line_count, order_in};

use crate::line_systems::{Equation, LineSystem, unknown};
use matrix_parts::PartMut;

impl<'a> LineSystem<'a> {
    /// What an equation reads of the other unknowns of a line.
    pub(crate) fn plain_sum(&self, w: &PartMut<'_>, line: u32, e: Equation) -> u64
        requires readable { IsReadable self.now }
        requires equation { IsEquation self.now.table e }
        requires part { IsPart w.now }
        requires system { IsFor self.now (grid_of w.now) }
        requires line_in { line < line_count self.now.turned (grid_of w.now) }
        ensures value { result ≡ sum_below (λ k. op_table self.now.table e.unknown (e.from + k)
            * line_table self.now.turned self.now.inside (entry (grid_of w.now)) line (e.from + k)) e.len % self.now.reducer }
        ensures range { result < self.now.reducer }
    {
        self.has_residues();
        let m = self.reducer.modulus();
        let _value = m.value();
        let lines = self.lines_of(w);
        let mut sum = 0;
        for k in 0..e.len {
            let x = lines.get(line, e.from + k);
            let product = m.mul(self.table.get(e.unknown, e.from + k), x);
            sum = m.add(sum, product);
        }
        sum
    }

    /// Solves an equation on one line.
    fn solve_plain_equation(&self, w: &mut PartMut<'_>, line: u32, e: Equation)
        requires ready { IsReady self.now }
        requires equation { IsEquation self.now.table e }
        requires part { IsPart w.old }
        requires system { IsFor self.now (grid_of w.old) }
        requires line_in { line < line_count self.now.turned (grid_of w.old) }
        ensures loan { loan_of w.new ≡ loan_of w.old }
        ensures part { IsPart w.new }
        ensures kept { IsKept w.old w.new }
        ensures solved { (before : ℕ → ℕ)
            → IsSolvedTo self.now.reducer (op_rows self.now.table) (IsInLine self.now.turned self.now.inside line) (op_table self.now.table)
            (order_in self.now.table) before (line_table self.now.turned self.now.inside (entry (grid_of w.old)) line)
            (order_in self.now.table e.unknown)
            → IsSolvedTo self.now.reducer (op_rows self.now.table) (IsInLine self.now.turned self.now.inside line) (op_table self.now.table)
            (order_in self.now.table) before (line_table self.now.turned self.now.inside (entry (grid_of w.new)) line)
            (order_in self.now.table e.unknown + 1) }
        ensures others { (h k : ℕ) → h < line_count self.now.turned (grid_of w.old)
            → k < op_rows self.now.table
            → (h ≢ line) ⊎ ¬ (IsInLine self.now.turned self.now.inside h k)
            → oriented self.now.turned (entry (grid_of w.new)) h k ≡ oriented self.now.turned (entry (grid_of w.old)) h k }
        ensures residues { (a b : ℕ) → a < w.old.rows → b < w.old.cols
            → entry (grid_of w.new) a b < self.now.reducer }
    {
        let sum = self.plain_sum(w, line, e);
        let right = self.lines_of(w).get(line, e.unknown);
        let value = unknown(self.reducer, right, sum, self.inverse_at(e.unknown));
        self.write_unknown(w, line, e.unknown, value);
    }

    /// Solves the system on one line.
    fn solve_line(&self, w: &mut PartMut<'_>, line: u32)
        requires ready { IsReady self.now }
        requires part { IsPart w.old }
        requires system { IsFor self.now (grid_of w.old) }
        requires line_in { line < line_count self.now.turned (grid_of w.old) }
        ensures loan { loan_of w.new ≡ loan_of w.old }
        ensures part { IsPart w.new }
        ensures kept { IsKept w.old w.new }
        ensures solved { AreLinesSolved self.now line (line + 1) (grid_of w.old) (grid_of w.new) }
    {
        for r in 0..self.size() {
            self.solve_plain_equation(w, line, self.equation_at(r));
        }
    }

    /// Solves the system on all lines of a part.
    pub(crate) fn solve_plainly(&self, w: &mut PartMut<'_>)
        requires ready { IsReady self.now }
        requires part { IsPart w.old }
        requires system { IsFor self.now (grid_of w.old) }
        ensures loan { loan_of w.new ≡ loan_of w.old }
        ensures part { IsPart w.new }
        ensures kept { IsKept w.old w.new }
        ensures solved { AreLinesSolved self.now 0 (line_count self.now.turned (grid_of w.old))
            (grid_of w.old) (grid_of w.new) }
    {
        for line in 0..self.count(w) {
            self.solve_line(w, line);
        }
    }
}
