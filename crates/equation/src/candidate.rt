//! The two sides of a statement's equation, a piece of a row at a time, over a matrix that may be its work matrix
//! afterwards.

ghost use Rattle.std.specs.Prelude.{◌≡◌, ◌≢◌, ℕ, ◌+◌, ◌<◌, length, slice_index, Contains};
ghost use Rattle.structure_rules.specs.declared.Structure.TheVariants.{General};
ghost use Rattle.operation_spec.specs.declared.operation.Form.TheVariants.{Assign, Left, Right, Sylvester, Lu, Ldl};
ghost use Rattle.equation.specs.Candidates.{combined_at, HasPiece, IsCandidate, IsFactor, IsPiece, IsSeen, knowns_of, work_of};
ghost use Rattle.equation.specs.Equations.{left_side, right_side, term_table};

use crate::job::Place;
use crate::row_products::{PIECE, combine, write_ldl, write_product, write_row};
use crate::views::{FactorView, factor_view};
use field_word::Modulus;
use matrix_core::Matrix;
use operation_spec::{Binding, Factor, Form, Operation, Term};
use structure_rules::Structure;

/// A statement, and a matrix that may be its work matrix afterwards.
#[derive(Clone, Copy)]
pub(crate) struct Candidate<'a> {
    pub m: Modulus,
    pub op: &'a Operation,
    pub matrices: &'a [Matrix],
    pub bind: &'a Binding,
    pub after: &'a Matrix,
}

impl Candidate<'_> {
    /// The work matrix.
    pub fn work(&self) -> &Matrix
        requires { IsCandidate self.now }
        ensures { result.now ≡ work_of self.now }
    {
        &self.matrices[self.bind.work as usize]
    }

    /// The matrix of a factor, as it is read.
    pub fn factor(&self, f: Factor) -> FactorView<'_>
        requires candidate { IsCandidate self.now }
        requires known { f.known < length self.now.op.now.knowns }
        ensures { IsFactor self.now f result }
    {
        factor_view(self.m, self.op, self.matrices, self.bind, f)
    }

    /// The candidate itself, read through a structure.
    fn seen(&self, structure: Structure) -> FactorView<'_>
        requires candidate { IsCandidate self.now }
        requires square { structure ≢ General → self.now.after.now.rows ≡ self.now.after.now.cols }
        ensures { IsSeen self.now structure result }
    {
        FactorView {
            matrix: self.after,
            structure,
            primed: false,
        }
    }

    /// Adds a term to entries of a row, or subtracts it.
    fn add_term(&self, out: &mut [u64], term: Term, at: Place)
        requires candidate { IsCandidate self.now }
        requires term { Contains self.now.op.now.terms term }
        requires piece { IsPiece self.now at (length out.old) }
        requires residues { (j : ℕ) → j < length out.old → slice_index out.old j < self.now.m }
        ensures { (j : ℕ) → j < length out.old → slice_index out.new j
            ≡ combined_at self.now.m term.minus (slice_index out.old j) (term_table self.now.m self.now.op.now (knowns_of self.now) term at.row (at.col + j)) }
    {
        let mut product = [0; PIECE];
        let product = &mut product[..out.len()];
        let (first, second) = (self.factor(term.first), self.factor(term.second));
        write_product(self.m, product, &first, &second, at);
        combine(self.m, term.minus, out, product);
    }

    /// Writes entries of a row of the right side.
    pub fn write_right(&self, out: &mut [u64], at: Place)
        requires candidate { IsCandidate self.now }
        requires piece { IsPiece self.now at (length out.old) }
        ensures { HasPiece (right_side self.now.m self.now.op.now (knowns_of self.now)
            (work_of self.now)) at out.new }
    {
        let work = FactorView {
            matrix: self.work(),
            structure: Structure::General,
            primed: false,
        };
        write_row(out, &work, at);
        for term in self.op.terms.as_slice() {
            self.add_term(out, *term, at);
        }
    }

    /// Writes entries of a row of T * X.
    fn write_solved_left(&self, out: &mut [u64], t: Factor, at: Place)
        requires candidate { IsCandidate self.now }
        requires form { self.now.op.now.form ≡ Left t }
        requires piece { IsPiece self.now at (length out.old) }
        ensures { HasPiece (left_side self.now.m self.now.op.now
            (knowns_of self.now) self.now.after.now) at out.new }
    {
        let (t, x) = (self.factor(t), self.seen(self.op.work.structure));
        write_product(self.m, out, &t, &x, at);
    }

    /// Writes entries of a row of X * T.
    fn write_solved_right(&self, out: &mut [u64], t: Factor, at: Place)
        requires candidate { IsCandidate self.now }
        requires form { self.now.op.now.form ≡ Right t }
        requires piece { IsPiece self.now at (length out.old) }
        ensures { HasPiece (left_side self.now.m self.now.op.now
            (knowns_of self.now) self.now.after.now) at out.new }
    {
        let (t, x) = (self.factor(t), self.seen(self.op.work.structure));
        write_product(self.m, out, &x, &t, at);
    }

    /// Writes entries of a row of T * X + X * U, or of T * X - X * U.
    fn write_solved_sylvester(&self, out: &mut [u64], t: Factor, u: Factor, minus: bool, at: Place)
        requires candidate { IsCandidate self.now }
        requires form { self.now.op.now.form ≡ Sylvester t u minus }
        requires piece { IsPiece self.now at (length out.old) }
        ensures { HasPiece (left_side self.now.m self.now.op.now
            (knowns_of self.now) self.now.after.now) at out.new }
    {
        let mut second = [0; PIECE];
        let second = &mut second[..out.len()];
        let (t, u) = (self.factor(t), self.factor(u));
        let x = self.seen(self.op.work.structure);
        write_product(self.m, out, &t, &x, at);
        write_product(self.m, second, &x, &u, at);
        combine(self.m, minus, out, second);
    }

    /// Writes entries of a row of L * U.
    fn write_factored_lu(&self, out: &mut [u64], at: Place)
        requires candidate { IsCandidate self.now }
        requires form { self.now.op.now.form ≡ Lu }
        requires piece { IsPiece self.now at (length out.old) }
        ensures { HasPiece (left_side self.now.m self.now.op.now
            (knowns_of self.now) self.now.after.now) at out.new }
    {
        let (l, u) = (self.seen(Structure::UnitLower), self.seen(Structure::Upper));
        write_product(self.m, out, &l, &u, at);
    }

    /// Writes entries of a row of L * D * L'.
    fn write_factored_ldl(&self, out: &mut [u64], at: Place)
        requires candidate { IsCandidate self.now }
        requires form { self.now.op.now.form ≡ Ldl }
        requires piece { IsPiece self.now at (length out.old) }
        ensures { HasPiece (left_side self.now.m self.now.op.now
            (knowns_of self.now) self.now.after.now) at out.new }
    {
        write_ldl(self.m, out, self.after, at);
    }

    /// Writes entries of a row of X.
    fn write_assigned(&self, out: &mut [u64], at: Place)
        requires candidate { IsCandidate self.now }
        requires form { self.now.op.now.form ≡ Assign }
        requires piece { IsPiece self.now at (length out.old) }
        ensures { HasPiece (left_side self.now.m self.now.op.now
            (knowns_of self.now) self.now.after.now) at out.new }
    {
        let x = self.seen(self.op.work.structure);
        write_row(out, &x, at);
    }

    /// Writes entries of a row of the left side.
    pub fn write_left(&self, out: &mut [u64], at: Place)
        requires candidate { IsCandidate self.now }
        requires piece { IsPiece self.now at (length out.old) }
        ensures { HasPiece (left_side self.now.m self.now.op.now
            (knowns_of self.now) self.now.after.now) at out.new }
    {
        match self.op.form {
            Form::Assign => self.write_assigned(out, at),
            Form::Left { t } => self.write_solved_left(out, t, at),
            Form::Right { t } => self.write_solved_right(out, t, at),
            Form::Sylvester { t, u, minus } => self.write_solved_sylvester(out, t, u, minus, at),
            Form::Lu => self.write_factored_lu(out, at),
            Form::Ldl => self.write_factored_ldl(out, at),
        }
    }
}
