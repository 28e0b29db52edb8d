//! The solves of a block with the diagonal blocks of triangular factors.

ghost use Rattle.std.specs.Prelude.{◌≡◌, ◌≤◌, length};
ghost use Rattle.operation_spec.specs.declared.operation.Form.TheVariants.{Left, Right, Sylvester};
ghost use Rattle.operation_spec.specs.declared.task.Kind.TheVariants as kinds;
ghost use Rattle.matrix_parts.specs.Lent.{grid_of, loan_of, IsPart, IsKept};
ghost use Rattle.block_kernels.specs.Outcomes.{IsDone, IsOutcome};
ghost use Rattle.block_kernels.specs.Ready.{CanApply};

use crate::block_task::BlockTask;
use crate::operands::block_structure;
use equation::Place;
use kernel_lib::{solve_left, solve_right, solve_sylvester};
use matrix_parts::PartMut;
use operation_spec::{Factor, Form};

impl BlockTask<'_> {
    /// Solves `op(T) * X = block` with the diagonal block of T.
    fn solve_left(&self, t: Factor, w: &mut PartMut<'_>)
        requires kind { self.now.task.kind ≡ kinds.Solve }
        requires part { IsPart w.old }
        requires can { CanApply self.now (grid_of w.old) }
        requires form { self.now.op.now.form ≡ Left t }
        ensures loan { loan_of w.new ≡ loan_of w.old }
        ensures part { IsPart w.new }
        ensures kept { IsKept w.old w.new }
        ensures effect { IsDone self.now (grid_of w.old) (grid_of w.new) }
    {
        let _modulus = self.m.value();
        let (i, j) = (self.task.i, self.task.j);
        let triangle = self.factor(t, i, i, 0);
        let first = i as usize * self.b as usize;
        let inverses = self.row_inverses(triangle.structure, first, w.rows());
        let inside = block_structure(self.op.work.structure, i, j);
        solve_left(self.m, triangle, inverses, w, inside);
    }

    /// Solves `X * op(U) = block` with the diagonal block of U.
    fn solve_right(&self, u: Factor, w: &mut PartMut<'_>)
        requires kind { self.now.task.kind ≡ kinds.Solve }
        requires part { IsPart w.old }
        requires can { CanApply self.now (grid_of w.old) }
        requires form { self.now.op.now.form ≡ Right u }
        ensures loan { loan_of w.new ≡ loan_of w.old }
        ensures part { IsPart w.new }
        ensures kept { IsKept w.old w.new }
        ensures effect { IsDone self.now (grid_of w.old) (grid_of w.new) }
    {
        let _modulus = self.m.value();
        let (i, j) = (self.task.i, self.task.j);
        let triangle = self.factor(u, j, j, 0);
        let first = j as usize * self.b as usize;
        let inverses = self.row_inverses(triangle.structure, first, w.cols());
        let inside = block_structure(self.op.work.structure, i, j);
        solve_right(self.m, triangle, inverses, w, inside);
    }

    /// Solves `op(T) * X + X * op(U) = block`, or with `-` where `minus` is true, with both diagonal blocks.
    fn solve_sylvester(&self, t: Factor, u: Factor, minus: bool, w: &mut PartMut<'_>)
        requires kind { self.now.task.kind ≡ kinds.Solve }
        requires part { IsPart w.old }
        requires can { CanApply self.now (grid_of w.old) }
        requires form { self.now.op.now.form ≡ Sylvester t u minus }
        ensures loan { loan_of w.new ≡ loan_of w.old }
        ensures part { IsPart w.new }
        ensures kept { IsKept w.old w.new }
        ensures effect { IsDone self.now (grid_of w.old) (grid_of w.new) }
    {
        let _modulus = self.m.value();
        let (i, j) = (self.task.i, self.task.j);
        let first = self.factor(t, i, i, 0);
        let second = self.factor(u, j, j, 1);
        let top = i as usize * self.b as usize;
        let left = j as usize * self.b as usize;
        let inverses = self.list_part(2, top, left, w.rows(), w.cols());
        solve_sylvester(self.m, first, second, minus, inverses, w);
    }

    /// Solves the block or factors it, by the form, or answers the first bad pivot that it meets.
    pub(crate) fn solve(&self, w: &mut PartMut<'_>, room: &mut [u64]) -> Option<Place>
        requires kind { self.now.task.kind ≡ kinds.Solve }
        requires part { IsPart w.old }
        requires can { CanApply self.now (grid_of w.old) }
        requires room { self.now.b ≤ length room.old }
        ensures loan { loan_of w.new ≡ loan_of w.old }
        ensures part { IsPart w.new }
        ensures kept { IsKept w.old w.new }
        ensures outcome { IsOutcome self.now (grid_of w.old) (grid_of w.new) result }
    {
        match self.op.form {
            Form::Assign => None,
            Form::Left { t } => {
                self.solve_left(t, w);
                None
            }
            Form::Right { t } => {
                self.solve_right(t, w);
                None
            }
            Form::Sylvester { t, u, minus } => {
                self.solve_sylvester(t, u, minus, w);
                None
            }
            Form::Lu => self.solve_lu(w, room),
            Form::Ldl => self.solve_ldl(w, room),
        }
    }
}
