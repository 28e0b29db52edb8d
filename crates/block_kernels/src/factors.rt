//! The solves of a block in the forms that find factors: of a diagonal block its factors, of any other a solve with those of a
//! diagonal block.

ghost use Rattle.std.specs.Prelude.{◌≡◌, ◌<◌, ◌≤◌, ◌+◌, ◌*◌, ◌^◌, length};
ghost use Rattle.operation_spec.specs.declared.operation.Form.TheVariants.{Lu, Ldl};
ghost use Rattle.operation_spec.specs.declared.task.Kind.TheVariants as kinds;
ghost use Rattle.matrix_parts.specs.Lent.{grid_of, loan_of, IsPart, IsKept};
ghost use Rattle.block_kernels.specs.Outcomes.{IsDone, IsOutcome};
ghost use Rattle.block_kernels.specs.Ready.{CanApply};

use crate::block_task::BlockTask;
use crate::lists::no_inverses;
use crate::pivot_rows::write_unit_inverses;
use equation::Place;
use kernel_lib::{BadPivot, factor_ldl, factor_lu, solve_left, solve_right, solve_right_ldl};
use matrix_parts::{PartMut, part_of_slice};
use structure_rules::Structure;

impl BlockTask<'_> {
    /// A place of the block that the task writes, as one of the whole matrix.
    fn whole_place(&self, bad: BadPivot) -> Place
        requires row { self.now.task.i * self.now.b + bad.row < 2 ^ 32 }
        requires col { self.now.task.j * self.now.b + bad.col < 2 ^ 32 }
        ensures row { result.row ≡ self.now.task.i * self.now.b + bad.row }
        ensures col { result.col ≡ self.now.task.j * self.now.b + bad.col }
    {
        Place {
            row: self.task.i * self.b + bad.row,
            col: self.task.j * self.b + bad.col,
        }
    }

    /// Factors a diagonal block into L and U, or answers the first bad pivot.
    fn factor_lu(&self, w: &mut PartMut<'_>) -> Option<Place>
        requires kind { self.now.task.kind ≡ kinds.Solve }
        requires part { IsPart w.old }
        requires can { CanApply self.now (grid_of w.old) }
        requires form { self.now.op.now.form ≡ Lu }
        requires diagonal { self.now.task.i ≡ self.now.task.j }
        ensures loan { loan_of w.new ≡ loan_of w.old }
        ensures part { IsPart w.new }
        ensures kept { IsKept w.old w.new }
        ensures outcome { IsOutcome self.now (grid_of w.old) (grid_of w.new) result }
    {
        match factor_lu(self.m, w) {
            Ok(()) => None,
            Err(bad) => Some(self.whole_place(bad)),
        }
    }

    /// Solves `L * X = block` with the L of the diagonal block of its row.
    fn solve_with_l(&self, w: &mut PartMut<'_>)
        requires kind { self.now.task.kind ≡ kinds.Solve }
        requires part { IsPart w.old }
        requires can { CanApply self.now (grid_of w.old) }
        requires form { self.now.op.now.form ≡ Lu }
        requires above { self.now.task.i < self.now.task.j }
        ensures loan { loan_of w.new ≡ loan_of w.old }
        ensures part { IsPart w.new }
        ensures kept { IsKept w.old w.new }
        ensures effect { IsDone self.now (grid_of w.old) (grid_of w.new) }
    {
        let l = self.block(0, Structure::UnitLower, false);
        solve_left(self.m, l, no_inverses(), w, Structure::General);
    }

    /// Solves `X * U = block` with the U of the diagonal block of its column.
    fn solve_with_u(&self, w: &mut PartMut<'_>, room: &mut [u64])
        requires kind { self.now.task.kind ≡ kinds.Solve }
        requires part { IsPart w.old }
        requires can { CanApply self.now (grid_of w.old) }
        requires form { self.now.op.now.form ≡ Lu }
        requires below { self.now.task.j < self.now.task.i }
        requires room { self.now.b ≤ length room.old }
        ensures loan { loan_of w.new ≡ loan_of w.old }
        ensures part { IsPart w.new }
        ensures kept { IsKept w.old w.new }
        ensures effect { IsDone self.now (grid_of w.old) (grid_of w.new) }
    {
        let n = w.cols();
        let row = &mut room[..n as usize];
        let pivots = self.block(0, Structure::Upper, false);
        write_unit_inverses(self.m, pivots, row);
        let inverses = part_of_slice(row, 1, n);
        let u = self.block(0, Structure::Upper, false);
        solve_right(self.m, u, inverses, w, Structure::General);
    }

    /// Solves a block of LU, or factors it.
    pub(crate) fn solve_lu(&self, w: &mut PartMut<'_>, room: &mut [u64]) -> Option<Place>
        requires kind { self.now.task.kind ≡ kinds.Solve }
        requires part { IsPart w.old }
        requires can { CanApply self.now (grid_of w.old) }
        requires form { self.now.op.now.form ≡ Lu }
        requires room { self.now.b ≤ length room.old }
        ensures loan { loan_of w.new ≡ loan_of w.old }
        ensures part { IsPart w.new }
        ensures kept { IsKept w.old w.new }
        ensures outcome { IsOutcome self.now (grid_of w.old) (grid_of w.new) result }
    {
        let (i, j) = (self.task.i, self.task.j);
        if i < j {
            self.solve_with_l(w);
            None
        } else if j < i {
            self.solve_with_u(w, room);
            None
        } else {
            self.factor_lu(w)
        }
    }

    /// Factors a diagonal block into L, D and the transpose of L, or answers the first bad pivot.
    fn factor_ldl(&self, w: &mut PartMut<'_>) -> Option<Place>
        requires kind { self.now.task.kind ≡ kinds.Solve }
        requires part { IsPart w.old }
        requires can { CanApply self.now (grid_of w.old) }
        requires form { self.now.op.now.form ≡ Ldl }
        requires diagonal { self.now.task.i ≡ self.now.task.j }
        ensures loan { loan_of w.new ≡ loan_of w.old }
        ensures part { IsPart w.new }
        ensures kept { IsKept w.old w.new }
        ensures outcome { IsOutcome self.now (grid_of w.old) (grid_of w.new) result }
    {
        match factor_ldl(self.m, w) {
            Ok(()) => None,
            Err(bad) => Some(self.whole_place(bad)),
        }
    }

    /// Solves `X * D * L' = block` with the factors of the diagonal block of its column.
    fn solve_with_d(&self, w: &mut PartMut<'_>, room: &mut [u64])
        requires kind { self.now.task.kind ≡ kinds.Solve }
        requires part { IsPart w.old }
        requires can { CanApply self.now (grid_of w.old) }
        requires form { self.now.op.now.form ≡ Ldl }
        requires below { self.now.task.j < self.now.task.i }
        requires room { self.now.b ≤ length room.old }
        ensures loan { loan_of w.new ≡ loan_of w.old }
        ensures part { IsPart w.new }
        ensures kept { IsKept w.old w.new }
        ensures effect { IsDone self.now (grid_of w.old) (grid_of w.new) }
    {
        let n = w.cols();
        let row = &mut room[..n as usize];
        let pivots = self.block(0, Structure::General, false);
        write_unit_inverses(self.m, pivots, row);
        let inverses = part_of_slice(row, 1, n);
        let f = self.read(0);
        solve_right_ldl(self.m, f, inverses, w);
    }

    /// Solves a block of LDL, or factors it.
    pub(crate) fn solve_ldl(&self, w: &mut PartMut<'_>, room: &mut [u64]) -> Option<Place>
        requires kind { self.now.task.kind ≡ kinds.Solve }
        requires part { IsPart w.old }
        requires can { CanApply self.now (grid_of w.old) }
        requires form { self.now.op.now.form ≡ Ldl }
        requires room { self.now.b ≤ length room.old }
        ensures loan { loan_of w.new ≡ loan_of w.old }
        ensures part { IsPart w.new }
        ensures kept { IsKept w.old w.new }
        ensures outcome { IsOutcome self.now (grid_of w.old) (grid_of w.new) result }
    {
        let (i, j) = (self.task.i, self.task.j);
        if j < i {
            self.solve_with_d(w, room);
            None
        } else {
            self.factor_ldl(w)
        }
    }
}
