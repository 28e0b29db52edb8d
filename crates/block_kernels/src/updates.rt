//! The updates of a block: products of other blocks, added to it or subtracted from it.

ghost use Rattle.std.specs.Prelude.{◌≡◌};
ghost use Rattle.operation_spec.specs.declared.operation.Form.TheVariants.{Lu, Ldl};
ghost use Rattle.operation_spec.specs.declared.task.Kind.TheVariants as kinds;
ghost use Rattle.matrix_parts.specs.Lent.{grid_of, loan_of, IsPart, IsKept};
ghost use Rattle.block_kernels.specs.BlockOpers.{HasLeft, HasRight};
ghost use Rattle.block_kernels.specs.Outcomes.{IsDone};
ghost use Rattle.block_kernels.specs.Ready.{CanApply};

use crate::block_task::BlockTask;
use crate::operands::block_structure;
use kernel_lib::{update, update_ldl};
use matrix_parts::PartMut;
use operation_spec::{Factor, Form};
use structure_rules::Structure;

impl BlockTask<'_> {
    /// Adds a term's product of blocks, or subtracts it.
    pub(crate) fn do_term(&self, w: &mut PartMut<'_>)
        requires kind { self.now.task.kind ≡ kinds.Term }
        requires part { IsPart w.old }
        requires can { CanApply self.now (grid_of w.old) }
        ensures loan { loan_of w.new ≡ loan_of w.old }
        ensures part { IsPart w.new }
        ensures kept { IsKept w.old w.new }
        ensures effect { IsDone self.now (grid_of w.old) (grid_of w.new) }
    {
        let task = self.task;
        let at = task.term as usize - 1;
        let term = self.op.terms.as_slice()[at];
        let first = self.factor(term.first, task.i, task.k, 0);
        let second = self.factor(term.second, task.k, task.j, 1);
        let inside = block_structure(self.op.work.structure, task.i, task.j);
        update(self.m, term.minus, w, inside, first, second);
    }

    /// Subtracts the product of a block of op(T), which is on the left, and one of X.
    fn do_factor_left(&self, t: Factor, w: &mut PartMut<'_>)
        requires kind { self.now.task.kind ≡ kinds.Left }
        requires part { IsPart w.old }
        requires can { CanApply self.now (grid_of w.old) }
        requires form { HasLeft self.now.op.now.form t }
        ensures loan { loan_of w.new ≡ loan_of w.old }
        ensures part { IsPart w.new }
        ensures kept { IsKept w.old w.new }
        ensures effect { IsDone self.now (grid_of w.old) (grid_of w.new) }
    {
        let task = self.task;
        let first = self.factor(t, task.i, task.k, 0);
        let seen = block_structure(self.op.work.structure, task.k, task.j);
        let second = self.block(1, seen, false);
        let inside = block_structure(self.op.work.structure, task.i, task.j);
        update(self.m, true, w, inside, first, second);
    }

    /// Subtracts the product of a block of L and one of U.
    fn do_lu(&self, w: &mut PartMut<'_>)
        requires kind { self.now.task.kind ≡ kinds.Left }
        requires part { IsPart w.old }
        requires can { CanApply self.now (grid_of w.old) }
        requires form { self.now.op.now.form ≡ Lu }
        ensures loan { loan_of w.new ≡ loan_of w.old }
        ensures part { IsPart w.new }
        ensures kept { IsKept w.old w.new }
        ensures effect { IsDone self.now (grid_of w.old) (grid_of w.new) }
    {
        let first = self.block(0, Structure::General, false);
        let second = self.block(1, Structure::General, false);
        let inside = block_structure(self.op.work.structure, self.task.i, self.task.j);
        update(self.m, true, w, inside, first, second);
    }

    /// Subtracts the product of a block of L, a diagonal one of D and one of L turned.
    fn do_ldl(&self, w: &mut PartMut<'_>)
        requires kind { self.now.task.kind ≡ kinds.Left }
        requires part { IsPart w.old }
        requires can { CanApply self.now (grid_of w.old) }
        requires form { self.now.op.now.form ≡ Ldl }
        ensures loan { loan_of w.new ≡ loan_of w.old }
        ensures part { IsPart w.new }
        ensures kept { IsKept w.old w.new }
        ensures effect { IsDone self.now (grid_of w.old) (grid_of w.new) }
    {
        let first = self.block(0, Structure::General, false);
        let middle = self.block(1, Structure::Diagonal, false);
        let second = self.block(2, Structure::General, true);
        let inside = block_structure(self.op.work.structure, self.task.i, self.task.j);
        update_ldl(self.m, w, inside, first, middle, second);
    }

    /// Subtracts a product with a block on the left, by the form.
    pub(crate) fn do_left(&self, w: &mut PartMut<'_>)
        requires kind { self.now.task.kind ≡ kinds.Left }
        requires part { IsPart w.old }
        requires can { CanApply self.now (grid_of w.old) }
        ensures loan { loan_of w.new ≡ loan_of w.old }
        ensures part { IsPart w.new }
        ensures kept { IsKept w.old w.new }
        ensures effect { IsDone self.now (grid_of w.old) (grid_of w.new) }
    {
        match self.op.form {
            Form::Left { t } => self.do_factor_left(t, w),
            Form::Sylvester { t, .. } => self.do_factor_left(t, w),
            Form::Lu => self.do_lu(w),
            Form::Ldl => self.do_ldl(w),
            Form::Assign => {}
            Form::Right { .. } => {}
        }
    }

    /// Subtracts the product of a block of X and one of op(U), which is on the right, where `minus` is true, and else adds it.
    fn do_factor_right(&self, u: Factor, minus: bool, w: &mut PartMut<'_>)
        requires kind { self.now.task.kind ≡ kinds.Right }
        requires part { IsPart w.old }
        requires can { CanApply self.now (grid_of w.old) }
        requires form { HasRight self.now.op.now.form u minus }
        ensures loan { loan_of w.new ≡ loan_of w.old }
        ensures part { IsPart w.new }
        ensures kept { IsKept w.old w.new }
        ensures effect { IsDone self.now (grid_of w.old) (grid_of w.new) }
    {
        let task = self.task;
        let seen = block_structure(self.op.work.structure, task.i, task.k);
        let first = self.block(0, seen, false);
        let second = self.factor(u, task.k, task.j, 1);
        let inside = block_structure(self.op.work.structure, task.i, task.j);
        update(self.m, minus, w, inside, first, second);
    }

    /// Subtracts a product with a block on the right, by the form; where the form has a minus it is added.
    pub(crate) fn do_right(&self, w: &mut PartMut<'_>)
        requires kind { self.now.task.kind ≡ kinds.Right }
        requires part { IsPart w.old }
        requires can { CanApply self.now (grid_of w.old) }
        ensures loan { loan_of w.new ≡ loan_of w.old }
        ensures part { IsPart w.new }
        ensures kept { IsKept w.old w.new }
        ensures effect { IsDone self.now (grid_of w.old) (grid_of w.new) }
    {
        match self.op.form {
            Form::Right { t } => self.do_factor_right(t, true, w),
            Form::Sylvester { u, minus, .. } => self.do_factor_right(u, !minus, w),
            Form::Assign => {}
            Form::Left { .. } => {}
            Form::Lu => {}
            Form::Ldl => {}
        }
    }
}
