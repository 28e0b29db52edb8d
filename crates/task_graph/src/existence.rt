//! Which block tasks an operation has.

ghost use Rattle.std.specs.Prelude.{◌≡◌};
ghost use Rattle.task_graph.specs.Tasks.{is_work_block, is_inside, has_product, has_numbered_term};
ghost use Rattle.task_graph.specs.Tasks.{reads_left, reads_right, has_left, has_right, has_solve, has_task, has};

use crate::cut::Counts;
use crate::factors::{factor_cols, factor_structure};
use crate::parts::Parts;
use operation_spec::{Factor, Form, Kind, Operation, Task, Term};

/// Whether the operation has a task, where each dimension is cut into so many parts.
pub fn exists(op: &Operation, parts: &Counts, task: Task) -> bool
    ensures { result ≡ has op.now parts.now task }
{
    exists_under(op, parts, task)
}

/// The same under anything that says the parts.
pub(crate) fn exists_under<P: Parts>(op: &Operation, parts: &P, task: Task) -> bool
    ensures { result ≡ has op.now (P.counts parts.now) task }
{
    is_work_block(op, parts, task.i, task.j) && has_task(op, parts, task)
}

/// Whether (i, j) is a block of W's structure.
fn is_work_block<P: Parts>(op: &Operation, parts: &P, i: u32, j: u32) -> bool
    ensures { result ≡ is_work_block op.now (P.counts parts.now) i j }
{
    i < parts.parts(op.work.rows) && j < parts.parts(op.work.cols) && !op.work.structure.zero(i, j)
}

/// Whether a block of W has this task.
fn has_task<P: Parts>(op: &Operation, parts: &P, task: Task) -> bool
    ensures { result
        ≡ has_task op.now (P.counts parts.now) task.kind task.term task.i task.j task.k }
{
    match task.kind {
        Kind::Pivots => false,
        Kind::Term => has_numbered_term(op, parts, task),
        Kind::Left => task.term == 0 && has_left(op, parts, task.i, task.j, task.k),
        Kind::Right => task.term == 0 && has_right(op, parts, task.i, task.j, task.k),
        Kind::Solve => task.term == 0 && task.k == 0 && has_solve(op.form),
    }
}

/// Whether the product of the term with the task's number is one of known blocks; terms are numbered from 1.
fn has_numbered_term<P: Parts>(op: &Operation, parts: &P, task: Task) -> bool
    ensures { result ≡ has_numbered_term op.now
        (P.counts parts.now) task.term task.i task.j task.k }
{
    if task.term == 0 {
        return false;
    }
    match op.terms.get((task.term - 1) as usize) {
        Some(term) => has_product(op, parts, *term, task.i, task.j, task.k),
        None => false,
    }
}

/// Whether the term multiplies op(F) at (i, k) by op(G) at (k, j), and neither is a zero block.
fn has_product<P: Parts>(op: &Operation, parts: &P, term: Term, i: u32, j: u32, k: u32) -> bool
    ensures { result ≡ has_product op.now (P.counts parts.now) term i j k }
{
    k < parts.parts(factor_cols(op, term.first))
        && is_inside(op, term.first, i, k)
        && is_inside(op, term.second, k, j)
}

/// Whether block (i, j) of op(F) is no zero block.
fn is_inside(op: &Operation, factor: Factor, i: u32, j: u32) -> bool
    ensures { result ≡ is_inside op.now factor i j }
{
    !factor_structure(op, factor).zero(i, j)
}

/// Whether block (i, j) is updated by op(T) at (i, k), off its diagonal, times X at (k, j).
fn reads_left<P: Parts>(op: &Operation, parts: &P, t: Factor, i: u32, j: u32, k: u32) -> bool
    ensures { result ≡ reads_left op.now (P.counts parts.now) t i j k }
{
    is_inside(op, t, i, k) && i != k && is_work_block(op, parts, k, j)
}

/// Whether block (i, j) is updated by X at (i, k) times op(U) at (k, j), off its diagonal.
fn reads_right<P: Parts>(op: &Operation, parts: &P, u: Factor, i: u32, j: u32, k: u32) -> bool
    ensures { result ≡ reads_right op.now (P.counts parts.now) u i j k }
{
    is_inside(op, u, k, j) && k != j && is_work_block(op, parts, i, k)
}

/// Whether block (i, j) has the update on the left with inner part k.
fn has_left<P: Parts>(op: &Operation, parts: &P, i: u32, j: u32, k: u32) -> bool
    ensures { result ≡ has_left op.now (P.counts parts.now) op.now.form i j k }
{
    match op.form {
        Form::Left { t } | Form::Sylvester { t, .. } => reads_left(op, parts, t, i, j, k),
        Form::Lu => k < i.min(j),
        Form::Ldl => k < j,
        Form::Assign | Form::Right { .. } => false,
    }
}

/// Whether block (i, j) has the update on the right with inner part k.
fn has_right<P: Parts>(op: &Operation, parts: &P, i: u32, j: u32, k: u32) -> bool
    ensures { result ≡ has_right op.now (P.counts parts.now) op.now.form i j k }
{
    match op.form {
        Form::Right { t } => reads_right(op, parts, t, i, j, k),
        Form::Sylvester { u, .. } => reads_right(op, parts, u, i, j, k),
        Form::Assign | Form::Left { .. } | Form::Lu | Form::Ldl => false,
    }
}

/// Whether the form solves each block.
fn has_solve(form: Form) -> bool
    ensures { result ≡ has_solve form }
{
    form != Form::Assign
}
