//! The state of a block of W with some of its tasks done, as an expression.

ghost use Rattle.std.specs.Prelude.{◌≡◌, IfOk};
ghost use Rattle.block_expr.specs.Seen.{tree_of};
ghost use Rattle.block_values.specs.Orders.{in_order};
ghost use Rattle.block_values.specs.States.{has_solved, left_product, numbered_minus};
ghost use Rattle.block_values.specs.States.{numbered_product, right_minus, right_product, solved};
ghost use Rattle.block_values.specs.States.{state_tree, task_minus};
ghost use Rattle.task_graph.specs.Needs.{is_solve};
ghost use Rattle.block_values.specs.States.{task_product, with_update, with_updates};

use crate::build::{
    block, difference, factor_block, ldl, lu, product, solve_left, solve_right, sum, sylvester,
};
use crate::expr::Expr;
use crate::operands::numbered_term;
use crate::orders::in_order;
use block_values::Leaf;
use operation_spec::{Form, Kind, Operation, Task, TaskList};
use std::alloc::{AllocError, Global};

/// The state of block (i, j) of W with the tasks done that are listed, in whatever order: the block of W with the
/// product of each done update added or subtracted, in canonical order, and solved where the solve is done.
pub fn state_expr(
    alloc: Global,
    op: &Operation,
    i: u32,
    j: u32,
    done: &TaskList,
) -> Result<Expr, AllocError>
    ensures { IfOk result (λ e. tree_of e ≡ state_tree op.now i j (in_order op.now done.now)) }
{
    let sorted = in_order(alloc, op, done.as_slice())?;
    let updated = with_updates(alloc, op, &sorted, block(Leaf::Work, false, i, j))?;
    if has_solved(&sorted) {
        solved(alloc, op.form, i, j, updated)
    } else {
        Ok(updated)
    }
}

/// Whether a solve is among the tasks.
fn has_solved(tasks: &[Task]) -> bool
    ensures { result ≡ has_solved tasks.now }
{
    for task in tasks {
        if is_solve(task.kind) {
            return true;
        }
    }
    false
}

/// Whether a task of this kind is a solve.
fn is_solve(kind: Kind) -> bool
    ensures { result ≡ is_solve kind }
{
    kind == Kind::Solve
}

/// A sum with the product of each update added or subtracted.
fn with_updates(
    alloc: Global,
    op: &Operation,
    tasks: &[Task],
    start: Expr,
) -> Result<Expr, AllocError>
    ensures { IfOk result (λ e. tree_of e ≡ with_updates op.now tasks.now (tree_of start)) }
{
    let mut updated = start;
    for task in tasks {
        updated = with_update(alloc, op, *task, updated)?;
    }
    Ok(updated)
}

/// A sum with the product of a task, if it is an update, added or subtracted.
fn with_update(alloc: Global, op: &Operation, task: Task, start: Expr) -> Result<Expr, AllocError>
    ensures { IfOk result (λ e. tree_of e ≡ with_update op.now task (tree_of start)) }
{
    if task.kind == Kind::Solve {
        return Ok(start);
    }
    let added = task_product(alloc, op, task)?;
    if task_minus(op, task) {
        difference(alloc, start, added)
    } else {
        sum(alloc, start, added)
    }
}

/// The product of an update.
fn task_product(alloc: Global, op: &Operation, task: Task) -> Result<Expr, AllocError>
    ensures { IfOk result (λ e. tree_of e
        ≡ task_product op.now task.kind task.term task.i task.j task.k) }
{
    match task.kind {
        Kind::Term => term_product(alloc, op, task),
        Kind::Left => left_product(alloc, op.form, task.i, task.j, task.k),
        Kind::Right => right_product(alloc, op.form, task.i, task.j, task.k),
        Kind::Pivots => Ok(Expr::Zero),
        Kind::Solve => Ok(Expr::Zero),
    }
}

/// Whether the product of an update is subtracted.
fn task_minus(op: &Operation, task: Task) -> bool
    ensures { result ≡ task_minus op.now task.kind task.term }
{
    match task.kind {
        Kind::Term => term_minus(op, task.term),
        Kind::Left => true,
        Kind::Right => right_minus(op.form),
        Kind::Pivots => false,
        Kind::Solve => false,
    }
}

/// The product of the term with the task's number.
#[tactic(auto, using(crate::proofs::NumberedTerms::numbered_product_is))]
fn term_product(alloc: Global, op: &Operation, task: Task) -> Result<Expr, AllocError>
    ensures { IfOk result (λ e. tree_of e
        ≡ numbered_product op.now task.term task.i task.j task.k) }
{
    match numbered_term(op, task.term) {
        Some(term) => {
            let first = factor_block(term.first, task.i, task.k);
            product(alloc, first, factor_block(term.second, task.k, task.j))
        }
        None => Ok(Expr::Zero),
    }
}

/// Whether the term with a number is subtracted.
#[tactic(auto, using(crate::proofs::NumberedTerms::numbered_minus_is))]
fn term_minus(op: &Operation, number: u32) -> bool
    ensures { result ≡ numbered_minus op.now number }
{
    match numbered_term(op, number) {
        Some(term) => term.minus,
        None => false,
    }
}

/// Whether an update on the right is subtracted: it is added in the form with `-`.
fn right_minus(form: Form) -> bool
    ensures { result ≡ right_minus form }
{
    match form {
        Form::Sylvester { minus, .. } => !minus,
        _ => true,
    }
}

/// The product of an update on the left.
fn left_product(alloc: Global, form: Form, i: u32, j: u32, k: u32) -> Result<Expr, AllocError>
    ensures { IfOk result (λ e. tree_of e ≡ left_product form i j k) }
{
    match form {
        Form::Left { t } => product(
            alloc,
            factor_block(t, i, k),
            block(Leaf::Solution, false, k, j),
        ),
        Form::Sylvester { t, .. } => {
            product(
                alloc,
                factor_block(t, i, k),
                block(Leaf::Solution, false, k, j),
            )
        }
        Form::Lu => product(
            alloc,
            block(Leaf::L, false, i, k),
            block(Leaf::U, false, k, j),
        ),
        Form::Ldl => {
            let scaled = product(
                alloc,
                block(Leaf::L, false, i, k),
                block(Leaf::D, false, k, k),
            )?;
            product(alloc, scaled, block(Leaf::L, true, k, j))
        }
        Form::Assign => Ok(Expr::Zero),
        Form::Right { .. } => Ok(Expr::Zero),
    }
}

/// The product of an update on the right.
fn right_product(alloc: Global, form: Form, i: u32, j: u32, k: u32) -> Result<Expr, AllocError>
    ensures { IfOk result (λ e. tree_of e ≡ right_product form i j k) }
{
    match form {
        Form::Right { t } => product(
            alloc,
            block(Leaf::Solution, false, i, k),
            factor_block(t, k, j),
        ),
        Form::Sylvester { u, .. } => {
            product(
                alloc,
                block(Leaf::Solution, false, i, k),
                factor_block(u, k, j),
            )
        }
        Form::Assign => Ok(Expr::Zero),
        Form::Left { .. } => Ok(Expr::Zero),
        Form::Lu => Ok(Expr::Zero),
        Form::Ldl => Ok(Expr::Zero),
    }
}

/// The sum of block (i, j), solved by the form.
fn solved(alloc: Global, form: Form, i: u32, j: u32, updated: Expr) -> Result<Expr, AllocError>
    ensures { IfOk result (λ e. tree_of e ≡ solved form i j (tree_of updated)) }
{
    match form {
        Form::Assign => Ok(updated),
        Form::Left { t } => solve_left(alloc, factor_block(t, i, i), updated),
        Form::Right { t } => solve_right(alloc, updated, factor_block(t, j, j)),
        Form::Sylvester { t, u, minus } => {
            sylvester(
                alloc,
                factor_block(t, i, i),
                factor_block(u, j, j),
                minus,
                updated,
            )
        }
        Form::Lu => solved_lu(alloc, i, j, updated),
        Form::Ldl => solved_ldl(alloc, i, j, updated),
    }
}

/// The same in Lu: factored on the diagonal, solved with its L to the right of it and with its U below it.
fn solved_lu(alloc: Global, i: u32, j: u32, updated: Expr) -> Result<Expr, AllocError>
    ensures { IfOk result (λ e. tree_of e ≡ solved Form.Lu i j (tree_of updated)) }
{
    if i == j {
        return lu(alloc, updated);
    }
    if i < j {
        solve_left(alloc, block(Leaf::L, false, i, i), updated)
    } else {
        solve_right(alloc, updated, block(Leaf::U, false, j, j))
    }
}

/// The same in Ldl: factored on the diagonal, and solved with its D and L below it.
fn solved_ldl(alloc: Global, i: u32, j: u32, updated: Expr) -> Result<Expr, AllocError>
    ensures { IfOk result (λ e. tree_of e ≡ solved Form.Ldl i j (tree_of updated)) }
{
    if i == j {
        return ldl(alloc, updated);
    }
    let scaled = product(
        alloc,
        block(Leaf::D, false, j, j),
        block(Leaf::L, true, j, j),
    )?;
    solve_right(alloc, updated, scaled)
}
