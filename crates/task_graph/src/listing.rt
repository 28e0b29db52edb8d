//! All tasks of an operation, in canonical order.

ghost use Rattle.std.specs.Prelude.{◌≡◌, ◌+◌, ◌<◌, ◌≤◌, ◌++◌, length, vec_len};
ghost use Rattle.std.specs.Prelude.{IfOk, OnOk, IsErrOf};
ghost use Rattle.task_graph.specs.Tasks.{parts_of};
ghost use Rattle.task_graph.specs.Order.{rows_descend, cols_descend, tasks_of};
ghost use Rattle.task_graph.specs.Listing.{number_at, task_if_any, may_have, inner_count};
ghost use Rattle.task_graph.specs.Listing.{updates_of, products_of, block_of, blocks_of};

use crate::classes::inner_dim;
use crate::cut::Counts;
use crate::existence::exists;
use crate::fault::TaskFault;
use crate::order::{cols_descend, rows_descend};
use crate::parts::Parts;
use operation_spec::{Form, Kind, Operation, Task};
use std::alloc::Global;

const MOST_TASKS: usize = 262_144;

/// The tasks of an operation, in canonical order, where each dimension is cut into so many parts.
///
/// Its errors are `TooMany` where there are more than 262,144 tasks, and `Memory` for want of memory, or where the
/// operation has more terms than a task can number.
pub fn tasks(alloc: Global, op: &Operation, parts: &Counts) -> Result<Vec<Task>, TaskFault>
    ensures found { IfOk result (λ tasks. tasks.items ≡ tasks_of op.now parts.now) }
    ensures few { IfOk result (λ tasks. vec_len tasks ≤ 262144) }
    ensures too_many { IsErrOf result TaskFault.TooMany
        → 262144 < length (tasks_of op.now parts.now) }
{
    let mut found = Vec::new(alloc);
    for at in 0..parts.parts(op.work.rows) {
        add_blocks(op, parts, row_at(op, parts, at), &mut found)?;
    }
    Ok(found)
}

/// The row of blocks at a place in the order.
fn row_at(op: &Operation, parts: &Counts, at: u32) -> u32
    requires { at < parts_of parts.now op.now.work.rows }
    ensures { result ≡ number_at (rows_descend op.now) (parts_of parts.now op.now.work.rows) at }
{
    number_at(rows_descend(op), parts.parts(op.work.rows), at)
}

/// The column of blocks at a place in the order.
fn col_at(op: &Operation, parts: &Counts, at: u32) -> u32
    requires { at < parts_of parts.now op.now.work.cols }
    ensures { result ≡ number_at (cols_descend op.now) (parts_of parts.now op.now.work.cols) at }
{
    number_at(cols_descend(op), parts.parts(op.work.cols), at)
}

/// The number at a place of 0, 1, .., count - 1 in a direction.
fn number_at(descend: bool, count: u32, at: u32) -> u32
    requires { at < count }
    ensures { result ≡ number_at descend count at }
{
    if descend { count - 1 - at } else { at }
}

/// Adds the tasks of the blocks in row i.
fn add_blocks(
    op: &Operation,
    parts: &Counts,
    i: u32,
    found: &mut Vec<Task>,
) -> Result<(), TaskFault>
    requires { length found.old.items ≤ 262144 }
    ensures ok { OnOk result
        (found.new.items ≡ found.old.items ++ blocks_of op.now parts.now i (parts_of parts.now op.now.work.cols)) }
    ensures few { OnOk result (length found.new.items ≤ 262144) }
    ensures too_many { IsErrOf result TaskFault.TooMany →
        262144 < length found.old.items
        + length (blocks_of op.now parts.now i (parts_of parts.now op.now.work.cols)) }
{
    for at in 0..parts.parts(op.work.cols) {
        add_block(op, parts, i, col_at(op, parts, at), found)?;
    }
    Ok(())
}

/// Adds the tasks of block (i, j).
fn add_block(
    op: &Operation,
    parts: &Counts,
    i: u32,
    j: u32,
    found: &mut Vec<Task>,
) -> Result<(), TaskFault>
    requires { length found.old.items ≤ 262144 }
    ensures ok { OnOk result (found.new.items ≡ found.old.items ++ block_of op.now parts.now i j) }
    ensures few { OnOk result (length found.new.items ≤ 262144) }
    ensures too_many { IsErrOf result TaskFault.TooMany →
        262144 < length found.old.items + length (block_of op.now parts.now i j) }
{
    let left = Task {
        kind: Kind::Left,
        term: 0,
        i,
        j,
        k: 0,
    };
    let right = Task {
        kind: Kind::Right,
        term: 0,
        i,
        j,
        k: 0,
    };
    let solve = Task {
        kind: Kind::Solve,
        term: 0,
        i,
        j,
        k: 0,
    };
    add_products(op, parts, i, j, found)?;
    add_updates(op, parts, left, found)?;
    add_updates(op, parts, right, found)?;
    add_if_any(op, parts, solve, found)
}

/// Adds the products of the terms in block (i, j).
fn add_products(
    op: &Operation,
    parts: &Counts,
    i: u32,
    j: u32,
    found: &mut Vec<Task>,
) -> Result<(), TaskFault>
    requires { length found.old.items ≤ 262144 }
    ensures ok { OnOk result
        (found.new.items ≡ found.old.items ++ products_of op.now parts.now i j (length op.now.terms)) }
    ensures few { OnOk result (length found.new.items ≤ 262144) }
    ensures too_many { IsErrOf result TaskFault.TooMany →
        262144 < length found.old.items + length (products_of op.now parts.now i j (length op.now.terms)) }
{
    for at in 0..op.terms.len() {
        let Ok(term) = u32::try_from(at + 1) else {
            return Err(TaskFault::Memory);
        };
        let product = Task {
            kind: Kind::Term,
            term,
            i,
            j,
            k: 0,
        };
        add_updates(op, parts, product, found)?;
    }
    Ok(())
}

/// Adds the tasks of the kind, term and block of this one, by their inner part.
fn add_updates(
    op: &Operation,
    parts: &Counts,
    of: Task,
    found: &mut Vec<Task>,
) -> Result<(), TaskFault>
    requires { length found.old.items ≤ 262144 }
    ensures ok { OnOk result
        (found.new.items ≡ found.old.items
        ++ updates_of op.now parts.now of.kind of.term of.i of.j
        (inner_count op.now parts.now of.kind of.term)) }
    ensures few { OnOk result (length found.new.items ≤ 262144) }
    ensures too_many { IsErrOf result TaskFault.TooMany →
        262144 < length found.old.items
        + length (updates_of op.now parts.now of.kind of.term of.i of.j
        (inner_count op.now parts.now of.kind of.term)) }
{
    for k in 0..inner_count(op, parts, of.kind, of.term) {
        add_if_any(
            op,
            parts,
            Task {
                kind: of.kind,
                term: of.term,
                i: of.i,
                j: of.j,
                k,
            },
            found,
        )?;
    }
    Ok(())
}

/// How many inner parts tasks of this kind and term may have.
fn inner_count(op: &Operation, parts: &Counts, kind: Kind, term: u32) -> u32
    ensures { result ≡ inner_count op.now parts.now kind term }
{
    if may_have(kind, op.form) {
        parts.parts(inner_dim(op, kind, term))
    } else {
        0
    }
}

/// Whether a form can have tasks of this kind.
fn may_have(kind: Kind, form: Form) -> bool
    ensures { result ≡ may_have kind form }
{
    match kind {
        Kind::Left => !matches!(form, Form::Assign | Form::Right { .. }),
        Kind::Right => matches!(form, Form::Right { .. } | Form::Sylvester { .. }),
        Kind::Pivots | Kind::Term | Kind::Solve => true,
    }
}

/// Adds a task where the operation has it.
#[tactic(auto, unfolding(crate::specs::Listing::task_if_any))]
fn add_if_any(
    op: &Operation,
    parts: &Counts,
    task: Task,
    found: &mut Vec<Task>,
) -> Result<(), TaskFault>
    requires { length found.old.items ≤ 262144 }
    ensures ok { OnOk result (found.new.items ≡ found.old.items
        ++ task_if_any op.now parts.now task) }
    ensures few { OnOk result (length found.new.items ≤ 262144) }
    ensures too_many { IsErrOf result TaskFault.TooMany →
        262144 < length found.old.items + length (task_if_any op.now parts.now task) }
{
    if !exists(op, parts, task) {
        return Ok(());
    }
    if found.len() == MOST_TASKS {
        return Err(TaskFault::TooMany);
    }
    found.push(task)?;
    Ok(())
}
