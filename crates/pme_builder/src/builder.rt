//! The partitioned matrix expression of an operation for a split.

ghost use Rattle.std.specs.Prelude.{◌≡◌, ◌≤◌, filter, map, vec_len, IfOk};
ghost use Rattle.block_expr.specs.Seen.{tree_of};
ghost use Rattle.invariant_family.specs.Splits.{two_parts};
ghost use Rattle.operation_spec.specs.ValidOperations.{IsValid};
ghost use Rattle.pme_builder.specs.Pmes.{block_trees, edges_of, is_at, state_at};
ghost use Rattle.task_graph.specs.Order.{tasks_of};

use crate::needs::edges_of;
use crate::pme::Pme;
use block_expr::{Expr, ExprList, state_expr, two_parts, work_places};
use equation::Place;
use operation_spec::{Operation, Split, Task, TaskList};
use std::alloc::{AllocError, Global};
use task_graph::{Counts, tasks};

/// The partitioned matrix expression of an operation with two parts in each dimension of the split, and one in the
/// others. The operation is valid, and the split is one of its own. Its one error is want of memory.
pub fn derive_pme(alloc: Global, op: &Operation, split: Split) -> Result<Pme, AllocError>
    requires { IsValid op.now }
    ensures blocks { IfOk result (λ p. map tree_of p.blocks
        ≡ block_trees op.now (two_parts op.now split)) }
    ensures tasks { IfOk result (λ p. p.tasks ≡ tasks_of op.now (two_parts op.now split)) }
    ensures edges { IfOk result (λ p. p.edges
        ≡ edges_of op.now (tasks_of op.now (two_parts op.now split))) }
{
    let parts = two_parts(alloc, op, split)?;
    let found = tasks_in(alloc, op, &parts)?;
    let places = work_places(alloc, op, &parts)?;
    let blocks = block_exprs(alloc, op, &found, &places)?;
    let edges = edges_of(alloc, op, &found)?;
    Ok(Pme {
        blocks,
        tasks: TaskList::from_vec(found),
        edges,
    })
}

/// The tasks of an operation under a cut in few parts.
fn tasks_in(alloc: Global, op: &Operation, parts: &Counts) -> Result<Vec<Task>, AllocError>
    ensures found { IfOk result (λ found. found.items ≡ tasks_of op.now parts.now) }
    ensures few { IfOk result (λ found. vec_len found ≤ 262144) }
{
    match tasks(alloc, op, parts) {
        Ok(found) => Ok(found),
        Err(_) => Err(AllocError),
    }
}

/// The states of blocks, each with all its own tasks done.
fn block_exprs(
    alloc: Global,
    op: &Operation,
    found: &[Task],
    places: &[Place],
) -> Result<ExprList, AllocError>
    ensures { IfOk result (λ blocks. map tree_of blocks
        ≡ map (state_at op.now found.now) places.now) }
{
    let mut blocks = ExprList::new(alloc);
    for place in places {
        blocks.push(block_expr(alloc, op, found, *place)?)?;
    }
    Ok(blocks)
}

/// The state of a block.
fn block_expr(
    alloc: Global,
    op: &Operation,
    found: &[Task],
    place: Place,
) -> Result<Expr, AllocError>
    ensures { IfOk result (λ e. tree_of e ≡ state_at op.now found.now place) }
{
    let done = tasks_at(alloc, found, place)?;
    state_expr(alloc, op, place.row, place.col, &done)
}

/// The tasks of a block.
fn tasks_at(alloc: Global, found: &[Task], place: Place) -> Result<TaskList, AllocError>
    ensures { IfOk result (λ own. own ≡ filter (is_at place.row place.col) found.now) }
{
    let mut own = TaskList::new(alloc);
    for task in found {
        if task.i == place.row && task.j == place.col {
            own.push(*task)?;
        }
    }
    Ok(own)
}
