//! Tasks in canonical order.

ghost use Rattle.std.specs.Prelude.{◌≡◌, ◌≤◌, length, insert, IfOk, OnOk};
ghost use Rattle.block_values.specs.Orders.{in_order, placed};

use operation_spec::{Operation, Task};
use std::alloc::{AllocError, Global};
use task_graph::earlier;

/// The tasks in canonical order, in whatever order they are listed.
pub(crate) fn in_order(
    alloc: Global,
    op: &Operation,
    tasks: &[Task],
) -> Result<Vec<Task>, AllocError>
    ensures { IfOk result (λ sorted. sorted.items ≡ in_order op.now tasks.now) }
{
    let mut sorted = Vec::new(alloc);
    for task in tasks {
        place(op, *task, &mut sorted)?;
    }
    Ok(sorted)
}

/// Puts a task in front of the first one that it is earlier than.
fn place(op: &Operation, task: Task, sorted: &mut Vec<Task>) -> Result<(), AllocError>
    ensures { OnOk result (sorted.new.items ≡ placed op.now task sorted.old.items) }
{
    let at = place_of(op, task, sorted);
    sorted.insert(at, task)?;
    Ok(())
}

/// The place where it is put.
fn place_of(op: &Operation, task: Task, sorted: &[Task]) -> usize
    ensures within { result ≤ length sorted.now }
    ensures there { insert sorted.now result task ≡ placed op.now task sorted.now }
{
    for at in 0..sorted.len() {
        if earlier(op, task, sorted[at]) {
            return at;
        }
    }
    sorted.len()
}
