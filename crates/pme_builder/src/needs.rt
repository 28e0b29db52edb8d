//! Which task of a list needs which.

ghost use Rattle.std.specs.Prelude.{◌≡◌, ◌++◌, ◌≤◌, length, IfOk, OnOk};
ghost use Rattle.pme_builder.specs.Pmes.{edges_of, pairs_from};

use crate::pme::{Pair, PairList};
use operation_spec::{Operation, Task};
use std::alloc::{AllocError, Global};
use task_graph::needs;

/// Each pair of tasks of which the first needs the second, by the first and then the second.
pub(crate) fn edges_of(
    alloc: Global,
    op: &Operation,
    tasks: &[Task],
) -> Result<PairList, AllocError>
    requires { length tasks.now ≤ 262144 }
    ensures { IfOk result (λ edges. edges ≡ edges_of op.now tasks.now) }
{
    let mut edges = PairList::new(alloc);
    let mut number = 1;
    for task in tasks {
        add_needs(op, *task, number, tasks, &mut edges)?;
        number += 1;
    }
    Ok(edges)
}

/// Adds the pairs of a task with those that it needs.
fn add_needs(
    op: &Operation,
    task: Task,
    number: u32,
    tasks: &[Task],
    edges: &mut PairList,
) -> Result<(), AllocError>
    requires { length tasks.now ≤ 262144 }
    ensures { OnOk result (edges.new ≡ edges.old ++ pairs_from op.now task number 1 tasks.now) }
{
    let mut need = 1;
    for other in tasks {
        if needs(op, task, *other) {
            edges.push(Pair { task: number, need })?;
        }
        need += 1;
    }
    Ok(())
}
