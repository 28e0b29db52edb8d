//! The steps of one statement.

ghost use Rattle.std.specs.Prelude.{◌≡◌, ◌≤◌, ◌<◌, ◌+◌, ◌++◌, ℕ, length, map, All, IfOk, IsErrOf, OnOk};
ghost use Rattle.step_replays.specs.Replays.{pivots_task};
ghost use Rattle.job_blocks.specs.BlockedJobs.{HasStatement, HasTask, counts_at, operation_at};
ghost use Rattle.issue_list.specs.CanonicalSteps.{most_steps, step_of};
ghost use Rattle.issue_list.specs.IssuedSteps.{issued_tasks};
ghost use Rattle.issue_list.specs.ChosenVariants.{IsVariantOf, steps_by};

use crate::loop_order::in_loop_order;
use invariant_family::Variant;
use job_blocks::JobBlocks;
use operation_spec::{Kind, Task};
use std::alloc::{AllocError, Global};
use step_replays::{Step, StepList};
use task_graph::{TaskFault, tasks};

const MOST_STEPS: usize = 262_144;

/// Appends the steps of statement s by a variant of its operation.
pub(crate) fn add_statement(
    alloc: Global,
    blocks: &JobBlocks,
    s: u32,
    variant: &Variant,
    steps: &mut StepList,
) -> Result<(), TaskFault>
    requires statement { HasStatement blocks.now s }
    requires variant { IsVariantOf blocks.now.job s variant.now }
    requires few { length steps.old ≤ most_steps }
    ensures steps { OnOk result (steps.new
        ≡ steps.old ++ steps_by blocks.now.job blocks.now.b s variant.now) }
    ensures few { OnOk result (length steps.new ≤ most_steps) }
    ensures many { IsErrOf result TaskFault.TooMany → most_steps
        < length steps.old + length (steps_by blocks.now.job blocks.now.b s variant.now) }
{
    let own = statement_tasks(alloc, blocks, s, variant)?;
    if own.len() > MOST_STEPS - steps.len() {
        return Err(TaskFault::TooMany);
    }
    add_steps(alloc, blocks, s, own.as_slice(), steps)?;
    Ok(())
}

/// The tasks of statement s by a variant of its operation: Pivots, where it has it, and its block tasks.
fn statement_tasks(
    alloc: Global,
    blocks: &JobBlocks,
    s: u32,
    variant: &Variant,
) -> Result<Vec<Task>, TaskFault>
    requires statement { HasStatement blocks.now s }
    requires variant { IsVariantOf blocks.now.job s variant.now }
    ensures tasks { IfOk result (λ tasks. tasks.items
        ≡ issued_tasks (operation_at blocks.now s) (counts_at blocks.now s) variant.now) }
    ensures many { IsErrOf result TaskFault.TooMany → most_steps
        < length (issued_tasks (operation_at blocks.now s) (counts_at blocks.now s) variant.now) }
{
    let counts = blocks.counts(alloc, s)?;
    let op = blocks.operation(s);
    let listed = tasks(alloc, op, &counts)?;
    let mut own = in_loop_order(alloc, op, &counts, variant, listed.as_slice())?;
    if blocks.has_pivots(s) {
        own.insert(0, pivots())?;
    }
    Ok(own)
}

/// The test of the pivots.
fn pivots() -> Task
    ensures { result ≡ pivots_task }
{
    Task {
        kind: Kind::Pivots,
        term: 0,
        i: 0,
        j: 0,
        k: 0,
    }
}

/// Appends the steps of these tasks of statement s.
fn add_steps(
    alloc: Global,
    blocks: &JobBlocks,
    s: u32,
    tasks: &[Task],
    steps: &mut StepList,
) -> Result<(), AllocError>
    requires statement { HasStatement blocks.now s }
    requires tasks { All (HasTask blocks.now s) tasks.now }
    ensures { OnOk result
        (steps.new ≡ steps.old ++ map (step_of blocks.now.job blocks.now.b s) tasks.now) }
{
    for task in tasks {
        let access = blocks.access(alloc, s, *task)?;
        steps.push(Step {
            statement: s,
            task: *task,
            access,
        })?;
    }
    Ok(())
}
