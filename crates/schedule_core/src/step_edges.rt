//! The direct edges of steps.

ghost use Rattle.std.specs.Prelude.{◌≡◌, ◌≤◌, length, IfOk};
ghost use Rattle.dependence_queue.specs.Edges.{edges_of, most_accesses};
ghost use Rattle.schedule_core.specs.StepAccesses.{accesses_of};

use dependence_queue::{Access, AccessList, Edges, analyse};
use std::alloc::{AllocError, Global};
use step_replays::Step;
use structure_rules::NumberList;

/// The direct edges between steps, which are numbered from 1. Its one error is want of memory.
pub fn edges_of_steps(alloc: Global, steps: &[Step]) -> Result<Edges, AllocError>
    requires { length steps.now ≤ most_accesses }
    ensures { IfOk result (λ edges. edges ≡ edges_of (accesses_of steps.now)) }
{
    let accesses = copied_accesses(alloc, steps)?;
    analyse(alloc, &accesses)
}

/// Copies of what steps use.
fn copied_accesses(alloc: Global, steps: &[Step]) -> Result<AccessList, AllocError>
    ensures { IfOk result (λ accesses. accesses ≡ accesses_of steps.now) }
{
    let mut accesses = AccessList::new(alloc);
    for step in steps {
        accesses.push(copied(alloc, &step.access)?)?;
    }
    Ok(accesses)
}

/// A copy of what a step uses.
fn copied(alloc: Global, access: &Access) -> Result<Access, AllocError>
    ensures { IfOk result (λ copy. copy ≡ access.now) }
{
    let reads = access.reads.as_slice().to_vec(alloc)?;
    Ok(Access {
        write: access.write,
        reads: NumberList::from_vec(reads),
    })
}
