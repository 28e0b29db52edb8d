//! What is wrong with the updates of a worksheet.

ghost use Rattle.std.specs.Prelude.{◌≡◌, [], IfOk};
ghost use Rattle.std.specs.List.{find};
ghost use Rattle.worksheet_check.specs.RoundFindings.{misses, update_wrong, missing, update_finding};

use crate::findings::Finding;
use invariant_family::holds;
use operation_spec::{Operation, Task};
use std::alloc::AllocError;
use task_graph::needs;
use worksheet::{Shown, WsPlace};

/// The first update that isn't due, stood before, or needs a due task that didn't stand before; or the first due task
/// that is missing. Want of memory is answered where an update has no number.
pub(crate) fn update_finding(
    op: &Operation,
    due: &[Task],
    updates: &[Task],
) -> Result<Option<Finding>, AllocError>
    ensures { IfOk result (λ finding. finding ≡ update_finding op.now due.now [] 1 updates.now) }
{
    let mut number: u32 = 1;
    for (at, task) in updates.iter().enumerate() {
        if let Some(finding) = update_wrong(op, due, &updates[..at], number, *task) {
            return Ok(Some(finding));
        }
        let Some(next) = number.checked_add(1) else {
            return Err(AllocError);
        };
        number = next;
    }
    Ok(missing(due, updates, number))
}

/// What is wrong with an update, behind those that were seen.
fn update_wrong(
    op: &Operation,
    due: &[Task],
    seen: &[Task],
    number: u32,
    task: Task,
) -> Option<Finding>
    ensures { result ≡ update_wrong op.now due.now seen.now number task }
{
    if !holds(due, task) || holds(seen, task) {
        return Some(Finding {
            place: WsPlace::Update(number),
            found: Shown::One(task),
            due: Shown::Nothing,
        });
    }
    match missed(op, due, seen, task) {
        Some(need) => Some(Finding {
            place: WsPlace::Update(number),
            found: Shown::One(task),
            due: Shown::One(need),
        }),
        None => None,
    }
}

/// The first due task that an update needs and that wasn't seen.
fn missed(op: &Operation, due: &[Task], seen: &[Task], task: Task) -> Option<Task>
    ensures { result ≡ find (misses op.now seen.now task) due.now }
{
    for need in due {
        if needs(op, task, *need) && !holds(seen, *need) {
            return Some(*need);
        }
    }
    None
}

/// The first due task that is missing, at the place behind all updates.
fn missing(due: &[Task], updates: &[Task], number: u32) -> Option<Finding>
    ensures { result ≡ missing due.now updates.now number }
{
    for task in due {
        if !holds(updates, *task) {
            return Some(Finding {
                place: WsPlace::Update(number),
                found: Shown::Nothing,
                due: Shown::One(*task),
            });
        }
    }
    None
}
