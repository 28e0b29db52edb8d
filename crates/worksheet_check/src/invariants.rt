//! What is wrong with the invariant of a worksheet.

ghost use Rattle.std.specs.Prelude.{◌≡◌};
ghost use Rattle.std.specs.List.{find};
ghost use Rattle.worksheet_check.specs.InvariantFindings.{comes_after, out_of_order, lacks};
ghost use Rattle.worksheet_check.specs.InvariantFindings.{order_finding, need_finding};
ghost use Rattle.worksheet_check.specs.InvariantFindings.{remaining_finding, done_finding};
ghost use Rattle.worksheet_check.specs.InvariantFindings.{undone_finding};

use crate::findings::Finding;
use crate::split_sides::Loop;
use invariant_family::holds;
use operation_spec::{Operation, Task};
use task_graph::{Cut, class, earlier, needs};
use worksheet::{Shown, WsPlace};

/// The cuts of three parts as two, before and after a round.
#[derive(Clone, Copy)]
pub(crate) struct Cuts<'a> {
    pub before: &'a Cut,
    pub after: &'a Cut,
}

/// The first task of a set that isn't one of the tasks, or doesn't come after the one before it.
pub(crate) fn order_finding(op: &Operation, tasks: &[Task], set: &[Task]) -> Option<Finding>
    ensures { result ≡ order_finding op.now tasks.now set.now }
{
    match out_of_order(op, tasks, set) {
        Some(task) => Some(Finding {
            place: WsPlace::Order,
            found: Shown::One(task),
            due: Shown::Nothing,
        }),
        None => None,
    }
}

fn out_of_order(op: &Operation, tasks: &[Task], set: &[Task]) -> Option<Task>
    ensures { result ≡ out_of_order op.now tasks.now None set.now }
{
    let mut before = None;
    for task in set {
        if !(holds(tasks, *task) && comes_after(op, before, *task)) {
            return Some(*task);
        }
        before = Some(*task);
    }
    None
}

/// Whether a task comes after the one before it, if any.
fn comes_after(op: &Operation, before: Option<Task>, task: Task) -> bool
    ensures { result ≡ comes_after op.now before task }
{
    match before {
        Some(before) => earlier(op, before, task),
        None => true,
    }
}

/// The first task of a set that needs a task outside it, and the first such task.
pub(crate) fn need_finding(op: &Operation, tasks: &[Task], set: &[Task]) -> Option<Finding>
    ensures { result ≡ need_finding op.now tasks.now set.now }
{
    for task in set {
        if let Some(need) = lacking(op, tasks, set, *task) {
            return Some(Finding {
                place: WsPlace::F1,
                found: Shown::One(*task),
                due: Shown::One(need),
            });
        }
    }
    None
}

/// The first task outside the set that a task needs.
fn lacking(op: &Operation, tasks: &[Task], set: &[Task], task: Task) -> Option<Task>
    ensures { result ≡ find (lacks op.now set.now task) tasks.now }
{
    for need in tasks {
        if needs(op, task, *need) && !holds(set, *need) {
            return Some(*need);
        }
    }
    None
}

/// The first task of a set with all split indices remaining.
pub(crate) fn remaining_finding(along: &Loop, set: &[Task]) -> Option<Finding>
    ensures { result
        ≡ remaining_finding along.now.op.now along.now.split along.now.dirs set.now }
{
    for task in set {
        if along.remains(*task) {
            return Some(Finding {
                place: WsPlace::F2,
                found: Shown::One(*task),
                due: Shown::Nothing,
            });
        }
    }
    None
}

/// The first task outside a set with all split indices done.
pub(crate) fn done_finding(along: &Loop, tasks: &[Task], set: &[Task]) -> Option<Finding>
    ensures { result
        ≡ done_finding along.now.op.now along.now.split along.now.dirs tasks.now set.now }
{
    for task in tasks {
        if along.is_done(*task) && !holds(set, *task) {
            return Some(Finding {
                place: WsPlace::F3,
                found: Shown::Nothing,
                due: Shown::One(*task),
            });
        }
    }
    None
}

/// The first task of the cut in three parts that was done before and isn't after: its class with the middle part
/// remaining, which is kept, and its class with the middle part done, which isn't.
pub(crate) fn undone_finding(
    op: &Operation,
    cuts: &Cuts,
    tasks: &[Task],
    set: &[Task],
) -> Option<Finding>
    ensures { result
        ≡ undone_finding op.now cuts.now.before.now cuts.now.after.now tasks.now set.now }
{
    for task in tasks {
        let before = class(op, cuts.before, *task);
        let after = class(op, cuts.after, *task);
        if holds(set, before) && !holds(set, after) {
            return Some(Finding {
                place: WsPlace::F4,
                found: Shown::One(before),
                due: Shown::One(after),
            });
        }
    }
    None
}
