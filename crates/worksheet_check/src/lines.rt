//! What is wrong with the guard, the ends and the states of a worksheet.

ghost use Rattle.std.specs.Prelude.{◌≡◌, ◌+◌, IfOk};
ghost use Rattle.std.specs.Option.{option_copied};
ghost use Rattle.std.specs.Cmp.Lexicographic.{pointwise};
ghost use Rattle.invariant_family.specs.Feasible.{same_task};
ghost use Rattle.worksheet_check.specs.RoundFindings.{guard_finding, same_end, ends_finding};
ghost use Rattle.worksheet_check.specs.RoundFindings.{same_state, line_shown, differing, line_finding, place_at};

use crate::findings::Finding;
use operation_spec::Task;
use std::alloc::{AllocError, Global};
use worksheet::{End, Shown, State, WsPlace, copied};

/// A guard that isn't the one due.
pub(crate) fn guard_finding(
    alloc: Global,
    guard: &[u32],
    due: &[u32],
) -> Result<Option<Finding>, AllocError>
    ensures { IfOk result (λ finding. finding ≡ guard_finding guard.now due.now) }
{
    if guard == due {
        return Ok(None);
    }
    let found = copied(alloc, guard)?;
    let due = copied(alloc, due)?;
    Ok(Some(Finding {
        place: WsPlace::Guard,
        found: Shown::Dims(found),
        due: Shown::Dims(due),
    }))
}

/// Ends that aren't those due.
pub(crate) fn ends_finding(
    alloc: Global,
    place: WsPlace,
    ends: &[End],
    due: &[End],
) -> Result<Option<Finding>, AllocError>
    ensures { IfOk result (λ finding. finding ≡ ends_finding place ends.now due.now) }
{
    if same_ends(ends, due) {
        return Ok(None);
    }
    let found = copied(alloc, ends)?;
    let due = copied(alloc, due)?;
    Ok(Some(Finding {
        place,
        found: Shown::Ends(found),
        due: Shown::Ends(due),
    }))
}

fn same_ends(ends: &[End], due: &[End]) -> bool
    ensures { result ≡ pointwise same_end ends.now due.now }
{
    ends == due
}

/// Which of the two states the lines are of.
#[derive(Clone, Copy, Debug, PartialEq, Eq)]
pub(crate) enum Time {
    Before,
    After,
}

impl Time {
    /// The place of a line, from 1.
    fn place(self, line: u32) -> WsPlace
        ensures { result ≡ place_at self line }
    {
        match self {
            Time::Before => WsPlace::Before(line),
            Time::After => WsPlace::After(line),
        }
    }
}

/// The first line that isn't the one due.
pub(crate) fn line_finding(
    alloc: Global,
    time: Time,
    lines: &[State],
    due: &[State],
) -> Result<Option<Finding>, AllocError>
    ensures { IfOk result (λ finding. finding
        ≡ line_finding (place_at time) 1 lines.now due.now) }
{
    let mut at: usize = 0;
    while at < lines.len() && at < due.len() && same_state(&lines[at], &due[at]) {
        at += 1;
    }
    differing(alloc, time, at, lines.get(at), due.get(at))
}

/// What is wrong where the lines and those due differ.
fn differing(
    alloc: Global,
    time: Time,
    at: usize,
    line: Option<&State>,
    due: Option<&State>,
) -> Result<Option<Finding>, AllocError>
    ensures { IfOk result (λ finding. finding
        ≡ differing (place_at time (at + 1)) (option_copied line.entry)
        (option_copied due.entry)) }
{
    if line.is_none() && due.is_none() {
        return Ok(None);
    }
    let Some(number) = at.checked_add(1) else {
        return Err(AllocError);
    };
    let Ok(number) = u32::try_from(number) else {
        return Err(AllocError);
    };
    let found = line_shown(alloc, line)?;
    let due = line_shown(alloc, due)?;
    Ok(Some(Finding {
        place: time.place(number),
        found,
        due,
    }))
}

/// A line, where there is one.
fn line_shown(alloc: Global, line: Option<&State>) -> Result<Shown, AllocError>
    ensures { IfOk result (λ shown. shown ≡ line_shown (option_copied line.entry)) }
{
    match line {
        None => Ok(Shown::Nothing),
        Some(line) => Ok(Shown::Line(copy_of(alloc, line)?)),
    }
}

/// A state of its own with the same tasks.
fn copy_of(alloc: Global, state: &State) -> Result<State, AllocError>
    ensures { IfOk result (λ copy. copy ≡ state.now) }
{
    let done = copied(alloc, state.done.as_slice())?;
    Ok(State {
        row: state.row,
        col: state.col,
        done,
    })
}

/// Whether two states are of one block with the same tasks.
fn same_state(a: &State, b: &State) -> bool
    ensures { result ≡ same_state a.now b.now }
{
    a.row == b.row && a.col == b.col && same_tasks(a.done.as_slice(), b.done.as_slice())
}

fn same_tasks(a: &[Task], b: &[Task]) -> bool
    ensures { result ≡ pointwise same_task a.now b.now }
{
    a == b
}
