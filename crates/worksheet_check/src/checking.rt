//! The check of a worksheet, place by place.

ghost use Rattle.std.specs.Prelude.{◌≡◌, ◌↔◌, IfOk};
ghost use Rattle.worksheet.specs.Worksheets.{Valid};
ghost use Rattle.worksheet_check.specs.Findings.{first_finding};
ghost use Rattle.worksheet_check.specs.InvariantFindings.{invariant_findings};
ghost use Rattle.worksheet_check.specs.Verdicts.{line_findings, verdict_of};

use crate::findings::{Finding, verdict_by};
use crate::invariants::{
    Cuts, done_finding, need_finding, order_finding, remaining_finding, undone_finding,
};
use crate::lines::{Time, ends_finding, guard_finding, line_finding};
use crate::split_sides::Loop;
use crate::update_lines::update_finding;
use block_expr::two_parts;
use operation_spec::Operation;
use std::alloc::{AllocError, Global};
use worksheet::{
    Verdict, Worksheet, WsPlace, cut_after, cut_before, tasks_in, three_parts, worksheet_of,
};

/// Whether a worksheet is right, or its first wrong place.
///
/// Its one error is want of memory. That is also answered where a cut has more than 262,144 tasks, which those of a valid
/// operation never have, or where a line or an update has no number.
pub fn check(alloc: Global, op: &Operation, w: &Worksheet) -> Result<Verdict, AllocError>
    ensures verdict { IfOk result (λ v. v ≡ verdict_of op.now w.now) }
    ensures right { IfOk result (λ v. (v ≡ Verdict.Right) ↔ Valid op.now w.now) }
{
    let due = worksheet_of(alloc, op, w.split, w.dirs, &w.invariant)?;
    let of_invariant = invariant_finding(alloc, op, w)?;
    let of_lines = lines_finding(alloc, op, w, &due)?;
    Ok(verdict_by(of_invariant.or(of_lines)))
}

/// The first finding of the invariant.
fn invariant_finding(
    alloc: Global,
    op: &Operation,
    w: &Worksheet,
) -> Result<Option<Finding>, AllocError>
    ensures { IfOk result (λ finding. finding
        ≡ first_finding (invariant_findings op.now w.now)) }
{
    let halves = two_parts(alloc, op, w.split)?;
    let of_halves = tasks_in(alloc, op, &halves)?;
    let thirds = three_parts(alloc, op, w.split)?;
    let of_thirds = tasks_in(alloc, op, &thirds)?;
    let before = cut_before(alloc, op, w.split, w.dirs)?;
    let after = cut_after(alloc, op, w.split, w.dirs)?;
    let cuts = Cuts {
        before: &before,
        after: &after,
    };
    let along = Loop {
        op,
        split: w.split,
        dirs: w.dirs,
    };
    let two = of_halves.as_slice();
    let three = of_thirds.as_slice();
    let set = w.invariant.as_slice();
    Ok(
        order_finding(op, two, set)
            .or(need_finding(op, two, set))
            .or(remaining_finding(&along, set))
            .or(done_finding(&along, two, set))
            .or(undone_finding(op, &cuts, three, set)),
    )
}

/// The first finding of the other lines, against those that are due.
fn lines_finding(
    alloc: Global,
    op: &Operation,
    w: &Worksheet,
    due: &Worksheet,
) -> Result<Option<Finding>, AllocError>
    ensures { IfOk result (λ finding. finding
        ≡ first_finding (line_findings op.now w.now due.now)) }
{
    let guard = guard_finding(alloc, w.guard.as_slice(), due.guard.as_slice())?;
    let start = ends_finding(
        alloc,
        WsPlace::Start,
        w.start.as_slice(),
        due.start.as_slice(),
    )?;
    let take = ends_finding(alloc, WsPlace::Take, w.take.as_slice(), due.take.as_slice())?;
    let before = line_finding(
        alloc,
        Time::Before,
        w.before.as_slice(),
        due.before.as_slice(),
    )?;
    let updates = update_finding(op, due.updates.as_slice(), w.updates.as_slice())?;
    let give = ends_finding(alloc, WsPlace::Give, w.give.as_slice(), due.give.as_slice())?;
    let after = line_finding(alloc, Time::After, w.after.as_slice(), due.after.as_slice())?;
    Ok(
        guard
            .or(start)
            .or(take)
            .or(before)
            .or(updates)
            .or(give)
            .or(after),
    )
}
