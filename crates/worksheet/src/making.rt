//! The worksheet of a variant.

ghost use Rattle.std.specs.Prelude.{◌≡◌, Contains, IfOk};
ghost use Rattle.operation_spec.specs.ValidOperations.{IsValid};
ghost use Rattle.task_graph.specs.Order.{tasks_of};
ghost use Rattle.invariant_family.specs.Families.{family_of};
ghost use Rattle.worksheet.specs.Moments.{cut_before, cut_after, states_at, updates_of};
ghost use Rattle.worksheet.specs.Worksheets.{worksheet_of, Valid};

use crate::copies::copied;
use crate::ends::{split_dims, split_ends};
use crate::moments::{Moment, cut_after, cut_before, three_parts, updates};
use crate::sheet::{StateList, Worksheet};
use block_expr::work_places;
use invariant_family::Variant;
use operation_spec::{Dirs, Operation, Split, Task, TaskList};
use std::alloc::{AllocError, Global};
use task_graph::{Counts, tasks};

/// The worksheet of a variant, with its updates in canonical order. It is valid where the operation is, and the variant
/// is one of its family.
///
/// Its one error is want of memory. That is also answered where the cut in three parts has more than 262,144 tasks, which
/// that of a valid operation never has.
pub fn make(alloc: Global, op: &Operation, v: &Variant) -> Result<Worksheet, AllocError>
    ensures sheet { IfOk result (λ w. w ≡ worksheet_of op.now v.now.split v.now.dirs v.now.kept) }
    ensures valid { IsValid op.now → Contains (family_of op.now) v.now
        → IfOk result (λ w. Valid op.now w) }
{
    worksheet_of(alloc, op, v.split, v.dirs, &v.kept)
}

/// The worksheet of the loop along a split in these directions that keeps tasks done.
///
/// Its one error is want of memory, as of `make`.
pub fn worksheet_of(
    alloc: Global,
    op: &Operation,
    split: Split,
    dirs: Dirs,
    kept: &TaskList,
) -> Result<Worksheet, AllocError>
    ensures { IfOk result (λ w. w ≡ worksheet_of op.now split dirs kept.now) }
{
    let round = round_of(alloc, op, split, dirs, kept)?;
    Ok(Worksheet {
        operation: copied(alloc, op.name.as_slice())?,
        split,
        dirs,
        invariant: copied(alloc, kept.as_slice())?,
        guard: split_dims(alloc, split)?,
        start: split_ends(alloc, split, dirs)?,
        take: split_ends(alloc, split, dirs)?,
        before: round.before,
        updates: round.updates,
        give: split_ends(alloc, split, dirs)?,
        after: round.after,
    })
}

/// One round of a loop: the states before and after, and the updates between.
#[derive(Drop)]
struct Round {
    before: StateList,
    updates: TaskList,
    after: StateList,
}

/// The round of a loop that keeps tasks done.
fn round_of(
    alloc: Global,
    op: &Operation,
    split: Split,
    dirs: Dirs,
    kept: &TaskList,
) -> Result<Round, AllocError>
    ensures before { IfOk result (λ round. round.before
        ≡ states_at op.now split kept.now (cut_before op.now split dirs)) }
    ensures updates { IfOk result (λ round. round.updates ≡ updates_of op.now split dirs kept.now) }
    ensures after { IfOk result (λ round. round.after
        ≡ states_at op.now split kept.now (cut_after op.now split dirs)) }
{
    let parts = three_parts(alloc, op, split)?;
    let found = tasks_in(alloc, op, &parts)?;
    let places = work_places(alloc, op, &parts)?;
    let before_cut = cut_before(alloc, op, split, dirs)?;
    let after_cut = cut_after(alloc, op, split, dirs)?;
    let kept = kept.as_slice();
    let before = Moment {
        op,
        kept,
        cut: &before_cut,
    };
    let after = Moment {
        op,
        kept,
        cut: &after_cut,
    };
    Ok(Round {
        before: before.states(alloc, &found, &places)?,
        updates: updates(alloc, &before, &after, &found)?,
        after: after.states(alloc, &found, &places)?,
    })
}

/// The tasks of an operation under a cut in few parts. Its one error is want of memory, which is also answered where there
/// are more than 262,144.
pub fn tasks_in(alloc: Global, op: &Operation, parts: &Counts) -> Result<Vec<Task>, AllocError>
    ensures { IfOk result (λ found. found.items ≡ tasks_of op.now parts.now) }
{
    match tasks(alloc, op, parts) {
        Ok(found) => Ok(found),
        Err(_) => Err(AllocError),
    }
}
