//! The block tasks of a statement in the order of a loop.

ghost use Rattle.std.specs.Prelude.{◌≡◌, ◌++◌, ◌+◌, ◌-◌, ◌<◌, [], All, IsTrue, true, false, map, length, IfOk, OnOk, slice_index_or, if◌then◌else◌};
ghost use Rattle.std.specs.List.{flat_map, range_with_len};
ghost use Rattle.operation_spec.specs.ValidOperations.{IsValid};
ghost use Rattle.task_graph.specs.Classes.{class_of};
ghost use Rattle.task_graph.specs.Order.{tasks_of};
ghost use Rattle.task_graph.specs.Tasks.{has, parts_of};
ghost use Rattle.invariant_family.specs.Feasible.{holds};
ghost use Rattle.invariant_family.specs.Splits.{dir_of, is_split};
ghost use Rattle.issue_list.specs.IssuedSteps.{cut_after, iterations, side_after, tasks_in};
ghost use Rattle.issue_list.specs.LoopOrder.{IsInFamily, IsPlaced, tasks_placed};

use invariant_family::{Variant, dir_of, holds, is_split};
use operation_spec::{Dir, Operation, Split, Task};
use std::alloc::{AllocError, Global};
use task_graph::{Counts, Cut, Sides, class};

/// A task with the iteration that does it, from 0.
#[derive(Clone, Copy, Debug, PartialEq, Eq)]
pub(crate) struct Placed {
    pub task: Task,
    pub iteration: usize,
}

/// What a loop has done after its iterations: the operation, the tasks of the cut in two parts that it keeps done, and the cuts
/// after 0 iterations and after each.
#[derive(Clone, Copy)]
struct Progress<'a> {
    op: &'a Operation,
    kept: &'a [Task],
    cuts: &'a [Cut],
}

/// The tasks of a valid operation in the order of the loop of one of its variants; `own` has them in canonical order.
pub(crate) fn in_loop_order(
    alloc: Global,
    op: &Operation,
    counts: &Counts,
    variant: &Variant,
    own: &[Task],
) -> Result<Vec<Task>, AllocError>
    requires valid { IsValid op.now }
    requires variant { IsInFamily op.now variant.now }
    requires tasks { own.now ≡ tasks_of op.now counts.now }
    ensures { IfOk result (λ tasks. tasks.items ≡ flat_map (tasks_in op.now counts.now variant.now)
        (range_with_len 0 (iterations counts.now variant.now.split))) }
{
    let placed = places(alloc, op, counts, variant, own)?;
    let mut ordered = Vec::with_capacity(alloc, own.len())?;
    for t in 0..iterations(counts, variant.split) {
        add_iteration(placed.as_slice(), t as usize, &mut ordered)?;
    }
    Ok(ordered)
}

/// Appends the tasks that iteration t does.
fn add_iteration(placed: &[Placed], t: usize, ordered: &mut Vec<Task>) -> Result<(), AllocError>
    ensures { OnOk result
        (ordered.new.items ≡ ordered.old.items ++ tasks_placed placed.now t) }
{
    for item in placed {
        if item.iteration == t {
            ordered.push(item.task)?;
        }
    }
    Ok(())
}

/// Each task with the iteration that does it.
fn places(
    alloc: Global,
    op: &Operation,
    counts: &Counts,
    variant: &Variant,
    own: &[Task],
) -> Result<Vec<Placed>, AllocError>
    requires valid { IsValid op.now }
    requires variant { IsInFamily op.now variant.now }
    requires tasks { All (λ task. IsTrue (has op.now counts.now task)) own.now }
    ensures tasks { IfOk result (λ placed. map (λ item. item.task) placed.items ≡ own.now) }
    ensures iterations { IfOk result (λ placed.
        All (IsPlaced op.now counts.now variant.now) placed.items) }
{
    let cuts = cuts_after(alloc, op, counts, variant)?;
    let progress = Progress {
        op,
        kept: variant.kept.as_slice(),
        cuts: cuts.as_slice(),
    };
    let mut placed = Vec::with_capacity(alloc, own.len())?;
    for task in own {
        placed.push(Placed {
            task: *task,
            iteration: progress.iteration_of(*task),
        })?;
    }
    Ok(placed)
}

impl Progress<'_> {
    /// Whether the loop has done a task after so many iterations.
    fn has_done(&self, task: Task, t: usize) -> bool
        requires { t < length self.now.cuts.now }
        ensures { result ≡ holds self.now.kept.now
            (class_of self.now.op.now (slice_index_or self.now.cuts.now t []) task) }
    {
        holds(self.kept, class(self.op, &self.cuts[t], task))
    }

    /// The iteration that does a task, found by halving: what is done stays done.
    fn iteration_of(&self, task: Task) -> usize
        requires some { 0 < length self.now.cuts.now }
        requires undone { holds self.now.kept.now
            (class_of self.now.op.now (slice_index_or self.now.cuts.now 0 []) task) ≡ false }
        requires done { holds self.now.kept.now (class_of self.now.op.now
            (slice_index_or self.now.cuts.now (length self.now.cuts.now - 1) []) task) ≡ true }
        ensures within { result + 1 < length self.now.cuts.now }
        ensures undone { holds self.now.kept.now
            (class_of self.now.op.now (slice_index_or self.now.cuts.now result []) task) ≡ false }
        ensures done { holds self.now.kept.now (class_of self.now.op.now
            (slice_index_or self.now.cuts.now (result + 1) []) task) ≡ true }
    {
        let mut before = 0;
        let mut after = self.cuts.len() - 1;
        while before + 1 < after {
            let middle = before + (after - before) / 2;
            if self.has_done(task, middle) {
                after = middle;
            } else {
                before = middle;
            }
        }
        before
    }
}

/// The cuts after 0 iterations of a loop by a variant and after each.
#[tactic(auto, using(crate::proofs::NumbersInOrder::map_range_more))]
fn cuts_after(
    alloc: Global,
    op: &Operation,
    counts: &Counts,
    variant: &Variant,
) -> Result<Vec<Cut>, AllocError>
    ensures { IfOk result (λ cuts. cuts.items
        ≡ map (cut_after op.now counts.now variant.now.split variant.now.dirs)
        (range_with_len 0 (iterations counts.now variant.now.split + 1))) }
{
    let mut cuts = Vec::new(alloc);
    for t in 0..iterations(counts, variant.split) {
        cuts.push(cut_after(alloc, op, counts, variant, t)?)?;
    }
    cuts.push(cut_after(
        alloc,
        op,
        counts,
        variant,
        iterations(counts, variant.split),
    )?)?;
    Ok(cuts)
}

/// How many iterations the loop has: as many as the longest dimension of its split has parts.
fn iterations(counts: &Counts, split: Split) -> u32
    ensures { result ≡ iterations counts.now split }
{
    let second = match split.second {
        Some(second) => parts_of(counts, second as usize),
        None => 0,
    };
    parts_of(counts, split.first as usize).max(second)
}

/// Into how many parts a dimension is cut.
fn parts_of(counts: &Counts, dim: usize) -> u32
    ensures { result ≡ parts_of counts.now dim }
{
    counts.get(dim).copied().unwrap_or(0)
}

/// The cut after so many iterations of a loop by a variant.
#[tactic(auto, using(invariant_family::proofs::Numbering::map_numbers_more))]
fn cut_after(
    alloc: Global,
    op: &Operation,
    counts: &Counts,
    variant: &Variant,
    t: u32,
) -> Result<Cut, AllocError>
    ensures { IfOk result (λ cut.
        cut ≡ cut_after op.now counts.now variant.now.split variant.now.dirs t) }
{
    let mut cut = Cut::new(alloc);
    for dim in 0..op.dims.len() {
        cut.push(sides_after(counts, variant, dim, t))?;
    }
    Ok(cut)
}

/// How that cut cuts a dimension.
fn sides_after(counts: &Counts, variant: &Variant, dim: usize, t: u32) -> Sides
    ensures { result ≡ (if is_split variant.now.split dim
        then side_after (dir_of variant.now.split variant.now.dirs dim) (parts_of counts.now dim) t
        else Sides.One) }
{
    if is_split(variant.split, dim) {
        side_after(
            dir_of(variant.split, variant.dirs, dim),
            parts_of(counts, dim),
            t,
        )
    } else {
        Sides::One
    }
}

/// How a dimension with so many parts is cut after so many iterations in a direction.
fn side_after(dir: Dir, parts: u32, t: u32) -> Sides
    ensures { result ≡ side_after dir parts t }
{
    match dir {
        Dir::Forward => Sides::Two { edge: t.min(parts) },
        Dir::Backward => Sides::Two {
            edge: parts - t.min(parts),
        },
    }
}
