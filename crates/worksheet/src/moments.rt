//! The two moments of a round of the loop, and what is done at each.

ghost use Rattle.std.specs.Prelude.{◌≡◌, ◌&&◌, ◌==◌, not, map, length, filter, if◌then◌else◌, IfOk};
ghost use Rattle.task_graph.specs.Order.{numbers_below};
ghost use Rattle.invariant_family.specs.Splits.{is_split, dir_of, three_parts, middle_remaining, middle_done};
ghost use Rattle.worksheet.specs.Moments.{cut_before, cut_after, is_done, is_at, state_of, is_update};

use crate::sheet::{State, StateList};
use equation::Place;
use invariant_family::{dir_of, holds, is_split};
use operation_spec::{Dir, Dirs, Operation, Split, Task, TaskList};
use std::alloc::{AllocError, Global};
use task_graph::{Counts, Cut, Sides, class};

/// Three parts in each dimension of the split, and one in the others.
#[tactic(auto, using(invariant_family::proofs::Numbering::map_numbers_more))]
pub fn three_parts(alloc: Global, op: &Operation, split: Split) -> Result<Counts, AllocError>
    ensures { IfOk result (λ parts. parts ≡ three_parts op.now split) }
{
    let mut parts = Counts::new(alloc);
    for dim in 0..op.dims.len() {
        parts.push(if is_split(split, dim) { 3 } else { 1 })?;
    }
    Ok(parts)
}

/// Three parts as two, with the middle one among those that remain.
#[tactic(auto, using(invariant_family::proofs::Numbering::map_numbers_more))]
pub fn cut_before(
    alloc: Global,
    op: &Operation,
    split: Split,
    dirs: Dirs,
) -> Result<Cut, AllocError>
    ensures { IfOk result (λ cut. cut ≡ cut_before op.now split dirs) }
{
    let mut cut = Cut::new(alloc);
    for dim in 0..op.dims.len() {
        cut.push(if is_split(split, dim) {
            middle_remaining(dir_of(split, dirs, dim))
        } else {
            Sides::One
        })?;
    }
    Ok(cut)
}

/// Three parts as two, with the middle one among those that are done.
#[tactic(auto, using(invariant_family::proofs::Numbering::map_numbers_more))]
pub fn cut_after(alloc: Global, op: &Operation, split: Split, dirs: Dirs) -> Result<Cut, AllocError>
    ensures { IfOk result (λ cut. cut ≡ cut_after op.now split dirs) }
{
    let mut cut = Cut::new(alloc);
    for dim in 0..op.dims.len() {
        cut.push(if is_split(split, dim) {
            middle_done(dir_of(split, dirs, dim))
        } else {
            Sides::One
        })?;
    }
    Ok(cut)
}

/// How a dimension is cut with its middle part remaining.
fn middle_remaining(dir: Dir) -> Sides
    ensures { result ≡ middle_remaining dir }
{
    match dir {
        Dir::Forward => Sides::Two { edge: 1 },
        Dir::Backward => Sides::Two { edge: 2 },
    }
}

/// How it is cut with its middle part done.
fn middle_done(dir: Dir) -> Sides
    ensures { result ≡ middle_done dir }
{
    match dir {
        Dir::Forward => Sides::Two { edge: 2 },
        Dir::Backward => Sides::Two { edge: 1 },
    }
}

/// A moment of a loop that keeps tasks done: its cut of three parts as two.
#[derive(Clone, Copy)]
pub(crate) struct Moment<'a> {
    pub op: &'a Operation,
    pub kept: &'a [Task],
    pub cut: &'a Cut,
}

impl Moment<'_> {
    /// Whether a task is done.
    pub fn is_done(&self, task: Task) -> bool
        ensures { result ≡ is_done self.now.op.now self.now.kept.now self.now.cut.now task }
    {
        holds(self.kept, class(self.op, self.cut, task))
    }

    /// The states of blocks, with those of these tasks that are done.
    pub fn states(
        &self,
        alloc: Global,
        tasks: &[Task],
        places: &[Place],
    ) -> Result<StateList, AllocError>
        ensures { IfOk result (λ states. states
            ≡ map (state_of (is_done self.now.op.now self.now.kept.now self.now.cut.now) tasks.now)
            places.now) }
    {
        let mut states = StateList::new(alloc);
        for place in places {
            states.push(self.state(alloc, tasks, *place)?)?;
        }
        Ok(states)
    }

    /// The state of a block.
    fn state(&self, alloc: Global, tasks: &[Task], place: Place) -> Result<State, AllocError>
        ensures { IfOk result (λ state. state
            ≡ state_of (is_done self.now.op.now self.now.kept.now self.now.cut.now) tasks.now
            place) }
    {
        let done = self.done_at(alloc, tasks, place)?;
        Ok(State {
            row: place.row,
            col: place.col,
            done,
        })
    }

    /// The tasks of a block that are done.
    fn done_at(&self, alloc: Global, tasks: &[Task], place: Place) -> Result<TaskList, AllocError>
        ensures { IfOk result (λ done. done
            ≡ filter (λ a. is_at place a
            && is_done self.now.op.now self.now.kept.now self.now.cut.now a) tasks.now) }
    {
        let mut done = TaskList::new(alloc);
        for task in tasks {
            if task.i == place.row && task.j == place.col && self.is_done(*task) {
                done.push(*task)?;
            }
        }
        Ok(done)
    }
}

/// The tasks that are done after and not before.
pub(crate) fn updates(
    alloc: Global,
    before: &Moment,
    after: &Moment,
    tasks: &[Task],
) -> Result<TaskList, AllocError>
    ensures { IfOk result (λ updates. updates
        ≡ filter (λ a. is_done after.now.op.now after.now.kept.now after.now.cut.now a
        && not (is_done before.now.op.now before.now.kept.now before.now.cut.now a)) tasks.now) }
{
    let mut updates = TaskList::new(alloc);
    for task in tasks {
        if after.is_done(*task) && !before.is_done(*task) {
            updates.push(*task)?;
        }
    }
    Ok(updates)
}
