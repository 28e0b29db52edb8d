//! The rules of feasible sets, task by task: which task is held wherever another one is, and which tasks may be held or
//! be lacking at all.

ghost use Rattle.std.specs.Prelude.{◌≡◌, ◌&&◌, ◌||◌, not, IfOk};
ghost use Rattle.std.specs.List.{list_all, list_any};
ghost use Rattle.invariant_family.specs.Feasible.{same_task, holds};
ghost use Rattle.invariant_family.specs.Rules.{wants, may_hold, may_lack};
ghost use Rattle.invariant_family.specs.Numbers.{has_bit, can_lack, can_hold, places_from};

use crate::splits::{Side, all_split_indices};
use operation_spec::{Dirs, Operation, Split, Task};
use std::alloc::{AllocError, Global};
use task_graph::needs;

/// The classes of a task of the cut in three parts: with the middle part among those that remain, and with
/// it among those that are done.
#[derive(Clone, Copy, Debug, PartialEq, Eq)]
pub(crate) struct ClassPair {
    pub remaining: Task,
    pub done: Task,
}

/// What the rules look at: an operation, a split with its directions, the tasks of the cut in two parts in
/// canonical order, and the classes of those of the cut in three.
#[derive(Clone, Copy)]
pub(crate) struct Rules<'a> {
    pub op: &'a Operation,
    pub split: Split,
    pub dirs: Dirs,
    pub tasks: &'a [Task],
    pub pairs: &'a [ClassPair],
}

/// What the rules say of one task and the set of those behind it: whether it may be held and be lacking at all, and the
/// places, among those behind it, of the tasks that it wants and of those that want it.
#[derive(Debug, Drop)]
pub(crate) struct Rule {
    pub may_hold: bool,
    pub may_lack: bool,
    pub wanted: Vec<usize>,
    pub wanting: Vec<usize>,
}

impl Rules<'_> {
    /// The rule of a task with these tasks behind it.
    pub fn rule(&self, alloc: Global, task: Task, behind: &[Task]) -> Result<Rule, AllocError>
        ensures hold { IfOk result (λ rule. rule.may_hold
            ≡ may_hold self.now.op.now self.now.split self.now.dirs self.now.tasks.now
            self.now.pairs.now task) }
        ensures lack { IfOk result (λ rule. rule.may_lack
            ≡ may_lack self.now.op.now self.now.split self.now.dirs task) }
        ensures wanted { IfOk result (λ rule. rule.wanted.items
            ≡ places_from (wants self.now.op.now self.now.pairs.now task) 0 behind.now) }
        ensures wanting { IfOk result (λ rule. rule.wanting.items
            ≡ places_from (λ b. wants self.now.op.now self.now.pairs.now b task) 0 behind.now) }
    {
        let wanted = self.wanted(alloc, task, behind)?;
        let wanting = self.wanting(alloc, task, behind)?;
        Ok(Rule {
            may_hold: self.may_hold(task),
            may_lack: self.may_lack(task),
            wanted,
            wanting,
        })
    }

    /// The places of the tasks that a task wants.
    fn wanted(&self, alloc: Global, task: Task, behind: &[Task]) -> Result<Vec<usize>, AllocError>
        ensures { IfOk result (λ places. places.items
            ≡ places_from (wants self.now.op.now self.now.pairs.now task) 0 behind.now) }
    {
        let mut places = Vec::new(alloc);
        for (place, other) in behind.iter().enumerate() {
            if self.wants(task, *other) {
                places.push(place)?;
            }
        }
        Ok(places)
    }

    /// The places of the tasks that want a task.
    fn wanting(&self, alloc: Global, task: Task, behind: &[Task]) -> Result<Vec<usize>, AllocError>
        ensures { IfOk result (λ places. places.items
            ≡ places_from (λ b. wants self.now.op.now self.now.pairs.now b task) 0 behind.now) }
    {
        let mut places = Vec::new(alloc);
        for (place, other) in behind.iter().enumerate() {
            if self.wants(*other, task) {
                places.push(place)?;
            }
        }
        Ok(places)
    }

    /// Whether a set that holds task a has to hold task b: a needs b, or they are the two classes of one task.
    fn wants(&self, a: Task, b: Task) -> bool
        ensures { result ≡ wants self.now.op.now self.now.pairs.now a b }
    {
        needs(self.op, a, b) || self.are_classes(a, b)
    }

    /// Whether two tasks are the two classes of one task.
    fn are_classes(&self, a: Task, b: Task) -> bool
        ensures { result
            ≡ list_any (λ pair. same_task pair.remaining a && same_task pair.done b)
            self.now.pairs.now }
    {
        self.pairs.iter().any(|pair| same_task(pair.remaining, a) && same_task(pair.done, b))
    }

    /// Whether a set may hold a task: not all its split indices remain, and where it is the first class of a task, the
    /// second is one of the tasks.
    fn may_hold(&self, a: Task) -> bool
        ensures { result
            ≡ may_hold self.now.op.now self.now.split self.now.dirs self.now.tasks.now
            self.now.pairs.now a }
    {
        !all_split_indices(self.op, self.split, self.dirs, Side::Remaining, a)
            && self.has_second_classes(a)
    }

    /// Whether, where a task is the first class of another one, the second class is one of the tasks.
    fn has_second_classes(&self, a: Task) -> bool
        ensures { result
            ≡ list_all (λ pair. not (same_task pair.remaining a)
            || holds self.now.tasks.now pair.done)
            self.now.pairs.now }
    {
        self.pairs.iter().all(|pair| !same_task(pair.remaining, a) || holds(self.tasks, pair.done))
    }

    /// Whether a set may lack a task: not all its split indices are done.
    fn may_lack(&self, a: Task) -> bool
        ensures { result ≡ may_lack self.now.op.now self.now.split self.now.dirs a }
    {
        !all_split_indices(self.op, self.split, self.dirs, Side::Done, a)
    }
}

impl Rule {
    /// Whether the task may be out of the set with a number.
    pub fn can_lack(&self, number: u64) -> bool
        ensures { result ≡ can_lack self.now.may_lack self.now.wanting.items number }
    {
        self.may_lack && has_none(number, &self.wanting)
    }

    /// Whether the task may be in the set with a number.
    pub fn can_hold(&self, number: u64) -> bool
        ensures { result ≡ can_hold self.now.may_hold self.now.wanted.items number }
    {
        self.may_hold && has_all(number, &self.wanted)
    }
}

/// Whether the set with a number has no task at these places.
fn has_none(number: u64, places: &[usize]) -> bool
    ensures { result ≡ list_all (λ k. not (has_bit number k)) places.now }
{
    places.iter().all(|place| !has_bit(number, *place))
}

/// Whether it has the tasks at all these places.
fn has_all(number: u64, places: &[usize]) -> bool
    ensures { result ≡ list_all (has_bit number) places.now }
{
    places.iter().all(|place| has_bit(number, *place))
}

/// Whether the set with a number has the task at a place.
fn has_bit(number: u64, place: usize) -> bool
    ensures { result ≡ has_bit number place }
{
    place < 64 && (number >> place) % 2 == 1
}

/// Whether a set holds a task.
pub fn holds(set: &[Task], task: Task) -> bool
    ensures { result ≡ holds set.now task }
{
    set.iter().any(|held| same_task(task, *held))
}

/// Whether two tasks are one.
fn same_task(a: Task, b: Task) -> bool
    ensures { result ≡ same_task a b }
{
    a == b
}
