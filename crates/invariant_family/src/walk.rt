//! The walk over the sets of a split's tasks, from the last task to the first, that keeps those whose tasks go together.
//! A set is a number on the way, in which the task at place p counts 2^p.

ghost use Rattle.std.specs.Prelude.{◌≡◌, ◌+◌, ◌*◌, ◌/◌, [], ◌∷◌, ◌++◌, map, if◌then◌else◌, IfOk, OnOk};
ghost use Rattle.std.specs.List.{flat_map};
ghost use Rattle.task_graph.specs.Order.{tasks_of};
ghost use Rattle.invariant_family.specs.Families.{feasible_sets};
ghost use Rattle.invariant_family.specs.Splits.{three_parts};
ghost use Rattle.invariant_family.specs.Rules.{classes_by, class_pair, wants, may_hold, may_lack};
ghost use Rattle.invariant_family.specs.Numbers.{is_odd, set_of, can_lack, can_hold, with_next, numbers_of};

use crate::rules::{ClassPair, Rule, Rules};
use crate::splits::{Side, cut, parts};
use operation_spec::{Dirs, Operation, Split, Task, TaskList};
use std::alloc::{AllocError, Global};
use task_graph::{Counts, Cut, class, tasks};

/// The feasible sets of a split and its directions, in order.
pub(crate) fn feasible_sets(
    alloc: Global,
    op: &Operation,
    split: Split,
    dirs: Dirs,
) -> Result<Vec<TaskList>, AllocError>
    ensures { IfOk result (λ sets. sets.items ≡ feasible_sets op.now split dirs) }
{
    let two_parts = parts(alloc, op, split, 2)?;
    let two_part_tasks = tasks_in(alloc, op, &two_parts)?;
    let pairs = class_pairs(alloc, op, split, dirs)?;
    let rules = Rules {
        op,
        split,
        dirs,
        tasks: two_part_tasks.as_slice(),
        pairs: pairs.as_slice(),
    };
    let numbers = walk(alloc, &rules)?;
    Ok(sets_of(alloc, rules.tasks, numbers.as_slice())?)
}

/// The tasks of an operation under a cut.
fn tasks_in(alloc: Global, op: &Operation, parts: &Counts) -> Result<Vec<Task>, AllocError>
    ensures { IfOk result (λ tasks. tasks.items ≡ tasks_of op.now parts.now) }
{
    match tasks(alloc, op, parts) {
        Ok(tasks) => Ok(tasks),
        Err(_) => Err(AllocError),
    }
}

/// The classes of each task of the cut in three parts.
fn class_pairs(
    alloc: Global,
    op: &Operation,
    split: Split,
    dirs: Dirs,
) -> Result<Vec<ClassPair>, AllocError>
    ensures { IfOk result (λ pairs. pairs.items
        ≡ map (class_pair op.now split dirs) (tasks_of op.now (three_parts op.now split))) }
{
    let remaining = cut(alloc, op, split, dirs, Side::Remaining)?;
    let done = cut(alloc, op, split, dirs, Side::Done)?;
    let three_parts = parts(alloc, op, split, 3)?;
    let three_part_tasks = tasks_in(alloc, op, &three_parts)?;
    Ok(classes(alloc, op, &remaining, &done, three_part_tasks.as_slice())?)
}

/// The classes of each task under two cuts.
fn classes(
    alloc: Global,
    op: &Operation,
    remaining: &Cut,
    done: &Cut,
    tasks: &[Task],
) -> Result<Vec<ClassPair>, AllocError>
    ensures { IfOk result (λ pairs. pairs.items
        ≡ map (classes_by op.now remaining.now done.now) tasks.now) }
{
    tasks
        .iter()
        .map(|task| ClassPair {
            remaining: class(op, remaining, *task),
            done: class(op, done, *task),
        })
        .collect(alloc)
}

/// The numbers of the sets that meet the rules, ascending.
fn walk(alloc: Global, rules: &Rules) -> Result<Vec<u64>, AllocError>
    ensures { IfOk result (λ numbers. numbers.items
        ≡ numbers_of (wants rules.now.op.now rules.now.pairs.now)
        (may_hold rules.now.op.now rules.now.split rules.now.dirs rules.now.tasks.now
        rules.now.pairs.now)
        (may_lack rules.now.op.now rules.now.split rules.now.dirs) rules.now.tasks.now) }
{
    let mut numbers = Vec::new(alloc);
    numbers.push(0)?;
    let mut left = rules.tasks.len();
    while left > 0 {
        let rule = rules.rule(alloc, rules.tasks[left - 1], &rules.tasks[left..])?;
        numbers = decided(alloc, &rule, numbers.as_slice())?;
        left -= 1;
    }
    Ok(numbers)
}

/// The same sets with one task more decided, in front of those that were: each set without it and then with it, as far
/// as its rule allows.
fn decided(alloc: Global, rule: &Rule, numbers: &[u64]) -> Result<Vec<u64>, AllocError>
    ensures { IfOk result (λ more. more.items
        ≡ flat_map (with_next (can_lack rule.now.may_lack rule.now.wanting.items)
        (can_hold rule.now.may_hold rule.now.wanted.items)) numbers.now) }
{
    let mut more = Vec::new(alloc);
    for number in numbers {
        add_next(rule, *number, &mut more)?;
    }
    Ok(more)
}

/// Adds the numbers of one set without the task and with it.
fn add_next(rule: &Rule, number: u64, more: &mut Vec<u64>) -> Result<(), AllocError>
    ensures { OnOk result (more.new.items ≡ more.old.items
        ++ with_next (can_lack rule.now.may_lack rule.now.wanting.items)
        (can_hold rule.now.may_hold rule.now.wanted.items) number) }
{
    let Some(without) = 2u64.checked_mul(number) else {
        return Err(AllocError);
    };
    let Some(with) = without.checked_add(1) else {
        return Err(AllocError);
    };
    push_if(rule.can_lack(number), without, more)?;
    push_if(rule.can_hold(number), with, more)?;
    Ok(())
}

/// Adds an item where a test holds.
fn push_if<T: Drop>(test: bool, item: T, items: &mut Vec<T>) -> Result<(), AllocError>
    ensures { OnOk result (items.new.items ≡ items.old.items ++ (if test then item ∷ [] else [])) }
{
    if test {
        items.push(item)?;
    }
    Ok(())
}

/// The sets with these numbers.
fn sets_of(alloc: Global, tasks: &[Task], numbers: &[u64]) -> Result<Vec<TaskList>, AllocError>
    ensures { IfOk result (λ sets. sets.items ≡ map (set_of tasks.now) numbers.now) }
{
    let mut sets = Vec::new(alloc);
    for number in numbers {
        sets.push(set_of(alloc, tasks, *number)?)?;
    }
    Ok(sets)
}

/// The set with a number.
fn set_of(alloc: Global, tasks: &[Task], number: u64) -> Result<TaskList, AllocError>
    ensures { IfOk result (λ set. set ≡ set_of tasks.now number) }
{
    let mut set = Vec::with_capacity(alloc, tasks.len())?;
    let mut left = number;
    for task in tasks {
        push_if(left % 2 == 1, *task, &mut set)?;
        left /= 2;
    }
    Ok(TaskList::from_vec(set))
}
