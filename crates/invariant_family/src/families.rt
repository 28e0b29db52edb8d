//! The variants of an operation: its loop invariants along splits, numbered in order.

ghost use Rattle.std.specs.Prelude.{◌≡◌, ◌↔◌, ◌⊎◌, ◌+◌, ◌<◌, [], ◌∷◌, ◌++◌, length, map, IfOk, OnOk, None};
ghost use Rattle.std.specs.List.{flat_map};
ghost use Rattle.task_graph.specs.Order.{numbers_below};
ghost use Rattle.invariant_family.specs.Splits.{along, single_splits, pair_if_later, pairs_from, pair_splits, directions_of};
ghost use Rattle.invariant_family.specs.Families.{Invariant, invariants_in, invariants_of_split, invariants_along, numbered_from, family_of, variant_numbered};

use crate::variant::Variant;
use crate::walk::feasible_sets;
use operation_spec::{Dir, Dirs, Operation, Split, TaskList};
use std::alloc::{AllocError, Global};

/// The family of an operation: its variants along each dimension alone and then along each two in declared order,
/// numbered from 1.
///
/// Its one error is want of memory. That is also answered where there are more dimensions or variants than the numbers
/// of their types hold, or more than 64 tasks of one cut in two parts, which no valid operation has.
pub fn family(alloc: Global, op: &Operation) -> Result<Vec<Variant>, AllocError>
    ensures { IfOk result (λ variants. variants.items ≡ family_of op.now) }
{
    let splits = splits(alloc, op)?;
    let mut variants = Vec::new(alloc);
    for split in &splits {
        add_split(alloc, op, *split, &mut variants)?;
    }
    Ok(variants)
}

/// The variant of an operation with a number, from 1, or None exactly where the family has no such number.
///
/// Its one error is want of memory, as of `family`.
pub fn variant_at(alloc: Global, op: &Operation, number: u32) -> Result<Option<Variant>, AllocError>
    ensures value { IfOk result (λ found. found ≡ variant_numbered (family_of op.now) number) }
    ensures none { IfOk result (λ found.
        (found ≡ None) ↔ ((number ≡ 0) ⊎ (length (family_of op.now) < number))) }
{
    let Some(place) = number.checked_sub(1) else {
        return Ok(None);
    };
    let mut variants = family(alloc, op)?;
    if place as usize >= variants.len() {
        return Ok(None);
    }
    Ok(Some(variants.swap_remove(place as usize)))
}

/// The splits of an operation: each dimension alone, and then each two in declared order, by the first and then the
/// second.
fn splits(alloc: Global, op: &Operation) -> Result<Vec<Split>, AllocError>
    ensures { IfOk result (λ splits. splits.items ≡ single_splits op.now ++ pair_splits op.now) }
{
    let Ok(count) = u32::try_from(op.dims.len()) else {
        return Err(AllocError);
    };
    let mut splits = Vec::new(alloc);
    add_singles(count, &mut splits)?;
    add_pairs(count, &mut splits)?;
    Ok(splits)
}

/// Adds each of so many dimensions alone.
fn add_singles(count: u32, splits: &mut Vec<Split>) -> Result<(), AllocError>
    ensures { OnOk result (splits.new.items ≡ splits.old.items ++ map along (numbers_below count)) }
{
    for first in 0..count {
        splits.push(Split {
            first,
            second: None,
        })?;
    }
    Ok(())
}

/// Adds each two of so many dimensions, in declared order.
fn add_pairs(count: u32, splits: &mut Vec<Split>) -> Result<(), AllocError>
    ensures { OnOk result (splits.new.items
        ≡ splits.old.items ++ flat_map (pairs_from count) (numbers_below count)) }
{
    for first in 0..count {
        add_pairs_from(first, count, splits)?;
    }
    Ok(())
}

/// Adds a dimension with each later one of so many.
fn add_pairs_from(first: u32, count: u32, splits: &mut Vec<Split>) -> Result<(), AllocError>
    ensures { OnOk result (splits.new.items ≡ splits.old.items ++ pairs_from count first) }
{
    for second in 0..count {
        add_if_later(first, second, splits)?;
    }
    Ok(())
}

/// Adds two dimensions where the second is the later one.
fn add_if_later(first: u32, second: u32, splits: &mut Vec<Split>) -> Result<(), AllocError>
    ensures { OnOk result (splits.new.items ≡ splits.old.items ++ pair_if_later first second) }
{
    if first < second {
        splits.push(Split {
            first,
            second: Some(second),
        })?;
    }
    Ok(())
}

/// Adds the variants along one split.
fn add_split(
    alloc: Global,
    op: &Operation,
    split: Split,
    variants: &mut Vec<Variant>,
) -> Result<(), AllocError>
    ensures { OnOk result (variants.new.items
        ≡ variants.old.items
        ++ numbered_from (length variants.old.items + 1) (invariants_of_split op.now split)) }
{
    for dirs in &directions(alloc, split)? {
        add_directions(alloc, op, split, *dirs, variants)?;
    }
    Ok(())
}

/// The directions of a split, forward first, for the first dimension before the second.
fn directions(alloc: Global, split: Split) -> Result<Vec<Dirs>, AllocError>
    ensures { IfOk result (λ dirs. dirs.items ≡ directions_of split) }
{
    let forward = Dirs {
        first: Dir::Forward,
        second: Dir::Forward,
    };
    let backward = Dirs {
        first: Dir::Backward,
        second: Dir::Forward,
    };
    match split.second {
        None => Ok(vec![in alloc; forward, backward]?),
        Some(_) => Ok(vec![in alloc;
            forward,
            Dirs {
                first: Dir::Forward,
                second: Dir::Backward
            },
            backward,
            Dirs {
                first: Dir::Backward,
                second: Dir::Backward
            },
        ]?),
    }
}

/// Adds the variants along one split in its directions.
fn add_directions(
    alloc: Global,
    op: &Operation,
    split: Split,
    dirs: Dirs,
    variants: &mut Vec<Variant>,
) -> Result<(), AllocError>
    ensures { OnOk result (variants.new.items
        ≡ variants.old.items
        ++ numbered_from (length variants.old.items + 1) (invariants_in op.now split dirs)) }
{
    for kept in feasible_sets(alloc, op, split, dirs)? {
        add_variant(split, dirs, kept, variants)?;
    }
    Ok(())
}

/// Adds one variant, with the number that follows.
fn add_variant(
    split: Split,
    dirs: Dirs,
    kept: TaskList,
    variants: &mut Vec<Variant>,
) -> Result<(), AllocError>
    ensures { OnOk result (variants.new.items ≡ variants.old.items
        ++ record {
          number = length variants.old.items + 1;
          split = split;
          dirs = dirs;
          kept = kept;
        } ∷ []) }
{
    let Ok(before) = u32::try_from(variants.len()) else {
        return Err(AllocError);
    };
    let Some(number) = before.checked_add(1) else {
        return Err(AllocError);
    };
    variants.push(Variant {
        number,
        split,
        dirs,
        kept,
    })?;
    Ok(())
}
