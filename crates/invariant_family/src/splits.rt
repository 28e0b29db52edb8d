//! The dimensions of a split, the cuts that a loop along them makes, and where the indices of a task stand.

ghost use Rattle.std.specs.Prelude.{◌≡◌, ◌==◌, ◌||◌, not, ℕ, map, length, if◌then◌else◌, IfOk};
ghost use Rattle.task_graph.specs.Order.{numbers_below};
ghost use Rattle.invariant_family.specs.Splits.{is_split, dir_of, has_inner, cut_by, all_split_indices};
ghost use Rattle.invariant_family.specs.Sides.{part_on, middle_on};

use operation_spec::{Dir, Dirs, Kind, Operation, Split, Task};
use std::alloc::{AllocError, Global};
use task_graph::{Counts, Cut, Sides, inner_dim};

/// Of the parts of a dimension, those that are done or those that remain.
#[derive(Clone, Copy, Debug, PartialEq, Eq)]
pub(crate) enum Side {
    Done,
    Remaining,
}

impl Side {
    /// Of two parts, the one on this side.
    fn part(self, dir: Dir) -> u32
        ensures { result ≡ part_on self dir }
    {
        match (self, dir) {
            (Side::Done, Dir::Forward) | (Side::Remaining, Dir::Backward) => 0,
            (Side::Done, Dir::Backward) | (Side::Remaining, Dir::Forward) => 1,
        }
    }

    /// Three parts as two, with the middle one on this side.
    fn middle(self, dir: Dir) -> Sides
        ensures { result ≡ middle_on self dir }
    {
        match (self, dir) {
            (Side::Remaining, Dir::Forward) | (Side::Done, Dir::Backward) => Sides::Two { edge: 1 },
            (Side::Remaining, Dir::Backward) | (Side::Done, Dir::Forward) => Sides::Two { edge: 2 },
        }
    }
}

/// Whether a dimension is one of the split.
pub fn is_split(split: Split, dim: usize) -> bool
    ensures { result ≡ is_split split dim }
{
    match split.second {
        Some(second) => split.first as usize == dim || second as usize == dim,
        None => split.first as usize == dim,
    }
}

/// The direction of a dimension of the split.
pub fn dir_of(split: Split, dirs: Dirs, dim: usize) -> Dir
    ensures { result ≡ dir_of split dirs dim }
{
    if split.first as usize == dim {
        dirs.first
    } else {
        dirs.second
    }
}

/// The cut with so many parts in each dimension of the split, and one in the others.
#[tactic(auto, using(crate::proofs::Numbering::map_numbers_more))]
pub(crate) fn parts(
    alloc: Global,
    op: &Operation,
    split: Split,
    many: u32,
) -> Result<Counts, AllocError>
    ensures { IfOk result (λ parts. parts
        ≡ map (λ d. if is_split split d then many else 1) (numbers_below (length op.now.dims))) }
{
    let mut parts = Counts::new(alloc);
    for dim in 0..op.dims.len() {
        parts.push(if is_split(split, dim) { many } else { 1 })?;
    }
    Ok(parts)
}

/// The cut that takes three parts in each dimension of the split for two, with the middle one on a side.
#[tactic(auto, using(crate::proofs::Numbering::map_numbers_more))]
pub(crate) fn cut(
    alloc: Global,
    op: &Operation,
    split: Split,
    dirs: Dirs,
    side: Side,
) -> Result<Cut, AllocError>
    ensures { IfOk result (λ cut. cut ≡ cut_by op.now split dirs (middle_on side)) }
{
    let mut cut = Cut::new(alloc);
    for dim in 0..op.dims.len() {
        cut.push(sides(split, dirs, side, dim))?;
    }
    Ok(cut)
}

/// How that cut cuts a dimension.
fn sides(split: Split, dirs: Dirs, side: Side, dim: usize) -> Sides
    ensures { result
        ≡ (if is_split split dim then middle_on side (dir_of split dirs dim) else Sides.One) }
{
    if is_split(split, dim) {
        side.middle(dir_of(split, dirs, dim))
    } else {
        Sides::One
    }
}

/// Whether each index of a task that belongs to a dimension of the split stands on a side, of two parts.
pub(crate) fn all_split_indices(
    op: &Operation,
    split: Split,
    dirs: Dirs,
    side: Side,
    task: Task,
) -> bool
    ensures { result ≡ all_split_indices op.now split dirs (part_on side) task }
{
    stands_on(split, dirs, side, op.work.rows, task.i)
        && stands_on(split, dirs, side, op.work.cols, task.j)
        && (!has_inner(task.kind)
            || stands_on(
                split,
                dirs,
                side,
                inner_dim(op, task.kind, task.term),
                task.k,
            ))
}

/// Whether a part of a dimension stands on a side, or the dimension isn't split.
fn stands_on(split: Split, dirs: Dirs, side: Side, dim: u32, part: u32) -> bool
    ensures { result ≡ (not (is_split split dim) || part == part_on side (dir_of split dirs dim)) }
{
    !is_split(split, dim as usize) || part == side.part(dir_of(split, dirs, dim as usize))
}

/// Whether a task of this kind has an inner part.
fn has_inner(kind: Kind) -> bool
    ensures { result ≡ has_inner kind }
{
    match kind {
        Kind::Term | Kind::Left | Kind::Right => true,
        Kind::Pivots | Kind::Solve => false,
    }
}
