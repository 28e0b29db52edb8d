//! On which side the split indices of a task stand, of two parts.

ghost use Rattle.std.specs.Prelude.{◌≡◌, ◌==◌, ◌||◌, not};
ghost use Rattle.invariant_family.specs.Splits.{is_split, dir_of, has_inner, all_split_indices};
ghost use Rattle.invariant_family.specs.Splits.{done_part, remaining_part};

use invariant_family::{dir_of, is_split};
use operation_spec::{Dir, Dirs, Kind, Operation, Split, Task};
use task_graph::inner_dim;

/// A loop: an operation, its split and directions.
#[derive(Clone, Copy)]
pub(crate) struct Loop<'a> {
    pub op: &'a Operation,
    pub split: Split,
    pub dirs: Dirs,
}

impl Loop<'_> {
    /// Whether all split indices of a task are done.
    pub fn is_done(&self, task: Task) -> bool
        ensures { result
            ≡ all_split_indices self.now.op.now self.now.split self.now.dirs done_part task }
    {
        self.is_done_in(self.op.work.rows, task.i)
            && self.is_done_in(self.op.work.cols, task.j)
            && (!has_inner(task.kind)
                || self.is_done_in(inner_dim(self.op, task.kind, task.term), task.k))
    }

    /// Whether they all remain.
    pub fn remains(&self, task: Task) -> bool
        ensures { result
            ≡ all_split_indices self.now.op.now self.now.split self.now.dirs remaining_part task }
    {
        self.remains_in(self.op.work.rows, task.i)
            && self.remains_in(self.op.work.cols, task.j)
            && (!has_inner(task.kind)
                || self.remains_in(inner_dim(self.op, task.kind, task.term), task.k))
    }

    /// Whether a part of a dimension is done, or the dimension isn't split.
    fn is_done_in(&self, dim: u32, part: u32) -> bool
        ensures { result ≡ (not (is_split self.now.split dim)
            || part == done_part (dir_of self.now.split self.now.dirs dim)) }
    {
        !is_split(self.split, dim as usize)
            || part == done_part(dir_of(self.split, self.dirs, dim as usize))
    }

    /// Whether it remains, or the dimension isn't split.
    fn remains_in(&self, dim: u32, part: u32) -> bool
        ensures { result ≡ (not (is_split self.now.split dim)
            || part == remaining_part (dir_of self.now.split self.now.dirs dim)) }
    {
        !is_split(self.split, dim as usize)
            || part == remaining_part(dir_of(self.split, self.dirs, dim as usize))
    }
}

/// Of two parts, the one that is done.
fn done_part(dir: Dir) -> u32
    ensures { result ≡ done_part dir }
{
    match dir {
        Dir::Forward => 0,
        Dir::Backward => 1,
    }
}

/// Of two parts, the one that remains.
fn remaining_part(dir: Dir) -> u32
    ensures { result ≡ remaining_part dir }
{
    match dir {
        Dir::Forward => 1,
        Dir::Backward => 0,
    }
}

/// Whether a task of this kind has an inner part.
fn has_inner(kind: Kind) -> bool
    ensures { result ≡ has_inner kind }
{
    match kind {
        Kind::Term | Kind::Left | Kind::Right => true,
        Kind::Pivots | Kind::Solve => false,
    }
}
