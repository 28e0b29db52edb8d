ghost use Rattle.std.specs.Prelude.{◌↔◌, IsTrue};
ghost use Rattle.operation_spec.specs.Splits.{IsSplit};

use crate::operation::Operation;

/// One dimension, or two different ones in declared order, that a loop goes along.
#[derive(Clone, Copy, Debug, PartialEq, Eq)]
pub struct Split {
    pub first: u32,
    pub second: Option<u32>,
}

/// Where a loop begins: forward means that the done parts are the first ones, backward that they are the
/// last ones.
#[derive(Clone, Copy, Debug, PartialEq, Eq)]
pub enum Dir {
    Forward,
    Backward,
}

/// The directions of a split; `second` is Forward where the split has one dimension.
#[derive(Clone, Copy, Debug, PartialEq, Eq)]
pub struct Dirs {
    pub first: Dir,
    pub second: Dir,
}

/// Whether the operation has the split: its dimensions exist, and the second is declared after the first.
pub fn valid_split(op: &Operation, split: Split) -> bool
    ensures { IsTrue result ↔ IsSplit op.now split }
{
    let count = op.dims.len();
    match split.second {
        None => (split.first as usize) < count,
        Some(d) => split.first < d && (d as usize) < count,
    }
}
