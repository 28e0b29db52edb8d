//! A block task with the blocks that it reads, and the choice of its kernel.

ghost use Rattle.std.specs.Prelude.{◌≡◌, ◌≤◌, length};
ghost use Rattle.matrix_parts.specs.Lent.{grid_of, loan_of, IsPart, IsKept};
ghost use Rattle.block_kernels.specs.Outcomes.{IsOutcome};
ghost use Rattle.block_kernels.specs.Ready.{CanApply};

use crate::stored_blocks::StoredBlocks;
use equation::Place;
use field_word::Modulus;
use matrix_parts::PartMut;
use operation_spec::{Kind, Operation, Task};

/// A block task of a statement under block size b, with the blocks that it reads: by number, in the order in which its effect
/// names them, in a store of blocks of residues modulo m.
#[derive(Drop)]
pub struct BlockTask<'a> {
    pub m: Modulus,
    pub b: u32,
    pub op: &'a Operation,
    pub task: Task,
    pub reads: &'a [u32],
    pub store: StoredBlocks<'a>,
}

impl BlockTask<'_> {
    /// Does the task on the block that it writes, or answers the first bad pivot that it meets, by its place in the whole
    /// matrix. The room is for b numbers. The step that tests the pivots of a statement is no such task: `write_pivots` does it.
    pub fn apply(&self, w: &mut PartMut<'_>, room: &mut [u64]) -> Option<Place>
        requires part { IsPart w.old }
        requires can { CanApply self.now (grid_of w.old) }
        requires room { self.now.b ≤ length room.old }
        ensures loan { loan_of w.new ≡ loan_of w.old }
        ensures part { IsPart w.new }
        ensures kept { IsKept w.old w.new }
        ensures outcome { IsOutcome self.now (grid_of w.old) (grid_of w.new) result }
    {
        match self.task.kind {
            Kind::Pivots => None,
            Kind::Term => {
                self.do_term(w);
                None
            }
            Kind::Left => {
                self.do_left(w);
                None
            }
            Kind::Right => {
                self.do_right(w);
                None
            }
            Kind::Solve => self.solve(w, room),
        }
    }
}
