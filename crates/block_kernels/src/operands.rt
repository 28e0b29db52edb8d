//! The blocks that a task reads, as operands of kernels.

ghost use Rattle.std.specs.Prelude.{◌≡◌, ◌<◌, length, All};
ghost use Rattle.residue_sums.specs.Grids.{AreResidues, IsFull};
ghost use Rattle.equation.specs.Jobs.{nth_grid};
ghost use Rattle.block_tasks.specs.Effects.{block_structure as structure_there};
ghost use Rattle.task_graph.specs.Factors.{known};
ghost use Rattle.block_kernels.specs.BlockOpers.{is_turned, IsBlockOper};
ghost use Rattle.block_kernels.specs.LaidBlocks.{laid_grid};
ghost use Rattle.block_kernels.specs.Ready.{grids_of, IsStored};

use crate::block_task::BlockTask;
use crate::stored_blocks::LaidBlock;
use matrix_parts::{Oper, Part};
use operation_spec::Factor;
use structure_rules::Structure;

/// The structure of block (i, j) of a matrix of a structure, where it is no zero block.
pub(crate) fn block_structure(s: Structure, i: u32, j: u32) -> Structure
    ensures { result ≡ structure_there s i j }
{
    if i == j { s } else { Structure::General }
}

/// Is block (i, k) of a view, or of its transpose where it is primed, read from the stored block transposed?
fn turned(s: Structure, primed: bool, i: u32, k: u32) -> bool
    ensures { result ≡ is_turned s primed i k }
{
    if primed {
        !s.stored(k, i).transposed
    } else {
        s.stored(i, k).transposed
    }
}

impl BlockTask<'_> {
    /// The block at a place of those that the task reads, as it lies.
    pub(crate) fn laid(&self, at: usize) -> LaidBlock<'_>
        requires stored { IsStored self.now }
        requires at { at < length self.now.reads.now }
        ensures grid { laid_grid result ≡ nth_grid (grids_of self.now) at }
        ensures full { IsFull (laid_grid result) }
    {
        let number = self.reads[at];
        self.store.laid(number)
    }

    /// That block, as one part.
    pub(crate) fn read(&self, at: usize) -> Part<'_>
        requires stored { IsStored self.now }
        requires at { at < length self.now.reads.now }
        ensures grid { result ≡ nth_grid (grids_of self.now) at }
        ensures residues { AreResidues self.now.m result }
    {
        let number = self.reads[at];
        self.store.block(number)
    }

    /// That block, read through a structure, and transposed where it is primed.
    pub(crate) fn block(&self, at: usize, structure: Structure, primed: bool) -> Oper<'_>
        requires stored { IsStored self.now }
        requires at { at < length self.now.reads.now }
        ensures part { result.part ≡ nth_grid (grids_of self.now) at }
        ensures structure { result.structure ≡ structure }
        ensures primed { result.primed ≡ primed }
        ensures residues { AreResidues self.now.m result.part }
    {
        Oper {
            part: self.read(at),
            structure,
            primed,
        }
    }

    /// That block, read as block (i, k) of a factor of the operation.
    pub(crate) fn factor(&self, f: Factor, i: u32, k: u32, at: usize) -> Oper<'_>
        requires stored { IsStored self.now }
        requires at { at < length self.now.reads.now }
        requires known { f.known < length self.now.op.now.knowns }
        ensures oper { IsBlockOper (known self.now.op.now f.known).structure f.primed i k
            (nth_grid (grids_of self.now) at) result }
        ensures residues { AreResidues self.now.m result.part }
    {
        let s = self.op.knowns.as_slice()[f.known as usize].structure;
        self.block(at, block_structure(s, i, k), turned(s, f.primed, i, k))
    }
}
