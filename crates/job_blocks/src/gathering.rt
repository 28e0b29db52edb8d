//! The matrices that blocks make.

ghost use Rattle.std.specs.Prelude.{◌≡◌, ◌+◌, ◌<◌, length, take, IfOk, OnOk};
ghost use Rattle.step_replays.specs.Accesses.{blocks_in};
ghost use Rattle.job_blocks.specs.BlockedJobs.{HaveBlockShapes, HaveBlockShapesOf, gathered_matrices, gathered_matrix};

use crate::job_blocks::JobBlocks;
use flash_blocks::{Flash, gather};
use matrix_core::{Matrix, MatrixList};
use std::alloc::{AllocError, Global};

impl JobBlocks<'_> {
    /// The matrices that have these blocks, each of which has the shape of its parts. What stands behind the blocks
    /// of the matrices isn't looked at. Its one error is want of memory.
    pub fn gathered(&self, alloc: Global, blocks: Vec<Matrix>) -> Result<MatrixList, AllocError>
        requires { HaveBlockShapes self.now blocks.items }
        ensures { IfOk result (λ matrices. matrices ≡ gathered_matrices self.now blocks.items) }
    {
        let count = self.job().matrices.len();
        let mut left = blocks;
        left.truncate(self.start(count) as usize);
        let mut last_first = Vec::with_capacity(alloc, count)?;
        for done in 0..count {
            last_first.push(self.last_matrix(alloc, count - 1 - done, &mut left)?)?;
        }
        last_first.reverse();
        Ok(MatrixList::from_vec(last_first))
    }

    /// Takes the blocks of matrix k off the end of those of the first matrices, and gathers them.
    fn last_matrix(
        &self,
        alloc: Global,
        k: usize,
        blocks: &mut Vec<Matrix>,
    ) -> Result<Matrix, AllocError>
        requires matrix { k < length self.now.job.matrices }
        requires count { length blocks.old.items
            ≡ blocks_in self.now.b (take (k + 1) self.now.job.matrices) }
        requires shapes { HaveBlockShapesOf self.now k blocks.old.items }
        ensures matrix { IfOk result (λ matrix.
            matrix ≡ gathered_matrix self.now blocks.old.items k) }
        ensures rest { OnOk result (blocks.new.items
            ≡ take (blocks_in self.now.b (take k self.now.job.matrices)) blocks.old.items) }
    {
        let own = blocks.split_off(self.start(k) as usize)?;
        let matrix = &self.job().matrices.as_slice()[k];
        let flash = Flash::from_blocks(self.b(), matrix.rows(), matrix.cols(), own);
        gather(alloc, &flash)
    }
}
