ghost use Rattle.std.specs.Prelude.{◌≡◌, ◌≤◌, length, take, IfOk};
ghost use Rattle.equation.specs.Jobs.{IsJob};
ghost use Rattle.step_replays.specs.Accesses.{blocks_in, pivot_number};
ghost use Rattle.job_blocks.specs.BlockedJobs.{HasBlock, HasStatement, IsBlockedJob, block_total, number_at};

use crate::tables::{block_cols, list_numbers, starts_of};
use equation::Job;
use std::alloc::{AllocError, Global};
use std::marker::Model;

/// The blocks of a job under a block size: matrix by matrix, row by row, and then the pivot lists by statement. Blocks,
/// matrices, rows and columns are numbered from 0, and statements from 1.
#[derive(Drop)]
pub struct JobBlocks<'a> {
    job: &'a Job,
    b: u32,
    starts: Vec<u32>,
    cols: Vec<u32>,
    lists: Vec<u32>,
}

impl<'a> Model for JobBlocks<'a> {
    ghost use Rattle.job_blocks.specs.BlockedJobs.{BlockedJob};
    ghost use Rattle.job_blocks.specs.Tables.{AreTables};

    ghost Value = { BlockedJob };

    ghost view = { λ a. record { job = a.job.now; b = a.b } };

    ghost invariant = { λ a. AreTables a.job.now a.b a.starts.items a.cols.items a.lists.items };
}

impl<'a> JobBlocks<'a> {
    /// The blocks of a job under block size b. Its one error is want of memory.
    pub fn new(alloc: Global, job: &'a Job, b: u32) -> Result<JobBlocks<'a>, AllocError>
        requires job { IsJob job.now }
        requires size { 1 ≤ b }
        ensures { IfOk result (λ blocks. blocks ≡ record { job = job.now; b = b }) }
    {
        let matrices = job.matrices.as_slice();
        let starts = starts_of(alloc, matrices, b)?;
        let cols = block_cols(alloc, matrices, b)?;
        let lists = list_numbers(alloc, job, starts[matrices.len()])?;
        Ok(JobBlocks {
            job,
            b,
            starts,
            cols,
            lists,
        })
    }

    /// The number of the first block of matrix k, or, behind the last matrix, of the first pivot list.
    pub(crate) fn start(&self, k: usize) -> u32
        requires { k ≤ length self.now.job.matrices }
        ensures { result ≡ blocks_in self.now.b (take k self.now.job.matrices) }
    {
        self.starts[k]
    }

    /// How many blocks there are, with the pivot lists.
    pub fn count(&self) -> u32
        ensures count { result ≡ block_total self.now }
        ensures few { result ≤ 16842752 }
        ensures valid { IsBlockedJob self.now }
    {
        self.lists[self.job.statements.len()]
    }

    /// The job.
    pub fn job(&self) -> &Job
        ensures job { result.now ≡ self.now.job }
        ensures valid { IsBlockedJob self.now }
    {
        self.job
    }

    /// The block size.
    pub fn b(&self) -> u32
        ensures size { result ≡ self.now.b }
        ensures positive { 1 ≤ result }
    {
        self.b
    }

    /// The number of block (i, j) of matrix k.
    pub fn block(&self, k: u32, i: u32, j: u32) -> u32
        requires { HasBlock self.now k i j }
        ensures { result ≡ number_at self.now k i j }
    {
        self.starts[k as usize] + (i * self.cols[k as usize] + j)
    }

    /// The number of the pivot list of statement s, or of the next list where it has none.
    pub fn list(&self, s: u32) -> u32
        requires { HasStatement self.now s }
        ensures { result ≡ pivot_number self.now.job self.now.b s }
    {
        self.lists[s as usize - 1]
    }
}
