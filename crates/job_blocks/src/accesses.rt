//! Which blocks a step writes and reads.

ghost use Rattle.std.specs.Prelude.{◌≡◌, ◌++◌, ℕ, ◌<◌, IfOk, OnOk};
ghost use Rattle.residue_sums.specs.Sums.{part_count};
ghost use Rattle.step_replays.specs.Accesses.{access_of, diagonal_reads, pivot_number, pivot_reads, reads_of, write_of};
ghost use Rattle.job_blocks.specs.BlockedJobs.{HasStatement, HasTask, binding_at, operation_at};
ghost use Rattle.job_blocks.specs.FactorBlocks.{HasFactorBlock};

use crate::job_blocks::JobBlocks;
use crate::tables::parts;
use dependence_queue::Access;
use operation_spec::{Factor, Form, Kind, Task};
use std::alloc::{AllocError, Global};
use structure_rules::NumberList;

impl JobBlocks<'_> {
    /// The block that a task of statement s writes, and those that it reads. Its one error is want of memory.
    pub fn access(&self, alloc: Global, s: u32, task: Task) -> Result<Access, AllocError>
        requires statement { HasStatement self.now s }
        requires task { HasTask self.now s task }
        ensures { IfOk result (λ access. access ≡ access_of self.now.job self.now.b s task) }
    {
        let reads = self.reads(alloc, s, task)?;
        Ok(Access {
            write: self.write(s, task),
            reads,
        })
    }

    /// The block that a task writes.
    fn write(&self, s: u32, task: Task) -> u32
        requires statement { HasStatement self.now s }
        requires task { HasTask self.now s task }
        ensures { result ≡ write_of self.now.b self.now.job.matrices (binding_at self.now s)
            (pivot_number self.now.job self.now.b s) task.kind task.i task.j }
    {
        match task.kind {
            Kind::Pivots => self.list(s),
            _ => self.block(self.statement(s).bind.work, task.i, task.j),
        }
    }

    /// The blocks that a task reads.
    fn reads(&self, alloc: Global, s: u32, task: Task) -> Result<NumberList, AllocError>
        requires statement { HasStatement self.now s }
        requires task { HasTask self.now s task }
        ensures { IfOk result (λ reads. reads
            ≡ reads_of self.now.b self.now.job.matrices (operation_at self.now s)
            (binding_at self.now s) (pivot_number self.now.job self.now.b s) task.kind task.term task.i task.j task.k) }
    {
        match task.kind {
            Kind::Pivots => self.pivot_reads(alloc, s),
            Kind::Term => self.term_reads(alloc, s, task),
            Kind::Left => self.left_reads(alloc, s, task),
            Kind::Right => self.right_reads(alloc, s, task),
            Kind::Solve => self.solve_reads(alloc, s, task),
        }
    }

    /// What Pivots reads: the diagonal blocks of the triangular factors.
    fn pivot_reads(&self, alloc: Global, s: u32) -> Result<NumberList, AllocError>
        requires { HasStatement self.now s }
        ensures { IfOk result (λ reads. reads ≡ pivot_reads self.now.b self.now.job.matrices
            (operation_at self.now s) (binding_at self.now s) (operation_at self.now s).form) }
    {
        match self.form(s) {
            Form::Left { t } => self.diagonal_reads(alloc, s, t, self.work_rows(s)),
            Form::Right { t: u } => self.diagonal_reads(alloc, s, u, self.work_cols(s)),
            Form::Sylvester { t, u, .. } => {
                let mut reads = self.diagonal_reads(alloc, s, t, self.work_rows(s))?;
                self.push_diagonal(s, u, self.work_cols(s), &mut reads)?;
                Ok(reads)
            }
            Form::Assign | Form::Lu | Form::Ldl => Ok(NumberList::new(alloc)),
        }
    }

    /// The diagonal blocks of a factor of n rows.
    fn diagonal_reads(
        &self,
        alloc: Global,
        s: u32,
        f: Factor,
        n: u32,
    ) -> Result<NumberList, AllocError>
        requires statement { HasStatement self.now s }
        requires blocks { (i : ℕ) → i < part_count n self.now.b → HasFactorBlock self.now s f i i }
        ensures { IfOk result (λ reads. reads
            ≡ diagonal_reads self.now.b self.now.job.matrices (operation_at self.now s) (binding_at self.now s) f n) }
    {
        let mut reads = NumberList::new(alloc);
        self.push_diagonal(s, f, n, &mut reads)?;
        Ok(reads)
    }

    /// Appends the diagonal blocks of a factor of n rows.
    fn push_diagonal(
        &self,
        s: u32,
        f: Factor,
        n: u32,
        reads: &mut NumberList,
    ) -> Result<(), AllocError>
        requires statement { HasStatement self.now s }
        requires blocks { (i : ℕ) → i < part_count n self.now.b → HasFactorBlock self.now s f i i }
        ensures { OnOk result (reads.new ≡ reads.old
            ++ diagonal_reads self.now.b self.now.job.matrices (operation_at self.now s) (binding_at self.now s) f n) }
    {
        for i in 0..parts(n, self.b()) {
            reads.push(self.factor(s, f, i, i))?;
        }
        Ok(())
    }
}
