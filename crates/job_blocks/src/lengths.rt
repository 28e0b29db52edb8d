//! How many parts the dimensions of a statement's operation have.

ghost use Rattle.std.specs.Prelude.{◌≡◌, ◌<◌, length, map, All, IfOk};
ghost use Rattle.equation.specs.Jobs.{nth_grid};
ghost use Rattle.step_replays.specs.Fits.{counts_of, length_among, length_of};
ghost use Rattle.job_blocks.specs.BlockedJobs.{HasStatement, binding_at, operation_at};

use crate::job_blocks::JobBlocks;
use crate::tables::parts;
use operation_spec::Operand;
use std::alloc::{AllocError, Global};
use task_graph::Counts;

impl JobBlocks<'_> {
    /// How many parts each dimension of the operation of statement s has. Its one error is want of memory.
    pub fn counts(&self, alloc: Global, s: u32) -> Result<Counts, AllocError>
        requires { HasStatement self.now s }
        ensures { IfOk result (λ counts. counts ≡ counts_of self.now.job self.now.b s) }
    {
        let (b, dims) = (self.b(), self.operation(s).dims.len());
        let mut counts = Vec::with_capacity(alloc, dims)?;
        for d in 0..dims {
            counts.push(parts(self.length(s, d as u32), b))?;
        }
        Ok(Counts::from_vec(counts))
    }

    /// The length of dimension d of statement s, as the matrix of the first operand that is on it has it.
    fn length(&self, s: u32, d: u32) -> u32
        requires { HasStatement self.now s }
        ensures { result ≡ length_of (operation_at self.now s) self.now.job.matrices
            (binding_at self.now s) d }
    {
        let op = self.operation(s);
        if op.work.rows == d {
            self.work_rows(s)
        } else if op.work.cols == d {
            self.work_cols(s)
        } else {
            self.length_among(
                op.knowns.as_slice(),
                self.statement(s).bind.knowns.as_slice(),
                d,
            )
        }
    }

    /// The length of dimension d, as the matrix of the first of these operands that is on it has it.
    fn length_among(&self, operands: &[Operand], numbers: &[u32], d: u32) -> u32
        requires count { length numbers.now ≡ length operands.now }
        requires exist { All (λ k. k < length self.now.job.matrices) numbers.now }
        ensures { result ≡ length_among operands.now
            (map (nth_grid self.now.job.matrices) numbers.now) d }
    {
        for at in 0..operands.len() {
            let operand = &operands[at];
            let matrix = self.matrix(numbers[at]);
            if operand.rows == d {
                return matrix.rows();
            }
            if operand.cols == d {
                return matrix.cols();
            }
        }
        0
    }
}
