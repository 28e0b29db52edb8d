//! The statements of a job by their numbers.

ghost use Rattle.std.specs.Prelude.{◌≡◌, ◌<◌, ◌≤◌, length};
ghost use Rattle.equation.specs.Jobs.{nth_grid};
ghost use Rattle.step_replays.specs.Accesses.{has_pivots, statement_of};
ghost use Rattle.job_blocks.specs.BlockedJobs.{HasBlock, HasStatement, IsBlockedJob, binding_at, operation_at};
ghost use Rattle.job_blocks.specs.FactorBlocks.{term_at, work_at};

use crate::job_blocks::JobBlocks;
use crate::tables::{has_pivots, operation_of};
use equation::Statement;
use matrix_core::Matrix;
use operation_spec::{Form, Operation, Term};

impl JobBlocks<'_> {
    /// Statement s.
    pub(crate) fn statement(&self, s: u32) -> &Statement
        requires { HasStatement self.now s }
        ensures statement { result.now ≡ statement_of self.now.job s }
        ensures valid { IsBlockedJob self.now }
    {
        &self.job().statements.as_slice()[s as usize - 1]
    }

    /// The operation of statement s.
    pub fn operation(&self, s: u32) -> &Operation
        requires { HasStatement self.now s }
        ensures operation { result.now ≡ operation_at self.now s }
        ensures valid { IsBlockedJob self.now }
    {
        operation_of(self.job(), self.statement(s))
    }

    /// The form of the operation of statement s.
    pub(crate) fn form(&self, s: u32) -> Form
        requires { HasStatement self.now s }
        ensures form { result ≡ (operation_at self.now s).form }
        ensures valid { IsBlockedJob self.now }
    {
        self.operation(s).form
    }

    /// Whether statement s tests its pivots in a step of its own.
    pub fn has_pivots(&self, s: u32) -> bool
        requires { HasStatement self.now s }
        ensures { result ≡ has_pivots (operation_at self.now s) }
    {
        has_pivots(self.operation(s))
    }

    /// Term t of the operation of statement s, from 1.
    pub(crate) fn term(&self, s: u32, t: u32) -> Term
        requires statement { HasStatement self.now s }
        requires from { 1 ≤ t }
        requires within { t ≤ length (operation_at self.now s).terms }
        ensures term { result ≡ term_at self.now s t }
        ensures valid { IsBlockedJob self.now }
    {
        self.operation(s).terms.as_slice()[t as usize - 1]
    }

    /// Matrix k.
    pub(crate) fn matrix(&self, k: u32) -> &Matrix
        requires { k < length self.now.job.matrices }
        ensures { result.now ≡ nth_grid self.now.job.matrices k }
    {
        &self.job().matrices.as_slice()[k as usize]
    }

    /// How many rows the work matrix of statement s has.
    pub(crate) fn work_rows(&self, s: u32) -> u32
        requires { HasStatement self.now s }
        ensures { result ≡ (nth_grid self.now.job.matrices (binding_at self.now s).work).rows }
    {
        self.work_matrix(s).rows()
    }

    /// How many columns the work matrix of statement s has.
    pub(crate) fn work_cols(&self, s: u32) -> u32
        requires { HasStatement self.now s }
        ensures { result ≡ (nth_grid self.now.job.matrices (binding_at self.now s).work).cols }
    {
        self.work_matrix(s).cols()
    }

    /// The work matrix of statement s.
    fn work_matrix(&self, s: u32) -> &Matrix
        requires { HasStatement self.now s }
        ensures { result.now ≡ nth_grid self.now.job.matrices (binding_at self.now s).work }
    {
        self.matrix(self.statement(s).bind.work)
    }

    /// The number of block (i, j) of the work matrix of statement s.
    pub(crate) fn work(&self, s: u32, i: u32, j: u32) -> u32
        requires statement { HasStatement self.now s }
        requires block { HasBlock self.now (binding_at self.now s).work i j }
        ensures { result ≡ work_at self.now s i j }
    {
        self.block(self.statement(s).bind.work, i, j)
    }
}
