//! All blocks of a job, as it gives them.

ghost use Rattle.std.specs.Prelude.{◌≡◌, ◌≤◌, [], ◌∷◌, ◌++◌, IfOk, OnOk};
ghost use Rattle.flash_blocks.specs.Blocks.{grid_of};
ghost use Rattle.equation.specs.Jobs.{IsJob, IsStatement};
ghost use Rattle.step_replays.specs.Accesses.{zero_list_by};
ghost use Rattle.job_blocks.specs.BlockedJobs.{AreFirstBlocks};
ghost use Rattle.job_blocks.specs.Tables.{matrix_blocks, zero_list, zero_lists};

use crate::job_blocks::JobBlocks;
use crate::tables::{has_pivots, operation_of};
use equation::{Job, Statement};
use flash_blocks::cut;
use matrix_core::Matrix;
use operation_spec::Form;
use std::alloc::{AllocError, Global};

impl JobBlocks<'_> {
    /// All blocks by number: those of the job's matrices, each copied, and pivot lists of zeros. Its one error is
    /// want of memory.
    pub fn first_blocks(&self, alloc: Global) -> Result<Vec<Matrix>, AllocError>
        ensures { IfOk result (λ blocks. AreFirstBlocks self.now blocks.items) }
    {
        let mut blocks = Vec::with_capacity(alloc, self.count() as usize)?;
        push_blocks(alloc, self.job().matrices.as_slice(), self.b(), &mut blocks)?;
        push_lists(alloc, self.job(), &mut blocks)?;
        Ok(blocks)
    }
}

/// Appends the blocks of matrices.
fn push_blocks(
    alloc: Global,
    matrices: &[Matrix],
    b: u32,
    blocks: &mut Vec<Matrix>,
) -> Result<(), AllocError>
    requires { 1 ≤ b }
    ensures { OnOk result (blocks.new.items ≡ blocks.old.items ++ matrix_blocks b matrices.now) }
{
    for matrix in matrices {
        let mut own = cut(alloc, matrix, b)?.into_blocks();
        blocks.append(&mut own)?;
    }
    Ok(())
}

/// Appends the pivot lists of the statements that have one.
fn push_lists(alloc: Global, job: &Job, blocks: &mut Vec<Matrix>) -> Result<(), AllocError>
    requires { IsJob job.now }
    ensures { OnOk result (blocks.new.items ≡ blocks.old.items ++ zero_lists job.now) }
{
    let statements = job.statements.as_slice();
    for statement in statements {
        push_list(alloc, job, statement, blocks)?;
    }
    Ok(())
}

/// Appends the pivot list of a statement, if it has one.
fn push_list(
    alloc: Global,
    job: &Job,
    statement: &Statement,
    blocks: &mut Vec<Matrix>,
) -> Result<(), AllocError>
    requires { IsStatement job.now statement.now }
    ensures { OnOk result (blocks.new.items ≡ blocks.old.items ++ zero_list job.now statement.now) }
{
    let op = operation_of(job, statement);
    if has_pivots(op) {
        let work = &job.matrices.as_slice()[statement.bind.work as usize];
        push_zeros(alloc, op.form, work, blocks)
    } else {
        Ok(())
    }
}

/// Appends the pivot list of a form for a work matrix.
fn push_zeros(
    alloc: Global,
    form: Form,
    work: &Matrix,
    blocks: &mut Vec<Matrix>,
) -> Result<(), AllocError>
    ensures { OnOk result (blocks.new.items ≡ blocks.old.items ++ zero_list_by form work.now ∷ []) }
{
    let list = zeros_of(alloc, form, work)?;
    blocks.push(list)?;
    Ok(())
}

/// The pivot list of a form for a work matrix, all zero.
fn zeros_of(alloc: Global, form: Form, work: &Matrix) -> Result<Matrix, AllocError>
    ensures { IfOk result (λ list. list ≡ zero_list_by form work.now) }
{
    match form {
        Form::Left { .. } => zeros(alloc, 1, work.rows()),
        Form::Right { .. } => zeros(alloc, 1, work.cols()),
        Form::Sylvester { .. } => zeros(alloc, work.rows(), work.cols()),
        Form::Assign | Form::Lu | Form::Ldl => zeros(alloc, 0, 0),
    }
}

/// A matrix of zeros, of any size.
fn zeros(alloc: Global, rows: u32, cols: u32) -> Result<Matrix, AllocError>
    ensures { IfOk result (λ matrix. matrix ≡ grid_of (λ r c. 0) rows cols) }
{
    let entries = vec![in alloc; 0; rows as usize * cols as usize]?;
    Ok(Matrix::from_entries(rows, cols, entries))
}
