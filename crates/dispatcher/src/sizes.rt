//! The shapes of all blocks of a job.

ghost use Rattle.std.specs.Prelude.{◌≡◌, ◌+◌, ◌*◌, ◌/◌, ◌%◌, ◌<◌, ◌≤◌, ◌++◌, length, map, IfOk, OnOk};
ghost use Rattle.residue_sums.specs.Sums.{part_count, part_length};
ghost use Rattle.equation.specs.Jobs.{nth_grid};
ghost use Rattle.flash_blocks.specs.Blocks.{block_of};
ghost use Rattle.flash_blocks.specs.Flashes.{cut_of};
ghost use Rattle.step_replays.specs.Accesses.{statement_of, zero_list_by};
ghost use Rattle.job_blocks.specs.BlockedJobs.{HasStatement};
ghost use Rattle.job_blocks.specs.Tables.{matrix_blocks, zero_list, zero_lists};
ghost use Rattle.dispatcher.specs.BufferSizes.{size_of};

use crate::shared_run::Size;
use job_blocks::JobBlocks;
use matrix_core::Matrix;
use operation_spec::Form;
use std::alloc::{AllocError, Global};

/// The shapes of all blocks of a job, by number. Its one error is want of memory.
pub(crate) fn sizes_of(alloc: Global, blocks: &JobBlocks<'_>) -> Result<Vec<Size>, AllocError>
    ensures { IfOk result (λ sizes. sizes.items ≡ map size_of
        (matrix_blocks blocks.now.b blocks.now.job.matrices ++ zero_lists blocks.now.job)) }
{
    let mut sizes = Vec::with_capacity(alloc, blocks.count() as usize)?;
    push_matrices(blocks.job().matrices.as_slice(), blocks.b(), &mut sizes)?;
    push_lists(blocks, &mut sizes)?;
    Ok(sizes)
}

/// Appends the shapes of the blocks of matrices.
fn push_matrices(matrices: &[Matrix], b: u32, sizes: &mut Vec<Size>) -> Result<(), AllocError>
    requires { 1 ≤ b }
    ensures { OnOk result (sizes.new.items ≡ sizes.old.items
        ++ map size_of (matrix_blocks b matrices.now)) }
{
    for matrix in matrices {
        push_blocks(matrix, b, sizes)?;
    }
    Ok(())
}

/// Appends the shapes of the blocks of a matrix, row by row.
fn push_blocks(matrix: &Matrix, b: u32, sizes: &mut Vec<Size>) -> Result<(), AllocError>
    requires { 1 ≤ b }
    ensures { OnOk result (sizes.new.items ≡ sizes.old.items
        ++ map size_of (cut_of b matrix.now).blocks) }
{
    let (down, across) = (matrix.rows().div_ceil(b), matrix.cols().div_ceil(b));
    let count = u64::from(down) * u64::from(across);
    for k in 0..count {
        sizes.push(block_size(matrix, b, k))?;
    }
    Ok(())
}

/// The shape of block k of a matrix, row by row.
fn block_size(matrix: &Matrix, b: u32, k: u64) -> Size
    requires size { 1 ≤ b }
    requires there { k < part_count matrix.now.rows b * part_count matrix.now.cols b }
    ensures { result ≡ size_of (block_of b matrix.now (k / part_count matrix.now.cols b)
        (k % part_count matrix.now.cols b)) }
{
    let across = u64::from(matrix.cols().div_ceil(b));
    Size {
        rows: part_length(matrix.rows(), b, k / across),
        cols: part_length(matrix.cols(), b, k % across),
    }
}

/// How long a part of a range of length n is, which is cut into parts of length b.
fn part_length(n: u32, b: u32, part: u64) -> u32
    requires { part * b < n }
    ensures { result ≡ part_length n b part }
{
    let first = (part * u64::from(b)) as u32;
    b.min(n - first)
}

/// Appends the shapes of the pivot lists of the statements that have one.
fn push_lists(blocks: &JobBlocks<'_>, sizes: &mut Vec<Size>) -> Result<(), AllocError>
    ensures { OnOk result (sizes.new.items ≡ sizes.old.items
        ++ map size_of (zero_lists blocks.now.job)) }
{
    let count = blocks.job().statements.len();
    for n in 0..count {
        push_list(blocks, n as u32 + 1, sizes)?;
    }
    Ok(())
}

/// Appends the shape of the pivot list of a statement, if it has one.
fn push_list(blocks: &JobBlocks<'_>, s: u32, sizes: &mut Vec<Size>) -> Result<(), AllocError>
    requires { HasStatement blocks.now s }
    ensures { OnOk result (sizes.new.items ≡ sizes.old.items
        ++ map size_of (zero_list blocks.now.job (statement_of blocks.now.job s))) }
{
    if blocks.has_pivots(s) {
        let form = blocks.operation(s).form;
        sizes.push(list_size(form, work_matrix(blocks, s)))?;
    }
    Ok(())
}

/// The work matrix of a statement.
fn work_matrix<'a>(blocks: &'a JobBlocks<'_>, s: u32) -> &'a Matrix
    requires { HasStatement blocks.now s }
    ensures { result.now ≡ nth_grid blocks.now.job.matrices
        (statement_of blocks.now.job s).bind.work }
{
    let job = blocks.job();
    let statement = &job.statements.as_slice()[s as usize - 1];
    &job.matrices.as_slice()[statement.bind.work as usize]
}

/// The shape of the pivot list of a form, for a work matrix.
fn list_size(form: Form, work: &Matrix) -> Size
    ensures { result ≡ size_of (zero_list_by form work.now) }
{
    let (rows, cols) = match form {
        Form::Left { .. } => (1, work.rows()),
        Form::Right { .. } => (1, work.cols()),
        Form::Sylvester { .. } => (work.rows(), work.cols()),
        Form::Assign | Form::Lu | Form::Ldl => (0, 0),
    };
    Size { rows, cols }
}
