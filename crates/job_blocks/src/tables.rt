//! The tables that number blocks.

ghost use Rattle.std.specs.Prelude.{◌≡◌, ◌+◌, ◌*◌, ◌<◌, ◌≤◌, ◌^◌, if◌then◌else◌, IfOk};
ghost use Rattle.residue_sums.specs.Sums.{part_count};
ghost use Rattle.equation.specs.Jobs.{IsJob, IsStatement};
ghost use Rattle.block_tasks.specs.Inverses.{is_unit_triangle};
ghost use Rattle.step_replays.specs.Accesses.{blocks_in, has_pivots, lists_of, operation_of};
ghost use Rattle.task_graph.specs.Factors.{known};
ghost use Rattle.job_blocks.specs.Tables.{block_cols, list_numbers, starts_of};

use equation::{Job, Statement};
use matrix_core::Matrix;
use operation_spec::{Factor, Form, Operand, Operation};
use std::alloc::{AllocError, Global};
use structure_rules::Structure;

/// The numbers of the first blocks of the matrices, and the number behind the last block.
pub(crate) fn starts_of(alloc: Global, matrices: &[Matrix], b: u32) -> Result<Vec<u32>, AllocError>
    requires size { 1 ≤ b }
    requires few { blocks_in b matrices.now < 2 ^ 32 }
    ensures { IfOk result (λ starts. starts.items ≡ starts_of b matrices.now) }
{
    let mut starts = Vec::with_capacity(alloc, matrices.len() + 1)?;
    let mut next = 0;
    starts.push(next)?;
    for matrix in matrices {
        next += block_count(matrix, b);
        starts.push(next)?;
    }
    Ok(starts)
}

/// How many parts of length b a range of length n has.
pub(crate) fn parts(n: u32, b: u32) -> u32
    requires { 1 ≤ b }
    ensures { result ≡ part_count n b }
{
    n.div_ceil(b)
}

/// How many blocks a matrix has.
fn block_count(matrix: &Matrix, b: u32) -> u32
    requires size { 1 ≤ b }
    requires few { part_count matrix.now.rows b * part_count matrix.now.cols b < 2 ^ 32 }
    ensures { result ≡ part_count matrix.now.rows b * part_count matrix.now.cols b }
{
    parts(matrix.rows(), b) * parts(matrix.cols(), b)
}

/// How many columns of blocks each matrix has.
pub(crate) fn block_cols(alloc: Global, matrices: &[Matrix], b: u32) -> Result<Vec<u32>, AllocError>
    requires { 1 ≤ b }
    ensures { IfOk result (λ cols. cols.items ≡ block_cols b matrices.now) }
{
    let mut cols = Vec::with_capacity(alloc, matrices.len())?;
    for matrix in matrices {
        cols.push(parts(matrix.cols(), b))?;
    }
    Ok(cols)
}

/// The numbers of the pivot lists by statement, from `first` on, and the number behind the last.
pub(crate) fn list_numbers(alloc: Global, job: &Job, first: u32) -> Result<Vec<u32>, AllocError>
    requires job { IsJob job.now }
    requires few { first + lists_of job.now job.now.statements < 2 ^ 32 }
    ensures { IfOk result (λ numbers. numbers.items ≡ list_numbers job.now first) }
{
    let statements = job.statements.as_slice();
    let mut numbers = Vec::with_capacity(alloc, statements.len() + 1)?;
    let mut next = first;
    numbers.push(next)?;
    for statement in statements {
        next += list_count(job, statement);
        numbers.push(next)?;
    }
    Ok(numbers)
}

/// How many pivot lists a statement has: one or none.
fn list_count(job: &Job, statement: &Statement) -> u32
    requires { IsStatement job.now statement.now }
    ensures { result ≡ (if has_pivots (operation_of job.now statement.now) then 1 else 0) }
{
    if has_pivots(operation_of(job, statement)) {
        1
    } else {
        0
    }
}

/// The operation of a statement.
pub(crate) fn operation_of<'a>(job: &'a Job, statement: &Statement) -> &'a Operation
    requires { IsStatement job.now statement.now }
    ensures { result.now ≡ operation_of job.now statement.now }
{
    &job.operations.as_slice()[statement.operation as usize]
}

/// Whether the form tests its pivots in a step of its own.
pub(crate) fn has_pivots(op: &Operation) -> bool
    ensures { result ≡ has_pivots op.now }
{
    match op.form {
        Form::Left { t } | Form::Right { t } => !is_unit(known_structure(op, t)),
        Form::Sylvester { .. } => true,
        Form::Assign | Form::Lu | Form::Ldl => false,
    }
}

/// The structure through which a factor's matrix is read.
pub(crate) fn known_structure(op: &Operation, f: Factor) -> Structure
    ensures { result ≡ (known op.now f.known).structure }
{
    known(op, f.known).structure
}

/// Known operand n, or the work operand where there is none.
fn known(op: &Operation, n: u32) -> &Operand
    ensures { result.now ≡ known op.now n }
{
    op.knowns.get(n as usize).unwrap_or(&op.work)
}

/// Whether the structure has ones on its diagonal.
fn is_unit(s: Structure) -> bool
    ensures { result ≡ is_unit_triangle s }
{
    match s {
        Structure::UnitLower | Structure::UnitUpper => true,
        Structure::General
        | Structure::Lower
        | Structure::Upper
        | Structure::Diagonal
        | Structure::Symmetric => false,
    }
}
