//! The operation blocks and the matrix blocks of a job.

ghost use Rattle.std.specs.Prelude.{◌≡◌, ◌*◌, ◌-◌, ◌<◌, ◌≤◌, [], suc, length, IfOk};
ghost use Rattle.byte_texts.specs.Reading.{Gives};
ghost use Rattle.operation_spec.specs.OperationFaults.{operation_at};
ghost use Rattle.matrix_text.specs.MatrixFaults.{matrix_at};
ghost use Rattle.equation.specs.Jobs.{entry_count};
ghost use Rattle.job_text.specs.JobFaults.{entry_limit, job_fault, matrices_at, matrix_head_at, matrix_limit, operation_head_at, operation_limit, operations_at};
ghost use Rattle.job_text.specs.MatricesSeen.{matrices_seen};
ghost use Rattle.job_text.specs.Sections.{matrix_in, operation_in};

use crate::fault::JobFault;
use crate::names::operation_number;
use equation::OperationList;
use field_word::Modulus;
use matrix_core::{Matrix, MatrixList};
use matrix_text::{is_heading, next_matrix};
use operation_spec::{Operation, is_name_line, next_operation};
use std::alloc::Global;
use text_scan::{Lines, Name, NameList, TextLine, is_among};

/// How many operations a job may have.
const OPERATION_LIMIT: usize = 16;

/// How many matrices a job may have.
const MATRIX_LIMIT: usize = 32;

/// How many entries all matrices may have.
const ENTRY_LIMIT: u32 = 4_194_304;

// ---- operations

/// Tests the first line of a block against the operations above it, where the text ends on a line.
#[tactic(auto, unfolding(crate::specs::JobFaults::operation_head_at))]
fn operation_head(end: u32, line: &TextLine<'_>, found: &[Operation]) -> Result<(), JobFault>
    ensures head { Gives job_fault (λ _. tt) result (operation_head_at end found.now line.now) }
    ensures room { IfOk result (λ _. length found.now < 16) }
{
    let number = line.number();
    if number == end || !is_name_line(line) {
        return Err(JobFault::Syntax { line: number });
    }
    if found.len() >= OPERATION_LIMIT {
        return Err(JobFault::Limit { line: number });
    }
    if operation_number(found, line.word(1)) < found.len() {
        return Err(JobFault::NameTwice { line: number });
    }
    Ok(())
}

/// Reads the block that the first line begins.
fn operation_block(alloc: Global, lines: &mut Lines<'_>) -> Result<Operation, JobFault>
    ensures read { Gives job_fault (λ op. (op, lines.new.lines)) result
        (operation_at lines.old.end lines.old.lines) }
    ensures end { lines.new.end ≡ lines.old.end }
{
    match next_operation(alloc, lines) {
        Ok(operation) => Ok(operation),
        Err(fault) => Err(JobFault::from(fault)),
    }
}

/// Reads the block that the first line begins, which stands behind other operations.
#[tactic(auto, unfolding(crate::specs::JobFaults::next_operation_at))]
fn further_operation(
    alloc: Global,
    lines: &mut Lines<'_>,
    found: &[Operation],
) -> Result<Operation, JobFault>
    ensures read { Gives job_fault (λ op. (op, lines.new.lines)) result
        (operation_in lines.old.end found.now lines.old.lines) }
    ensures room { IfOk result (λ _. length found.now < 16) }
    ensures end { lines.new.end ≡ lines.old.end }
{
    let end = lines.end();
    match lines.peek() {
        Some(line) => {
            operation_head(end, &line, found)?;
            operation_block(alloc, lines)
        }
        None => Err(JobFault::Syntax { line: end }),
    }
}

/// Reads the operation blocks.
pub fn read_operations(alloc: Global, lines: &mut Lines<'_>) -> Result<OperationList, JobFault>
    ensures read { Gives job_fault (λ x. (x, lines.new.lines)) result
        (operations_at (suc operation_limit) lines.old.end [] lines.old.lines) }
    ensures few { IfOk result (λ x. length x ≤ 16) }
    ensures end { lines.new.end ≡ lines.old.end }
{
    let mut found = OperationList::new(alloc);
    while lines.begins(b"operation") {
        let operation = further_operation(alloc, lines, found.as_slice())?;
        found.push(operation)?;
    }
    Ok(found)
}

// ---- matrices

/// Matrices under their names.
#[derive(Drop)]
pub struct NamedMatrices {
    pub names: NameList,
    pub matrices: MatrixList,
}

/// Tests the first line of a block against the matrices above it, where the text ends on a line.
#[tactic(auto, unfolding(crate::specs::JobFaults::matrix_head_at))]
fn matrix_head(
    end: u32,
    line: &TextLine<'_>,
    names: &[Name],
    matrices: &[Matrix],
) -> Result<(), JobFault>
    ensures head { Gives job_fault (λ _. tt) result
        (matrix_head_at end (record { names = names.now; grids = matrices.now }) line.now) }
    ensures room { IfOk result (λ _. length matrices.now < 32) }
{
    let number = line.number();
    if number == end || !is_heading(line) {
        return Err(JobFault::Syntax { line: number });
    }
    if matrices.len() >= MATRIX_LIMIT {
        return Err(JobFault::Limit { line: number });
    }
    if is_among(names, line.word(1)) {
        return Err(JobFault::NameTwice { line: number });
    }
    Ok(())
}

/// Reads the block that the first line begins, which has room for so many entries.
fn matrix_block(
    alloc: Global,
    lines: &mut Lines<'_>,
    m: Modulus,
    room: u32,
) -> Result<(Name, Matrix), JobFault>
    ensures read { Gives job_fault (λ x. (record { name = x.0; grid = x.1 }, lines.new.lines))
        result (matrix_at lines.old.end m room lines.old.lines) }
    ensures fits { IfOk result (λ x. x.1.rows * x.1.cols ≤ room) }
    ensures end { lines.new.end ≡ lines.old.end }
{
    match next_matrix(alloc, lines, m, room) {
        Ok(read) => Ok(read),
        Err(fault) => Err(JobFault::from(fault)),
    }
}

/// Reads the block that the first line begins, which stands behind other matrices and has room for so many entries.
#[tactic(auto, unfolding(crate::specs::JobFaults::next_matrix_at))]
fn further_matrix(
    alloc: Global,
    lines: &mut Lines<'_>,
    m: Modulus,
    room: u32,
    names: &[Name],
    matrices: &[Matrix],
) -> Result<(Name, Matrix), JobFault>
    requires { room ≡ entry_limit - entry_count matrices.now }
    ensures read { Gives job_fault (λ x. (record { name = x.0; grid = x.1 }, lines.new.lines))
        result (matrix_in lines.old.end m
        (record { names = names.now; grids = matrices.now }) lines.old.lines) }
    ensures fits { IfOk result (λ x. x.1.rows * x.1.cols ≤ room) }
    ensures few { IfOk result (λ _. length matrices.now < 32) }
    ensures end { lines.new.end ≡ lines.old.end }
{
    let end = lines.end();
    match lines.peek() {
        Some(line) => {
            matrix_head(end, &line, names, matrices)?;
            matrix_block(alloc, lines, m, room)
        }
        None => Err(JobFault::Syntax { line: end }),
    }
}

/// Reads the matrix blocks.
pub fn read_matrices(
    alloc: Global,
    lines: &mut Lines<'_>,
    m: Modulus,
) -> Result<NamedMatrices, JobFault>
    ensures read { Gives job_fault (λ x. (matrices_seen x, lines.new.lines)) result
        (matrices_at (suc matrix_limit) lines.old.end m
        (record { names = []; grids = [] }) lines.old.lines) }
    ensures same { IfOk result (λ x. length x.names ≡ length x.matrices) }
    ensures few { IfOk result (λ x. length x.matrices ≤ 32) }
    ensures end { lines.new.end ≡ lines.old.end }
{
    let mut names = NameList::new(alloc);
    let mut matrices = MatrixList::new(alloc);
    let mut room = ENTRY_LIMIT;
    while lines.begins(b"matrix") {
        let (name, matrix) = further_matrix(
            alloc,
            lines,
            m,
            room,
            names.as_slice(),
            matrices.as_slice(),
        )?;
        room -= matrix.rows() * matrix.cols();
        names.push(name)?;
        matrices.push(matrix)?;
    }
    Ok(NamedMatrices { names, matrices })
}
