//! The second part of an input that has, behind a job, each statement's work matrix as it stands after it.

ghost use Rattle.std.specs.Prelude.{◌≡◌, ◌≢◌, ◌≤◌, ◌==◌, [], List, ℕ, length, Ok, IfErr, IfOk, IsTrue};
ghost use Rattle.byte_texts.specs.Reading.{Gives};
ghost use Rattle.text_scan.specs.declared.token.Token.{Token};
ghost use Rattle.text_scan.specs.Lines.{nth_word};
ghost use Rattle.text_scan.specs.Tokens.{tokens_of};
ghost use Rattle.text_scan.specs.Words.{is_number, number_value};
ghost use Rattle.matrix_text.specs.MatrixFaults.{grid_at};
ghost use Rattle.equation.specs.Jobs.{IsJob, IsStatement};
ghost use Rattle.job_text.specs.declared.fault.JobFault.TheVariants.{BadByte};
ghost use Rattle.job_text.specs.AfterBlocks.{HasShortSizes, HaveShortSizes, IsPlace, SpellsAfter, work_grid, work_name};
ghost use Rattle.job_text.specs.AfterFaults.{after_at, after_head_at, after_in, after_of, block_at, blocks_at, is_after_line, is_block_of};
ghost use Rattle.job_text.specs.JobFaults.{job_fault};

use crate::fault::JobFault;
use crate::reading::nothing_behind;
use equation::{Job, Statement};
use field_word::Modulus;
use matrix_core::{Matrix, MatrixList};
use matrix_text::{is_sized_line, next_rows};
use std::alloc::Global;
use text_scan::{Lines, Name, Rest, TextLine, scan};

// ---- the first line of a block

/// Whether the number that the word at a place is, is this one.
fn is_value(line: &TextLine<'_>, at: usize, n: u32) -> bool
    requires { IsTrue (is_number (nth_word line.now.words at)) }
    ensures { result ≡ (number_value (nth_word line.now.words at) == n) }
{
    match line.number_at(at) {
        Some(value) => value == n as u64,
        None => false,
    }
}

/// Whether the line of a block has the name, and as many rows and columns as the matrix.
fn is_block_of(line: &TextLine<'_>, name: &Name, work: &Matrix) -> bool
    requires { IsTrue (is_after_line line.now.words) }
    ensures { result ≡ is_block_of name.now work.now line.now.words }
{
    line.is_text(1, name.as_slice())
        && is_value(line, 2, work.rows())
        && is_value(line, 3, work.cols())
}

/// Tests the first line of a block, where the matrix is due under the name and the text ends on a line.
#[tactic(auto, unfolding(crate::specs::AfterFaults::after_head_at))]
fn after_head(end: u32, line: &TextLine<'_>, name: &Name, work: &Matrix) -> Result<(), JobFault>
    ensures { Gives job_fault (λ _. tt) result (after_head_at end name.now work.now line.now) }
{
    let number = line.number();
    if number == end || !is_sized_line(b"after", line) {
        return Err(JobFault::Syntax { line: number });
    }
    if !is_block_of(line, name, work) {
        return Err(JobFault::Binding { line: number });
    }
    Ok(())
}

// ---- the blocks

/// The rows of a matrix with as many rows and columns as another.
fn rows_behind(
    alloc: Global,
    lines: &mut Lines<'_>,
    m: Modulus,
    work: &Matrix,
) -> Result<Matrix, JobFault>
    ensures rows { Gives job_fault (λ x. (x, lines.new.lines)) result
        (grid_at lines.old.end m work.now.rows work.now.cols lines.old.lines) }
    ensures size { IfOk result (λ _. HasShortSizes work.now) }
    ensures end { lines.new.end ≡ lines.old.end }
{
    let rows = work.rows();
    let cols = work.cols();
    match next_rows(alloc, lines, m, rows, cols) {
        Ok(matrix) => Ok(matrix),
        Err(fault) => Err(JobFault::from(fault)),
    }
}

/// The block that is due, of the matrix under the name.
#[tactic(auto, unfolding(crate::specs::AfterFaults::block_at))]
fn read_block(
    alloc: Global,
    lines: &mut Lines<'_>,
    m: Modulus,
    name: &Name,
    work: &Matrix,
) -> Result<Matrix, JobFault>
    ensures block { Gives job_fault (λ x. (x, lines.new.lines)) result
        (block_at lines.old.end m name.now work.now lines.old.lines) }
    ensures size { IfOk result (λ _. HasShortSizes work.now) }
    ensures end { lines.new.end ≡ lines.old.end }
{
    let end = lines.end();
    let line = lines.due()?;
    after_head(end, &line, name, work)?;
    rows_behind(alloc, lines, m, work)
}

/// The block of a statement, which is due.
fn statement_block(
    alloc: Global,
    lines: &mut Lines<'_>,
    job: &Job,
    statement: &Statement,
) -> Result<Matrix, JobFault>
    requires named { length job.now.names ≡ length job.now.matrices }
    requires statement { IsStatement job.now statement.now }
    ensures block { Gives job_fault (λ x. (x, lines.new.lines))
        result (block_at lines.old.end job.now.modulus (work_name job.now statement.now)
        (work_grid job.now statement.now) lines.old.lines) }
    ensures size { IfOk result (λ _. HasShortSizes (work_grid job.now statement.now)) }
    ensures end { lines.new.end ≡ lines.old.end }
{
    let work = statement.bind.work as usize;
    read_block(
        alloc,
        lines,
        job.modulus,
        &job.names.as_slice()[work],
        &job.matrices.as_slice()[work],
    )
}

/// The blocks of all statements, in order.
fn read_blocks(alloc: Global, lines: &mut Lines<'_>, job: &Job) -> Result<MatrixList, JobFault>
    requires { IsJob job.now }
    ensures blocks { Gives job_fault (λ x. (x, lines.new.lines)) result
        (blocks_at lines.old.end job.now [] job.now.statements lines.old.lines) }
    ensures sizes { IfOk result (λ _. HaveShortSizes job.now job.now.statements) }
{
    let mut found = MatrixList::new(alloc);
    for statement in job.statements.as_slice() {
        let matrix = statement_block(alloc, lines, job, statement)?;
        found.push(matrix)?;
    }
    Ok(found)
}

// ---- the whole text

/// The blocks of all statements, and nothing behind them.
#[tactic(auto, unfolding(crate::specs::AfterFaults::after_at))]
fn read_all(alloc: Global, lines: &mut Lines<'_>, job: &Job) -> Result<MatrixList, JobFault>
    requires { IsJob job.now }
    ensures read { Gives job_fault (λ x. x) result
        (after_at lines.old.end job.now lines.old.lines) }
    ensures sizes { IfOk result (λ _. HaveShortSizes job.now job.now.statements) }
{
    let matrices = read_blocks(alloc, lines, job)?;
    nothing_behind(lines)?;
    Ok(matrices)
}

/// The matrices of bytes, the first of which is on a line.
fn read_text(alloc: Global, bytes: &[u8], first: u32, job: &Job) -> Result<MatrixList, JobFault>
    requires short { length bytes.now ≤ 67108865 }
    requires low { first ≤ 67108865 }
    requires job { IsJob job.now }
    ensures read { Gives job_fault (λ x. x) result
        (after_of first bytes.now job.now (tokens_of first bytes.now)) }
    ensures sizes { IfOk result (λ _. HaveShortSizes job.now job.now.statements) }
{
    match scan(alloc, bytes, first) {
        Ok(tokens) => {
            let mut lines = Lines::new(first, bytes, &tokens);
            read_all(alloc, &mut lines, job)
        }
        Err(fault) => Err(JobFault::from(fault)),
    }
}

/// The matrices of a text that has ended on a line: there are none, where none is due.
fn read_nothing(alloc: Global, line: u32, job: &Job) -> Result<MatrixList, JobFault>
    ensures read { Gives job_fault (λ x. x) result (after_at line job.now []) }
    ensures sizes { IfOk result (λ _. HaveShortSizes job.now job.now.statements) }
{
    if job.statements.is_empty() {
        Ok(MatrixList::new(alloc))
    } else {
        Err(JobFault::Syntax { line })
    }
}

/// Reads the matrices that a text has behind a job, from `rest` on to the end of the bytes: for each statement, in
/// order, its work matrix as it stands after it. `rest` is where `read_job` says that the second part begins. Each
/// matrix has as many rows and columns as the job's, and entries below the modulus.
///
/// The errors are want of memory, and else the first fault of that text by line, and in a line in the order of
/// `JobFault`: `Binding` names a block of another matrix than the statement's or of another shape, and `TrailingText`
/// a line behind the last block.
pub fn read_after(
    alloc: Global,
    bytes: &[u8],
    rest: Rest,
    job: &Job,
) -> Result<MatrixList, JobFault>
    requires short { length bytes.now ≤ 67108865 }
    requires place { IsPlace bytes.now rest }
    requires scanned { (tokens : List Token) × (tokens_of 1 bytes.now ≡ Ok tokens) }
    requires job { IsJob job.now }
    ensures read { Gives job_fault (λ x. x) result (after_in bytes.now rest job.now) }
    ensures found { IfOk result (λ x. SpellsAfter bytes.now rest job.now x) }
    ensures sizes { IfOk result (λ _. HaveShortSizes job.now job.now.statements) }
    ensures no_bad_byte { IfErr result (λ e. (line : ℕ) → e ≢ BadByte line) }
{
    if rest.at as usize == bytes.len() {
        // Its line may be one more than the first line of a text that has bytes.
        read_nothing(alloc, rest.line, job)
    } else {
        read_text(alloc, &bytes[rest.at as usize..], rest.line, job)
    }
}
