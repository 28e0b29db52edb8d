//! The lines behind the blocks of a job: its statements, and what it prints.

ghost use Rattle.std.specs.Prelude.{◌≡◌, ◌≤◌, [], drop, length, true, IfOk};
ghost use Rattle.std.specs.List.{list_all};
ghost use Rattle.byte_texts.specs.Reading.{Gives};
ghost use Rattle.text_scan.specs.Names.{is_among};
ghost use Rattle.job_text.specs.JobFaults.{is_print_line, is_statement_line, job_fault, print_at, prints_at, statement_at, statement_head_at, statements_at};
ghost use Rattle.job_text.specs.MatricesSeen.{matrices_seen};

use crate::binding::bind;
use crate::blocks::NamedMatrices;
use crate::fault::JobFault;
use crate::names::{are_among, has_number, numbers_of, operation_number};
use equation::{Statement, StatementList};
use operation_spec::Operation;
use std::alloc::Global;
use structure_rules::NumberList;
use text_scan::{Lines, Name, TextLine, is_name, number_of};

/// How many statements a job may have.
const STATEMENT_LIMIT: usize = 16;

// ---- prints

/// Whether the line is `print MATRIX`.
#[tactic(auto, using(crate::proofs::LineForms::print_line_is))]
fn is_print_line(line: &TextLine<'_>) -> bool
    ensures { result ≡ is_print_line line.now.words }
{
    line.len() == 2 && line.is_text(0, b"print") && is_name(line.word(1))
}

/// Reads the line of a print, which stands behind others: the number of its matrix.
#[tactic(auto, unfolding(crate::specs::JobFaults::print_at))]
fn read_print(line: &TextLine<'_>, names: &[Name], found: &[u32]) -> Result<u32, JobFault>
    requires { length names.now ≤ 32 }
    ensures { Gives job_fault (λ n. n) result (print_at names.now found.now line.now) }
{
    let number = line.number();
    if !is_print_line(line) {
        return Err(JobFault::Syntax { line: number });
    }
    let n = number_of(names, line.word(1));
    if has_number(found, n as u32) {
        return Err(JobFault::NameTwice { line: number });
    }
    if n >= names.len() {
        return Err(JobFault::NameUnknown { line: number });
    }
    Ok(n as u32)
}

/// Reads the lines of prints.
pub fn read_prints(
    alloc: Global,
    lines: &mut Lines<'_>,
    names: &[Name],
) -> Result<NumberList, JobFault>
    requires { length names.now ≤ 32 }
    ensures { Gives job_fault (λ x. (x, lines.new.lines)) result
        (prints_at names.now [] lines.old.lines) }
{
    let mut found = NumberList::new(alloc);
    while let Some(line) = lines.next_with(b"print") {
        let n = read_print(&line, names, found.as_slice())?;
        found.push(n)?;
    }
    Ok(found)
}

// ---- statements

/// Whether the line is `do OP MATRIX ..`.
#[tactic(auto, using(crate::proofs::LineForms::statement_line_is))]
fn is_statement_line(line: &TextLine<'_>) -> bool
    ensures { result ≡ is_statement_line line.now.words }
{
    line.len() > 1 && line.is_text(0, b"do") && is_name(line.word(1)) && line.behind(2).are_names()
}

/// Tests the line of a statement behind others, up to its names.
#[tactic(auto, unfolding(crate::specs::JobFaults::statement_head_at))]
fn statement_head(
    line: &TextLine<'_>,
    operations: &[Operation],
    matrices: &NamedMatrices,
    found: &[Statement],
) -> Result<(), JobFault>
    ensures head { Gives job_fault (λ _. tt) result
        (statement_head_at operations.now (matrices_seen matrices.now) found.now line.now) }
    ensures known { IfOk result (λ _. list_all (is_among matrices.now.names) (drop 2 line.now.words)
        ≡ true) }
{
    let number = line.number();
    if !is_statement_line(line) {
        return Err(JobFault::Syntax { line: number });
    }
    if found.len() >= STATEMENT_LIMIT {
        return Err(JobFault::Limit { line: number });
    }
    if operation_number(operations, line.word(1)) >= operations.len()
        || !are_among(matrices.names.as_slice(), line.behind(2))
    {
        return Err(JobFault::NameUnknown { line: number });
    }
    Ok(())
}

/// Reads the line of a statement, which stands behind others.
#[tactic(auto, unfolding(crate::specs::JobFaults::statement_at))]
fn read_statement(
    alloc: Global,
    line: &TextLine<'_>,
    operations: &[Operation],
    matrices: &NamedMatrices,
    found: &[Statement],
) -> Result<Statement, JobFault>
    requires few_operations { length operations.now ≤ 16 }
    requires few { length matrices.now.matrices ≤ 32 }
    requires named { length matrices.now.names ≡ length matrices.now.matrices }
    ensures { Gives job_fault (λ s. s) result
        (statement_at operations.now (matrices_seen matrices.now) found.now line.now) }
{
    statement_head(line, operations, matrices, found)?;
    let number = line.number();
    let n = operation_number(operations, line.word(1));
    let bound = numbers_of(alloc, matrices.names.as_slice(), line.behind(2))?;
    match operations.get(n) {
        Some(op) => bind(
            alloc,
            number,
            op,
            matrices.matrices.as_slice(),
            n as u32,
            &bound,
        ),
        None => Err(JobFault::NameUnknown { line: number }),
    }
}

/// Reads the lines of statements.
pub fn read_statements(
    alloc: Global,
    lines: &mut Lines<'_>,
    operations: &[Operation],
    matrices: &NamedMatrices,
) -> Result<StatementList, JobFault>
    requires few_operations { length operations.now ≤ 16 }
    requires few { length matrices.now.matrices ≤ 32 }
    requires named { length matrices.now.names ≡ length matrices.now.matrices }
    ensures statements { Gives job_fault (λ x. (x, lines.new.lines)) result
        (statements_at operations.now (matrices_seen matrices.now) [] lines.old.lines) }
    ensures end { lines.new.end ≡ lines.old.end }
{
    let mut found = StatementList::new(alloc);
    while let Some(line) = lines.next_with(b"do") {
        let statement = read_statement(alloc, &line, operations, matrices, found.as_slice())?;
        found.push(statement)?;
    }
    Ok(found)
}
