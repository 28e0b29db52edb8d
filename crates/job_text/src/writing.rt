//! Writing the normal text of a job.

ghost use Rattle.std.specs.Prelude.{◌≡◌, ◌<◌, [], ◌∷◌, ◌++◌, length, codes, decimal, map, OnOk, OnErr};
ghost use Rattle.std.specs.List.{flat_map};
ghost use Rattle.matrix_text.specs.MatrixTexts.{matrix_text};
ghost use Rattle.text_scan.specs.NormalTexts.{line_text, lines_text};
ghost use Rattle.operation_spec.specs.OperationLines.{nth_name, operation_lines};
ghost use Rattle.operation_spec.specs.WordTexts.{words_text};
ghost use Rattle.equation.specs.Jobs.{nth_grid};
ghost use Rattle.job_text.specs.JobLines.{print_line, statement_line};
ghost use Rattle.job_text.specs.JobTexts.{job_text, matrix_texts};

use byte_texts::put_decimal;
use equation::{Job, Statement};
use field_word::Modulus;
use matrix_core::Matrix;
use matrix_text::write_matrix;
use operation_spec::{Operation, put_word, write_operation};
use std::alloc::{AllocError, Global};
use text_scan::Name;

/// Appends the first two lines.
fn put_header(modulus: Modulus, out: &mut Vec<u8>) -> Result<(), AllocError>
    ensures { OnOk result (out.new.items ≡ out.old.items ++ codes "flame 1\nmodulus "
        ++ decimal modulus ++ codes "\n") }
{
    out.extend_from_slice(b"flame 1\nmodulus ")?;
    put_decimal(modulus.value(), out)?;
    out.push(b'\n')?;
    Ok(())
}

fn put_operations(
    alloc: Global,
    operations: &[Operation],
    out: &mut Vec<u8>,
) -> Result<(), AllocError>
    ensures { OnOk result (out.new.items ≡ out.old.items ++ flat_map
        (λ op. lines_text (operation_lines op)) operations.now) }
{
    for operation in operations {
        write_operation(alloc, operation, out)?;
    }
    Ok(())
}

/// The name with a number.
fn name_of(names: &[Name], n: u32) -> &[u8]
    ensures { result.now ≡ nth_name names.now n }
{
    match names.get(n as usize) {
        Some(name) => name.as_slice(),
        None => &[],
    }
}

/// The name of the operation with a number.
fn operation_name(operations: &[Operation], n: u32) -> &[u8]
    ensures { result.now ≡ nth_name (map (λ op. op.name) operations.now) n }
{
    match operations.get(n as usize) {
        Some(op) => op.name.as_slice(),
        None => &[],
    }
}

fn put_names(names: &[Name], numbers: &[u32], out: &mut Vec<u8>) -> Result<(), AllocError>
    ensures { OnOk result (out.new.items ≡ out.old.items ++ words_text
        (map (nth_name names.now) numbers.now)) }
{
    for n in numbers {
        put_word(name_of(names, *n), out)?;
    }
    Ok(())
}

fn put_print(names: &[Name], n: u32, out: &mut Vec<u8>) -> Result<(), AllocError>
    ensures { OnOk result (out.new.items ≡ out.old.items ++ line_text
        (codes "print" ∷ nth_name names.now n ∷ [])) }
{
    out.extend_from_slice(b"print")?;
    put_word(name_of(names, n), out)?;
    out.push(b'\n')?;
    Ok(())
}

fn put_prints(job: &Job, out: &mut Vec<u8>) -> Result<(), AllocError>
    ensures { OnOk result (out.new.items ≡ out.old.items ++ lines_text
        (map (print_line job.now) job.now.prints)) }
{
    for n in job.prints.as_slice() {
        put_print(job.names.as_slice(), *n, out)?;
    }
    Ok(())
}

fn put_statement(job: &Job, s: &Statement, out: &mut Vec<u8>) -> Result<(), AllocError>
    ensures { OnOk result (out.new.items ≡ out.old.items ++ line_text
        (statement_line job.now s.now)) }
{
    let names = job.names.as_slice();
    out.extend_from_slice(b"do")?;
    put_word(operation_name(job.operations.as_slice(), s.operation), out)?;
    put_word(name_of(names, s.bind.work), out)?;
    put_names(names, s.bind.knowns.as_slice(), out)?;
    out.push(b'\n')?;
    Ok(())
}

fn put_statements(job: &Job, out: &mut Vec<u8>) -> Result<(), AllocError>
    ensures { OnOk result (out.new.items ≡ out.old.items ++ lines_text
        (map (statement_line job.now) job.now.statements)) }
{
    for s in job.statements.as_slice() {
        put_statement(job, s, out)?;
    }
    Ok(())
}

/// Appends the block of the matrix at a place.
fn put_block(
    alloc: Global,
    names: &[Name],
    matrices: &[Matrix],
    at: usize,
    out: &mut Vec<u8>,
) -> Result<(), AllocError>
    requires name { at < length names.now }
    requires matrix { at < length matrices.now }
    ensures { OnOk result (out.new.items ≡ out.old.items ++ matrix_text (nth_name names.now at)
        (nth_grid matrices.now at)) }
{
    write_matrix(alloc, &names[at], &matrices[at], out)
}

fn put_matrices(
    alloc: Global,
    names: &[Name],
    matrices: &[Matrix],
    out: &mut Vec<u8>,
) -> Result<(), AllocError>
    ensures { OnOk result (out.new.items ≡ out.old.items ++ matrix_texts names.now matrices.now) }
{
    let mut at = 0;
    while at < names.len() && at < matrices.len() {
        put_block(alloc, names, matrices, at, out)?;
        at += 1;
    }
    Ok(())
}

/// Appends all lines of a job.
fn put_job(alloc: Global, job: &Job, out: &mut Vec<u8>) -> Result<(), AllocError>
    ensures { OnOk result (out.new.items ≡ out.old.items ++ job_text job.now) }
{
    put_header(job.modulus, out)?;
    put_operations(alloc, job.operations.as_slice(), out)?;
    put_matrices(alloc, job.names.as_slice(), job.matrices.as_slice(), out)?;
    put_statements(job, out)?;
    put_prints(job, out)?;
    Ok(())
}

/// Appends the normal text of a job: one space between tokens, no comment and no empty line. Its one error is want of
/// memory, and then nothing is appended: the text is composed apart from `out` first.
pub fn write_job(alloc: Global, job: &Job, out: &mut Vec<u8>) -> Result<(), AllocError>
    ensures ok { OnOk result (out.new.items ≡ out.old.items ++ job_text job.now) }
    ensures err { OnErr result (out.new.items ≡ out.old.items) }
{
    let mut text = Vec::new(alloc);
    put_job(alloc, job, &mut text)?;
    out.extend_from_slice(&text)
}
