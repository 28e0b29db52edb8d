ghost use Rattle.std.specs.Prelude.{◌≡◌, ◌++◌, ◌<◌, length, sum, OnOk, OnErr};
ghost use Rattle.std.specs.List.{flat_map};
ghost use Rattle.equation.specs.Jobs.{IsJob};
ghost use Rattle.variant_report.specs.SummaryTexts.{words_line, entry_sum, sum_line, summary_text};

use crate::SelfWords;
use crate::number_lines::put_number_line;
use byte_texts::put_decimal;
use equation::Job;
use field_word::Modulus;
use matrix_core::{Matrix, MatrixList};
use std::alloc::{AllocError, Global};

fn put_words(words: SelfWords, out: &mut Vec<u8>) -> Result<(), AllocError>
    ensures { OnOk result (out.new.items ≡ out.old.items ++ words_line words) }
{
    out.extend_from_slice(b"selfrun ")?;
    put_decimal(u64::from(words.n), out)?;
    out.push(b' ')?;
    put_decimal(u64::from(words.m), out)?;
    out.push(b' ')?;
    put_decimal(u64::from(words.seed), out)?;
    out.extend_from_slice(b" block ")?;
    put_decimal(u64::from(words.block), out)?;
    out.extend_from_slice(b" workers ")?;
    put_decimal(u64::from(words.workers), out)?;
    out.push(b'\n')?;
    Ok(())
}

/// The sum of these numbers. It is below 2^127, since each is below 2^64 and a slice has fewer than 2^63 of them.
fn total(numbers: &[u64]) -> u128
    ensures { result ≡ sum numbers.now }
{
    let mut total: u128 = 0;
    for number in numbers {
        total += u128::from(*number);
    }
    total
}

/// The residue of the sum of all entries, which is reduced once.
fn sum_of_entries(modulus: Modulus, matrix: &Matrix) -> u64
    ensures { result ≡ entry_sum modulus matrix.now }
{
    (total(matrix.entries()) % u128::from(modulus.value())) as u64
}

/// Appends the name of the matrix with a number, and the sum of its entries.
fn put_sum(job: &Job, matrices: &MatrixList, n: u32, out: &mut Vec<u8>) -> Result<(), AllocError>
    requires name { n < length job.now.names }
    requires matrix { n < length matrices.now }
    ensures { OnOk result (out.new.items ≡ out.old.items ++ sum_line job.now matrices.now n) }
{
    let name = &job.names.as_slice()[n as usize];
    let value = sum_of_entries(job.modulus, &matrices.as_slice()[n as usize]);
    out.extend_from_slice(b"sum ")?;
    put_number_line(name.as_slice(), value, out)?;
    Ok(())
}

/// Appends a line for each print.
fn put_sums(job: &Job, matrices: &MatrixList, out: &mut Vec<u8>) -> Result<(), AllocError>
    requires job { IsJob job.now }
    requires count { length matrices.now ≡ length job.now.matrices }
    ensures { OnOk result (out.new.items ≡ out.old.items
        ++ flat_map (sum_line job.now matrices.now) job.now.prints) }
{
    for n in job.prints.as_slice() {
        put_sum(job, matrices, *n, out)?;
    }
    Ok(())
}

fn put_summary(
    job: &Job,
    words: SelfWords,
    steps: u32,
    matrices: &MatrixList,
    out: &mut Vec<u8>,
) -> Result<(), AllocError>
    requires job { IsJob job.now }
    requires count { length matrices.now ≡ length job.now.matrices }
    ensures { OnOk result (out.new.items
        ≡ out.old.items ++ summary_text job.now words steps matrices.now) }
{
    put_words(words, out)?;
    put_number_line(b"tasks", u64::from(steps), out)?;
    put_sums(job, matrices, out)?;
    Ok(())
}

/// Appends the summary of the run of a generated job: the words that asked for it, how many steps it had, and for
/// each print, in the job's order, the sum of the matrix's entries modulo the job's modulus. There are as many
/// matrices as the job has; they are those that it leaves. The words stand as they are given, and the sums go by the
/// job alone. Its one error is want of memory, and then nothing is appended: the text is composed apart from `out`
/// first.
pub fn write_summary(
    alloc: Global,
    job: &Job,
    words: SelfWords,
    steps: u32,
    matrices: &MatrixList,
    out: &mut Vec<u8>,
) -> Result<(), AllocError>
    requires job { IsJob job.now }
    requires count { length matrices.now ≡ length job.now.matrices }
    ensures ok { OnOk result (out.new.items
        ≡ out.old.items ++ summary_text job.now words steps matrices.now) }
    ensures err { OnErr result (out.new.items ≡ out.old.items) }
{
    let mut text = Vec::new(alloc);
    put_summary(job, words, steps, matrices, &mut text)?;
    out.extend_from_slice(&text)
}
