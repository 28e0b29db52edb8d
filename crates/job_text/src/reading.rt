//! Reading a job: the sections in their order, and the two parts of an input.

ghost use Rattle.std.specs.Prelude.{◌≡◌, ◌≤◌, length, Ok, IfOk};
ghost use Rattle.byte_texts.specs.Reading.{Gives};
ghost use Rattle.text_scan.specs.Tokens.{scanned, tokens_of};
ghost use Rattle.job_text.specs.declared.stop.Stop.TheVariants.{Nothing};
ghost use Rattle.job_text.specs.JobFaults.{job_at, job_fault, nothing_at, sections_at};
ghost use Rattle.job_text.specs.SecondParts.{front_in, place_of_word};
ghost use Rattle.job_text.specs.SpelledJobs.{Spells, job_in, job_of};

use crate::blocks::{NamedMatrices, read_matrices, read_operations};
use crate::fault::JobFault;
use crate::header::{read_header, read_modulus};
use crate::second_part::place_from_word;
use crate::statements::{read_prints, read_statements};
use crate::stop::Stop;
use equation::Job;
use field_word::Modulus;
use std::alloc::Global;
use text_scan::{Lines, Rest, Token, end_line, scan};

// ---- the sections

/// No line is left.
#[tactic(auto, unfolding(crate::specs::JobFaults::nothing_at))]
pub fn nothing_behind(lines: &mut Lines<'_>) -> Result<(), JobFault>
    ensures { Gives job_fault (λ _. tt) result (nothing_at lines.old.lines) }
{
    match lines.next() {
        Some(line) => {
            let number = line.number();
            Err(JobFault::TrailingText { line: number })
        }
        None => Ok(()),
    }
}

/// Reads the sections behind the modulus.
#[tactic(auto, unfolding(crate::specs::JobFaults::sections_at))]
fn read_sections(alloc: Global, lines: &mut Lines<'_>, modulus: Modulus) -> Result<Job, JobFault>
    ensures { Gives job_fault (λ job. job) result
        (sections_at lines.old.end modulus lines.old.lines) }
{
    let operations = read_operations(alloc, lines)?;
    let found = read_matrices(alloc, lines, modulus)?;
    let statements = read_statements(alloc, lines, operations.as_slice(), &found)?;
    let prints = read_prints(alloc, lines, found.names.as_slice())?;
    nothing_behind(lines)?;
    let NamedMatrices { names, matrices } = found;
    Ok(Job {
        modulus,
        operations,
        names,
        matrices,
        statements,
        prints,
    })
}

/// Reads all lines of a text as a job.
#[tactic(auto, unfolding(crate::specs::JobFaults::job_at, crate::specs::JobFaults::first_lines_at))]
fn read_lines(alloc: Global, lines: &mut Lines<'_>) -> Result<Job, JobFault>
    ensures { Gives job_fault (λ job. job) result (job_at lines.old.end lines.old.lines) }
{
    read_header(lines)?;
    let line = lines.due()?;
    let modulus = read_modulus(&line)?;
    read_sections(alloc, lines, modulus)
}

// ---- the text

/// The tokens of the bytes.
fn tokens_in(alloc: Global, bytes: &[u8]) -> Result<Vec<Token>, JobFault>
    requires { length bytes.now ≤ 67108865 }
    ensures tokens { Gives job_fault (λ tokens. tokens.items) result
        (scanned (tokens_of 1 bytes.now)) }
    ensures scanned { IfOk result (λ tokens. tokens_of 1 bytes.now ≡ Ok tokens.items) }
{
    match scan(alloc, bytes, 1) {
        Ok(tokens) => Ok(tokens),
        Err(fault) => Err(JobFault::from(fault)),
    }
}

/// Reads the bytes as a job, and nothing behind it.
fn read_whole(alloc: Global, bytes: &[u8]) -> Result<Job, JobFault>
    requires { length bytes.now ≤ 67108865 }
    ensures { Gives job_fault (λ job. job) result (job_of bytes.now (tokens_of 1 bytes.now)) }
{
    let tokens = tokens_in(alloc, bytes)?;
    let mut lines = Lines::new(1, bytes, &tokens);
    read_lines(alloc, &mut lines)
}

/// Reads a job up to the end of the bytes.
fn read_to_end(alloc: Global, bytes: &[u8]) -> Result<(Job, Rest), JobFault>
    requires { length bytes.now ≤ 67108865 }
    ensures { Gives job_fault (λ x. (x.0, x.1)) result (job_in Nothing bytes.now) }
{
    let job = read_whole(alloc, bytes)?;
    let rest = Rest {
        at: bytes.len() as u32,
        line: end_line(1, bytes),
    };
    Ok((job, rest))
}

/// Where the first line that begins with the word begins. The tokens of the whole input are dropped before its front is
/// scanned again.
fn place_of_word(alloc: Global, bytes: &[u8], word: &[u8]) -> Result<Rest, JobFault>
    requires { length bytes.now ≤ 67108865 }
    ensures place { Gives job_fault (λ rest. rest) result (place_of_word word.now bytes.now) }
    ensures within { IfOk result (λ rest. rest.at ≤ length bytes.now) }
{
    let tokens = tokens_in(alloc, bytes)?;
    let mut lines = Lines::new(1, bytes, &tokens);
    Ok(place_from_word(bytes, &mut lines, word))
}

/// Reads a job up to the first line that begins with the word.
fn read_front(alloc: Global, bytes: &[u8], word: &[u8]) -> Result<(Job, Rest), JobFault>
    requires { length bytes.now ≤ 67108865 }
    ensures { Gives job_fault (λ x. (x.0, x.1)) result (front_in word.now bytes.now) }
{
    let rest = place_of_word(alloc, bytes, word)?;
    let job = read_whole(alloc, &bytes[..rest.at as usize])?;
    Ok((job, rest))
}

/// Reads a job, up to where it ends by `stop`, and answers where the second part of the input begins: its first byte,
/// and that byte's line, from 1 on. The input has 67,108,865 bytes at most. The errors are want of memory, the first
/// bad byte of the whole input, and else the first fault of the job's text by line, and in a line in the order of
/// `JobFault`.
pub fn read_job(alloc: Global, bytes: &[u8], stop: Stop) -> Result<(Job, Rest), JobFault>
    requires { length bytes.now ≤ 67108865 }
    ensures read { Gives job_fault (λ x. (x.0, x.1)) result (job_in stop bytes.now) }
    ensures found { IfOk result (λ x. Spells bytes.now stop x.0 x.1) }
{
    match stop {
        Stop::Nothing => read_to_end(alloc, bytes),
        Stop::Worksheet => read_front(alloc, bytes, b"worksheet"),
        Stop::After => read_front(alloc, bytes, b"after"),
    }
}
