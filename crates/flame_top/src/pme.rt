//! `pme`: the partitioned matrix expression of an operation of a job.

ghost use Rattle.std.specs.Prelude.{◌≡◌, ◌≢◌, ◌≤◌, ◌⊎◌, length, IfOk};
ghost use Rattle.std.specs.Io.KnownBytes.{IsAtEnd};
ghost use Rattle.equation.specs.Jobs.{IsJob};
ghost use Rattle.operation_spec.specs.ValidOperations.{IsValid};
ghost use Rattle.variant_report.specs.PmeTexts.{pme_text};
ghost use Rattle.command_words.specs.Words.{AsksPme, IsInRange};
ghost use Rattle.flame_top.specs.Answers.{Answers, IsDueStatus, state_of};
ghost use Rattle.flame_top.specs.Due.{DueCommand};
ghost use Rattle.flame_top.specs.DueTexts.{DueShort, Says};
ghost use Rattle.flame_top.specs.Pme.{DueAlong, DuePme, pair_named, single_named, split_named};
ghost use Rattle.flame_top.specs.Refusals.{no_split_text};

use crate::answering::answer_command;
use crate::output::{Output, fault_output, no_operation_output};
use crate::workers::go_alone;
use command_words::Command;
use equation::Job;
use job_text::{JobFault, Stop, read_job};
use operation_spec::{Operation, Split};
use outside_io::{Sink, Source};
use pme_builder::derive_pme;
use std::alloc::{AllocError, Global};
use text_scan::{Name, is_among, number_of};
use variant_report::write_pme;
use worksheet_text::named;

/// The split along the dimension with a name.
fn single_named(dims: &[Name], d: &[u8]) -> Option<Split>
    requires { length dims.now ≤ 6 }
    ensures { result ≡ single_named dims.now d.now }
{
    if is_among(dims, d) {
        Some(Split {
            first: number_of(dims, d) as u32,
            second: None,
        })
    } else {
        None
    }
}

/// The split along the dimensions with two names, where the second is declared after the first.
fn pair_named(dims: &[Name], d: &[u8], e: &[u8]) -> Option<Split>
    requires { length dims.now ≤ 6 }
    ensures { result ≡ pair_named dims.now d.now e.now }
{
    let first = number_of(dims, d);
    let second = number_of(dims, e);
    if is_among(dims, d) && is_among(dims, e) && first < second {
        Some(Split {
            first: first as u32,
            second: Some(second as u32),
        })
    } else {
        None
    }
}

/// The split along dimensions by their names.
fn split_named(dims: &[Name], names: &[Name]) -> Option<Split>
    requires { length dims.now ≤ 6 }
    ensures { result ≡ split_named dims.now names.now }
{
    match names {
        [d] => single_named(dims, d.as_slice()),
        [d, e] => pair_named(dims, d.as_slice(), e.as_slice()),
        _ => None,
    }
}

fn no_split_output(alloc: Global) -> Result<Output, AllocError>
    ensures { IfOk result (λ output. Says 3 no_split_text output.status output.text.items) }
{
    Ok(Output {
        status: 3,
        text: Vec::from_slice(alloc, b"refused NoSplit\n")?,
    })
}

/// Prints the expression of an operation along a split.
fn split_output(alloc: Global, op: &Operation, split: Split) -> Result<Output, AllocError>
    requires { IsValid op.now }
    ensures { IfOk result (λ output.
        Says 0 (pme_text op.now split) output.status output.text.items) }
{
    let expression = derive_pme(alloc, op, split)?;
    let mut text = Vec::new(alloc);
    write_pme(alloc, op, split, &expression, &mut text)?;
    Ok(Output { status: 0, text })
}

/// Prints the expression of an operation along the dimensions with these names, or refuses them.
fn operation_output(alloc: Global, op: &Operation, names: &[Name]) -> Result<Output, AllocError>
    requires { IsValid op.now }
    ensures { IfOk result (λ output. DueAlong op.now
        (split_named op.now.dims names.now) output.status output.text.items) }
{
    match split_named(op.dims.as_slice(), names) {
        Some(split) => Ok(split_output(alloc, op, split)?),
        None => Ok(no_split_output(alloc)?),
    }
}

/// Prints the expression of the operation with this name.
fn job_output(alloc: Global, job: &Job, name: &[u8], names: &[Name]) -> Result<Output, AllocError>
    requires { IsJob job.now }
    ensures { IfOk result (λ output.
        DuePme name.now names.now job.now output.status output.text.items) }
{
    match named(job.operations.as_slice(), name) {
        Some(op) => Ok(operation_output(alloc, op, names)?),
        None => Ok(no_operation_output(alloc)?),
    }
}

/// Prints the expression of an operation of the job that the bytes spell.
pub fn pme_output(
    alloc: Global,
    bytes: &[u8],
    name: &[u8],
    names: &[Name],
) -> Result<Output, AllocError>
    requires { length bytes.now ≤ 67108864 }
    ensures { IfOk result (λ output. DueShort (DuePme name.now names.now)
        bytes.now output.status output.text.items) }
{
    match read_job(alloc, bytes, Stop::Nothing) {
        Ok((job, _)) => Ok(job_output(alloc, &job, name, names)?),
        Err(JobFault::Memory) => Err(AllocError),
        Err(fault) => Ok(fault_output(alloc, fault)?),
    }
}

/// Prints the partitioned matrix expression of an operation of the job, with two parts in each dimension that the command
/// names: reads the source to its end, derives the expression, and writes a line for each block and for each block task. It
/// answers the status.
///
/// - 0 comes with that text.
/// - 3 comes with `refused TooLong` where the input has more than 67,108,864 bytes, and with `refused KIND line L` where it
///   is no text of a job. Behind these it comes with `refused NoOperation` where the job has no operation with the name, and
///   with `refused NoSplit` where the operation hasn't the dimensions, or the second isn't declared after the first.
/// - 1 comes only where the source failed, and 5 where memory ran out; nothing is written.
/// - 6 comes only where the sink failed, behind a front of the text that is due.
pub fn pme_cmd<S: Source, K: Sink>(
    alloc: Global,
    command: &Command,
    source: &mut S,
    sink: &mut K,
) -> u8
    requires asks { AsksPme command.now }
    requires range { IsInRange command.now }
    ensures answers { Answers (DueCommand command.now)
        (state_of S.left S.faults source.old) (state_of S.left S.faults source.new)
        (state_of K.held K.faults sink.old) (state_of K.held K.faults sink.new) result }
    ensures ended { IsDueStatus result → result ≢ 3 → IsAtEnd (S.left source.new) }
    ensures untouched { (result ≡ 1) ⊎ (result ≡ 5) → sink.new ≡ sink.old }
{
    answer_command(alloc, command, source, sink, |plan| go_alone(alloc, plan))
}
