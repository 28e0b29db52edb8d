//! `worksheet`: the worksheet of a variant of an operation of a job.

ghost use Rattle.std.specs.Prelude.{◌≡◌, ◌≢◌, ◌≤◌, ◌⊎◌, length, IfOk};
ghost use Rattle.std.specs.Io.KnownBytes.{IsAtEnd};
ghost use Rattle.invariant_family.specs.Families.{family_of, variant_numbered};
ghost use Rattle.command_words.specs.Words.{AsksWorksheet, IsInRange};
ghost use Rattle.flame_top.specs.Answers.{Answers, IsDueStatus, state_of};
ghost use Rattle.flame_top.specs.Due.{DueCommand};
ghost use Rattle.flame_top.specs.DueTexts.{DueShort, Says};
ghost use Rattle.flame_top.specs.Refusals.{no_such_variant_text};
ghost use Rattle.flame_top.specs.Worksheets.{DueSheet, DueWorksheet, sheet_text};

use crate::answering::answer_command;
use crate::output::{Output, fault_output, no_operation_output};
use crate::workers::go_alone;
use command_words::Command;
use equation::Job;
use invariant_family::{Variant, variant_at};
use job_text::{JobFault, Stop, read_job};
use operation_spec::Operation;
use outside_io::{Sink, Source};
use std::alloc::{AllocError, Global};
use worksheet::make;
use worksheet_text::{named, write_worksheet};

fn no_variant_output(alloc: Global) -> Result<Output, AllocError>
    ensures { IfOk result (λ output.
        Says 3 no_such_variant_text output.status output.text.items) }
{
    Ok(Output {
        status: 3,
        text: Vec::from_slice(alloc, b"refused NoVariant\n")?,
    })
}

/// Prints the worksheet of a variant.
fn sheet_output(alloc: Global, op: &Operation, variant: &Variant) -> Result<Output, AllocError>
    ensures { IfOk result (λ output.
        Says 0 (sheet_text op.now variant.now) output.status output.text.items) }
{
    let sheet = make(alloc, op, variant)?;
    let mut text = Vec::new(alloc);
    write_worksheet(alloc, op, &sheet, &mut text)?;
    Ok(Output { status: 0, text })
}

/// Prints the worksheet of the variant with this number, or refuses it.
fn operation_output(alloc: Global, op: &Operation, number: u32) -> Result<Output, AllocError>
    ensures { IfOk result (λ output. DueSheet op.now
        (variant_numbered (family_of op.now) number) output.status output.text.items) }
{
    let found = variant_at(alloc, op, number)?;
    match &found {
        Some(variant) => Ok(sheet_output(alloc, op, variant)?),
        None => Ok(no_variant_output(alloc)?),
    }
}

/// Prints the worksheet of the variant with this number of the operation with this name.
fn job_output(alloc: Global, job: &Job, name: &[u8], number: u32) -> Result<Output, AllocError>
    ensures { IfOk result (λ output.
        DueWorksheet name.now number job.now output.status output.text.items) }
{
    match named(job.operations.as_slice(), name) {
        Some(op) => Ok(operation_output(alloc, op, number)?),
        None => Ok(no_operation_output(alloc)?),
    }
}

/// Prints the worksheet of a variant of an operation of the job that the bytes spell.
pub fn worksheet_output(
    alloc: Global,
    bytes: &[u8],
    name: &[u8],
    number: u32,
) -> Result<Output, AllocError>
    requires { length bytes.now ≤ 67108864 }
    ensures { IfOk result (λ output. DueShort (DueWorksheet name.now number)
        bytes.now output.status output.text.items) }
{
    match read_job(alloc, bytes, Stop::Nothing) {
        Ok((job, _)) => Ok(job_output(alloc, &job, name, number)?),
        Err(JobFault::Memory) => Err(AllocError),
        Err(fault) => Ok(fault_output(alloc, fault)?),
    }
}

/// Prints the worksheet of a variant of an operation of the job: reads the source to its end, makes the worksheet, and writes it
/// with its comments. It answers the status.
///
/// - 0 comes with that text.
/// - 3 comes with `refused TooLong` where the input has more than 67,108,864 bytes, and with `refused KIND line L` where it
///   is no text of a job. Behind these it comes with `refused NoOperation` where the job has no operation with the name, and
///   with `refused NoVariant` where the operation has no variant with the number.
/// - 1 comes only where the source failed, and 5 where memory ran out; nothing is written.
/// - 6 comes only where the sink failed, behind a front of the text that is due.
pub fn worksheet_cmd<S: Source, K: Sink>(
    alloc: Global,
    command: &Command,
    source: &mut S,
    sink: &mut K,
) -> u8
    requires asks { AsksWorksheet command.now }
    requires range { IsInRange command.now }
    ensures answers { Answers (DueCommand command.now)
        (state_of S.left S.faults source.old) (state_of S.left S.faults source.new)
        (state_of K.held K.faults sink.old) (state_of K.held K.faults sink.new) result }
    ensures ended { IsDueStatus result → result ≢ 3 → IsAtEnd (S.left source.new) }
    ensures untouched { (result ≡ 1) ⊎ (result ≡ 5) → sink.new ≡ sink.old }
{
    answer_command(alloc, command, source, sink, |plan| go_alone(alloc, plan))
}
