//! `check`: whether the worksheet behind a job is right.

ghost use Rattle.std.specs.Prelude.{◌≡◌, ◌≢◌, ◌≤◌, ◌⊎◌, List, None, Ok, length, IfOk};
ghost use Rattle.std.specs.Io.KnownBytes.{IsAtEnd};
ghost use Rattle.text_scan.specs.declared.token.Token.{Token};
ghost use Rattle.text_scan.specs.Tokens.{tokens_of};
ghost use Rattle.job_text.specs.AfterBlocks.{IsPlace};
ghost use Rattle.worksheet_text.specs.SheetReading.{operation_named};
ghost use Rattle.command_words.specs.Words.{AsksCheck};
ghost use Rattle.flame_top.specs.Answers.{Answers, IsDueStatus, state_of};
ghost use Rattle.flame_top.specs.Checks.{DueCheck, DueSheetBehind, DueVerdict, DueVerdictOf};
ghost use Rattle.flame_top.specs.Due.{DueCommand};

use crate::answering::answer_command;
use crate::output::{Output, fault_output, sheet_fault_output};
use crate::workers::go_alone;
use command_words::Command;
use equation::Job;
use job_text::{JobFault, Stop, read_job};
use operation_spec::Operation;
use outside_io::{Sink, Source};
use std::alloc::{AllocError, Global};
use text_scan::Rest;
use variant_report::write_verdict;
use worksheet::{Verdict, Worksheet};
use worksheet_check::check;
use worksheet_text::{WsFault, named, read_worksheet};

/// The status of a verdict.
fn status_of(verdict: &Verdict) -> u8
    ensures right { verdict.now ≡ Verdict.Right → result ≡ 0 }
    ensures wrong { verdict.now ≢ Verdict.Right → result ≡ 7 }
{
    match verdict {
        Verdict::Right => 0,
        Verdict::Wrong { .. } => 7,
    }
}

/// The verdict on a worksheet of an operation.
#[tactic(auto, using(crate::proofs::CheckLaws::told))]
fn verdict_output(alloc: Global, op: &Operation, w: &Worksheet) -> Result<Output, AllocError>
    ensures { IfOk result (λ output.
        DueVerdict op.now w.now output.status output.text.items) }
{
    let verdict = check(alloc, op, w)?;
    let status = status_of(&verdict);
    let mut text = Vec::new(alloc);
    write_verdict(alloc, op, &verdict, &mut text)?;
    Ok(Output { status, text })
}

/// The verdict on a worksheet of the operation of the job that it names.
fn sheet_output(alloc: Global, job: &Job, w: &Worksheet) -> Result<Output, AllocError>
    requires { operation_named job.now.operations w.now.operation ≢ None }
    ensures { IfOk result (λ output.
        DueVerdictOf (operation_named job.now.operations w.now.operation) w.now
        output.status output.text.items) }
{
    match named(job.operations.as_slice(), w.operation.as_slice()) {
        Some(op) => Ok(verdict_output(alloc, op, w)?),
        None => unreachable!(),
    }
}

/// The output that is due for what stands behind a job.
fn behind_output(alloc: Global, bytes: &[u8], rest: Rest, job: &Job) -> Result<Output, AllocError>
    requires short { length bytes.now ≤ 67108865 }
    requires place { IsPlace bytes.now rest }
    requires scanned { (tokens : List Token) × (tokens_of 1 bytes.now ≡ Ok tokens) }
    ensures { IfOk result (λ output.
        DueSheetBehind bytes.now rest job.now output.status output.text.items) }
{
    match read_worksheet(alloc, bytes, rest, &job.operations) {
        Ok(w) => Ok(sheet_output(alloc, job, &w)?),
        Err(WsFault::Memory) => Err(AllocError),
        Err(fault) => Ok(sheet_fault_output(alloc, fault)?),
    }
}

/// The output that is due for an input.
pub fn check_output(alloc: Global, bytes: &[u8]) -> Result<Output, AllocError>
    requires { length bytes.now ≤ 67108864 }
    ensures { IfOk result (λ output. DueCheck bytes.now output.status output.text.items) }
{
    match read_job(alloc, bytes, Stop::Worksheet) {
        Ok((job, rest)) => Ok(behind_output(alloc, bytes, rest, &job)?),
        Err(JobFault::Memory) => Err(AllocError),
        Err(fault) => Ok(fault_output(alloc, fault)?),
    }
}

/// Checks the worksheet behind a job: reads the source to its end, holds the worksheet against the one that is due for its
/// split, directions and invariant, and writes whether it is right. It answers the status.
///
/// - 0 comes with `right`, where the worksheet is valid.
/// - 7 comes with `wrong PLACE found SHOWN due SHOWN`, where it isn't: its first wrong place, what was found there and what is
///   due.
/// - 3 comes with `refused TooLong` where the input has more than 67,108,864 bytes, and with `refused KIND line L` where it
///   is no text of a job with a worksheet behind it.
/// - 1 comes only where the source failed, and 5 where memory ran out; nothing is written.
/// - 6 comes only where the sink failed, behind a front of the text that is due.
pub fn check_cmd<S: Source, K: Sink>(
    alloc: Global,
    command: &Command,
    source: &mut S,
    sink: &mut K,
) -> u8
    requires { AsksCheck command.now }
    ensures answers { Answers (DueCommand command.now)
        (state_of S.left S.faults source.old) (state_of S.left S.faults source.new)
        (state_of K.held K.faults sink.old) (state_of K.held K.faults sink.new) result }
    ensures ended { IsDueStatus result → result ≢ 3 → IsAtEnd (S.left source.new) }
    ensures untouched { (result ≡ 1) ⊎ (result ≡ 5) → sink.new ≡ sink.old }
{
    answer_command(alloc, command, source, sink, |plan| go_alone(alloc, plan))
}
