//! `run`: the matrices that a job leaves, or its first bad pivot, found by block tasks of one worker or of several.

ghost use Rattle.std.specs.Prelude.{◌≡◌, ◌≢◌, ◌≤◌, ◌⊎◌, ◌++◌, length, IfOk, OnOk};
ghost use Rattle.std.specs.Io.KnownBytes.{IsAtEnd};
ghost use Rattle.equation.specs.Jobs.{IsJob};
ghost use Rattle.equation.specs.Meanings.{Means};
ghost use Rattle.issue_list.specs.CanonicalSteps.{most_steps};
ghost use Rattle.variant_report.specs.ResultTexts.{result_text};
ghost use Rattle.command_words.specs.Words.{AreRunWords, AsksRun, IsInRange, workers_of};
ghost use Rattle.dispatcher.specs.Plans.{IsPlan};
ghost use Rattle.flame_top.specs.Answers.{Answers, IsDueStatus, state_of};
ghost use Rattle.flame_top.specs.Due.{DueCommand};
ghost use Rattle.flame_top.specs.DueTexts.{DueShort};
ghost use Rattle.flame_top.specs.Going.{Goes, IsFinished};
ghost use Rattle.flame_top.specs.Meaning.{DueResult};
ghost use Rattle.flame_top.specs.Plannings.{IsPlanned};
ghost use Rattle.flame_top.specs.Run.{DueEvents, DueRun, trace_part};
ghost use Rattle.flame_top.specs.Steps.{steps_by};

use crate::answering::answer_command;
use crate::meaning::bad_pivot_output;
use crate::output::{Output, fault_output};
use crate::steps::{Listing, list_steps};
use crate::workers::{finish, go_alone, go_together};
use command_words::{Command, RunWords};
use dispatcher::{Finished, Plan};
use equation::{Job, Place};
use job_text::{JobFault, Stop, read_job};
use matrix_core::MatrixList;
use outside_io::{Gate, Sink, Source};
use schedule_core::{EventList, edges_of_steps};
use std::alloc::{AllocError, Global};
use std::sync::Wait;
use std::thread::Threads;
use step_replays::StepList;
use task_values::Outcome;
use variant_report::{write_result, write_trace};

/// Appends, where it is asked for, the trace of these steps that began and ended by a schedule.
fn put_trace(
    alloc: Global,
    trace: bool,
    steps: &StepList,
    schedule: &EventList,
    out: &mut Vec<u8>,
) -> Result<(), AllocError>
    requires { length steps.now ≤ most_steps }
    ensures { OnOk result
        (out.new.items ≡ out.old.items ++ trace_part trace steps.now schedule.now) }
{
    if !trace {
        return Ok(());
    }
    let edges = edges_of_steps(alloc, steps.as_slice())?;
    write_trace(alloc, steps, &edges, schedule, out)
}

/// Prints the matrices that a job means, and behind them the trace where it is asked for.
fn result_output(
    alloc: Global,
    job: &Job,
    trace: bool,
    steps: &StepList,
    schedule: &EventList,
    after: &MatrixList,
) -> Result<Output, AllocError>
    requires job { IsJob job.now }
    requires means { Means job.now after.now }
    requires few { length steps.now ≤ most_steps }
    ensures { IfOk result (λ output. DueResult job.now
        (λ after. result_text job.now after ++ trace_part trace steps.now schedule.now)
        output.status output.text.items) }
{
    let mut text = Vec::new(alloc);
    write_result(alloc, job, after, &mut text)?;
    put_trace(alloc, trace, steps, schedule, &mut text)?;
    Ok(Output { status: 0, text })
}

/// Prints what the steps of a job came to.
fn finished_output(
    alloc: Global,
    job: &Job,
    words: &RunWords,
    steps: &StepList,
    finished: Finished,
) -> Result<Output, AllocError>
    requires job { IsJob job.now }
    requires steps { steps.now ≡ steps_by job.now words.now.block words.now.choice }
    requires few { length steps.now ≤ most_steps }
    requires finished { IsFinished job.now steps.now words.now.workers finished }
    ensures { IfOk result (λ output.
        DueEvents words.now job.now output.status output.text.items) }
{
    let Finished { schedule, outcome } = finished;
    match outcome {
        Outcome::Done(after) => {
            Ok(result_output(alloc, job, words.trace, steps, &schedule, &after)?)
        }
        Outcome::BadPivot {
            statement,
            row,
            col,
        } => {
            let place = Place { row, col };
            Ok(bad_pivot_output(alloc, job, statement, place)?)
        }
    }
}

/// A job with the steps that it is run by, or what is printed of an input that is refused.
#[derive(Drop)]
pub enum Planned {
    Run { job: Job, steps: StepList },
    Refused(Output),
}

/// Reads the job that the bytes spell, and lists its steps.
fn plan_run(alloc: Global, bytes: &[u8], words: &RunWords) -> Result<Planned, AllocError>
    requires short { length bytes.now ≤ 67108864 }
    requires range { AreRunWords words.now }
    ensures { IfOk result (IsPlanned words.now bytes.now) }
{
    let job = match read_job(alloc, bytes, Stop::Nothing) {
        Ok((job, _)) => job,
        Err(JobFault::Memory) => return Err(AllocError),
        Err(fault) => return Ok(Planned::Refused(fault_output(alloc, fault)?)),
    };
    match list_steps(alloc, &job, words.block, &words.choice)? {
        Listing::Steps(steps) => Ok(Planned::Run { job, steps }),
        Listing::Refused(output) => Ok(Planned::Refused(output)),
    }
}

/// A run of the job that the bytes spell.
pub fn run_output<F: FnOnce(&Plan<'_>) -> Result<Finished, AllocError>>(
    alloc: Global,
    bytes: &[u8],
    words: &RunWords,
    go: F,
) -> Result<Output, AllocError>
    requires short { length bytes.now ≤ 67108864 }
    requires range { AreRunWords words.now }
    requires goes { Goes F.FnOnce go words.now.workers }
    ensures { IfOk result (λ output.
        DueShort (DueRun words.now) bytes.now output.status output.text.items) }
{
    match plan_run(alloc, bytes, words)? {
        Planned::Run { job, steps } => {
            let finished = finish(&job, words.block, &steps, words.workers, go)?;
            Ok(finished_output(alloc, &job, words, &steps, finished)?)
        }
        Planned::Refused(output) => Ok(output),
    }
}

/// Runs the job of the input with one worker: reads the source to its end, cuts the job's matrices into blocks of as many rows
/// and columns as the command's block size says, does the block tasks of the statements one after another, by each statement's
/// variant, and writes the matrices that the job prints. It answers the status.
///
/// - 0 comes with the text of those matrices, in the order of the prints. Where the command asks for the trace, it stands behind
///   them: the steps, the direct edges between them, and the beginning and the end of each step in their order.
/// - 3 comes with `refused TooLong` where the input has more than 67,108,864 bytes, and with `refused KIND line L` where it
///   is no text of a job. Behind these it comes with the first of these that applies: `refused VariantCount given G due D` where
///   the command gives G numbers of variants and the job has D statements; `refused NoVariant statement S` where statement S,
///   numbered from 1, is the first whose operation has no variant with its number (the number is 1 where the command gives
///   none); `refused TooManyParts statement S dimension D` where the block size cuts a dimension of a statement's operation into
///   more than 32 parts: S is the first such statement, and D the name of the first such dimension that its operation declares;
///   `refused TooManySteps` where there are more than 262,144 steps.
/// - 4 comes with `no inverse statement S row R column C` where the first pivot without an inverse is met by statement S,
///   numbered from 1, in row R and column C, numbered from 0.
/// - 1 comes only where the source failed, and 5 where memory ran out; nothing is written.
/// - 6 comes only where the sink failed, behind a front of the text that is due.
pub fn run_one_cmd<S: Source, K: Sink>(
    alloc: Global,
    command: &Command,
    source: &mut S,
    sink: &mut K,
) -> u8
    requires asks { AsksRun command.now }
    requires one { workers_of command.now ≡ 1 }
    requires range { IsInRange command.now }
    ensures answers { Answers (DueCommand command.now)
        (state_of S.left S.faults source.old) (state_of S.left S.faults source.new)
        (state_of K.held K.faults sink.old) (state_of K.held K.faults sink.new) result }
    ensures ended { IsDueStatus result → result ≢ 3 → IsAtEnd (S.left source.new) }
    ensures untouched { (result ≡ 1) ⊎ (result ≡ 5) → sink.new ≡ sink.old }
{
    answer_command(alloc, command, source, sink, |plan| go_alone(alloc, plan))
}

/// Runs the job of the input with two to sixteen workers on threads: it does what `run_one_cmd` does, with each block
/// task once the tasks before it that it conflicts with have ended. What it answers and writes is what one worker
/// does, but for a trace from its line `schedule` on, where the order stands in which the tasks began and ended. The gate stands
/// round the work of each task that isn't skipped. That it returns isn't promised.
pub fn run_many_cmd<R: Threads + Wait + Sync, S: Source, K: Sink, G: Gate>(
    rt: &R,
    alloc: Global,
    command: &Command,
    source: &mut S,
    sink: &mut K,
    gate: &G,
) -> u8
    requires asks { AsksRun command.now }
    requires many { 2 ≤ workers_of command.now }
    requires range { IsInRange command.now }
    ensures answers { Answers (DueCommand command.now)
        (state_of S.left S.faults source.old) (state_of S.left S.faults source.new)
        (state_of K.held K.faults sink.old) (state_of K.held K.faults sink.new) result }
    ensures ended { IsDueStatus result → result ≢ 3 → IsAtEnd (S.left source.new) }
    ensures untouched { (result ≡ 1) ⊎ (result ≡ 5) → sink.new ≡ sink.old }
{
    answer_command(
        alloc,
        command,
        source,
        sink,
        |plan|
            requires plan { IsPlan plan.now }
            requires many { 2 ≤ plan.now.workers }
        { go_together(rt, alloc, plan, gate) },
    )
}
