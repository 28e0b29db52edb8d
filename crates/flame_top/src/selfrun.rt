//! `selfrun`: a summary of what the generated job leaves.

ghost use Rattle.std.specs.Prelude.{◌≡◌, ◌≢◌, ◌≤◌, ◌⊎◌, length, IfOk};
ghost use Rattle.equation.specs.Jobs.{IsJob};
ghost use Rattle.equation.specs.Meanings.{Means};
ghost use Rattle.issue_list.specs.CanonicalSteps.{most_steps};
ghost use Rattle.task_values.specs.Outcomes.{IsMeaning};
ghost use Rattle.issue_list.specs.declared.choice.Choice.TheVariants.{First};
ghost use Rattle.variant_report.specs.SummaryTexts.{summary_text};
ghost use Rattle.command_words.specs.Words.{AreSelfWords, AreSizes, AsksSelfRun};
ghost use Rattle.command_words.specs.Words.{IsInRange, workers_of};
ghost use Rattle.dispatcher.specs.Plans.{IsPlan};
ghost use Rattle.flame_top.specs.Answers.{Answers, state_of};
ghost use Rattle.flame_top.specs.Due.{DueCommand};
ghost use Rattle.flame_top.specs.Going.{Goes};
ghost use Rattle.flame_top.specs.Meaning.{DueMeaning, DueResult};
ghost use Rattle.flame_top.specs.SelfRun.{DueSelfRun, DueSummary, self_text};
ghost use Rattle.flame_top.specs.Steps.{steps_by};

use crate::answering::answer_alone;
use crate::make::modulus_of;
use crate::meaning::bad_pivot_output;
use crate::output::Output;
use crate::steps::{Listing, list_steps};
use crate::workers::{finish, go_alone, go_together};
use command_words::Command;
use dispatcher::{Finished, Plan};
use equation::{Job, Place};
use issue_list::Choice;
use job_generator::generate;
use matrix_core::MatrixList;
use outside_io::{Gate, Sink, Source};
use std::alloc::{AllocError, Global};
use std::sync::Wait;
use std::thread::Threads;
use step_replays::StepList;
use task_values::Outcome;
use variant_report::{SelfWords, write_summary};

/// Prints a summary of the matrices that a job means.
fn summary_output(
    alloc: Global,
    job: &Job,
    words: SelfWords,
    steps: u32,
    after: &MatrixList,
) -> Result<Output, AllocError>
    requires job { IsJob job.now }
    requires means { Means job.now after.now }
    ensures { IfOk result (λ output. DueResult job.now (summary_text job.now words steps)
        output.status output.text.items) }
{
    let mut text = Vec::new(alloc);
    write_summary(alloc, job, words, steps, after, &mut text)?;
    Ok(Output { status: 0, text })
}

/// Prints a summary of what the steps of a job came to.
fn finished_output(
    alloc: Global,
    job: &Job,
    words: SelfWords,
    steps: &StepList,
    outcome: Outcome,
) -> Result<Output, AllocError>
    requires job { IsJob job.now }
    requires steps { steps.now ≡ steps_by job.now words.block First }
    requires few { length steps.now ≤ most_steps }
    requires meaning { IsMeaning job.now outcome }
    ensures { IfOk result (λ output.
        DueMeaning job.now (self_text words job.now) output.status output.text.items) }
{
    match outcome {
        Outcome::Done(after) => {
            let count = steps.len() as u32;
            Ok(summary_output(alloc, job, words, count, &after)?)
        }
        Outcome::BadPivot {
            statement,
            row,
            col,
        } => {
            let place = Place { row, col };
            Ok(bad_pivot_output(alloc, job, statement, place)?)
        }
    }
}

/// Lists the steps of a job by first variants and has them done, or refuses the job.
fn job_output<F: FnOnce(&Plan<'_>) -> Result<Finished, AllocError>>(
    alloc: Global,
    job: &Job,
    words: SelfWords,
    go: F,
) -> Result<Output, AllocError>
    requires job { IsJob job.now }
    requires sizes { AreSizes words.block words.workers }
    requires goes { Goes F.FnOnce go words.workers }
    ensures { IfOk result (λ output. DueSummary words job.now output.status output.text.items) }
{
    match list_steps(alloc, job, words.block, &Choice::First)? {
        Listing::Steps(steps) => {
            let Finished { outcome, .. } = finish(job, words.block, &steps, words.workers, go)?;
            Ok(finished_output(alloc, job, words, &steps, outcome)?)
        }
        Listing::Refused(output) => Ok(output),
    }
}

/// A run of the generated job.
pub fn selfrun_output<F: FnOnce(&Plan<'_>) -> Result<Finished, AllocError>>(
    alloc: Global,
    words: SelfWords,
    go: F,
) -> Result<Output, AllocError>
    requires range { AreSelfWords words }
    requires goes { Goes F.FnOnce go words.workers }
    ensures { IfOk result (λ output. DueSelfRun words output.status output.text.items) }
{
    let job = generate(alloc, words.n, modulus_of(words.m), words.seed)?;
    Ok(job_output(alloc, &job, words, go)?)
}

/// Runs the generated job that the command asks for with one worker, each statement by the first variant of its operation, and
/// writes a summary: the command's numbers, how many steps there were, and the sum modulo the modulus of each matrix that the job
/// prints. It answers the status. The source stays as it is.
///
/// - 0 comes with the summary.
/// - 3 comes with `refused TooManyParts statement S dimension D` and `refused TooManySteps` as it does for a run.
/// - 4 never comes: no generated job has a bad pivot (`no_selfrun_meets_a_bad_pivot`).
/// - 5 comes where memory ran out; nothing is written.
/// - 6 comes only where the sink failed, behind a front of the text that is due.
pub fn selfrun_one_cmd<S: Source, K: Sink>(
    alloc: Global,
    command: &Command,
    source: &mut S,
    sink: &mut K,
) -> u8
    requires asks { AsksSelfRun command.now }
    requires one { workers_of command.now ≡ 1 }
    requires range { IsInRange command.now }
    ensures answers { Answers (DueCommand command.now)
        (state_of S.left S.faults source.old) (state_of S.left S.faults source.new)
        (state_of K.held K.faults sink.old) (state_of K.held K.faults sink.new) result }
    ensures unread { (source.new ≡ source.old) × (result ≢ 1) }
    ensures untouched { result ≡ 5 → sink.new ≡ sink.old }
{
    answer_alone(alloc, command, source, sink, |plan| go_alone(alloc, plan))
}

/// Runs the generated job with two to sixteen workers on threads, and writes the summary that one worker gets but for
/// the number of workers in its first line. The gate stands round the work of each task. That it returns isn't promised.
pub fn selfrun_many_cmd<R: Threads + Wait + Sync, S: Source, K: Sink, G: Gate>(
    rt: &R,
    alloc: Global,
    command: &Command,
    source: &mut S,
    sink: &mut K,
    gate: &G,
) -> u8
    requires asks { AsksSelfRun command.now }
    requires many { 2 ≤ workers_of command.now }
    requires range { IsInRange command.now }
    ensures answers { Answers (DueCommand command.now)
        (state_of S.left S.faults source.old) (state_of S.left S.faults source.new)
        (state_of K.held K.faults sink.old) (state_of K.held K.faults sink.new) result }
    ensures unread { (source.new ≡ source.old) × (result ≢ 1) }
    ensures untouched { result ≡ 5 → sink.new ≡ sink.old }
{
    answer_alone(
        alloc,
        command,
        source,
        sink,
        |plan|
            requires plan { IsPlan plan.now }
            requires many { 2 ≤ plan.now.workers }
        { go_together(rt, alloc, plan, gate) },
    )
}
