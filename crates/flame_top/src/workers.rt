//! Who goes through the steps of a job: one worker in the thread that calls, or several on threads.

ghost use Rattle.std.specs.Prelude.{◌≡◌, ◌≤◌, length, IfOk};
ghost use Rattle.equation.specs.Jobs.{IsJob};
ghost use Rattle.step_replays.specs.Fits.{FitsJob};
ghost use Rattle.issue_list.specs.CanonicalSteps.{most_steps};
ghost use Rattle.command_words.specs.Words.{AreSizes};
ghost use Rattle.dispatcher.specs.Plans.{IsPlan};
ghost use Rattle.flame_top.specs.Going.{Goes, IsFinished};

use dispatcher::{Finished, Plan, run_steps};
use equation::Job;
use outside_io::Gate;
use schedule_core::edges_of_steps;
use std::alloc::{AllocError, Global};
use std::sync::Wait;
use std::thread::Threads;
use step_replays::StepList;
use task_values::replay;
use variant_report::ordered_events;

/// The one worker of a plan does its steps in their order. It answers their events and what the job means. Its one error is want
/// of memory.
pub fn go_alone(alloc: Global, plan: &Plan<'_>) -> Result<Finished, AllocError>
    requires plan { IsPlan plan.now }
    requires one { plan.now.workers ≡ 1 }
    ensures { IfOk result (IsFinished plan.now.job.now plan.now.steps.now plan.now.workers) }
{
    let outcome = replay(alloc, plan.job, plan.b, plan.steps)?;
    let schedule = ordered_events(alloc, plan.steps.len() as u32)?;
    Ok(Finished { schedule, outcome })
}

/// The workers of a plan, two or more, do its steps on threads. It answers their events, by the stamps that the workers drew, and
/// what the job means. The gate stands round the work of each step that isn't skipped. Its one error is want of memory.
pub fn go_together<R: Threads + Wait + Sync, G: Gate>(
    rt: &R,
    alloc: Global,
    plan: &Plan<'_>,
    gate: &G,
) -> Result<Finished, AllocError>
    requires plan { IsPlan plan.now }
    requires many { 2 ≤ plan.now.workers }
    ensures { IfOk result (IsFinished plan.now.job.now plan.now.steps.now plan.now.workers) }
{
    let edges = edges_of_steps(alloc, plan.steps.as_slice())?;
    run_steps(rt, alloc, plan, &edges, gate)
}

/// Has steps that fit a job under block size b done by a closure that goes through the plans of so many workers.
pub fn finish<F: FnOnce(&Plan<'_>) -> Result<Finished, AllocError>>(
    job: &Job,
    b: u32,
    steps: &StepList,
    workers: u32,
    go: F,
) -> Result<Finished, AllocError>
    requires job { IsJob job.now }
    requires sizes { AreSizes b workers }
    requires fit { FitsJob job.now b steps.now }
    requires few { length steps.now ≤ most_steps }
    requires goes { Goes F.FnOnce go workers }
    ensures { IfOk result (IsFinished job.now steps.now workers) }
{
    go(&Plan {
        job,
        b,
        steps,
        workers,
    })
}
