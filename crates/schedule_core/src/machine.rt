//! A machine that takes the events of a job's steps one by one and does what they say.

ghost use Rattle.std.specs.Prelude.{◌≡◌, ◌<◌, ◌≤◌, ◌++◌, ◌∷◌, [], List, length, false, IfNone, IfOk, IfSome, IsTrue};
ghost use Rattle.equation.specs.Jobs.{IsJob};
ghost use Rattle.dependence_queue.specs.Edges.{most_accesses};
ghost use Rattle.job_blocks.specs.BlockedJobs.{block_total};
ghost use Rattle.step_replays.specs.Fits.{FitsJob};
ghost use Rattle.step_replays.specs.Replays.{IsReplay, StepResult};
ghost use Rattle.task_values.specs.Outcomes.{IsMeaning, IsReplayOutcome};
ghost use Rattle.schedule_core.specs.declared.event.Event.TheVariants.{Finish, Start};
ghost use Rattle.schedule_core.specs.EventBlocks.{block_at, step_access};
ghost use Rattle.schedule_core.specs.Schedules.{all_over, is_begun, may_come};

use crate::held::Held;
use crate::step_edges::edges_of_steps;
use crate::turns::Turns;
use dependence_queue::Edges;
use equation::Job;
use job_blocks::JobBlocks;
use matrix_core::Matrix;
use std::alloc::{AllocError, Global};
use std::marker::Model;
use step_replays::StepList;
use task_values::{Outcome, Run, outcome_of};

/// Steps of a job of which some have begun and some ended, with the blocks as they stand. A step is done when it ends.
///
/// It has room for all events from the start, so that none takes memory.
#[derive(Drop)]
pub struct Machine<'a> {
    run: Run<'a>,
    edges: Edges,
    turns: Turns,
    held: Held,
}

impl<'a> Model for Machine<'a> {
    ghost use Rattle.schedule_core.specs.Courses.{Course};
    ghost use Rattle.schedule_core.specs.Machines.{IsMachine};
    ghost use Rattle.schedule_core.specs.Turns.{logged};

    ghost Value = { Course };

    ghost view = { λ a. record {
      job = a.run.job.now;
      b = a.run.b;
      steps = a.run.steps.now;
      events = logged a.turns;
    } };

    ghost invariant = { λ a. IsMachine a.run a.edges a.turns a.held };
}

impl<'a> Machine<'a> {
    /// The steps of a job under block size b, before any event. Its one error is want of memory.
    pub fn new(
        alloc: Global,
        job: &'a Job,
        b: u32,
        steps: &'a StepList,
    ) -> Result<Machine<'a>, AllocError>
        requires job { IsJob job.now }
        requires size { 1 ≤ b }
        requires fit { FitsJob job.now b steps.now }
        requires few { length steps.now ≤ most_accesses }
        ensures { IfOk result (λ machine. machine
            ≡ record { job = job.now; b = b; steps = steps.now; events = [] }) }
    {
        let run = Run {
            job,
            b,
            steps: steps.as_slice(),
        };
        let edges = edges_of_steps(alloc, run.steps)?;
        let turns = Turns::first(alloc, &edges, run.steps.len() as u32)?;
        let blocks = JobBlocks::new(alloc, job, b)?;
        let held = Held::first(alloc, &blocks)?;
        Ok(Machine {
            run,
            edges,
            turns,
            held,
        })
    }

    /// Step t begins, if it may begin next; else nothing changes. Steps are numbered from 1.
    pub fn start(&mut self, t: u32) -> bool
        ensures answer { result ≡ may_come (step_access self.old.steps)
            (length self.old.steps) self.old.events (Start t) }
        ensures came { IsTrue result
            → self.new ≡ record self.old { events = self.old.events ++ Start t ∷ [] } }
        ensures kept { result ≡ false → self.new ≡ self.old }
    {
        if !self.turns.may_start(t) {
            return false;
        }
        self.turns.begin(t);
        true
    }

    /// Step t ends, if it may end next, and its kernel's value stands in the block that it writes; else nothing changes. A step that
    /// is skipped or meets a bad pivot leaves the block as it was.
    pub fn finish(&mut self, t: u32) -> bool
        ensures answer { result ≡ may_come (step_access self.old.steps)
            (length self.old.steps) self.old.events (Finish t) }
        ensures came { IsTrue result
            → self.new ≡ record self.old { events = self.old.events ++ Finish t ∷ [] } }
        ensures kept { result ≡ false → self.new ≡ self.old }
    {
        if !self.turns.may_finish(t) {
            return false;
        }
        self.held.end(&self.run, t as usize - 1);
        self.turns.end(&self.edges, t);
        true
    }

    /// The block with this number as it stands after the events so far.
    pub fn block(&self, x: u32) -> &Matrix
        requires { x < block_total (record { job = self.now.job; b = self.now.b }) }
        ensures { (results : List StepResult)
            → IsReplay self.now.job self.now.b self.now.steps results
            → result.now ≡ block_at self.now.job self.now.b self.now.steps results
            self.now.events x }
    {
        &self.held.store.blocks[x as usize]
    }

    /// What the steps come to, if all have ended. Its one error is want of memory.
    pub fn outcome(self, alloc: Global) -> Result<Option<Outcome>, AllocError>
        ensures none { IfOk result (λ outcome. IfNone outcome
            (all_over self.entry.events (length self.entry.steps) ≡ false)) }
        ensures over { IfOk result (λ outcome. IfSome outcome
            (λ _. IsTrue (all_over self.entry.events (length self.entry.steps)))) }
        ensures replayed { IfOk result (λ outcome. IfSome outcome
            (IsReplayOutcome self.entry.job self.entry.b self.entry.steps)) }
        ensures meaning { IfOk result (λ outcome. IfSome outcome (IsMeaning self.entry.job)) }
        ensures begun { IfOk result (λ _. IsTrue (is_begun (step_access self.entry.steps)
            (length self.entry.steps) self.entry.events)) }
    {
        if !self.turns.all_ended() {
            return Ok(None);
        }
        let Machine { run, held, .. } = self;
        let blocks = JobBlocks::new(alloc, run.job, run.b)?;
        let outcome = outcome_of(alloc, &blocks, &run, held.store)?;
        Ok(Some(outcome))
    }
}
