//! Lists of events that came from outside.

ghost use Rattle.std.specs.Prelude.{◌≡◌, ◌≤◌, ◌++◌, ◌∷◌, [], length, false, IfNone, IfOk, IfSome, IsTrue};
ghost use Rattle.equation.specs.Jobs.{IsJob};
ghost use Rattle.dependence_queue.specs.Edges.{most_accesses};
ghost use Rattle.step_replays.specs.Fits.{FitsJob};
ghost use Rattle.task_values.specs.Outcomes.{IsMeaning, IsReplayOutcome};
ghost use Rattle.schedule_core.specs.EventBlocks.{step_access};
ghost use Rattle.schedule_core.specs.Schedules.{IsSchedule, goes_on, may_come};

use crate::event::{Event, EventList};
use crate::machine::Machine;
use equation::Job;
use std::alloc::{AllocError, Global};
use step_replays::StepList;
use task_values::Outcome;

/// Goes through events of the steps of a job under block size b: what the steps come to, if the events are a schedule. Its one
/// error is want of memory.
pub fn run_events(
    alloc: Global,
    job: &Job,
    b: u32,
    steps: &StepList,
    events: &EventList,
) -> Result<Option<Outcome>, AllocError>
    requires job { IsJob job.now }
    requires size { 1 ≤ b }
    requires fit { FitsJob job.now b steps.now }
    requires few { length steps.now ≤ most_accesses }
    ensures none { IfOk result (λ outcome. IfNone outcome
        (¬ (IsSchedule (step_access steps.now) (length steps.now) events.now))) }
    ensures schedule { IfOk result (λ outcome. IfSome outcome
        (λ _. IsSchedule (step_access steps.now) (length steps.now) events.now)) }
    ensures replayed { IfOk result (λ outcome. IfSome outcome
        (IsReplayOutcome job.now b steps.now)) }
    ensures meaning { IfOk result (λ outcome. IfSome outcome (IsMeaning job.now)) }
{
    let mut machine = Machine::new(alloc, job, b, steps)?;
    if !take_all(&mut machine, events.as_slice()) {
        return Ok(None);
    }
    machine.outcome(alloc)
}

/// Takes events one after another, as long as they may come: whether all of them came.
fn take_all(machine: &mut Machine<'_>, events: &[Event]) -> bool
    ensures answer { result ≡ goes_on (step_access machine.old.steps) (length machine.old.steps)
        machine.old.events events.now }
    ensures came { IsTrue result
        → machine.new ≡ record machine.old { events = machine.old.events ++ events.now } }
{
    for event in events {
        if !take(machine, *event) {
            return false;
        }
    }
    true
}

/// Takes an event, if it may come next; else nothing changes.
fn take(machine: &mut Machine<'_>, event: Event) -> bool
    ensures answer { result ≡ may_come (step_access machine.old.steps) (length machine.old.steps)
        machine.old.events event }
    ensures came { IsTrue result
        → machine.new ≡ record machine.old { events = machine.old.events ++ event ∷ [] } }
    ensures kept { result ≡ false → machine.new ≡ machine.old }
{
    match event {
        Event::Start(t) => machine.start(t),
        Event::Finish(t) => machine.finish(t),
    }
}
