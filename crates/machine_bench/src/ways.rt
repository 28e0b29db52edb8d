//! What goes through the steps of a job.

ghost use Rattle.std.specs.Prelude.{◌≤◌, length};
ghost use Rattle.dependence_queue.specs.Edges.{most_accesses};
ghost use Rattle.equation.specs.Jobs.{IsJob};
ghost use Rattle.step_replays.specs.Fits.{FitsJob};

use byte_texts::read_decimal;
use equation::Job;
use field_word::Modulus;
use issue_list::{Choice, issue};
use job_generator::generate;
use schedule_core::Machine;
use std::alloc::{AllocError, Global};
use step_replays::StepList;
use task_values::replay;

/// What goes through them.
#[derive(Clone, Copy, Debug, PartialEq, Eq)]
pub enum Way {
    Machine,
    Replay,
    List,
}

/// That of a word.
pub fn way_of(word: &str) -> Option<Way> {
    match word {
        "machine" => Some(Way::Machine),
        "replay" => Some(Way::Replay),
        "list" => Some(Way::List),
        _ => None,
    }
}

/// The rows of a word.
pub fn rows_of(word: &str) -> Option<u32> {
    let (value, rest) = read_decimal(word.as_bytes())?;
    if !rest.is_empty() || 32 < value {
        return None;
    }
    Some(value as u32)
}

/// Takes the beginning and the end of each step by a machine, and answers whether all came.
fn by_machine(alloc: Global, job: &Job, steps: &StepList) -> Result<bool, AllocError>
    requires job { IsJob job.now }
    requires fit { FitsJob job.now 1 steps.now }
    requires few { length steps.now ≤ most_accesses }
{
    let mut machine = Machine::new(alloc, job, 1, steps)?;
    for before in 0..steps.len() as u32 {
        if !machine.start(before + 1) || !machine.finish(before + 1) {
            return Ok(false);
        }
    }
    Ok(true)
}

/// Goes through the steps of the generated job of n rows, and answers how many there are, or none where not all were done.
pub fn gone_through(alloc: Global, way: Way, n: u32) -> Result<usize, AllocError>
    requires { n ≤ 32 }
{
    let Some(m) = Modulus::new(4294967291) else {
        return Err(AllocError);
    };
    let job = generate(alloc, n, m, 1)?;
    let Ok(steps) = issue(alloc, &job, 1, &Choice::First) else {
        return Err(AllocError);
    };
    let done = match way {
        Way::Machine => by_machine(alloc, &job, &steps)?,
        Way::Replay => {
            replay(alloc, &job, 1, &steps)?;
            true
        }
        Way::List => true,
    };
    if done { Ok(steps.len()) } else { Ok(0) }
}
