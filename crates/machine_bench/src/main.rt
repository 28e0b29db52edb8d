//! Goes through the steps of a generated job on blocks of one entry, by a machine or by a replay, so that the time of an event can
//! be taken from outside. `bench/steps.py` does so.
//!
//! The words are what goes through the steps, `machine`, `replay` or `list`, which only lists them, and how many rows the job's
//! matrices have, at most 32. With no words a machine goes through a small job. What is printed is the number of steps, and
//! whether they were done.
#![tactic(auto)]

mod ways;

use std::process::ExitCode;
use std::rt::Env;
use std::{env, io};
use ways::{Way, gone_through, rows_of, way_of};

/// The words after the program's name.
fn words_of<R: Env + AllocGlobal>(rt: &R) -> io::Result<Vec<String>> {
    let mut words = Vec::new(rt.alloc());
    for word in env::args(rt)?.skip(1) {
        words.push(word)?;
    }
    Ok(words)
}

/// The status of words that name nothing.
const BAD_WORDS: u8 = 2;

/// The status of a run for which memory ran out.
const NO_MEMORY: u8 = 4;

/// Goes through the steps of a job, and prints how many there are.
fn report<R: Print + AllocGlobal>(rt: &R, way: Way, n: u32) -> io::Result<ExitCode> {
    match gone_through(rt.alloc(), way, n.min(32)) {
        Ok(steps) => {
            println!(rt; "{steps}")?;
            Ok(ExitCode::SUCCESS)
        }
        Err(_) => Ok(ExitCode::from(NO_MEMORY)),
    }
}

fn main(rt: HostRuntime) -> io::Result<ExitCode> {
    let words = words_of(&rt)?;
    match words.as_slice() {
        [] => report(&rt, Way::Machine, 2),
        [way, rows] => match (way_of(way.as_str()), rows_of(rows.as_str())) {
            (Some(way), Some(n)) => report(&rt, way, n),
            _ => Ok(ExitCode::from(BAD_WORDS)),
        },
        _ => Ok(ExitCode::from(BAD_WORDS)),
    }
}
