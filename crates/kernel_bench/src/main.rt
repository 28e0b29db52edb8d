//! Runs one kernel many times on seeded residues and prints a sum over what it leaves, so that its time can be taken from
//! outside. `bench/kernels.py` makes a table of such times.
//!
//! The words are a kernel's name, n, a modulus and a count, and then how the kernel reads its operands: a structure each, with
//! a `'` behind it where it is primed, as in `update 1024 4294967291 8 general lower'`. A last structure is the work matrix's.
//! All matrices are n by n. With no words, the products of two matrices are added by the kernel and by the plain loop.
#![tactic(auto)]

mod operands;
mod runs;
mod tasks;
mod unit;
mod words;

use field_word::Modulus;
use operands::GENERAL;
use runs::{Amount, Failure};
use std::process::ExitCode;
use std::rt::Env;
use std::{env, io};
use structure_rules::Structure;
use tasks::{Kernel, Task};
use words::task_of;

/// The words after the program's name.
fn words_of<R: Env + AllocGlobal>(rt: &R) -> io::Result<Vec<String>> {
    let mut words = Vec::new(rt.alloc());
    for word in env::args(rt)?.skip(1) {
        words.push(word)?;
    }
    Ok(words)
}

/// How a task is named.
const USE: &str = "kernel_bench KERNEL N MODULUS COUNT [FIRST [SECOND [INSIDE]]]";

/// The status of words that name no task.
const BAD_WORDS: u8 = 2;

/// The status of a task that has no sum.
const NO_SUM: u8 = 4;

/// Prints a line, and answers a status.
fn line<R: Print>(rt: &R, text: &str, status: u8) -> io::Result<ExitCode> {
    println!(rt; "{text}")?;
    Ok(ExitCode::from(status))
}

/// Prints the sum of a task, or why it has none.
fn report<R: Print + AllocGlobal>(rt: &R, task: &Task) -> io::Result<ExitCode> {
    match task.sum(rt.alloc()) {
        Ok(sum) => {
            println!(rt; "{sum}")?;
            Ok(ExitCode::SUCCESS)
        }
        Err(Failure::BadPivot) => line(rt, "kernel_bench: a pivot is no unit", NO_SUM),
        Err(Failure::NoTriangle) => line(rt, "kernel_bench: a factor is not triangular", BAD_WORDS),
        Err(Failure::WantOfMemory) => line(rt, "kernel_bench: out of memory", NO_SUM),
    }
}

/// A small product that a kernel adds twice.
fn small(kernel: Kernel) -> Option<Task> {
    let amount = Amount {
        m: Modulus::new(4294967291)?,
        n: 9,
        count: 2,
    };
    Some(Task {
        kernel,
        amount,
        first: GENERAL,
        second: GENERAL,
        inside: Structure::General,
    })
}

/// Prints the sum of a task, or how a task is named where there is none.
fn report_any<R: Print + AllocGlobal>(rt: &R, task: Option<Task>) -> io::Result<ExitCode> {
    match task {
        Some(task) => report(rt, &task),
        None => line(rt, USE, BAD_WORDS),
    }
}

fn main(rt: HostRuntime) -> io::Result<ExitCode> {
    let words = words_of(&rt)?;
    if words.is_empty() {
        report_any(&rt, small(Kernel::Unit))?;
        report_any(&rt, small(Kernel::Update))
    } else {
        report_any(&rt, task_of(&words))
    }
}
