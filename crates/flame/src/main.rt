//! The program: it reads the words and standard input, writes standard output, and ends with the status.
//!
//! `main` only opens the streams and asks for the words. Which words are handed on is the clause of `words_of`, and what the number
//! that the process ends with tells, that of `run`, which is `top`'s.
#![tactic(auto)]

ghost use Rattle.std.specs.Prelude.{◌≡◌, drop, map, string_bytes, IfOk};
ghost use Rattle.std_alloc.specs.Vec.Iter.{into_iter_items};
ghost use Rattle.std.specs.Process.{exit_status};
ghost use Rattle.flame_top.specs.Due.{Due};
ghost use Rattle.flame_top.specs.Answers.{Answers, state_of};
ghost use Rattle.flame.specs.GivenWords.{words_behind};

use flame_top::top;
use outside_io::{OpenGate, Sink, Source, StdSink, StdSource};
use std::alloc::{AllocError, Global};
use std::env::Args;
use std::io::ErrorKind;
use std::process::ExitCode;
use std::sync::Wait;
use std::thread::Threads;
use std::{env, io};

/// All of these but the first one.
fn behind_first(alloc: Global, mut all: Args) -> Result<Vec<String>, AllocError>
    ensures { IfOk result (λ words. words.items ≡ drop 1 (into_iter_items all)) }
{
    let mut words = Vec::new(alloc);
    all.next();
    for word in all {
        words.push(word)?;
    }
    Ok(words)
}

/// The words behind the program's name. A word that is not UTF-8 is no word of a command, and then there are none, which are bad
/// words.
fn words_of(alloc: Global, all: io::Result<Args>) -> Result<Vec<String>, AllocError>
    ensures { IfOk result (λ words. words.items ≡ words_behind all) }
{
    match all {
        Ok(all) => behind_first(alloc, all),
        Err(error) if error.kind() == ErrorKind::OutOfMemory => Err(AllocError),
        Err(_) => Ok(Vec::new(alloc)),
    }
}

/// The status of a run that ends for want of memory.
const WANT_OF_MEMORY: u8 = 5;

/// Does what the words ask for, and answers what the process ends with.
fn run<R: Threads + Wait + Sync, S: Source, K: Sink>(
    rt: &R,
    alloc: Global,
    all: io::Result<Args>,
    source: &mut S,
    sink: &mut K,
) -> ExitCode
    ensures { Answers (Due (map string_bytes (words_behind all)))
        (state_of S.left S.faults source.old) (state_of S.left S.faults source.new)
        (state_of K.held K.faults sink.old) (state_of K.held K.faults sink.new)
        (exit_status result) }
{
    match words_of(alloc, all) {
        Ok(words) => ExitCode::from(top(rt, alloc, &words, source, sink, &OpenGate)),
        Err(AllocError) => ExitCode::from(WANT_OF_MEMORY),
    }
}

fn main(rt: HostRuntime) -> ExitCode {
    let mut source = StdSource::new(rt.reader());
    let mut sink = StdSink::new(io::writer(&rt));
    run(&rt, rt.alloc(), env::args(&rt), &mut source, &mut sink)
}
