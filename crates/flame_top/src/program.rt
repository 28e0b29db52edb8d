//! All that the program does.

ghost use Rattle.std.specs.Prelude.{◌≡◌, ◌≢◌, ◌⊎◌, map, string_bytes};
ghost use Rattle.std.specs.Io.KnownBytes.{IsAtEnd};
ghost use Rattle.command_words.specs.declared.command.Command.{Command};
ghost use Rattle.command_words.specs.Words.{AreWordsOf, IsInRange, ReadsInput};
ghost use Rattle.flame_top.specs.Due.{Due, DueCommand, ReadNone};
ghost use Rattle.flame_top.specs.Answers.{Answers, IsDueStatus, state_of};

use crate::answering::deliver;
use crate::checks::check_cmd;
use crate::derive::derive_cmd;
use crate::make::make_cmd;
use crate::pme::pme_cmd;
use crate::run::{run_many_cmd, run_one_cmd};
use crate::selfrun::{selfrun_many_cmd, selfrun_one_cmd};
use crate::verify::verify_cmd;
use crate::worksheets::worksheet_cmd;
use command_words::{Command, read_words};
use outside_io::{Gate, Sink, Source};
use std::alloc::{AllocError, Global};
use std::sync::Wait;
use std::thread::Threads;

/// Does what a command asks for, and answers its status.
fn answer_named<R: Threads + Wait + Sync, S: Source, K: Sink, G: Gate>(
    rt: &R,
    alloc: Global,
    command: &Command,
    source: &mut S,
    sink: &mut K,
    gate: &G,
) -> u8
    requires { IsInRange command.now }
    ensures answers { Answers (DueCommand command.now)
        (state_of S.left S.faults source.old) (state_of S.left S.faults source.new)
        (state_of K.held K.faults sink.old) (state_of K.held K.faults sink.new) result }
    ensures ended { ReadsInput command.now → IsDueStatus result → result ≢ 3
        → IsAtEnd (S.left source.new) }
    ensures unread { ¬ (ReadsInput command.now) → (source.new ≡ source.old) × (result ≢ 1) }
    ensures untouched { (result ≡ 1) ⊎ (result ≡ 5) → sink.new ≡ sink.old }
{
    match command {
        Command::Derive => derive_cmd(alloc, command, source, sink),
        Command::Pme { .. } => pme_cmd(alloc, command, source, sink),
        Command::Worksheet { .. } => worksheet_cmd(alloc, command, source, sink),
        Command::Check => check_cmd(alloc, command, source, sink),
        Command::Verify => verify_cmd(alloc, command, source, sink),
        Command::Make { .. } => make_cmd(alloc, command, source, sink),
        Command::Run { .. } => match command.workers() {
            1 => run_one_cmd(alloc, command, source, sink),
            _ => run_many_cmd(rt, alloc, command, source, sink, gate),
        },
        Command::SelfRun { .. } => match command.workers() {
            1 => selfrun_one_cmd(alloc, command, source, sink),
            _ => selfrun_many_cmd(rt, alloc, command, source, sink, gate),
        },
    }
}

/// Does all that the program does, and answers its status. The words are those after the program's name.
///
/// - 2 comes with `bad words` where the words name no command; the source is then as it was.
/// - Else the status is that of the command's call: `derive_cmd`, `pme_cmd`, `worksheet_cmd`, `check_cmd`, `verify_cmd`,
///   `make_cmd`, and with one worker `run_one_cmd` or `selfrun_one_cmd`, with several `run_many_cmd` or `selfrun_many_cmd`.
///   That these last two return isn't promised; all others do. `make_cmd` and the calls of `selfrun` leave the source as it was.
pub fn top<R: Threads + Wait + Sync, S: Source, K: Sink, G: Gate>(
    rt: &R,
    alloc: Global,
    words: &Vec<String>,
    source: &mut S,
    sink: &mut K,
    gate: &G,
) -> u8
    ensures answers { Answers (Due (map string_bytes words.now.items))
        (state_of S.left S.faults source.old) (state_of S.left S.faults source.new)
        (state_of K.held K.faults sink.old) (state_of K.held K.faults sink.new) result }
    ensures ended { (command : Command) → AreWordsOf (map string_bytes words.now.items) command
        → ReadsInput command → IsDueStatus result → result ≢ 3 → IsAtEnd (S.left source.new) }
    ensures unread { ReadNone (map string_bytes words.now.items)
        → (source.new ≡ source.old) × (result ≢ 1) }
    ensures untouched { (result ≡ 1) ⊎ (result ≡ 5) → sink.new ≡ sink.old }
{
    match read_words(alloc, words) {
        Ok(None) => deliver(sink, 2, b"bad words\n"),
        Ok(Some(command)) => answer_named(rt, alloc, &command, source, sink, gate),
        Err(AllocError) => 5,
    }
}
