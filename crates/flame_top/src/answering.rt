//! What every command does: its input is read whole, its output is composed, and then it is written. The closure `go` is how the
//! command's workers go through the steps of a job (`workers`); a command that goes through none doesn't call it.

ghost use Rattle.std.specs.Prelude.{◌≡◌, ◌≢◌, ◌≤◌, ◌⊎◌, List, ℕ, length, IfOk, IsErrOf, codes};
ghost use Rattle.std.specs.Io.KnownBytes.{Consumes, IsAtEnd};
ghost use Rattle.outside_io.specs.Causes.{Rose};
ghost use Rattle.flame_top.specs.Due.{DueCommand, DueInput};
ghost use Rattle.flame_top.specs.Answers.{Answers, IsDueStatus, Delivers, DueFrom, state_of};
ghost use Rattle.flame_top.specs.Going.{Goes};
ghost use Rattle.command_words.specs.Words.{IsInRange, ReadsInput, workers_of};
ghost use Rattle.flame_top.specs.declared.answering.Halt.TheVariants.{Memory};

use crate::checks::check_output;
use crate::derive::derive_output;
use crate::make::make_output;
use crate::output::Output;
use crate::pme::pme_output;
use crate::run::run_output;
use crate::selfrun::selfrun_output;
use crate::verify::verify_output;
use crate::worksheets::worksheet_output;
use command_words::Command;
use dispatcher::{Finished, Plan};
use outside_io::{Failed, ReadEnd, Sink, Source, read_all, write_all};
use std::alloc::{AllocError, Global};

/// An input may have so many bytes.
const LIMIT: u32 = 67_108_864;

/// Why no output was composed.
#[derive(Clone, Copy, Debug, PartialEq, Eq)]
pub enum Halt {
    /// Memory ran out.
    Memory,
    /// The source failed.
    ReadFault,
}

impl From<AllocError> for Halt {
    ghost from_gives = { λ _ e. e ≡ Memory };

    fn from(_e: AllocError) -> Halt {
        Halt::Memory
    }
}

/// The refusal of an input that is too long.
fn too_long(alloc: Global) -> Result<Output, AllocError>
    ensures { IfOk result (λ output.
        (output.status ≡ 3) × (output.text.items ≡ codes "refused TooLong\n")) }
{
    Ok(Output {
        status: 3,
        text: Vec::from_slice(alloc, b"refused TooLong\n")?,
    })
}

/// Composes the output of a command for an input, which a command that reads none doesn't look at.
fn input_output<F: FnOnce(&Plan<'_>) -> Result<Finished, AllocError>>(
    alloc: Global,
    command: &Command,
    bytes: &[u8],
    go: F,
) -> Result<Output, AllocError>
    requires goes { Goes F.FnOnce go (workers_of command.now) }
    requires range { IsInRange command.now }
    requires short { length bytes.now ≤ 67108864 }
    ensures { IfOk result (λ output.
        DueInput command.now bytes.now output.status output.text.items) }
{
    match command {
        Command::Derive => Ok(derive_output(alloc, bytes)?),
        Command::Pme { op, dims } => {
            Ok(pme_output(alloc, bytes, op.as_slice(), dims.as_slice())?)
        }
        Command::Worksheet { op, number } => {
            Ok(worksheet_output(alloc, bytes, op.as_slice(), *number)?)
        }
        Command::Check => Ok(check_output(alloc, bytes)?),
        Command::Verify => Ok(verify_output(alloc, bytes)?),
        Command::Make { n, m, seed } => Ok(make_output(alloc, *n, *m, *seed)?),
        Command::Run { words } => Ok(run_output(alloc, bytes, words, go)?),
        Command::SelfRun { words } => Ok(selfrun_output(alloc, *words, go)?),
    }
}

/// Reads the source to its end, and composes the output of a command.
fn command_output<S: Source, F: FnOnce(&Plan<'_>) -> Result<Finished, AllocError>>(
    alloc: Global,
    command: &Command,
    source: &mut S,
    go: F,
) -> Result<Output, Halt>
    requires goes { Goes F.FnOnce go (workers_of command.now) }
    requires range { IsInRange command.now }
    requires reads { ReadsInput command.now }
    ensures due { IfOk result (λ output. DueFrom (DueCommand command.now) (S.left source.old)
        output.status output.text.items) }
    ensures read_fault { IsErrOf result Halt.ReadFault →
        Rose (S.faults source.old) (S.faults source.new) }
    ensures quiet { result ≢ Err Halt.ReadFault → S.faults source.new ≡ S.faults source.old }
    ensures taken { (front : List ℕ) × Consumes (S.left source.old) (S.left source.new) front }
    ensures ended { IfOk result (λ output. output.status ≢ 3 → IsAtEnd (S.left source.new)) }
{
    match read_all(alloc, source, LIMIT) {
        Ok(bytes) => Ok(input_output(alloc, command, &bytes, go)?),
        Err(ReadEnd::TooLong) => Ok(too_long(alloc)?),
        Err(ReadEnd::ReadFault) => Err(Halt::ReadFault),
        Err(ReadEnd::Memory) => Err(Halt::Memory),
    }
}

/// Writes a text, and answers its status, or 6 where the sink failed.
pub fn deliver<K: Sink>(sink: &mut K, status: u8, text: &[u8]) -> u8
    requires { IsDueStatus status }
    ensures { Delivers status text.now
        (state_of K.held K.faults sink.old) (state_of K.held K.faults sink.new) result }
{
    match write_all(sink, text) {
        Ok(()) => status,
        Err(Failed) => 6,
    }
}

/// Reads the source to its end, composes the output of the command, and writes it.
pub fn answer_command<S: Source, K: Sink, F: FnOnce(&Plan<'_>) -> Result<Finished, AllocError>>(
    alloc: Global,
    command: &Command,
    source: &mut S,
    sink: &mut K,
    go: F,
) -> u8
    requires goes { Goes F.FnOnce go (workers_of command.now) }
    requires range { IsInRange command.now }
    requires reads { ReadsInput command.now }
    ensures answers { Answers (DueCommand command.now)
        (state_of S.left S.faults source.old) (state_of S.left S.faults source.new)
        (state_of K.held K.faults sink.old) (state_of K.held K.faults sink.new) result }
    ensures ended { IsDueStatus result → result ≢ 3 → IsAtEnd (S.left source.new) }
    ensures untouched { (result ≡ 1) ⊎ (result ≡ 5) → sink.new ≡ sink.old }
{
    match command_output(alloc, command, source, go) {
        Ok(output) => deliver(sink, output.status, &output.text),
        Err(Halt::Memory) => 5,
        Err(Halt::ReadFault) => 1,
    }
}

/// Composes the output of a command that reads no input, and writes it. The source stays as it is.
pub fn answer_alone<S: Source, K: Sink, F: FnOnce(&Plan<'_>) -> Result<Finished, AllocError>>(
    alloc: Global,
    command: &Command,
    source: &mut S,
    sink: &mut K,
    go: F,
) -> u8
    requires goes { Goes F.FnOnce go (workers_of command.now) }
    requires range { IsInRange command.now }
    requires alone { ¬ (ReadsInput command.now) }
    ensures answers { Answers (DueCommand command.now)
        (state_of S.left S.faults source.old) (state_of S.left S.faults source.new)
        (state_of K.held K.faults sink.old) (state_of K.held K.faults sink.new) result }
    ensures unread { (source.new ≡ source.old) × (result ≢ 1) }
    ensures untouched { result ≡ 5 → sink.new ≡ sink.old }
{
    match input_output(alloc, command, b"", go) {
        Ok(output) => deliver(sink, output.status, &output.text),
        Err(AllocError) => 5,
    }
}
