//! `make`: the text of the generated job.

ghost use Rattle.std.specs.Prelude.{◌≡◌, ◌≢◌, ◌≤◌, ◌⊎◌, IfOk};
ghost use Rattle.command_words.specs.Words.{AsksMake, IsInRange};
ghost use Rattle.flame_top.specs.Answers.{Answers, state_of};
ghost use Rattle.flame_top.specs.Due.{DueCommand};
ghost use Rattle.flame_top.specs.Make.{DueMake};

use crate::answering::answer_alone;
use crate::output::Output;
use crate::workers::go_alone;
use command_words::Command;
use field_word::Modulus;
use job_generator::generate;
use job_text::write_job;
use outside_io::{Sink, Source};
use std::alloc::{AllocError, Global};

/// The modulus that a command asks for.
pub fn modulus_of(m: u32) -> Modulus
    requires { 2 ≤ m }
    ensures { result ≡ m }
{
    match Modulus::new(u64::from(m)) {
        Some(modulus) => modulus,
        None => unreachable!(),
    }
}

/// The text of the job that is generated for n, the modulus m and a seed.
pub fn make_output(alloc: Global, n: u32, m: u32, seed: u32) -> Result<Output, AllocError>
    requires size { n ≤ 1024 }
    requires modulus { 2 ≤ m }
    ensures { IfOk result (λ output. DueMake n m seed output.status output.text.items) }
{
    let job = generate(alloc, n, modulus_of(m), seed)?;
    let mut text = Vec::new(alloc);
    write_job(alloc, &job, &mut text)?;
    Ok(Output { status: 0, text })
}

/// Writes the text of the generated job that the command asks for. It answers the status. The source stays as it is.
///
/// - 0 comes with the job's text.
/// - 5 comes where memory ran out; nothing is written.
/// - 6 comes only where the sink failed, behind a front of the text.
pub fn make_cmd<S: Source, K: Sink>(
    alloc: Global,
    command: &Command,
    source: &mut S,
    sink: &mut K,
) -> u8
    requires asks { AsksMake command.now }
    requires range { IsInRange command.now }
    ensures answers { Answers (DueCommand command.now)
        (state_of S.left S.faults source.old) (state_of S.left S.faults source.new)
        (state_of K.held K.faults sink.old) (state_of K.held K.faults sink.new) result }
    ensures unread { (source.new ≡ source.old) × (result ≢ 1) }
    ensures untouched { result ≡ 5 → sink.new ≡ sink.old }
{
    answer_alone(alloc, command, source, sink, |plan| go_alone(alloc, plan))
}
