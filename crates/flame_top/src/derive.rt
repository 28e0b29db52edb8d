//! `derive`: the family of each operation of a job.

ghost use Rattle.std.specs.Prelude.{◌≡◌, ◌≢◌, ◌≤◌, ◌++◌, ◌⊎◌, length, IfOk, OnOk};
ghost use Rattle.std.specs.Io.KnownBytes.{IsAtEnd};
ghost use Rattle.invariant_family.specs.Families.{family_of};
ghost use Rattle.variant_report.specs.FamilyTexts.{family_text};
ghost use Rattle.flame_top.specs.Answers.{Answers, IsDueStatus, state_of};
ghost use Rattle.flame_top.specs.Derive.{DueFamilies, families_text};
ghost use Rattle.flame_top.specs.Due.{DueCommand};
ghost use Rattle.flame_top.specs.DueTexts.{DueShort};
ghost use Rattle.command_words.specs.Words.{AsksFamilies};

use crate::answering::answer_command;
use crate::output::{Output, fault_output};
use crate::workers::go_alone;
use command_words::Command;
use equation::Job;
use invariant_family::family;
use job_text::{JobFault, Stop, read_job};
use operation_spec::Operation;
use outside_io::{Sink, Source};
use std::alloc::{AllocError, Global};
use variant_report::write_family;

fn put_family(alloc: Global, op: &Operation, out: &mut Vec<u8>) -> Result<(), AllocError>
    ensures { OnOk result (out.new.items ≡ out.old.items ++ family_text op.now (family_of op.now)) }
{
    let variants = family(alloc, op)?;
    write_family(alloc, op, &variants, out)
}

fn put_families(
    alloc: Global,
    operations: &[Operation],
    out: &mut Vec<u8>,
) -> Result<(), AllocError>
    ensures { OnOk result (out.new.items ≡ out.old.items ++ families_text operations.now) }
{
    for op in operations {
        put_family(alloc, op, out)?;
    }
    Ok(())
}

/// The families of a job.
fn families_output(alloc: Global, job: &Job) -> Result<Output, AllocError>
    ensures { IfOk result (λ output. DueFamilies job.now output.status output.text.items) }
{
    let mut text = Vec::new(alloc);
    put_families(alloc, job.operations.as_slice(), &mut text)?;
    Ok(Output { status: 0, text })
}

/// The families of the job that the bytes spell.
pub fn derive_output(alloc: Global, bytes: &[u8]) -> Result<Output, AllocError>
    requires { length bytes.now ≤ 67108864 }
    ensures { IfOk result (λ output.
        DueShort DueFamilies bytes.now output.status output.text.items) }
{
    match read_job(alloc, bytes, Stop::Nothing) {
        Ok((job, _)) => Ok(families_output(alloc, &job)?),
        Err(JobFault::Memory) => Err(AllocError),
        Err(fault) => Ok(fault_output(alloc, fault)?),
    }
}

/// Prints the family of loop invariants of each operation of the job: reads the source to its end, derives, and writes
/// one line for each variant. It answers the status, whose causes are those of `run_one_cmd`, but that no block size refuses a
/// job and 4 never comes.
pub fn derive_cmd<S: Source, K: Sink>(
    alloc: Global,
    command: &Command,
    source: &mut S,
    sink: &mut K,
) -> u8
    requires { AsksFamilies command.now }
    ensures answers { Answers (DueCommand command.now)
        (state_of S.left S.faults source.old) (state_of S.left S.faults source.new)
        (state_of K.held K.faults sink.old) (state_of K.held K.faults sink.new) result }
    ensures ended { IsDueStatus result → result ≢ 3 → IsAtEnd (S.left source.new) }
    ensures untouched { (result ≡ 1) ⊎ (result ≡ 5) → sink.new ≡ sink.old }
{
    answer_command(alloc, command, source, sink, |plan| go_alone(alloc, plan))
}
