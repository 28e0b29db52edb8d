//! `verify`: whether the matrices behind a job are the statements' work matrices after them.

ghost use Rattle.std.specs.Prelude.{◌≡◌, ◌≢◌, ◌⊎◌, ◌+◌, ◌<◌, ◌≤◌, ◌++◌, ℕ, List, Ok, length};
ghost use Rattle.std.specs.Prelude.{slice_set, codes, decimal, IfOk, MatchOption, OnOk};
ghost use Rattle.std.specs.Io.KnownBytes.{IsAtEnd};
ghost use Rattle.text_scan.specs.declared.token.Token.{Token};
ghost use Rattle.text_scan.specs.Tokens.{tokens_of};
ghost use Rattle.equation.specs.Jobs.{IsJob};
ghost use Rattle.job_text.specs.AfterBlocks.{AreAfter, IsPlace};
ghost use Rattle.flame_top.specs.Answers.{Answers, IsDueStatus, state_of};
ghost use Rattle.flame_top.specs.Due.{DueCommand};
ghost use Rattle.flame_top.specs.Verify.{Differs, DueAnswer, DueBehind, DueVerify, Verifies};
ghost use Rattle.command_words.specs.Words.{AsksVerify};

use crate::answering::answer_command;
use crate::output::{Output, fault_output};
use crate::workers::go_alone;
use byte_texts::put_decimal;
use command_words::Command;
use equation::{Job, Place, residual};
use job_text::{JobFault, Stop, read_after, read_job};
use matrix_core::{Matrix, MatrixList};
use outside_io::{Sink, Source};
use std::alloc::{AllocError, Global};
use text_scan::Rest;

/// A statement by its number, from 1, and the first place at which its matrix isn't as it has to be.
#[derive(Clone, Copy, Debug, PartialEq, Eq)]
struct Difference {
    number: u32,
    place: Place,
}

/// Copies of the matrices.
fn copies(alloc: Global, matrices: &[Matrix]) -> Result<MatrixList, AllocError>
    ensures { IfOk result (λ all. all ≡ matrices.now) }
{
    let mut all: Vec<Matrix> = Vec::new(alloc);
    for matrix in matrices {
        all.push(matrix.copy(alloc)?)?;
    }
    Ok(MatrixList::from_vec(all))
}

/// The matrices with another one in the place of the one with a number, from 0.
fn replaced(matrices: MatrixList, number: usize, matrix: Matrix) -> MatrixList
    requires { number < length matrices }
    ensures { result ≡ slice_set matrices number matrix }
{
    let mut all = matrices.into_vec();
    all[number] = matrix;
    MatrixList::from_vec(all)
}

/// The first statement whose matrix isn't its work matrix after it, and there the first such entry row by row. The
/// matrices of the statements before it stand in place of the job's.
fn first_difference(
    alloc: Global,
    job: &Job,
    after: &[Matrix],
) -> Result<Option<Difference>, AllocError>
    requires job { IsJob job.now }
    requires after { AreAfter job.now job.now.statements after.now }
    ensures { IfOk result (λ first. MatchOption first
        ((k : ℕ) → k < length job.now.statements → Verifies job.now after.now k)
        (λ d. (at : ℕ) × (d.number ≡ at + 1) × Differs job.now after.now at d.place
        × ((k : ℕ) → k < at → Verifies job.now after.now k))) }
{
    let mut matrices = copies(alloc, job.matrices.as_slice())?;
    for (at, s) in job.statements.as_slice().iter().enumerate() {
        let op = &job.operations.as_slice()[s.operation as usize];
        if let Some(place) = residual(op, job.modulus, &matrices, &s.bind, &after[at]) {
            let number = at as u32 + 1;
            return Ok(Some(Difference { number, place }));
        }
        let next = after[at].copy(alloc)?;
        matrices = replaced(matrices, s.bind.work as usize, next);
    }
    Ok(None)
}

fn put_verified(count: usize, out: &mut Vec<u8>) -> Result<(), AllocError>
    ensures { OnOk result (out.new.items ≡
        out.old.items ++ codes "verified " ++ decimal count ++ codes "\n") }
{
    out.extend_from_slice(b"verified ")?;
    put_decimal(count as u64, out)?;
    out.push(b'\n')?;
    Ok(())
}

fn put_difference(d: Difference, out: &mut Vec<u8>) -> Result<(), AllocError>
    ensures { OnOk result (out.new.items ≡
        out.old.items ++ codes "differs statement " ++ decimal d.number
        ++ codes " row " ++ decimal d.place.row
        ++ codes " column " ++ decimal d.place.col ++ codes "\n") }
{
    out.extend_from_slice(b"differs statement ")?;
    put_decimal(u64::from(d.number), out)?;
    out.extend_from_slice(b" row ")?;
    put_decimal(u64::from(d.place.row), out)?;
    out.extend_from_slice(b" column ")?;
    put_decimal(u64::from(d.place.col), out)?;
    out.push(b'\n')?;
    Ok(())
}

/// The answer for a job and the matrices behind it.
fn answer_output(alloc: Global, job: &Job, after: &[Matrix]) -> Result<Output, AllocError>
    requires job { IsJob job.now }
    requires after { AreAfter job.now job.now.statements after.now }
    ensures { IfOk result (λ output. DueAnswer job.now after.now output.status output.text.items) }
{
    let mut text = Vec::new(alloc);
    match first_difference(alloc, job, after)? {
        Some(d) => {
            put_difference(d, &mut text)?;
            Ok(Output { status: 8, text })
        }
        None => {
            put_verified(job.statements.len(), &mut text)?;
            Ok(Output { status: 0, text })
        }
    }
}

/// The output that is due for what stands behind a job.
fn behind_output(alloc: Global, bytes: &[u8], rest: Rest, job: &Job) -> Result<Output, AllocError>
    requires short { length bytes.now ≤ 67108865 }
    requires place { IsPlace bytes.now rest }
    requires scanned { (tokens : List Token) × (tokens_of 1 bytes.now ≡ Ok tokens) }
    requires job { IsJob job.now }
    ensures { IfOk result (λ output.
        DueBehind bytes.now rest job.now output.status output.text.items) }
{
    match read_after(alloc, bytes, rest, job) {
        Ok(after) => Ok(answer_output(alloc, job, after.as_slice())?),
        Err(JobFault::Memory) => Err(AllocError),
        Err(fault) => Ok(fault_output(alloc, fault)?),
    }
}

/// The output that is due for an input.
pub fn verify_output(alloc: Global, bytes: &[u8]) -> Result<Output, AllocError>
    requires { length bytes.now ≤ 67108864 }
    ensures { IfOk result (λ output. DueVerify bytes.now output.status output.text.items) }
{
    match read_job(alloc, bytes, Stop::After) {
        Ok((job, rest)) => Ok(behind_output(alloc, bytes, rest, &job)?),
        Err(JobFault::Memory) => Err(AllocError),
        Err(fault) => Ok(fault_output(alloc, fault)?),
    }
}

/// Checks the matrices behind a job: reads the source to its end, holds each statement's equation against them, and writes
/// whether they are the statements' work matrices after them. No pivot is tested. It answers the status.
///
/// - 0 comes with `verified COUNT`, where all statements' equations hold.
/// - 8 comes with `differs statement S row R column C`: the first statement whose equation fails, and the first entry, row
///   by row, at which it does, or which had to stay and didn't.
/// - 3 comes with `refused TooLong` where the input has more than 67,108,864 bytes, and with `refused KIND line L` where it
///   is no text of a job with such matrices behind it.
/// - 1 comes only where the source failed, and 5 where memory ran out; nothing is written.
/// - 6 comes only where the sink failed, behind a front of the text that is due.
pub fn verify_cmd<S: Source, K: Sink>(
    alloc: Global,
    command: &Command,
    source: &mut S,
    sink: &mut K,
) -> u8
    requires { AsksVerify command.now }
    ensures answers { Answers (DueCommand command.now)
        (state_of S.left S.faults source.old) (state_of S.left S.faults source.new)
        (state_of K.held K.faults sink.old) (state_of K.held K.faults sink.new) result }
    ensures ended { IsDueStatus result → result ≢ 3 → IsAtEnd (S.left source.new) }
    ensures untouched { (result ≡ 1) ⊎ (result ≡ 5) → sink.new ≡ sink.old }
{
    answer_command(alloc, command, source, sink, |plan| go_alone(alloc, plan))
}
