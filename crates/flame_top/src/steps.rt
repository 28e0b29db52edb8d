//! The steps of a job by chosen variants, or the refusal of the job.

ghost use Rattle.std.specs.Prelude.{◌≡◌, ◌≤◌, length, IfOk};
ghost use Rattle.equation.specs.Jobs.{IsJob, IsStatement};
ghost use Rattle.step_replays.specs.Accesses.{operation_of, statement_of};
ghost use Rattle.issue_list.specs.CanonicalSteps.{HasDimension};
ghost use Rattle.flame_top.specs.DueTexts.{Says};
ghost use Rattle.flame_top.specs.Listings.{IsListing};
ghost use Rattle.flame_top.specs.Refusals.{no_variant_text, too_many_parts_text};
ghost use Rattle.flame_top.specs.Refusals.{too_many_steps_text, variant_count_text};
ghost use Rattle.flame_top.specs.Steps.{dimension_name};

use crate::output::Output;
use crate::refusals::{put_no_variant, put_too_many_parts, put_variant_count};
use equation::{Job, Statement};
use issue_list::{Choice, IssueFault, issue};
use operation_spec::Operation;
use std::alloc::{AllocError, Global};
use step_replays::StepList;

/// The steps of a job, or what is printed where it is refused.
#[derive(Drop)]
pub enum Listing {
    Steps(StepList),
    Refused(Output),
}

/// The operation of a statement of the job.
fn operation_at<'a>(job: &'a Job, statement: &Statement) -> &'a Operation
    requires { IsStatement job.now statement.now }
    ensures { result.now ≡ operation_of job.now statement.now }
{
    &job.operations.as_slice()[statement.operation as usize]
}

/// The operation of the statement with a number.
fn numbered_operation(job: &Job, number: u32) -> &Operation
    requires job { IsJob job.now }
    requires from { 1 ≤ number }
    requires within { number ≤ length job.now.statements }
    ensures { result.now ≡ operation_of job.now (statement_of job.now number) }
{
    operation_at(job, &job.statements.as_slice()[number as usize - 1])
}

fn variant_count_output(alloc: Global, given: u64, due: u32) -> Result<Output, AllocError>
    ensures { IfOk result
        (λ output. Says 3 (variant_count_text given due) output.status output.text.items) }
{
    let mut text = Vec::new(alloc);
    put_variant_count(given, due, &mut text)?;
    Ok(Output { status: 3, text })
}

fn no_variant_output(alloc: Global, statement: u32) -> Result<Output, AllocError>
    ensures { IfOk result
        (λ output. Says 3 (no_variant_text statement) output.status output.text.items) }
{
    let mut text = Vec::new(alloc);
    put_no_variant(statement, &mut text)?;
    Ok(Output { status: 3, text })
}

/// Names a dimension of a statement as one that is cut into too many parts.
fn too_many_parts_output(
    alloc: Global,
    job: &Job,
    statement: u32,
    dim: u32,
) -> Result<Output, AllocError>
    requires job { IsJob job.now }
    requires has { HasDimension job.now statement dim }
    ensures { IfOk result (λ output. Says 3
        (too_many_parts_text statement (dimension_name job.now statement dim))
        output.status output.text.items) }
{
    let op = numbered_operation(job, statement);
    let name = op.dims.as_slice()[dim as usize].as_slice();
    let mut text = Vec::new(alloc);
    put_too_many_parts(statement, name, &mut text)?;
    Ok(Output { status: 3, text })
}

fn too_many_steps_output(alloc: Global) -> Result<Output, AllocError>
    ensures { IfOk result (λ output. Says 3 too_many_steps_text output.status output.text.items) }
{
    Ok(Output {
        status: 3,
        text: Vec::from_slice(alloc, b"refused TooManySteps\n")?,
    })
}

/// Lists the steps of a job by chosen variants under block size b, or refuses the job.
pub fn list_steps(alloc: Global, job: &Job, b: u32, choice: &Choice) -> Result<Listing, AllocError>
    requires job { IsJob job.now }
    requires size { 1 ≤ b }
    ensures { IfOk result (IsListing b choice.now job.now) }
{
    match issue(alloc, job, b, choice) {
        Ok(steps) => Ok(Listing::Steps(steps)),
        Err(IssueFault::VariantCount { given, due }) => {
            Ok(Listing::Refused(variant_count_output(alloc, given, due)?))
        }
        Err(IssueFault::NoVariant { statement }) => {
            Ok(Listing::Refused(no_variant_output(alloc, statement)?))
        }
        Err(IssueFault::TooManyParts { statement, dim }) => {
            let output = too_many_parts_output(alloc, job, statement, dim)?;
            Ok(Listing::Refused(output))
        }
        Err(IssueFault::TooManySteps) => Ok(Listing::Refused(too_many_steps_output(alloc)?)),
        Err(IssueFault::Memory) => Err(AllocError),
    }
}
