//! The list of steps of a job by chosen variants.

ghost use Rattle.std.specs.Prelude.{◌≡◌, ◌≤◌, ◌<◌, ℕ, length, IfOk, IsErrOf, OnOk};
ghost use Rattle.equation.specs.Jobs.{IsJob};
ghost use Rattle.step_replays.specs.Fits.{FitsJob};
ghost use Rattle.job_blocks.specs.BlockedJobs.{IsBlockedJob};
ghost use Rattle.issue_list.specs.CanonicalSteps.{HasFewParts, IsFirstLong, most_steps};
ghost use Rattle.issue_list.specs.IssuedSteps.{HaveVariants, issued_steps};
ghost use Rattle.issue_list.specs.Choices.{HasDueCount, IsFirstWithout, numbers_of};
ghost use Rattle.issue_list.specs.ChosenVariants.{AreVariants, chosen_steps};

use crate::choice::Choice;
use crate::fault::IssueFault;
use crate::parts::first_long;
use crate::statement_steps::add_statement;
use crate::variants::{first_variants, statement_count};
use equation::Job;
use invariant_family::Variant;
use job_blocks::JobBlocks;
use std::alloc::Global;
use step_replays::StepList;
use task_graph::TaskFault;

/// The steps of a job under block size b by chosen variants: for each statement the test of its pivots, where it has one, and
/// then its block tasks in the order of its variant's loop.
///
/// Its errors, of which the first that is due comes: `VariantCount` where not as many numbers are given as there are statements;
/// `NoVariant` with the first statement whose operation has no variant with its number, and where its family is empty none has;
/// `TooManyParts` with the first statement, and its first declared dimension, that is cut into more than 32 parts;
/// `TooManySteps` where there are more than 262,144 steps. `Memory` comes for want of memory.
pub fn issue(alloc: Global, job: &Job, b: u32, choice: &Choice) -> Result<StepList, IssueFault>
    requires job { IsJob job.now }
    requires size { 1 ≤ b }
    ensures steps { IfOk result (λ steps.
        steps ≡ issued_steps job.now b (numbers_of job.now choice.now)) }
    ensures variants { OnOk result (HasDueCount job.now choice.now
        × HaveVariants job.now (numbers_of job.now choice.now)) }
    ensures few { IfOk result (λ steps. HasFewParts job.now b × length steps ≤ most_steps) }
    ensures fit { IfOk result (λ steps. FitsJob job.now b steps) }
    ensures count { (given due : ℕ) → IsErrOf result (IssueFault.VariantCount given due)
        → ¬ (HasDueCount job.now choice.now)
        × (given ≡ length (numbers_of job.now choice.now)) × (due ≡ length job.now.statements) }
    ensures none { (s : ℕ) → IsErrOf result (IssueFault.NoVariant s)
        → HasDueCount job.now choice.now
        × IsFirstWithout job.now (numbers_of job.now choice.now) s }
    ensures parts { (s d : ℕ) → IsErrOf result (IssueFault.TooManyParts s d)
        → HasDueCount job.now choice.now
        × HaveVariants job.now (numbers_of job.now choice.now) × IsFirstLong job.now b s d }
    ensures many { IsErrOf result IssueFault.TooManySteps
        → HasDueCount job.now choice.now
        × HaveVariants job.now (numbers_of job.now choice.now) × HasFewParts job.now b
        × most_steps < length (issued_steps job.now b (numbers_of job.now choice.now)) }
{
    let blocks = JobBlocks::new(alloc, job, b)?;
    let due = statement_count(&blocks);
    let given = choice.count(due);
    if given != due as u64 {
        return Err(IssueFault::VariantCount { given, due });
    }
    let variants = first_variants(alloc, &blocks, choice)?;
    if variants.len() < due as usize {
        return Err(IssueFault::NoVariant {
            statement: variants.len() as u32 + 1,
        });
    }
    match first_long(alloc, &blocks)? {
        Some(long) => Err(IssueFault::TooManyParts {
            statement: long.statement,
            dim: long.dim,
        }),
        None => Ok(list_steps(alloc, &blocks, variants.as_slice())?),
    }
}

/// The steps of all statements by their variants.
fn list_steps(
    alloc: Global,
    blocks: &JobBlocks,
    variants: &[Variant],
) -> Result<StepList, TaskFault>
    requires { AreVariants blocks.now.job variants.now }
    ensures steps { IfOk result (λ steps.
        steps ≡ chosen_steps blocks.now.job blocks.now.b variants.now) }
    ensures few { IfOk result (λ steps. length steps ≤ most_steps) }
    ensures many { IsErrOf result TaskFault.TooMany
        → most_steps < length (chosen_steps blocks.now.job blocks.now.b variants.now) }
{
    let mut steps = StepList::new(alloc);
    for before in 0..statement_count(blocks) {
        add_statement(
            alloc,
            blocks,
            before + 1,
            &variants[before as usize],
            &mut steps,
        )?;
    }
    Ok(steps)
}
