//! The variants that the statements of a job are run by.

ghost use Rattle.std.specs.Prelude.{◌≡◌, length, IfOk};
ghost use Rattle.job_blocks.specs.BlockedJobs.{IsBlockedJob};
ghost use Rattle.issue_list.specs.Choices.{numbers_of};
ghost use Rattle.issue_list.specs.ChosenVariants.{AreFirstVariants};

use crate::choice::Choice;
use invariant_family::{Variant, variant_at};
use job_blocks::JobBlocks;
use std::alloc::{AllocError, Global};

/// How many statements the job has.
pub(crate) fn statement_count(blocks: &JobBlocks) -> u32
    ensures count { result ≡ length blocks.now.job.statements }
    ensures valid { IsBlockedJob blocks.now }
{
    blocks.job().statements.len() as u32
}

/// The variants of the statements with their numbers, up to the first statement that has none.
pub(crate) fn first_variants(
    alloc: Global,
    blocks: &JobBlocks,
    choice: &Choice,
) -> Result<Vec<Variant>, AllocError>
    ensures { IfOk result (λ variants. AreFirstVariants blocks.now.job
        (numbers_of blocks.now.job choice.now) variants.items) }
{
    let due = statement_count(blocks);
    let mut variants = Vec::new(alloc);
    for before in 0..due {
        let number = choice.number(due, before);
        let Some(variant) = variant_at(alloc, blocks.operation(before + 1), number)? else {
            return Ok(variants);
        };
        variants.push(variant)?;
    }
    Ok(variants)
}
