//! The limit on the parts of a dimension.

ghost use Rattle.std.specs.Prelude.{◌≡◌, ◌≤◌, ◌<◌, ◌^◌, ℕ, length, slice_index};
ghost use Rattle.std.specs.Prelude.{EachIndex, IfNone, IfOk, IfSome};
ghost use Rattle.issue_list.specs.CanonicalSteps.{HasFewParts, IsFirstLong, most_parts};

use crate::variants::statement_count;
use job_blocks::JobBlocks;
use std::alloc::{AllocError, Global};

const MOST_PARTS: u32 = 32;

/// A dimension of a statement: statements are numbered from 1, and dimensions from 0 as their operation declares them.
#[derive(Clone, Copy, Debug, PartialEq, Eq)]
pub(crate) struct StatementDim {
    pub statement: u32,
    pub dim: u32,
}

/// The first dimension that is cut into too many parts, of the first statement that has one.
pub(crate) fn first_long(
    alloc: Global,
    blocks: &JobBlocks,
) -> Result<Option<StatementDim>, AllocError>
    ensures long { IfOk result (λ found. IfSome found (λ long.
        IsFirstLong blocks.now.job blocks.now.b long.statement long.dim)) }
    ensures few { IfOk result (λ found. IfNone found
        (HasFewParts blocks.now.job blocks.now.b)) }
{
    for before in 0..statement_count(blocks) {
        let counts = blocks.counts(alloc, before + 1)?;
        if let Some(dim) = first_long_of(counts.as_slice()) {
            return Ok(Some(StatementDim {
                statement: before + 1,
                dim,
            }));
        }
    }
    Ok(None)
}

/// The first dimension that has too many parts, of dimensions that have so many parts.
fn first_long_of(counts: &[u32]) -> Option<u32>
    requires { length counts.now < 2 ^ 32 }
    ensures within { IfSome result (λ d. d < length counts.now) }
    ensures long { IfSome result (λ d. most_parts < slice_index counts.now d) }
    ensures first { IfSome result (λ d. (e : ℕ) → e < d → slice_index counts.now e ≤ most_parts) }
    ensures none { IfNone result
        (EachIndex counts.now (λ e. slice_index counts.now e ≤ most_parts)) }
{
    for (d, parts) in counts.iter().enumerate() {
        if *parts > MOST_PARTS {
            return Some(d as u32);
        }
    }
    None
}
