//! What the steps of a job come to, as an output.

ghost use Rattle.std.specs.Prelude.{IfOk};
ghost use Rattle.equation.specs.Meanings.{MeansBadPivot};
ghost use Rattle.flame_top.specs.Meaning.{DueBadPivot};

use crate::output::Output;
use crate::refusals::put_bad_pivot;
use equation::{Job, Place};
use std::alloc::{AllocError, Global};

/// Names the first bad pivot of a job.
pub fn bad_pivot_output(
    alloc: Global,
    job: &Job,
    statement: u32,
    place: Place,
) -> Result<Output, AllocError>
    requires { MeansBadPivot job.now statement place }
    ensures { IfOk result (λ output. DueBadPivot job.now output.status output.text.items) }
{
    let mut text = Vec::new(alloc);
    put_bad_pivot(statement, place, &mut text)?;
    Ok(Output { status: 4, text })
}
