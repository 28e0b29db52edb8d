//! A whole output, and that of an input that is refused.

ghost use Rattle.std.specs.Prelude.{◌≡◌, IfOk, MatchOption};
ghost use Rattle.job_text.specs.JobFaults.{job_fault};
ghost use Rattle.worksheet_text.specs.SheetFaults.{ws_fault};
ghost use Rattle.flame_top.specs.DueTexts.{Says};
ghost use Rattle.flame_top.specs.Refusals.{no_operation_text, refusal_text, sheet_refusal_text};

use crate::refusals::{put_refusal, put_sheet_refusal};
use job_text::JobFault;
use std::alloc::{AllocError, Global};
use worksheet_text::WsFault;

/// A status and the whole text that goes with it.
#[derive(Debug, Drop)]
pub struct Output {
    pub status: u8,
    pub text: Vec<u8>,
}

/// The refusal of a text with this fault.
pub fn fault_output(alloc: Global, fault: JobFault) -> Result<Output, AllocError>
    ensures { IfOk result (λ output. MatchOption (job_fault fault) (Unit {0})
        (λ told. (output.status ≡ 3) × (output.text.items ≡ refusal_text told))) }
{
    let mut text = Vec::new(alloc);
    put_refusal(fault, &mut text)?;
    Ok(Output { status: 3, text })
}

/// The refusal of a worksheet's text with this fault.
pub fn sheet_fault_output(alloc: Global, fault: WsFault) -> Result<Output, AllocError>
    ensures { IfOk result (λ output. MatchOption (ws_fault fault) (Unit {0})
        (λ told. Says 3 (sheet_refusal_text told) output.status output.text.items)) }
{
    let mut text = Vec::new(alloc);
    put_sheet_refusal(fault, &mut text)?;
    Ok(Output { status: 3, text })
}

/// The refusal of a job without the operation that is asked for.
pub fn no_operation_output(alloc: Global) -> Result<Output, AllocError>
    ensures { IfOk result (λ output. Says 3 no_operation_text output.status output.text.items) }
{
    Ok(Output {
        status: 3,
        text: Vec::from_slice(alloc, b"refused NoOperation\n")?,
    })
}
