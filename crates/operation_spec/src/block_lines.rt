//! The lines of an operation block that say its name, its dimensions and its end.

ghost use Rattle.std.specs.Prelude.{◌≡◌, ◌≤◌, length, IfOk};
ghost use Rattle.byte_texts.specs.Reading.{Gives};
ghost use Rattle.operation_spec.specs.OperationFaults.{dims_at, end_at, is_dims_line, is_name_line, name_at, spec_fault};

use crate::fault::SpecFault;
use std::alloc::Global;
use text_scan::{Name, NameList, TextLine, has_twice, is_name};

/// How many dimensions an operation may have.
const DIM_LIMIT: usize = 6;

/// Whether the line is `operation NAME`.
#[tactic(auto, using(crate::proofs::LineForms::name_line_is))]
pub fn is_name_line(line: &TextLine<'_>) -> bool
    ensures { result ≡ is_name_line line.now.words }
{
    line.len() == 2 && line.is_text(0, b"operation") && is_name(line.word(1))
}

/// Reads the line `operation NAME`.
#[tactic(auto, unfolding(crate::specs::OperationFaults::name_at))]
pub fn read_name(alloc: Global, line: &TextLine<'_>) -> Result<Name, SpecFault>
    ensures { Gives spec_fault (λ name. name) result (name_at line.now) }
{
    let number = line.number();
    if !is_name_line(line) {
        return Err(SpecFault::Syntax { line: number });
    }
    Ok(line.name(alloc, 1)?)
}

/// Reads the line `end`.
#[tactic(auto, unfolding(crate::specs::OperationFaults::end_at))]
pub fn read_end(line: &TextLine<'_>) -> Result<(), SpecFault>
    ensures { Gives spec_fault (λ _. tt) result (end_at line.now) }
{
    let number = line.number();
    if !line.is_end() {
        return Err(SpecFault::Syntax { line: number });
    }
    Ok(())
}

/// Whether the line is `dims NAME ..`.
#[tactic(auto, using(crate::proofs::LineForms::dims_line_is))]
fn is_dims_line(line: &TextLine<'_>) -> bool
    ensures { result ≡ is_dims_line line.now.words }
{
    line.len() > 1 && line.is_text(0, b"dims") && line.behind(1).are_names()
}

/// Reads the line `dims NAME ..`.
#[tactic(auto, unfolding(crate::specs::OperationFaults::dims_at))]
pub fn read_dims(alloc: Global, line: &TextLine<'_>) -> Result<NameList, SpecFault>
    ensures dims { Gives spec_fault (λ dims. dims) result (dims_at line.now) }
    ensures few { IfOk result (λ dims. length dims ≤ 6) }
{
    let number = line.number();
    if !is_dims_line(line) {
        return Err(SpecFault::Syntax { line: number });
    }
    let names = line.behind(1);
    if names.len() > DIM_LIMIT {
        return Err(SpecFault::Limit { line: number });
    }
    let dims = names.names(alloc)?;
    if has_twice(dims.as_slice()) {
        return Err(SpecFault::NameTwice { line: number });
    }
    Ok(dims)
}
