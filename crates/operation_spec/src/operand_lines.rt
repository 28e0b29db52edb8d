//! The lines that declare an operation's operands.

ghost use Rattle.std.specs.Prelude.{◌≡◌, ◌≤◌, ◌<◌, length, not, ◌||◌, nat_lt, IfOk};
ghost use Rattle.byte_texts.specs.Reading.{Gives};
ghost use Rattle.operation_spec.specs.Equations.{may_be_work};
ghost use Rattle.operation_spec.specs.OperationFaults.{is_misshapen, is_name_taken, is_operand_line, known_at, names_of, operand_of, spec_fault, structure_of, work_at};

use crate::fault::SpecFault;
use crate::names::operand_number;
use crate::operation::Operand;
use std::alloc::{AllocError, Global};
use structure_rules::Structure;
use text_scan::{Name, TextLine, is_name, number_of};

/// How many known operands an operation may have.
const KNOWN_LIMIT: usize = 6;

/// The structure with this word.
fn structure_of(word: &[u8]) -> Option<Structure>
    ensures { result ≡ structure_of word.now }
{
    if word == b"general".as_slice() {
        Some(Structure::General)
    } else if word == b"lower".as_slice() {
        Some(Structure::Lower)
    } else if word == b"unitlower".as_slice() {
        Some(Structure::UnitLower)
    } else if word == b"upper".as_slice() {
        Some(Structure::Upper)
    } else if word == b"unitupper".as_slice() {
        Some(Structure::UnitUpper)
    } else if word == b"diagonal".as_slice() {
        Some(Structure::Diagonal)
    } else if word == b"symmetric".as_slice() {
        Some(Structure::Symmetric)
    } else {
        None
    }
}

/// Whether the line has this word in front, and is of the form of an operand's line.
#[tactic(auto, using(crate::proofs::LineForms::operand_line_is))]
fn is_operand_line(word: &[u8], line: &TextLine<'_>) -> bool
    ensures { result ≡ is_operand_line word.now line.now.words }
{
    line.len() == 5
        && line.is_text(0, word)
        && is_name(line.word(1))
        && structure_of(line.word(2)).is_some()
        && is_name(line.word(3))
        && is_name(line.word(4))
}

/// The operand that the words behind the first say. A dimension that isn't declared is numbered by the count
/// of the dimensions.
fn operand_of(alloc: Global, dims: &[Name], line: &TextLine<'_>) -> Result<Operand, AllocError>
    requires { length dims.now ≤ 6 }
    ensures { IfOk result (λ o. o ≡ operand_of dims.now line.now.words) }
{
    Ok(Operand {
        name: line.name(alloc, 1)?,
        structure: structure_of(line.word(2)).unwrap_or(Structure::General),
        rows: number_of(dims, line.word(3)) as u32,
        cols: number_of(dims, line.word(4)) as u32,
    })
}

/// Whether a dimension of the operand isn't declared.
fn has_unknown_dim(dims: &[Name], o: &Operand) -> bool
    ensures { result ≡ (not (nat_lt o.now.rows (length dims.now))
        || not (nat_lt o.now.cols (length dims.now))) }
{
    o.rows as usize >= dims.len() || o.cols as usize >= dims.len()
}

/// Whether the operand isn't general and has two different dimensions.
fn is_misshapen(o: &Operand) -> bool
    ensures { result ≡ is_misshapen o.now }
{
    o.structure != Structure::General && o.rows != o.cols
}

/// Whether the work operand may have this structure.
fn may_be_work(structure: Structure) -> bool
    ensures { result ≡ may_be_work structure }
{
    matches!(
        structure,
        Structure::General | Structure::Lower | Structure::Upper
    )
}

/// Reads the line `work NAME STRUCTURE DIM DIM`.
#[tactic(auto, unfolding(crate::specs::OperationFaults::work_at))]
pub fn read_work(alloc: Global, dims: &[Name], line: &TextLine<'_>) -> Result<Operand, SpecFault>
    requires { length dims.now ≤ 6 }
    ensures { Gives spec_fault (λ o. o) result (work_at dims.now line.now) }
{
    let number = line.number();
    if !is_operand_line(b"work", line) {
        return Err(SpecFault::Syntax { line: number });
    }
    let work = operand_of(alloc, dims, line)?;
    if work.name.as_slice() == b"X".as_slice() {
        return Err(SpecFault::NameTwice { line: number });
    }
    if has_unknown_dim(dims, &work) {
        return Err(SpecFault::NameUnknown { line: number });
    }
    if is_misshapen(&work) {
        return Err(SpecFault::Shape { line: number });
    }
    if !may_be_work(work.structure) {
        return Err(SpecFault::Form { line: number });
    }
    Ok(work)
}

/// Whether the name is the solution's, or that of one of these operands.
fn is_name_taken(work: &Operand, knowns: &[Operand], name: &[u8]) -> bool
    ensures { result ≡ is_name_taken (names_of work.now knowns.now) name.now }
{
    name == b"X".as_slice() || operand_number(work, knowns, name) <= knowns.len()
}

/// Reads the line `known NAME STRUCTURE DIM DIM` behind those of other operands.
#[tactic(auto, unfolding(crate::specs::OperationFaults::known_at))]
pub fn read_known(
    alloc: Global,
    dims: &[Name],
    work: &Operand,
    knowns: &[Operand],
    line: &TextLine<'_>,
) -> Result<Operand, SpecFault>
    requires { length dims.now ≤ 6 }
    ensures room { IfOk result (λ _. length knowns.now < 6) }
    ensures known { Gives spec_fault (λ o. o) result
        (known_at dims.now work.now knowns.now line.now) }
{
    let number = line.number();
    if !is_operand_line(b"known", line) {
        return Err(SpecFault::Syntax { line: number });
    }
    if knowns.len() >= KNOWN_LIMIT {
        return Err(SpecFault::Limit { line: number });
    }
    let known = operand_of(alloc, dims, line)?;
    if is_name_taken(work, knowns, known.name.as_slice()) {
        return Err(SpecFault::NameTwice { line: number });
    }
    if has_unknown_dim(dims, &known) {
        return Err(SpecFault::NameUnknown { line: number });
    }
    if is_misshapen(&known) {
        return Err(SpecFault::Shape { line: number });
    }
    Ok(known)
}
