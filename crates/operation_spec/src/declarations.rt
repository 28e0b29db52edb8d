//! The lines of an operation block that declare its dimensions and its operands.

ghost use Rattle.std.specs.Prelude.{◌≡◌, ◌≤◌, [], length, IfOk};
ghost use Rattle.byte_texts.specs.Reading.{Gives};
ghost use Rattle.operation_spec.specs.BlocksSeen.{declared_seen, knowns_seen};
ghost use Rattle.operation_spec.specs.OperationFaults.{declared_at, knowns_at, spec_fault};

use crate::block_lines::read_dims;
use crate::fault::SpecFault;
use crate::operand_lines::{read_known, read_work};
use crate::operation::{Operand, OperandList};
use std::alloc::Global;
use text_scan::{Lines, Name, NameList, TextLine};

/// The known operands of a block, and the line behind those that declare them.
#[derive(Drop)]
pub struct KnownOperands<'a> {
    pub operands: OperandList,
    pub next: TextLine<'a>,
}

/// What the lines of a block declare.
#[derive(Drop)]
pub struct Declarations<'a> {
    pub dims: NameList,
    pub work: Operand,
    pub knowns: KnownOperands<'a>,
}

/// Reads the lines of known operands, up to one that doesn't begin with `known`.
pub fn read_knowns<'a>(
    alloc: Global,
    lines: &mut Lines<'a>,
    dims: &[Name],
    work: &Operand,
) -> Result<KnownOperands<'a>, SpecFault>
    requires few { length dims.now ≤ 6 }
    ensures knowns { Gives spec_fault (knowns_seen lines.new.lines) result
        (knowns_at lines.old.end dims.now work.now [] lines.old.lines) }
    ensures few { IfOk result (λ knowns. length knowns.operands ≤ 6) }
    ensures end { lines.new.end ≡ lines.old.end }
{
    let mut operands = OperandList::new(alloc);
    let mut line = lines.inner()?;
    while line.begins_with(b"known") {
        let known = read_known(alloc, dims, work, operands.as_slice(), &line)?;
        operands.push(known)?;
        line = lines.inner()?;
    }
    Ok(KnownOperands {
        operands,
        next: line,
    })
}

/// Reads the lines of dimensions and operands, and the line behind them.
#[tactic(auto, unfolding(crate::specs::OperationFaults::declared_at))]
pub fn read_declarations<'a>(
    alloc: Global,
    lines: &mut Lines<'a>,
) -> Result<Declarations<'a>, SpecFault>
    ensures declared { Gives spec_fault (declared_seen lines.new.lines) result
        (declared_at lines.old.end lines.old.lines) }
    ensures dims { IfOk result (λ d. length d.dims ≤ 6) }
    ensures knowns { IfOk result (λ d. length d.knowns.operands ≤ 6) }
    ensures end { lines.new.end ≡ lines.old.end }
{
    let second = lines.inner()?;
    let dims = read_dims(alloc, &second)?;
    let third = lines.inner()?;
    let work = read_work(alloc, dims.as_slice(), &third)?;
    let knowns = read_knowns(alloc, lines, dims.as_slice(), &work)?;
    Ok(Declarations { dims, work, knowns })
}
