//! Reading operation blocks, line by line.

ghost use Rattle.std.specs.Prelude.{◌≡◌, ◌≤◌, length, drop, map, Ok, IfOk};
ghost use Rattle.byte_texts.specs.Reading.{Gives};
ghost use Rattle.text_scan.specs.Lines.{end_line_of, lines_of};
ghost use Rattle.text_scan.specs.Tokens.{tokens_of};
ghost use Rattle.operation_spec.specs.OperationFaults.{form_of, operation_at, spec_fault, term_of};
ghost use Rattle.operation_spec.specs.ValidOperations.{SpellsOperation};

use crate::block_lines::{read_end, read_name};
use crate::declarations::{Declarations, KnownOperands, read_declarations};
use crate::equation::Equation;
use crate::equation_checks::read_equation;
use crate::fault::SpecFault;
use crate::forms::{form_of, terms_of};
use crate::operation::Operation;
use std::alloc::{AllocError, Global};
use text_scan::{Lines, Name, Token};

/// The operation that the lines of a block say.
fn operation_of(
    alloc: Global,
    name: Name,
    declarations: Declarations<'_>,
    e: &Equation,
) -> Result<Operation, AllocError>
    ensures { IfOk result (λ op. op ≡ record {
      name = name;
      dims = declarations.entry.dims;
      work = declarations.entry.work;
      knowns = declarations.entry.knowns.operands;
      form = form_of e.now.left;
      terms = map term_of e.now.products;
    }) }
{
    let Declarations { dims, work, knowns } = declarations;
    let KnownOperands { operands, next: _ } = knowns;
    let terms = terms_of(alloc, e.products.as_slice())?;
    Ok(Operation {
        name,
        dims,
        work,
        knowns: operands,
        form: form_of(e.left),
        terms,
    })
}

/// Reads the lines of a block, which begins with the first line.
#[tactic(auto, unfolding(crate::specs::OperationFaults::operation_at))]
fn read_block(alloc: Global, lines: &mut Lines<'_>) -> Result<Operation, SpecFault>
    ensures read { Gives spec_fault (λ op. (op, lines.new.lines)) result
        (operation_at lines.old.end lines.old.lines) }
    ensures end { lines.new.end ≡ lines.old.end }
{
    let first = lines.inner()?;
    let name = read_name(alloc, &first)?;
    let declarations = read_declarations(alloc, lines)?;
    let e = read_equation(
        alloc,
        declarations.dims.as_slice(),
        &declarations.work,
        declarations.knowns.operands.as_slice(),
        &declarations.knowns.next,
    )?;
    let last = lines.due()?;
    read_end(&last)?;
    Ok(operation_of(alloc, name, declarations, &e)?)
}

/// Reads the operation block that the first of the lines begins, and takes its lines off. Its errors are want of memory,
/// and the first fault of the text by line, and in a line in the order of `SpecFault`.
pub fn next_operation(alloc: Global, lines: &mut Lines<'_>) -> Result<Operation, SpecFault>
    ensures read { Gives spec_fault (λ op. (op, lines.new.lines)) result
        (operation_at lines.old.end lines.old.lines) }
    ensures found { IfOk result (λ op. SpellsOperation lines.old.lines op lines.new.lines) }
    ensures end { lines.new.end ≡ lines.old.end }
{
    lines.are_lines();
    read_block(alloc, lines)
}

/// Reads one operation block from token `at` on: the operation, and the place of the token behind the block.
/// Its errors are want of memory, and the first fault of the text by line, and in a line in the order of
/// `SpecFault`.
pub fn read_operation(
    alloc: Global,
    bytes: &[u8],
    tokens: &Vec<Token>,
    at: usize,
) -> Result<(Operation, usize), SpecFault>
    requires short { length bytes.now ≤ 67108865 }
    requires scanned { tokens_of 1 bytes.now ≡ Ok tokens.now.items }
    requires place { at ≤ length tokens.now.items }
    ensures read { Gives spec_fault (λ x. (x.0, lines_of bytes.now (drop x.1 tokens.now.items)))
        result (operation_at (end_line_of 1 bytes.now)
        (lines_of bytes.now (drop at tokens.now.items))) }
    ensures found { IfOk result (λ x. SpellsOperation
        (lines_of bytes.now (drop at tokens.now.items)) x.0
        (lines_of bytes.now (drop x.1 tokens.now.items))) }
    ensures behind { IfOk result (λ x. x.1 ≤ length tokens.now.items) }
{
    let mut lines = Lines::new(1, bytes, &tokens[at..]);
    let operation = next_operation(alloc, &mut lines)?;
    Ok((operation, tokens.len() - lines.word_count()))
}
