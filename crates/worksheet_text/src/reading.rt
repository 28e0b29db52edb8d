//! Reading a worksheet, line by line.

ghost use Rattle.std.specs.Prelude.{◌≡◌, ◌≤◌, List, Ok, IfOk, length};
ghost use Rattle.byte_texts.specs.Reading.{Gives};
ghost use Rattle.text_scan.specs.declared.token.Token.{Token};
ghost use Rattle.text_scan.specs.Tokens.{tokens_of};
ghost use Rattle.job_text.specs.AfterBlocks.{IsPlace};
ghost use Rattle.worksheet_text.specs.SheetFaults.{ws_fault};
ghost use Rattle.worksheet_text.specs.SheetReading.{end_at, is_sheet_line, last_at, no_line_at, operation_at, sheet_at, sheet_of, worksheet_in};

use crate::fault::WsFault;
use crate::loop_lines::{LoopLines, next_line, read_loop};
use crate::names::named;
use crate::round_lines::{RoundLines, read_round};
use equation::OperationList;
use operation_spec::Operation;
use std::alloc::{AllocError, Global};
use text_scan::{Lines, Rest, TextLine, is_name, scan};
use worksheet::{Worksheet, copied};

/// Whether the line is `worksheet OP`.
fn is_sheet_line(line: &TextLine<'_>) -> bool
    ensures { result ≡ is_sheet_line line.now.words }
{
    line.begins_with(b"worksheet") && line.len() == 2 && is_name(line.word(1))
}

/// Reads the line `worksheet OP`: the operation with this name.
#[tactic(auto, unfolding(crate::specs::SheetReading::operation_at))]
fn read_operation<'a>(
    operations: &'a [Operation],
    line: &TextLine<'_>,
) -> Result<&'a Operation, WsFault>
    ensures { Gives ws_fault (λ op. op.now) result (operation_at operations.now line.now) }
{
    let number = line.number();
    if !is_sheet_line(line) {
        return Err(WsFault::Syntax { line: number });
    }
    match named(operations, line.word(1)) {
        Some(op) => Ok(op),
        None => Err(WsFault::NameUnknown { line: number }),
    }
}

/// Tests that no line is left.
#[tactic(auto, unfolding(crate::specs::SheetReading::no_line_at))]
fn no_line(lines: &mut Lines<'_>) -> Result<(), WsFault>
    ensures { Gives ws_fault (λ _. tt) result (no_line_at lines.old.lines) }
{
    match lines.next() {
        Some(line) => Err(WsFault::Syntax {
            line: line.number(),
        }),
        None => Ok(()),
    }
}

/// Reads the line `end`.
#[tactic(auto, unfolding(crate::specs::SheetReading::end_at))]
fn read_end(line: &TextLine<'_>) -> Result<(), WsFault>
    ensures { Gives ws_fault (λ _. tt) result (end_at line.now) }
{
    let number = line.number();
    if line.is_end() {
        Ok(())
    } else {
        Err(WsFault::Syntax { line: number })
    }
}

/// Reads the line `end`, and tests that no line is left.
#[tactic(auto, unfolding(crate::specs::SheetReading::last_at))]
fn read_last(lines: &mut Lines<'_>) -> Result<(), WsFault>
    ensures { Gives ws_fault (λ _. tt) result (last_at lines.old.end lines.old.lines) }
{
    let line = lines.due()?;
    read_end(&line)?;
    no_line(lines)
}

/// The worksheet that its lines say.
fn sheet_of_lines(
    alloc: Global,
    op: &Operation,
    head: LoopLines,
    round: RoundLines,
) -> Result<Worksheet, AllocError>
    ensures { IfOk result (λ w. w ≡ record {
      operation = op.now.name;
      split = head.along.split;
      dirs = head.along.dirs;
      invariant = head.invariant;
      guard = head.guard;
      start = head.start;
      take = head.take;
      before = round.before;
      updates = round.updates;
      give = round.give;
      after = round.after;
    }) }
{
    Ok(Worksheet {
        operation: copied(alloc, op.name.as_slice())?,
        split: head.along.split,
        dirs: head.along.dirs,
        invariant: head.invariant,
        guard: head.guard,
        start: head.start,
        take: head.take,
        before: round.before,
        updates: round.updates,
        give: round.give,
        after: round.after,
    })
}

/// Reads all lines.
#[tactic(auto, unfolding(crate::specs::SheetReading::sheet_at))]
fn read_sheet(
    alloc: Global,
    lines: &mut Lines<'_>,
    operations: &[Operation],
) -> Result<Worksheet, WsFault>
    ensures { Gives ws_fault (λ w. w) result
        (sheet_at lines.old.end operations.now lines.old.lines) }
{
    let first = next_line(lines)?;
    let op = read_operation(operations, &first)?;
    let head = read_loop(alloc, op.dims.as_slice(), lines)?;
    let round = read_round(alloc, op.dims.as_slice(), lines)?;
    read_last(lines)?;
    Ok(sheet_of_lines(alloc, op, head, round)?)
}

/// The worksheet of bytes, the first of which is on a line.
fn read_text(
    alloc: Global,
    bytes: &[u8],
    first: u32,
    operations: &[Operation],
) -> Result<Worksheet, WsFault>
    requires short { length bytes.now ≤ 67108865 }
    requires low { first ≤ 67108865 }
    ensures { Gives ws_fault (λ w. w) result
        (sheet_of first bytes.now operations.now (tokens_of first bytes.now)) }
{
    match scan(alloc, bytes, first) {
        Ok(tokens) => {
            let mut lines = Lines::new(first, bytes, &tokens);
            read_sheet(alloc, &mut lines, operations)
        }
        // Bytes without a bad byte are refused for want of memory alone.
        Err(_) => Err(WsFault::Memory),
    }
}

/// Reads the worksheet that a text has behind a job, from `rest` on to the end of the bytes. `rest` is where `read_job`
/// says that the second part begins, and the operations are the job's.
///
/// The errors are want of memory, and else the first fault of that text by line, and in a line in the order of `WsFault`.
pub fn read_worksheet(
    alloc: Global,
    bytes: &[u8],
    rest: Rest,
    operations: &OperationList,
) -> Result<Worksheet, WsFault>
    requires short { length bytes.now ≤ 67108865 }
    requires place { IsPlace bytes.now rest }
    requires scanned { (tokens : List Token) × (tokens_of 1 bytes.now ≡ Ok tokens) }
    ensures { Gives ws_fault (λ w. w) result (worksheet_in bytes.now rest operations.now) }
{
    if rest.at as usize == bytes.len() {
        // Its line may be one more than the first line of a text that has bytes.
        Err(WsFault::Syntax { line: rest.line })
    } else {
        read_text(
            alloc,
            &bytes[rest.at as usize..],
            rest.line,
            operations.as_slice(),
        )
    }
}
