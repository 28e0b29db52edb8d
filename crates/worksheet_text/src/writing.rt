//! Writing a worksheet, line by line.

ghost use Rattle.std.specs.Prelude.{◌≡◌, ◌++◌, OnErr, OnOk};
ghost use Rattle.std.specs.List.{flat_map};
ghost use Rattle.worksheet_text.specs.SheetTexts.{dims_text, done_text, end_text, ends_line, ends_text, guard_line, head_lines, held_text, invariant_line, loop_lines, round_lines, split_line, state_line, update_line, worksheet_text};

use crate::equation_text::put_equation;
use block_expr::{state_expr, write_expr};
use operation_spec::{Operation, Task};
use std::alloc::{AllocError, Global};
use task_texts::{name_of, put_number, put_split, put_task, put_tasks};
use worksheet::{End, State, Worksheet};

/// Appends the text of a worksheet of an operation, with its comments. Its one error is want of memory, and then nothing
/// is appended: the text is composed apart from `out` first.
pub fn write_worksheet(
    alloc: Global,
    op: &Operation,
    w: &Worksheet,
    out: &mut Vec<u8>,
) -> Result<(), AllocError>
    ensures ok { OnOk result (out.new.items ≡ out.old.items ++ worksheet_text op.now w.now) }
    ensures err { OnErr result (out.new.items ≡ out.old.items) }
{
    let mut text = Vec::new(alloc);
    put_head(op, w.operation.as_slice(), &mut text)?;
    put_loop(op, w, &mut text)?;
    put_round(alloc, op, w, &mut text)?;
    text.extend_from_slice(b"end\n")?;
    out.extend_from_slice(&text)
}

/// Appends the name of the operation, and in comments its postcondition and equation.
fn put_head(op: &Operation, name: &[u8], out: &mut Vec<u8>) -> Result<(), AllocError>
    ensures { OnOk result (out.new.items ≡ out.old.items ++ head_lines op.now name.now) }
{
    out.extend_from_slice(b"worksheet ")?;
    out.extend_from_slice(name)?;
    out.extend_from_slice(b"\n# 1a X = ")?;
    out.extend_from_slice(op.work.name.as_slice())?;
    out.extend_from_slice(b"\n# 1b")?;
    put_equation(op, out)?;
    out.push(b'\n')?;
    Ok(())
}

// ---- the lines up to the states

/// Appends the lines `split` to `take`.
fn put_loop(op: &Operation, w: &Worksheet, out: &mut Vec<u8>) -> Result<(), AllocError>
    ensures { OnOk result (out.new.items ≡ out.old.items ++ loop_lines op.now w.now) }
{
    put_split_line(op, w, out)?;
    put_invariant(w.invariant.as_slice(), out)?;
    put_guard(op, w.guard.as_slice(), out)?;
    put_ends_line(op, b"start", w.start.as_slice(), out)?;
    put_ends_line(op, b"take", w.take.as_slice(), out)
}

fn put_split_line(op: &Operation, w: &Worksheet, out: &mut Vec<u8>) -> Result<(), AllocError>
    ensures { OnOk result (out.new.items ≡ out.old.items ++ split_line op.now w.now) }
{
    out.extend_from_slice(b"split")?;
    put_split(op, w.split, w.dirs, out)?;
    out.push(b'\n')?;
    Ok(())
}

fn put_invariant(kept: &[Task], out: &mut Vec<u8>) -> Result<(), AllocError>
    ensures { OnOk result (out.new.items ≡ out.old.items ++ invariant_line kept.now) }
{
    out.extend_from_slice(b"invariant")?;
    put_tasks(kept, out)?;
    out.push(b'\n')?;
    Ok(())
}

fn put_guard(op: &Operation, dims: &[u32], out: &mut Vec<u8>) -> Result<(), AllocError>
    ensures { OnOk result (out.new.items ≡ out.old.items ++ guard_line op.now dims.now) }
{
    out.extend_from_slice(b"guard")?;
    put_dims(op, dims, out)?;
    out.push(b'\n')?;
    Ok(())
}

/// Appends each dimension behind a space.
fn put_dims(op: &Operation, dims: &[u32], out: &mut Vec<u8>) -> Result<(), AllocError>
    ensures { OnOk result (out.new.items ≡ out.old.items ++ dims_text op.now dims.now) }
{
    for d in dims {
        out.push(b' ')?;
        out.extend_from_slice(name_of(op, *d))?;
    }
    Ok(())
}

/// Appends a line of ends, which begins with a word.
fn put_ends_line(
    op: &Operation,
    word: &[u8],
    ends: &[End],
    out: &mut Vec<u8>,
) -> Result<(), AllocError>
    ensures { OnOk result (out.new.items ≡ out.old.items ++ ends_line op.now word.now ends.now) }
{
    out.extend_from_slice(word)?;
    put_ends(op, ends, out)?;
    out.push(b'\n')?;
    Ok(())
}

/// Appends each dimension with its end, behind a space.
fn put_ends(op: &Operation, ends: &[End], out: &mut Vec<u8>) -> Result<(), AllocError>
    ensures { OnOk result (out.new.items ≡ out.old.items ++ ends_text op.now ends.now) }
{
    for end in ends {
        out.push(b' ')?;
        out.extend_from_slice(name_of(op, end.dim))?;
        out.push(b' ')?;
        put_end(end.last, out)?;
    }
    Ok(())
}

fn put_end(last: bool, out: &mut Vec<u8>) -> Result<(), AllocError>
    ensures { OnOk result (out.new.items ≡ out.old.items ++ end_text last) }
{
    if last {
        Ok(out.extend_from_slice(b"last")?)
    } else {
        Ok(out.extend_from_slice(b"first")?)
    }
}

// ---- one round

/// Appends the states before, the updates, `give`, and the states after.
fn put_round(
    alloc: Global,
    op: &Operation,
    w: &Worksheet,
    out: &mut Vec<u8>,
) -> Result<(), AllocError>
    ensures { OnOk result (out.new.items ≡ out.old.items ++ round_lines op.now w.now) }
{
    put_states(alloc, op, b"before", w.before.as_slice(), out)?;
    put_updates(w.updates.as_slice(), out)?;
    put_ends_line(op, b"give", w.give.as_slice(), out)?;
    put_states(alloc, op, b"after", w.after.as_slice(), out)
}

/// Appends the lines of states, which begin with a word.
fn put_states(
    alloc: Global,
    op: &Operation,
    word: &[u8],
    states: &[State],
    out: &mut Vec<u8>,
) -> Result<(), AllocError>
    ensures { OnOk result (out.new.items
        ≡ out.old.items ++ flat_map (state_line op.now word.now) states.now) }
{
    for state in states {
        put_state(alloc, op, word, state, out)?;
    }
    Ok(())
}

/// Appends the line of a state, and in a comment what the block holds.
fn put_state(
    alloc: Global,
    op: &Operation,
    word: &[u8],
    state: &State,
    out: &mut Vec<u8>,
) -> Result<(), AllocError>
    ensures { OnOk result (out.new.items
        ≡ out.old.items ++ state_line op.now word.now state.now) }
{
    put_done(word, state, out)?;
    put_held(alloc, op, state, out)
}

/// Appends a word, and behind it a block with its tasks that are done.
fn put_done(word: &[u8], state: &State, out: &mut Vec<u8>) -> Result<(), AllocError>
    ensures { OnOk result (out.new.items ≡ out.old.items ++ done_text word.now state.now) }
{
    out.extend_from_slice(word)?;
    out.push(b' ')?;
    put_number(state.row, out)?;
    out.push(b' ')?;
    put_number(state.col, out)?;
    out.extend_from_slice(b" :")?;
    put_tasks(state.done.as_slice(), out)
}

/// Appends in a comment what a block holds, and ends the line.
fn put_held(
    alloc: Global,
    op: &Operation,
    state: &State,
    out: &mut Vec<u8>,
) -> Result<(), AllocError>
    ensures { OnOk result (out.new.items ≡ out.old.items ++ held_text op.now state.now) }
{
    let held = state_expr(alloc, op, state.row, state.col, &state.done)?;
    out.extend_from_slice(b" # ")?;
    write_expr(alloc, op, &held, out)?;
    out.push(b'\n')?;
    Ok(())
}

/// Appends the lines of updates.
fn put_updates(updates: &[Task], out: &mut Vec<u8>) -> Result<(), AllocError>
    ensures { OnOk result (out.new.items ≡ out.old.items ++ flat_map update_line updates.now) }
{
    for task in updates {
        put_update(*task, out)?;
    }
    Ok(())
}

fn put_update(task: Task, out: &mut Vec<u8>) -> Result<(), AllocError>
    ensures { OnOk result (out.new.items ≡ out.old.items ++ update_line task) }
{
    out.extend_from_slice(b"update ")?;
    put_task(task, out)?;
    out.push(b'\n')?;
    Ok(())
}
