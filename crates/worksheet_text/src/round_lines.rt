//! The lines of a worksheet that say one round of its loop: the states before, the updates, `give`, and the states after.

ghost use Rattle.std.specs.Prelude.{◌≡◌};
ghost use Rattle.byte_texts.specs.Reading.{Gives};
ghost use Rattle.worksheet_text.specs.SheetFaults.{ws_fault};
ghost use Rattle.worksheet_text.specs.SheetReading.{more_due, round_at, state_at, states_at, update_at, updates_at};

use crate::fault::WsFault;
use crate::loop_lines::next_ends;
use crate::words::{nothing_left, read_part, read_task, read_tasks, read_word};
use operation_spec::{Task, TaskList};
use std::alloc::Global;
use text_scan::{Lines, Name, TextLine};
use worksheet::{EndList, State, StateList};

/// What the lines of a round say.
#[derive(Drop)]
pub struct RoundLines {
    pub before: StateList,
    pub updates: TaskList,
    pub give: EndList,
    pub after: StateList,
}

/// Tests that another line can be due behind this one: the text doesn't end on it.
#[tactic(auto, unfolding(crate::specs::SheetReading::more_due))]
fn more_due(end: u32, line: &TextLine<'_>) -> Result<(), WsFault>
    ensures { Gives ws_fault (λ _. tt) result (more_due end line.now) }
{
    let number = line.number();
    if number == end {
        Err(WsFault::Syntax { line: number })
    } else {
        Ok(())
    }
}

/// Reads the line of a state behind its first word.
#[tactic(auto, unfolding(crate::specs::SheetReading::state_at))]
fn read_state(alloc: Global, end: u32, line: &TextLine<'_>) -> Result<State, WsFault>
    ensures { Gives ws_fault (λ s. s) result (state_at end line.now) }
{
    more_due(end, line)?;
    let number = line.number();
    let mut words = line.behind(1);
    let row = read_part(number, &mut words)?;
    let col = read_part(number, &mut words)?;
    read_word(number, b":", &mut words)?;
    let done = read_tasks(alloc, number, &mut words)?;
    Ok(State { row, col, done })
}

/// Reads the lines of states that begin with a word.
fn read_states(alloc: Global, word: &[u8], lines: &mut Lines<'_>) -> Result<StateList, WsFault>
    ensures states { Gives ws_fault (λ x. (x, lines.new.lines)) result
        (states_at lines.old.end word.now lines.old.lines) }
    ensures end { lines.new.end ≡ lines.old.end }
{
    let end = lines.end();
    let mut found = StateList::new(alloc);
    while let Some(line) = lines.next_with(word) {
        let state = read_state(alloc, end, &line)?;
        found.push(state)?;
    }
    Ok(found)
}

/// Reads the line of an update behind its first word.
#[tactic(auto, unfolding(crate::specs::SheetReading::update_at))]
fn read_update(end: u32, line: &TextLine<'_>) -> Result<Task, WsFault>
    ensures { Gives ws_fault (λ a. a) result (update_at end line.now) }
{
    more_due(end, line)?;
    let number = line.number();
    let mut words = line.behind(1);
    let task = read_task(number, &mut words)?;
    nothing_left(number, &words)?;
    Ok(task)
}

/// Reads the lines of updates.
fn read_updates(alloc: Global, lines: &mut Lines<'_>) -> Result<TaskList, WsFault>
    ensures updates { Gives ws_fault (λ x. (x, lines.new.lines)) result
        (updates_at lines.old.end lines.old.lines) }
    ensures end { lines.new.end ≡ lines.old.end }
{
    let end = lines.end();
    let mut found = TaskList::new(alloc);
    while let Some(line) = lines.next_with(b"update") {
        let task = read_update(end, &line)?;
        found.push(task)?;
    }
    Ok(found)
}

/// Reads the lines of a round.
#[tactic(auto, unfolding(crate::specs::SheetReading::round_at))]
pub fn read_round(
    alloc: Global,
    dims: &[Name],
    lines: &mut Lines<'_>,
) -> Result<RoundLines, WsFault>
    ensures read { Gives ws_fault (λ x. (x, lines.new.lines)) result
        (round_at lines.old.end dims.now lines.old.lines) }
    ensures end { lines.new.end ≡ lines.old.end }
{
    let before = read_states(alloc, b"before", lines)?;
    let updates = read_updates(alloc, lines)?;
    let give = next_ends(alloc, dims, b"give", lines)?;
    let after = read_states(alloc, b"after", lines)?;
    Ok(RoundLines {
        before,
        updates,
        give,
        after,
    })
}
