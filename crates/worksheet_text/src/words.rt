//! Tasks and the numbers of parts, word by word.

ghost use Rattle.std.specs.Prelude.{◌≡◌, [], length};
ghost use Rattle.byte_texts.specs.Reading.{Gives};
ghost use Rattle.worksheet_text.specs.SheetFaults.{ws_fault};
ghost use Rattle.worksheet_text.specs.SheetWords.{head_at, head_of, inner_part_at, next_at, nothing_left, part_at, part_of, task_at, tasks_at, word_at};

use crate::fault::WsFault;
use operation_spec::{Kind, Task, TaskList};
use std::alloc::Global;
use text_scan::Words;

/// What the first word of a task says: its kind, and the number of its term.
#[derive(Clone, Copy, Debug, PartialEq, Eq)]
pub struct TaskHead {
    pub kind: Kind,
    pub term: u32,
}

// ---- single words

/// The number of one of three parts.
fn part_of(word: &[u8]) -> Option<u32>
    ensures { result ≡ part_of word.now }
{
    if word == b"0".as_slice() {
        Some(0)
    } else if word == b"1".as_slice() {
        Some(1)
    } else if word == b"2".as_slice() {
        Some(2)
    } else {
        None
    }
}

/// The kind of the task that begins with a word, and the number of its term.
fn head_of(word: &[u8]) -> Option<TaskHead>
    ensures { result ≡ head_of word.now }
{
    let head = |kind, term| TaskHead { kind, term };
    if word == b"term1".as_slice() {
        Some(head(Kind::Term, 1))
    } else if word == b"term2".as_slice() {
        Some(head(Kind::Term, 2))
    } else if word == b"left".as_slice() {
        Some(head(Kind::Left, 0))
    } else if word == b"right".as_slice() {
        Some(head(Kind::Right, 0))
    } else if word == b"solve".as_slice() {
        Some(head(Kind::Solve, 0))
    } else {
        None
    }
}

// ---- what is due on a line

/// Takes the word off that is due.
#[tactic(auto, unfolding(crate::specs::SheetWords::next_at))]
fn next<'a>(line: u32, words: &mut Words<'a>) -> Result<&'a [u8], WsFault>
    ensures { Gives ws_fault (λ w. (w.now, words.new)) result (next_at line words.old) }
{
    match words.next() {
        Some(word) => Ok(word),
        None => Err(WsFault::Syntax { line }),
    }
}

/// Takes this word off, which is due.
#[tactic(auto, unfolding(crate::specs::SheetWords::word_at))]
pub fn read_word(line: u32, due: &[u8], words: &mut Words<'_>) -> Result<(), WsFault>
    ensures { Gives ws_fault (λ _. words.new) result (word_at line due.now words.old) }
{
    let word = next(line, words)?;
    if word == due {
        Ok(())
    } else {
        Err(WsFault::Syntax { line })
    }
}

/// Takes the number of a part off, which is due.
#[tactic(auto, unfolding(crate::specs::SheetWords::part_at))]
pub fn read_part(line: u32, words: &mut Words<'_>) -> Result<u32, WsFault>
    ensures { Gives ws_fault (λ n. (n, words.new)) result (part_at line words.old) }
{
    let word = next(line, words)?;
    match part_of(word) {
        Some(n) => Ok(n),
        None => Err(WsFault::Syntax { line }),
    }
}

/// Takes the first word of a task off, which is due.
#[tactic(auto, unfolding(crate::specs::SheetWords::head_at))]
fn read_head(line: u32, words: &mut Words<'_>) -> Result<TaskHead, WsFault>
    ensures { Gives ws_fault (λ head. (head, words.new)) result (head_at line words.old) }
{
    let word = next(line, words)?;
    match head_of(word) {
        Some(head) => Ok(head),
        None => Err(WsFault::Syntax { line }),
    }
}

/// Takes the inner part of a task of this kind off, behind a comma; that of a solve is 0.
#[tactic(auto, unfolding(crate::specs::SheetWords::inner_part_at))]
fn read_inner_part(line: u32, kind: Kind, words: &mut Words<'_>) -> Result<u32, WsFault>
    ensures { Gives ws_fault (λ k. (k, words.new)) result (inner_part_at line kind words.old) }
{
    match kind {
        Kind::Solve => Ok(0),
        Kind::Pivots | Kind::Term | Kind::Left | Kind::Right => {
            read_word(line, b",", words)?;
            read_part(line, words)
        }
    }
}

/// Takes a task off, which is due.
#[tactic(auto, unfolding(crate::specs::SheetWords::task_at))]
pub fn read_task(line: u32, words: &mut Words<'_>) -> Result<Task, WsFault>
    ensures { Gives ws_fault (λ a. (a, words.new)) result (task_at line words.old) }
{
    let head = read_head(line, words)?;
    read_word(line, b"(", words)?;
    let i = read_part(line, words)?;
    read_word(line, b",", words)?;
    let j = read_part(line, words)?;
    let k = read_inner_part(line, head.kind, words)?;
    read_word(line, b")", words)?;
    Ok(Task {
        kind: head.kind,
        term: head.term,
        i,
        j,
        k,
    })
}

/// Takes all tasks off up to the line's end.
pub fn read_tasks(alloc: Global, line: u32, words: &mut Words<'_>) -> Result<TaskList, WsFault>
    ensures { Gives ws_fault (λ tasks. tasks) result (tasks_at line words.old) }
{
    let mut found = TaskList::new(alloc);
    let mut left = words.len();
    while left > 0 && words.len() > 0 {
        let task = read_task(line, words)?;
        found.push(task)?;
        left -= 1;
    }
    Ok(found)
}

/// Tests that no word is left.
#[tactic(auto, unfolding(crate::specs::SheetWords::nothing_left))]
pub fn nothing_left(line: u32, words: &Words<'_>) -> Result<(), WsFault>
    ensures { Gives ws_fault (λ _. tt) result (nothing_left line words.now) }
{
    if words.len() > 0 {
        Err(WsFault::Syntax { line })
    } else {
        Ok(())
    }
}
