//! The lines of a worksheet that say its loop, from `split` to `take`.

ghost use Rattle.std.specs.Prelude.{◌≡◌, ◌<◌, IfOk};
ghost use Rattle.byte_texts.specs.Reading.{Gives};
ghost use Rattle.worksheet_text.specs.SheetFaults.{ws_fault};
ghost use Rattle.worksheet_text.specs.SheetReading.{dir_of_word, end_of_words, ends_at, ends_line_at, ends_of, guard_at, guard_of, has_unknown, invariant_at, is_guard_line, is_misordered, is_pair, is_paired_line, loop_at, next_line_at, split_at, split_of};

use crate::fault::WsFault;
use crate::names::dim_number;
use crate::words::{read_tasks, read_word};
use operation_spec::{Dir, Dirs, Split, TaskList};
use std::alloc::{AllocError, Global};
use structure_rules::NumberList;
use text_scan::{Lines, Name, TextLine, is_among, is_name, number_of};
use worksheet::{End, EndList};

/// A split and its directions.
#[derive(Clone, Copy, Debug, PartialEq, Eq)]
pub struct SplitLine {
    pub split: Split,
    pub dirs: Dirs,
}

/// What the lines of a loop say.
#[derive(Drop)]
pub struct LoopLines {
    pub along: SplitLine,
    pub invariant: TaskList,
    pub guard: NumberList,
    pub start: EndList,
    pub take: EndList,
}

/// Takes the line off that is due, where another is due behind it.
#[tactic(auto, unfolding(crate::specs::SheetReading::next_line_at))]
pub fn next_line<'a>(lines: &mut Lines<'a>) -> Result<TextLine<'a>, WsFault>
    ensures line { Gives ws_fault (λ line. (line, lines.new.lines)) result
        (next_line_at lines.old.end lines.old.lines) }
    ensures end { lines.new.end ≡ lines.old.end }
{
    Ok(lines.inner()?)
}

// ---- lines of one dimension or two

/// Whether the first dimension of a line, or the second, which stands at a place, isn't one of the operation's.
fn has_unknown(dims: &[Name], second: usize, line: &TextLine<'_>) -> bool
    ensures { result ≡ has_unknown dims.now second line.now.words }
{
    !is_among(dims, line.word(1)) || (line.len() > second && !is_among(dims, line.word(second)))
}

/// Whether the line is `guard D` or `guard D D`.
fn is_guard_line(line: &TextLine<'_>) -> bool
    ensures { result ≡ is_guard_line line.now.words }
{
    line.begins_with(b"guard")
        && is_name(line.word(1))
        && (line.len() == 2 || (line.len() == 3 && is_name(line.word(2))))
}

/// The dimensions of a guard.
fn guard_of(alloc: Global, dims: &[Name], line: &TextLine<'_>) -> Result<NumberList, AllocError>
    ensures { IfOk result (λ guard. guard ≡ guard_of dims.now line.now.words) }
{
    let mut guard = NumberList::new(alloc);
    guard.push(dim_number(dims, line.word(1))?)?;
    if line.len() > 2 {
        guard.push(dim_number(dims, line.word(2))?)?;
    }
    Ok(guard)
}

/// Reads the line `guard`.
#[tactic(auto, unfolding(crate::specs::SheetReading::guard_at))]
fn read_guard(alloc: Global, dims: &[Name], line: &TextLine<'_>) -> Result<NumberList, WsFault>
    ensures { Gives ws_fault (λ guard. guard) result (guard_at dims.now line.now) }
{
    let number = line.number();
    if !is_guard_line(line) {
        return Err(WsFault::Syntax { line: number });
    }
    if has_unknown(dims, 2, line) {
        return Err(WsFault::NameUnknown { line: number });
    }
    Ok(guard_of(alloc, dims, line)?)
}

/// Whether a dimension stands at a place of a line, and behind it one of two words.
fn is_pair(one: &[u8], other: &[u8], at: usize, line: &TextLine<'_>) -> bool
    requires { at < 1000 }
    ensures { result ≡ is_pair one.now other.now at line.now.words }
{
    is_name(line.word(at)) && (line.is_text(at + 1, one) || line.is_text(at + 1, other))
}

/// Whether the line is a word and one such pair or two.
fn is_paired_line(word: &[u8], one: &[u8], other: &[u8], line: &TextLine<'_>) -> bool
    ensures { result ≡ is_paired_line word.now one.now other.now line.now.words }
{
    line.begins_with(word)
        && is_pair(one, other, 1, line)
        && (line.len() == 3 || (line.len() == 5 && is_pair(one, other, 3, line)))
}

// ---- `split`

/// The direction with a word.
fn dir_of_word(word: &[u8]) -> Dir
    ensures { result ≡ dir_of_word word.now }
{
    if word == b"backward".as_slice() {
        Dir::Backward
    } else {
        Dir::Forward
    }
}

/// The split and the directions of a line.
fn split_of(dims: &[Name], line: &TextLine<'_>) -> Result<SplitLine, AllocError>
    ensures { IfOk result (λ along. along ≡ split_of dims.now line.now.words) }
{
    let first = dim_number(dims, line.word(1))?;
    let along = dir_of_word(line.word(2));
    if line.len() > 3 {
        let second = dim_number(dims, line.word(3))?;
        return Ok(SplitLine {
            split: Split {
                first,
                second: Some(second),
            },
            dirs: Dirs {
                first: along,
                second: dir_of_word(line.word(4)),
            },
        });
    }
    Ok(SplitLine {
        split: Split {
            first,
            second: None,
        },
        dirs: Dirs {
            first: along,
            second: Dir::Forward,
        },
    })
}

/// Whether a line has a second dimension that isn't declared after the first.
fn is_misordered(dims: &[Name], line: &TextLine<'_>) -> bool
    ensures { result ≡ is_misordered dims.now line.now.words }
{
    line.len() > 3 && number_of(dims, line.word(3)) <= number_of(dims, line.word(1))
}

/// Reads the line `split`.
#[tactic(auto, unfolding(crate::specs::SheetReading::split_at))]
fn read_split(dims: &[Name], line: &TextLine<'_>) -> Result<SplitLine, WsFault>
    ensures { Gives ws_fault (λ along. along) result (split_at dims.now line.now) }
{
    let number = line.number();
    if !is_paired_line(b"split", b"forward", b"backward", line) {
        return Err(WsFault::Syntax { line: number });
    }
    if has_unknown(dims, 3, line) {
        return Err(WsFault::NameUnknown { line: number });
    }
    if is_misordered(dims, line) {
        return Err(WsFault::SplitOrder { line: number });
    }
    Ok(split_of(dims, line)?)
}

// ---- `start`, `take`, `give`

/// The end that the words at a place and behind it say.
fn end_of_words(dims: &[Name], at: usize, line: &TextLine<'_>) -> Result<End, AllocError>
    requires { at < 1000 }
    ensures { IfOk result (λ end. end ≡ end_of_words dims.now at line.now.words) }
{
    Ok(End {
        dim: dim_number(dims, line.word(at))?,
        last: line.is_text(at + 1, b"last"),
    })
}

/// The ends that a line says.
fn ends_of(alloc: Global, dims: &[Name], line: &TextLine<'_>) -> Result<EndList, AllocError>
    ensures { IfOk result (λ ends. ends ≡ ends_of dims.now line.now.words) }
{
    let mut ends = EndList::new(alloc);
    ends.push(end_of_words(dims, 1, line)?)?;
    if line.len() > 3 {
        ends.push(end_of_words(dims, 3, line)?)?;
    }
    Ok(ends)
}

/// Reads a line of ends, which begins with a word.
#[tactic(auto, unfolding(crate::specs::SheetReading::ends_at))]
fn read_ends(
    alloc: Global,
    dims: &[Name],
    word: &[u8],
    line: &TextLine<'_>,
) -> Result<EndList, WsFault>
    ensures { Gives ws_fault (λ ends. ends) result (ends_at dims.now word.now line.now) }
{
    let number = line.number();
    if !is_paired_line(word, b"first", b"last", line) {
        return Err(WsFault::Syntax { line: number });
    }
    if has_unknown(dims, 3, line) {
        return Err(WsFault::NameUnknown { line: number });
    }
    Ok(ends_of(alloc, dims, line)?)
}

/// Reads the line of ends that is due.
#[tactic(auto, unfolding(crate::specs::SheetReading::ends_line_at))]
pub fn next_ends(
    alloc: Global,
    dims: &[Name],
    word: &[u8],
    lines: &mut Lines<'_>,
) -> Result<EndList, WsFault>
    ensures ends { Gives ws_fault (λ ends. (ends, lines.new.lines)) result
        (ends_line_at lines.old.end dims.now word.now lines.old.lines) }
    ensures end { lines.new.end ≡ lines.old.end }
{
    let line = next_line(lines)?;
    read_ends(alloc, dims, word, &line)
}

// ---- `invariant`, and all lines

/// Reads the line `invariant`.
#[tactic(auto, unfolding(crate::specs::SheetReading::invariant_at))]
fn read_invariant(alloc: Global, line: &TextLine<'_>) -> Result<TaskList, WsFault>
    ensures { Gives ws_fault (λ kept. kept) result (invariant_at line.now) }
{
    let number = line.number();
    let mut words = line.behind(0);
    read_word(number, b"invariant", &mut words)?;
    read_tasks(alloc, number, &mut words)
}

/// Reads the lines of a loop, which are due.
#[tactic(auto, unfolding(crate::specs::SheetReading::loop_at))]
pub fn read_loop(alloc: Global, dims: &[Name], lines: &mut Lines<'_>) -> Result<LoopLines, WsFault>
    ensures read { Gives ws_fault (λ x. (x, lines.new.lines)) result
        (loop_at lines.old.end dims.now lines.old.lines) }
    ensures end { lines.new.end ≡ lines.old.end }
{
    let second = next_line(lines)?;
    let along = read_split(dims, &second)?;
    let third = next_line(lines)?;
    let invariant = read_invariant(alloc, &third)?;
    let fourth = next_line(lines)?;
    let guard = read_guard(alloc, dims, &fourth)?;
    let start = next_ends(alloc, dims, b"start", lines)?;
    let take = next_ends(alloc, dims, b"take", lines)?;
    Ok(LoopLines {
        along,
        invariant,
        guard,
        start,
        take,
    })
}
