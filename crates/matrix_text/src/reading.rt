//! Reading matrices, line by line.

ghost use Rattle.std.specs.Prelude.{◌≡◌, ◌*◌, ◌<◌, ◌≤◌, length, drop, Ok, IfOk, IsTrue, MatchOption, false, if◌then◌else◌, ◌==◌};
ghost use Rattle.std.specs.List.{list_all};
ghost use Rattle.byte_texts.specs.Reading.{Gives};
ghost use Rattle.text_scan.specs.FaultKinds.{EntryRange};
ghost use Rattle.text_scan.specs.Faults.{◌on◌};
ghost use Rattle.text_scan.specs.Lines.{end_line_of, lines_of, nth_word};
ghost use Rattle.text_scan.specs.Tokens.{tokens_of};
ghost use Rattle.text_scan.specs.Words.{is_number, number_value};
ghost use Rattle.matrix_text.specs.MatrixFaults.{grid_at, heading_at, heading_of, is_heading, is_sized_line, is_too_large, last_at, matrix_at, matrix_fault, next_row_at, numbers_behind, row_at, rows_at, with_entries, with_row};
ghost use Rattle.matrix_text.specs.MatrixLines.{SpellsMatrix, SpellsRows, size_limit};

use crate::fault::MatrixFault;
use field_word::Modulus;
use matrix_core::Matrix;
use std::alloc::Global;
use text_scan::{Lines, Name, TextLine, Token, is_name, is_number};

/// How many rows and columns a matrix may have.
const SIZE_LIMIT: u64 = 1024;

/// What the first line of a matrix says.
#[derive(Drop)]
struct Heading {
    name: Name,
    rows: u32,
    cols: u32,
}

/// Rows and columns.
#[derive(Clone, Copy)]
struct Shape {
    rows: u32,
    cols: u32,
}

// ---- the first line

/// Whether the line is `WORD NAME ROWS COLS`, the first line of a matrix that stands under this word.
#[tactic(auto, using(crate::proofs::WordLists::sized_line_is))]
pub fn is_sized_line(first_word: &[u8], line: &TextLine<'_>) -> bool
    ensures { result ≡ is_sized_line first_word.now line.now.words }
{
    line.len() == 4
        && line.is_text(0, first_word)
        && is_name(line.word(1))
        && is_number(line.word(2))
        && is_number(line.word(3))
}

/// Whether the line is `matrix NAME ROWS COLS`.
pub fn is_heading(line: &TextLine<'_>) -> bool
    ensures { result ≡ is_heading line.now.words }
{
    is_sized_line(b"matrix", line)
}

/// The number of rows or columns that a word is, unless it passes the limit.
fn size(line: &TextLine<'_>, at: usize) -> Option<u32>
    requires { IsTrue (is_number (nth_word line.now.words at)) }
    ensures { MatchOption result (size_limit < number_value (nth_word line.now.words at))
        (λ n. (n ≡ number_value (nth_word line.now.words at)) × (n ≤ size_limit)) }
{
    match line.number_at(at) {
        Some(n) if n <= SIZE_LIMIT => Some(n as u32),
        _ => None,
    }
}

/// The shape that a first line says, unless its numbers pass the limit, or the entries the room.
fn shape_of(line: &TextLine<'_>, room: u32) -> Option<Shape>
    requires { IsTrue (is_heading line.now.words) }
    ensures { let heading = heading_of line.now.words in MatchOption result
        (IsTrue (is_too_large room heading.rows heading.cols))
        (λ shape. (is_too_large room heading.rows heading.cols ≡ false)
        × (shape.rows ≡ heading.rows) × (shape.cols ≡ heading.cols)) }
{
    let rows = size(line, 2)?;
    let cols = size(line, 3)?;
    if rows * cols <= room {
        Some(Shape { rows, cols })
    } else {
        None
    }
}

/// Reads the first line of a matrix.
#[tactic(auto, unfolding(crate::specs::MatrixFaults::heading_at))]
fn read_heading(alloc: Global, room: u32, line: &TextLine<'_>) -> Result<Heading, MatrixFault>
    ensures { Gives matrix_fault
        (λ heading. record { name = heading.name; rows = heading.rows; cols = heading.cols })
        result (heading_at room line.now) }
{
    let number = line.number();
    if !is_heading(line) {
        return Err(MatrixFault::Syntax { line: number });
    }
    match shape_of(line, room) {
        Some(Shape { rows, cols }) => {
            let name = line.name(alloc, 1)?;
            Ok(Heading { name, rows, cols })
        }
        None => Err(MatrixFault::TooLarge { line: number }),
    }
}

// ---- rows

/// The number that a word is, if it is below m.
fn entry(line: &TextLine<'_>, at: usize, m: u64) -> Option<u64>
    requires { IsTrue (is_number (nth_word line.now.words at)) }
    ensures { MatchOption result (m ≤ number_value (nth_word line.now.words at))
        (λ n. (n ≡ number_value (nth_word line.now.words at)) × (n < m)) }
{
    match line.number_at(at) {
        Some(n) if n < m => Some(n),
        _ => None,
    }
}

/// Appends the numbers of a row.
fn put_row(line: &TextLine<'_>, m: u64, entries: &mut Vec<u64>) -> Result<(), MatrixFault>
    requires { IsTrue (list_all is_number line.now.words) }
    ensures { Gives matrix_fault (λ done. entries.new.items) result
        (numbers_behind m (EntryRange on line.now.number) entries.old.items line.now.words) }
{
    for i in 0..line.len() {
        match entry(line, i, m) {
            Some(x) => entries.push(x)?,
            None => return Err(MatrixFault::EntryRange {
                line: line.number(),
            }),
        }
    }
    Ok(())
}

/// Appends the numbers of the row that a line is.
#[tactic(auto, using(crate::proofs::RowNumbers::row_tests))]
fn row(line: &TextLine<'_>, m: u64, cols: u32, entries: &mut Vec<u64>) -> Result<(), MatrixFault>
    ensures { Gives matrix_fault (λ done. entries.new.items) result
        (with_row entries.old.items (row_at m cols line.now)) }
{
    let number = line.number();
    if line.is_end() {
        return Err(MatrixFault::RowLength { line: number });
    }
    if !line.behind(0).are_numbers() {
        return Err(MatrixFault::Syntax { line: number });
    }
    if line.len() != cols as usize {
        return Err(MatrixFault::RowLength { line: number });
    }
    put_row(line, m, entries)
}

/// Appends the numbers of the row that is due.
#[tactic(auto, unfolding(crate::specs::MatrixFaults::next_row_at))]
fn next_row(
    lines: &mut Lines<'_>,
    m: u64,
    cols: u32,
    entries: &mut Vec<u64>,
) -> Result<(), MatrixFault>
    ensures row { Gives matrix_fault (λ _. (entries.new.items, lines.new.lines)) result
        (with_entries entries.old.items (next_row_at lines.old.end m cols lines.old.lines)) }
    ensures end { lines.new.end ≡ lines.old.end }
{
    let line = lines.inner()?;
    row(&line, m, cols, entries)
}

/// The entries of so many rows.
fn rows(
    alloc: Global,
    lines: &mut Lines<'_>,
    m: u64,
    count: u32,
    cols: u32,
) -> Result<Vec<u64>, MatrixFault>
    ensures rows { Gives matrix_fault (λ entries. (entries.items, lines.new.lines)) result
        (rows_at lines.old.end m cols count lines.old.lines) }
    ensures end { lines.new.end ≡ lines.old.end }
{
    let mut entries = Vec::with_capacity(alloc, count as usize * cols as usize)?;
    for _ in 0..count {
        next_row(lines, m, cols, &mut entries)?;
    }
    Ok(entries)
}

// ---- the whole matrix

/// Reads the last line of a matrix.
#[tactic(auto, unfolding(crate::specs::MatrixFaults::last_at))]
fn last_line(lines: &mut Lines<'_>) -> Result<(), MatrixFault>
    ensures last { Gives matrix_fault (λ _. lines.new.lines) result
        (last_at lines.old.end lines.old.lines) }
    ensures end { lines.new.end ≡ lines.old.end }
{
    let line = lines.due()?;
    if !line.is_end() {
        return Err(MatrixFault::Syntax {
            line: line.number(),
        });
    }
    Ok(())
}

/// How many lines of rows a matrix has: with no columns there are none.
fn row_count(rows: u32, cols: u32) -> u32
    ensures { result ≡ (if cols == 0 then 0 else rows) }
{
    if cols == 0 { 0 } else { rows }
}

/// The matrix of so many rows and columns whose lines behind its first one are the first that are left.
fn grid(alloc: Global, lines: &mut Lines<'_>, m: u64, shape: Shape) -> Result<Matrix, MatrixFault>
    ensures grid { Gives matrix_fault (λ x. (x, lines.new.lines)) result
        (grid_at lines.old.end m shape.rows shape.cols lines.old.lines) }
    ensures end { lines.new.end ≡ lines.old.end }
{
    let Shape { rows: count, cols } = shape;
    let entries = rows(alloc, lines, m, row_count(count, cols), cols)?;
    last_line(lines)?;
    Ok(Matrix::from_entries(count, cols, entries))
}

/// The matrix whose lines are the first that are left, and its name.
#[tactic(auto, unfolding(crate::specs::MatrixFaults::matrix_at))]
fn matrix(
    alloc: Global,
    lines: &mut Lines<'_>,
    m: u64,
    room: u32,
) -> Result<(Name, Matrix), MatrixFault>
    ensures matrix { Gives matrix_fault (λ x. (record { name = x.0; grid = x.1 }, lines.new.lines))
        result (matrix_at lines.old.end m room lines.old.lines) }
    ensures end { lines.new.end ≡ lines.old.end }
{
    let first = lines.inner()?;
    let Heading { name, rows, cols } = read_heading(alloc, room, &first)?;
    let matrix = grid(alloc, lines, m, Shape { rows, cols })?;
    Ok((name, matrix))
}

/// Reads the matrix that the first of the lines begins, and takes its lines off: its name, and the matrix with entries
/// below `m`. `room` is how many entries it may have. Its errors are want of memory, and the first fault of the text
/// by line, and in a line in the order of `MatrixFault`.
pub fn next_matrix(
    alloc: Global,
    lines: &mut Lines<'_>,
    m: Modulus,
    room: u32,
) -> Result<(Name, Matrix), MatrixFault>
    ensures read { Gives matrix_fault (λ x. (record { name = x.0; grid = x.1 }, lines.new.lines))
        result (matrix_at lines.old.end m room lines.old.lines) }
    ensures found { IfOk result (λ x. SpellsMatrix m room lines.old.lines x.0 x.1 lines.new.lines) }
    ensures end { lines.new.end ≡ lines.old.end }
{
    lines.are_lines();
    matrix(alloc, lines, m.value(), room)
}

/// Reads the lines of a matrix behind its first one, which said its rows and columns, and takes them off: a line for
/// each row, where there are columns, and `end`. Answers the matrix with entries below `m`. Its errors are want of
/// memory, and the first fault of the text by line, and in a line in the order of `MatrixFault`.
pub fn next_rows(
    alloc: Global,
    lines: &mut Lines<'_>,
    m: Modulus,
    rows: u32,
    cols: u32,
) -> Result<Matrix, MatrixFault>
    ensures read { Gives matrix_fault (λ x. (x, lines.new.lines)) result
        (grid_at lines.old.end m rows cols lines.old.lines) }
    ensures found { IfOk result (λ x. SpellsRows m rows cols lines.old.lines x lines.new.lines) }
    ensures end { lines.new.end ≡ lines.old.end }
{
    lines.are_lines();
    grid(alloc, lines, m.value(), Shape { rows, cols })
}

/// Reads one matrix from token `at` on: its name, the matrix with entries below `m`, and the place of the
/// token behind it. `room` is how many entries it may have. Its errors are want of memory, and the first
/// fault of the text by line, and in a line in the order of `MatrixFault`.
pub fn read_matrix(
    alloc: Global,
    bytes: &[u8],
    tokens: &Vec<Token>,
    at: usize,
    m: Modulus,
    room: u32,
) -> Result<(Name, Matrix, usize), MatrixFault>
    requires short { length bytes.now ≤ 67108865 }
    requires scanned { tokens_of 1 bytes.now ≡ Ok tokens.now.items }
    requires place { at ≤ length tokens.now.items }
    ensures read { Gives matrix_fault
        (λ x. (record { name = x.0; grid = x.1 }, lines_of bytes.now (drop x.2 tokens.now.items)))
        result (matrix_at (end_line_of 1 bytes.now) m room
        (lines_of bytes.now (drop at tokens.now.items))) }
    ensures found { IfOk result (λ x. SpellsMatrix m room
        (lines_of bytes.now (drop at tokens.now.items)) x.0 x.1
        (lines_of bytes.now (drop x.2 tokens.now.items))) }
    ensures behind { IfOk result (λ x. x.2 ≤ length tokens.now.items) }
{
    let mut lines = Lines::new(1, bytes, &tokens[at..]);
    let (name, matrix) = next_matrix(alloc, &mut lines, m, room)?;
    Ok((name, matrix, tokens.len() - lines.word_count()))
}
