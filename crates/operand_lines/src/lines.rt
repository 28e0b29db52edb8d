//! Rows of an operand, copied side by side into a buffer, so that sums of products go along them.

ghost use Rattle.std.specs.Prelude.{◌≡◌, ◌≢◌, ◌⊎◌, ℕ, ◌+◌, ◌*◌, ◌<◌, ◌≤◌, ◌^◌, IsTrue, length, slice_index};
ghost use Rattle.residue_sums.specs.Tables.{Table};
ghost use Rattle.residue_sums.specs.Grids.{entry};
ghost use Rattle.structure_rules.specs.Structures.{view};
ghost use Rattle.matrix_parts.specs.Opers.{op_rows, op_cols, op_table, IsOper};

use matrix_parts::Oper;
use structure_rules::Structure;

/// Some rows of an operand, from `first` on, and of each row so many numbers, from column `from` on.
#[derive(Clone, Copy, Debug)]
struct Window {
    first: u32,
    from: u32,
    height: usize,
    lines: usize,
}

/// Whether a view reads so many entries of row i, from column `first` on, as they are stored.
fn is_as_stored(s: Structure, i: u32, first: u32, count: usize) -> bool
    requires within { first + count < 2 ^ 32 }
    ensures { IsTrue result → (x : Table) (k : ℕ) → k < count
        → view s x i (first + k) ≡ x i (first + k) }
{
    match s {
        Structure::General => true,
        Structure::Lower | Structure::Symmetric => first as usize + count <= i as usize + 1,
        Structure::UnitLower => first as usize + count <= i as usize,
        Structure::Upper => i <= first,
        Structure::UnitUpper => i < first,
        Structure::Diagonal => false,
    }
}

/// Writes numbers that lie side by side from a place of the panel on. No other place changes.
fn put_line(numbers: &[u64], panel: &mut [u64], at: usize)
    requires room { at + length numbers.now ≤ length panel.old }
    ensures here { (k : ℕ) → k < length numbers.now
        → slice_index panel.new (at + k) ≡ slice_index numbers.now k }
    ensures others { (p : ℕ) → (p < at) ⊎ (at + length numbers.now ≤ p)
        → slice_index panel.new p ≡ slice_index panel.old p }
{
    for k in 0..numbers.len() {
        panel[at + k] = numbers[k];
    }
}

/// Writes part of row i of the view of an operand's part from a place of the panel on, entry by entry. No other place
/// changes.
fn view_line(o: &Oper<'_>, i: u32, from: u32, panel: &mut [u64], at: usize, width: usize)
    requires oper { IsOper o.now }
    requires row_in { i < o.now.part.rows }
    requires within { from + width ≤ o.now.part.cols }
    requires room { at + width ≤ length panel.old }
    ensures here { (k : ℕ) → k < width → slice_index panel.new (at + k)
        ≡ view o.now.structure (entry o.now.part) i (from + k) }
    ensures others { (p : ℕ) → (p < at) ⊎ (at + width ≤ p)
        → slice_index panel.new p ≡ slice_index panel.old p }
{
    let _cols = o.part.cols();
    for k in 0..width {
        panel[at + k] = o.part.view_entry(o.structure, i, from + k as u32);
    }
}

/// The same, at once where the entries are read as they are stored.
fn write_piece(o: &Oper<'_>, i: u32, from: u32, panel: &mut [u64], at: usize, width: usize)
    requires oper { IsOper o.now }
    requires row_in { i < o.now.part.rows }
    requires within { from + width ≤ o.now.part.cols }
    requires room { at + width ≤ length panel.old }
    ensures here { (k : ℕ) → k < width → slice_index panel.new (at + k)
        ≡ view o.now.structure (entry o.now.part) i (from + k) }
    ensures others { (p : ℕ) → (p < at) ⊎ (at + width ≤ p)
        → slice_index panel.new p ≡ slice_index panel.old p }
{
    let _cols = o.part.cols();
    if is_as_stored(o.structure, i, from, width) {
        let start = from as usize;
        put_line(&o.part.row(i)[start..start + width], panel, at);
    } else {
        view_line(o, i, from, panel, at, width);
    }
}

/// How many of so many entries of row i, from column `from` on, come before those that are not read as they are stored, or
/// before those that are.
fn cut_of(s: Structure, i: u32, from: u32, width: usize) -> usize
    ensures { result ≤ width }
{
    let before = (i as usize).saturating_sub(from as usize);
    let through = (i as usize + 1).saturating_sub(from as usize);
    let cut = match s {
        Structure::General | Structure::Diagonal => width,
        Structure::UnitLower | Structure::Upper => before,
        Structure::Lower | Structure::Symmetric | Structure::UnitUpper => through,
    };
    usize::min(width, cut)
}

/// Writes part of row i of the view of an operand's part from a place of the panel on. No other place changes.
fn write_line(o: &Oper<'_>, i: u32, from: u32, panel: &mut [u64], at: usize, width: usize)
    requires oper { IsOper o.now }
    requires row_in { i < o.now.part.rows }
    requires within { from + width ≤ o.now.part.cols }
    requires room { at + width ≤ length panel.old }
    ensures here { (k : ℕ) → k < width → slice_index panel.new (at + k)
        ≡ view o.now.structure (entry o.now.part) i (from + k) }
    ensures others { (p : ℕ) → (p < at) ⊎ (at + width ≤ p)
        → slice_index panel.new p ≡ slice_index panel.old p }
{
    let _cols = o.part.cols();
    let cut = cut_of(o.structure, i, from, width);
    write_piece(o, i, from, panel, at, cut);
    write_piece(o, i, from + cut as u32, panel, at + cut, width - cut);
}

/// Writes number k of each line of a panel, whose lines have `height` numbers: those that lie side by side.
fn put_across(numbers: &[u64], height: usize, k: usize, panel: &mut [u64])
    requires inside { k < height }
    requires room { length numbers.now * height ≤ length panel.old }
    ensures here { (g : ℕ) → g < length numbers.now
        → slice_index panel.new (g * height + k) ≡ slice_index numbers.now g }
    ensures others { (g q : ℕ) → q < height → q ≢ k
        → slice_index panel.new (g * height + q) ≡ slice_index panel.old (g * height + q) }
{
    for g in 0..numbers.len() {
        panel[g * height + k] = numbers[g];
    }
}

/// Writes number k of each line of a panel whose lines are columns of the view of an operand's part, entry by entry.
fn view_across(o: &Oper<'_>, window: Window, k: usize, panel: &mut [u64])
    requires oper { IsOper o.now }
    requires cols_in { window.first + window.lines ≤ o.now.part.cols }
    requires within { window.from + window.height ≤ o.now.part.rows }
    requires inside { k < window.height }
    requires room { window.lines * window.height ≤ length panel.old }
    ensures here { (g : ℕ) → g < window.lines → slice_index panel.new (g * window.height + k)
        ≡ view o.now.structure (entry o.now.part) (window.from + k) (window.first + g) }
    ensures others { (g q : ℕ) → q < window.height → q ≢ k
        → slice_index panel.new (g * window.height + q)
        ≡ slice_index panel.old (g * window.height + q) }
{
    let _sizes = (o.part.rows(), o.part.cols());
    let row = window.from + k as u32;
    for g in 0..window.lines {
        panel[g * window.height + k] = o.part.view_entry(o.structure, row, window.first + g as u32);
    }
}

/// Writes number k of each line of a panel whose lines are columns of the view of an operand's part.
fn write_across(o: &Oper<'_>, window: Window, k: usize, panel: &mut [u64])
    requires oper { IsOper o.now }
    requires cols_in { window.first + window.lines ≤ o.now.part.cols }
    requires within { window.from + window.height ≤ o.now.part.rows }
    requires inside { k < window.height }
    requires room { window.lines * window.height ≤ length panel.old }
    ensures here { (g : ℕ) → g < window.lines → slice_index panel.new (g * window.height + k)
        ≡ view o.now.structure (entry o.now.part) (window.from + k) (window.first + g) }
    ensures others { (g q : ℕ) → q < window.height → q ≢ k
        → slice_index panel.new (g * window.height + q)
        ≡ slice_index panel.old (g * window.height + q) }
{
    let _sizes = (o.part.rows(), o.part.cols());
    let row = window.from + k as u32;
    if is_as_stored(o.structure, row, window.first, window.lines) {
        let start = window.first as usize;
        let numbers = &o.part.row(row)[start..start + window.lines];
        put_across(numbers, window.height, k, panel);
    } else {
        view_across(o, window, k, panel);
    }
}

/// Writes lines that are rows of the view of an operand's part, one behind the other.
fn fill_straight(o: &Oper<'_>, window: Window, panel: &mut [u64])
    requires oper { IsOper o.now }
    requires rows_in { window.first + window.lines ≤ o.now.part.rows }
    requires within { window.from + window.height ≤ o.now.part.cols }
    requires room { window.lines * window.height ≤ length panel.old }
    ensures { (g k : ℕ) → g < window.lines → k < window.height
        → slice_index panel.new (g * window.height + k)
        ≡ view o.now.structure (entry o.now.part) (window.first + g) (window.from + k) }
{
    let _rows = o.part.rows();
    for g in 0..window.lines {
        write_line(
            o,
            window.first + g as u32,
            window.from,
            panel,
            g * window.height,
            window.height,
        );
    }
}

/// Writes lines that are columns of the view of an operand's part, one behind the other.
fn fill_across(o: &Oper<'_>, window: Window, panel: &mut [u64])
    requires oper { IsOper o.now }
    requires cols_in { window.first + window.lines ≤ o.now.part.cols }
    requires within { window.from + window.height ≤ o.now.part.rows }
    requires room { window.lines * window.height ≤ length panel.old }
    ensures { (g k : ℕ) → g < window.lines → k < window.height
        → slice_index panel.new (g * window.height + k)
        ≡ view o.now.structure (entry o.now.part) (window.from + k) (window.first + g) }
{
    for k in 0..window.height {
        write_across(o, window, k, panel);
    }
}

/// Writes so many rows of an operand, from `first` on, one behind the other: of each row `height` numbers, from column
/// `from` on.
pub fn fill_lines(
    o: &Oper<'_>,
    first: u32,
    from: u32,
    height: usize,
    lines: usize,
    panel: &mut [u64],
)
    requires oper { IsOper o.now }
    requires rows_in { first + lines ≤ op_rows o.now }
    requires within { from + height ≤ op_cols o.now }
    requires room { lines * height ≤ length panel.old }
    ensures { (g k : ℕ) → g < lines → k < height
        → slice_index panel.new (g * height + k) ≡ op_table o.now (first + g) (from + k) }
{
    let window = Window {
        first,
        from,
        height,
        lines,
    };
    if o.primed {
        fill_across(o, window, panel);
    } else {
        fill_straight(o, window, panel);
    }
}
