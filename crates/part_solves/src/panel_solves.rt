//! Lines of a triangular system, copied side by side into a panel and solved there: each equation at once on all lines.

ghost use Rattle.std.specs.Prelude.{◌≡◌, ◌≢◌, ℕ, ◌+◌, ◌*◌, ◌%◌, ◌<◌, ◌≤◌, ◌^◌, IsTrue, length, slice_index};
ghost use Rattle.residue_sums.specs.Residues.{Cong};
ghost use Rattle.matrix_parts.specs.Opers.{op_rows, op_cols, op_table, IsOper};
ghost use Rattle.part_solves.specs.LineSystems.{IsReady, IsInLine, AreSolvedTo, line_of};

use crate::line_systems::{Group, LineSystem, Lines, unknown};
use crate::three_solves::{BandRows, solve_three};
use matrix_parts::Oper;
use operand_lines::fill_lines;
use row_products::Reducer;

/// Solves for the unknown at a place of a panel, where it is inside. No other place changes.
fn put_unknown(m: Reducer, is_inside: bool, inverse: u64, sum: u64, panel: &mut [u64], at: usize)
    requires here { at < length panel.old }
    requires right { slice_index panel.old at < m }
    requires sum { sum < m }
    requires inverse { inverse < m }
    ensures solves { IsTrue is_inside → (t : ℕ) → (t * inverse) % m ≡ 1
        → Cong m (sum + t * slice_index panel.new at) (slice_index panel.old at) }
    ensures skips { ¬ (IsTrue is_inside) → slice_index panel.new at ≡ slice_index panel.old at }
    ensures range { slice_index panel.new at < m }
    ensures others { (p : ℕ) → p ≢ at → slice_index panel.new p ≡ slice_index panel.old p }
{
    if is_inside {
        panel[at] = unknown(m, panel[at], sum, inverse);
    }
}

/// Solves for unknown i of each line, where it is inside: `sums` has what its equation reads of the other unknowns.
pub(crate) fn put_unknowns(
    system: &LineSystem<'_>,
    first: u32,
    i: u32,
    inverse: u64,
    panel: &mut [u64],
    sums: &[u64],
)
    requires below { i < op_rows system.now.table }
    requires lines { first + length sums.now < 2 ^ 32 }
    requires room { length sums.now * op_rows system.now.table ≤ length panel.old }
    requires inverse { inverse < system.now.reducer }
    requires sums { (g : ℕ) → g < length sums.now → slice_index sums.now g < system.now.reducer }
    requires residues { (g k : ℕ) → g < length sums.now → k < op_rows system.now.table
        → line_of panel.old (op_rows system.now.table) g k < system.now.reducer }
    ensures solves { (g : ℕ) → g < length sums.now
        → IsInLine system.now.turned system.now.inside (first + g) i
        → (t : ℕ) → (t * inverse) % system.now.reducer ≡ 1
        → Cong system.now.reducer (slice_index sums.now g + t * line_of panel.new (op_rows system.now.table) g i)
        (line_of panel.old (op_rows system.now.table) g i) }
    ensures skips { (g : ℕ) → g < length sums.now
        → ¬ (IsInLine system.now.turned system.now.inside (first + g) i)
        → line_of panel.new (op_rows system.now.table) g i ≡ line_of panel.old (op_rows system.now.table) g i }
    ensures others { (g k : ℕ) → k < op_rows system.now.table → k ≢ i
        → line_of panel.new (op_rows system.now.table) g k ≡ line_of panel.old (op_rows system.now.table) g k }
    ensures residues { (g k : ℕ) → g < length sums.now → k < op_rows system.now.table
        → line_of panel.new (op_rows system.now.table) g k < system.now.reducer }
{
    let n = system.size() as usize;
    for g in 0..sums.len() {
        let is_inside = system.is_inside(first + g as u32, i);
        put_unknown(
            system.reducer,
            is_inside,
            inverse,
            sums[g],
            panel,
            g * n + i as usize,
        );
    }
}

/// Copies a piece of row i of an operand, from column `from` on.
pub(crate) fn fill_row(o: &Oper<'_>, i: u32, from: u32, row: &mut [u64])
    requires oper { IsOper o.now }
    requires row_in { i < op_rows o.now }
    requires within { from + length row.old ≤ op_cols o.now }
    ensures { (k : ℕ) → k < length row.old → slice_index row.new k ≡ op_table o.now i (from + k) }
{
    fill_lines(o, i, from, row.len(), 1, row);
}

/// Solves a group of equations on each line of a panel, three at a time. Their rows of the table are copied at once, since
/// where they are columns of a matrix, neighbours share places of a cache. `rows` has room for them.
fn solve_group(
    system: &LineSystem<'_>,
    lines: Lines,
    group: Group,
    panel: &mut [u64],
    rows: &mut [u64],
    scratch: &mut [u64],
)
    requires ready { IsReady system.now }
    requires within { group.start + group.count ≤ op_rows system.now.table }
    requires entries { group.count * (group.start + group.count) ≤ length rows.old }
    requires lines { lines.first + lines.count < 2 ^ 32 }
    requires few { op_rows system.now.table < 2 ^ 31 }
    requires room { lines.count * op_rows system.now.table ≤ length panel.old }
    requires scratch { length scratch.old ≡ 4 * lines.count }
    requires residues { (g k : ℕ) → g < lines.count → k < op_rows system.now.table
        → line_of panel.old (op_rows system.now.table) g k < system.now.reducer }
    ensures solved { (before : ℕ → ℕ → ℕ)
        → AreSolvedTo system.now lines.first lines.count before panel.old group.start
        → AreSolvedTo system.now lines.first lines.count before panel.new
        (group.start + group.count) }
    ensures residues { (g k : ℕ) → g < lines.count → k < op_rows system.now.table
        → line_of panel.new (op_rows system.now.table) g k < system.now.reducer }
{
    let band = system.band_of(group);
    fill_lines(
        &system.table,
        band.row,
        band.from,
        band.width as usize,
        band.count as usize,
        rows,
    );
    let rows = BandRows {
        band,
        entries: rows,
    };
    let mut done = 0;
    while done < group.count {
        let three = Group {
            start: group.start + done,
            count: u32::min(3, group.count - done),
        };
        solve_three(system, lines, three, rows, panel, scratch);
        done += three.count;
    }
}

/// How many equations are solved in a group, at most: more than a line of a cache has numbers, and a multiple of three.
pub(crate) const GROUP: u32 = 12;

/// Solves all equations on each line of a panel, one after another. `rows` has room for the entries of a group of rows of the
/// table, and `scratch` for four numbers for each line.
pub(crate) fn solve_panel(
    system: &LineSystem<'_>,
    lines: Lines,
    panel: &mut [u64],
    rows: &mut [u64],
    scratch: &mut [u64],
)
    requires ready { IsReady system.now }
    requires entries { GROUP * op_rows system.now.table ≤ length rows.old }
    requires lines { lines.first + lines.count < 2 ^ 32 }
    requires few { op_rows system.now.table < 2 ^ 31 }
    requires room { lines.count * op_rows system.now.table ≤ length panel.old }
    requires scratch { length scratch.old ≡ 4 * lines.count }
    requires residues { (g k : ℕ) → g < lines.count → k < op_rows system.now.table
        → line_of panel.old (op_rows system.now.table) g k < system.now.reducer }
    ensures solved { AreSolvedTo system.now lines.first lines.count
        (line_of panel.old (op_rows system.now.table)) panel.new (op_rows system.now.table) }
    ensures residues { (g k : ℕ) → g < lines.count → k < op_rows system.now.table
        → line_of panel.new (op_rows system.now.table) g k < system.now.reducer }
{
    let n = system.size();
    let mut start = 0;
    while start < n {
        let count = u32::min(GROUP, n - start);
        solve_group(system, lines, Group { start, count }, panel, rows, scratch);
        start += count;
    }
}
