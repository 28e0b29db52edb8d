//! A triangular system, solved on the lines of a part in place: a panel of them at a time, or entry by entry where a line
//! is longer than a buffer.

ghost use Rattle.std.specs.Prelude.{◌≡◌, ◌≢◌, ℕ, ◌+◌, ◌*◌, ◌%◌, ◌<◌, ◌≤◌, ◌⊎◌, ◌^◌, length, slice_index};
ghost use Rattle.residue_sums.specs.Residues.{Cong};
ghost use Rattle.residue_sums.specs.Tables.{oriented};
ghost use Rattle.residue_sums.specs.Grids.{entry};
ghost use Rattle.structure_rules.specs.declared.Structure.TheVariants.{General};
ghost use Rattle.structure_rules.specs.Structures.{IsZero};
ghost use Rattle.matrix_parts.specs.Opers.{op_rows, op_cols, op_table, IsOper};
ghost use Rattle.matrix_parts.specs.Lent.{grid_of, loan_of, IsPart, IsKept};
ghost use Rattle.part_solves.specs.LineSystems.{IsReady, IsFor, IsInLine, AreWritten, AreSolvedTo, AreLinesSolved, line_of, line_table, line_count, line_size};

use crate::line_systems::{LineSystem, Lines};
use crate::panel_solves::{GROUP, solve_panel};
use matrix_parts::{Oper, PartMut};
use operand_lines::fill_lines;

impl<'a> LineSystem<'a> {
    /// How many lines a part has.
    pub(crate) fn count(&self, w: &PartMut<'_>) -> u32
        ensures { result ≡ line_count self.now.turned (grid_of w.now) }
    {
        if self.turned { w.cols() } else { w.rows() }
    }

    /// The lines of a part, read on its structure.
    pub(crate) fn lines_of<'b>(&self, w: &'b PartMut<'_>) -> Oper<'b>
        requires part { IsPart w.now }
        requires square { self.now.inside ≢ General → w.now.rows ≡ w.now.cols }
        ensures oper { IsOper result }
        ensures rows { op_rows result ≡ line_count self.now.turned (grid_of w.now) }
        ensures cols { op_cols result ≡ line_size self.now.turned (grid_of w.now) }
        ensures table { (g k : ℕ) → op_table result g k
            ≡ line_table self.now.turned self.now.inside (entry (grid_of w.now)) g k }
    {
        Oper {
            part: w.as_part(),
            structure: self.inside,
            primed: self.turned,
        }
    }

    /// Writes unknown i of a line where it is inside. No other entry changes.
    pub(crate) fn write_unknown(&self, w: &mut PartMut<'_>, line: u32, i: u32, value: u64)
        requires part { IsPart w.old }
        requires line_in { line < line_count self.now.turned (grid_of w.old) }
        requires unknown_in { i < line_size self.now.turned (grid_of w.old) }
        requires residue { value < self.now.reducer }
        requires residues { (a b : ℕ) → a < w.old.rows → b < w.old.cols
            → entry (grid_of w.old) a b < self.now.reducer }
        ensures loan { loan_of w.new ≡ loan_of w.old }
        ensures part { IsPart w.new }
        ensures kept { IsKept w.old w.new }
        ensures here { IsInLine self.now.turned self.now.inside line i
            → oriented self.now.turned (entry (grid_of w.new)) line i ≡ value }
        ensures others { (g k : ℕ) → g < line_count self.now.turned (grid_of w.old)
            → k < line_size self.now.turned (grid_of w.old)
            → (g ≢ line) ⊎ ((k ≢ i) ⊎ ¬ (IsInLine self.now.turned self.now.inside g k))
            → oriented self.now.turned (entry (grid_of w.new)) g k ≡ oriented self.now.turned (entry (grid_of w.old)) g k }
        ensures residues { (a b : ℕ) → a < w.old.rows → b < w.old.cols
            → entry (grid_of w.new) a b < self.now.reducer }
    {
        if self.is_inside(line, i) {
            if self.turned {
                w.set(i, line, value);
            } else {
                w.set(line, i, value);
            }
        }
    }

    /// Writes the unknowns of line `first + g` of a part, from line g of a panel.
    fn write_line(&self, w: &mut PartMut<'_>, first: u32, g: usize, panel: &[u64])
        requires part { IsPart w.old }
        requires system { IsFor self.now (grid_of w.old) }
        requires line_in { first + g < line_count self.now.turned (grid_of w.old) }
        requires room { (g + 1) * op_rows self.now.table ≤ length panel.now }
        requires panel { (k : ℕ) → k < op_rows self.now.table
            → line_of panel.now (op_rows self.now.table) g k < self.now.reducer }
        ensures loan { loan_of w.new ≡ loan_of w.old }
        ensures part { IsPart w.new }
        ensures kept { IsKept w.old w.new }
        ensures here { (k : ℕ) → k < op_rows self.now.table
            → IsInLine self.now.turned self.now.inside (first + g) k
            → oriented self.now.turned (entry (grid_of w.new)) (first + g) k ≡ line_of panel.now (op_rows self.now.table) g k }
        ensures others { (h k : ℕ) → h < line_count self.now.turned (grid_of w.old)
            → k < op_rows self.now.table
            → (h ≢ first + g) ⊎ ¬ (IsInLine self.now.turned self.now.inside h k)
            → oriented self.now.turned (entry (grid_of w.new)) h k ≡ oriented self.now.turned (entry (grid_of w.old)) h k }
        ensures residues { (a b : ℕ) → a < w.old.rows → b < w.old.cols
            → entry (grid_of w.new) a b < self.now.reducer }
    {
        let _count = self.count(w);
        let n = self.size();
        let start = g * n as usize;
        let line = first + g as u32;
        for k in 0..n {
            self.write_unknown(w, line, k, panel[start + k as usize]);
        }
    }

    /// Writes the unknowns of so many lines of a part, from a panel, line by line.
    fn write_by_lines(&self, w: &mut PartMut<'_>, first: u32, lines: usize, panel: &[u64])
        requires part { IsPart w.old }
        requires system { IsFor self.now (grid_of w.old) }
        requires lines_in { first + lines ≤ line_count self.now.turned (grid_of w.old) }
        requires room { lines * op_rows self.now.table ≤ length panel.now }
        requires panel { (g k : ℕ) → g < lines → k < op_rows self.now.table
            → line_of panel.now (op_rows self.now.table) g k < self.now.reducer }
        ensures loan { loan_of w.new ≡ loan_of w.old }
        ensures part { IsPart w.new }
        ensures kept { IsKept w.old w.new }
        ensures written { AreWritten self.now first lines (op_rows self.now.table) panel.now
            (grid_of w.old) (grid_of w.new) }
    {
        for g in 0..lines {
            self.write_line(w, first, g, panel);
        }
    }

    /// Writes unknown k of so many lines of a part, from a panel.
    fn write_across(&self, w: &mut PartMut<'_>, lines: Lines, k: u32, panel: &[u64])
        requires part { IsPart w.old }
        requires system { IsFor self.now (grid_of w.old) }
        requires lines_in { lines.first + lines.count ≤ line_count self.now.turned (grid_of w.old) }
        requires unknown_in { k < op_rows self.now.table }
        requires room { lines.count * op_rows self.now.table ≤ length panel.now }
        requires panel { (g : ℕ) → g < lines.count
            → line_of panel.now (op_rows self.now.table) g k < self.now.reducer }
        ensures loan { loan_of w.new ≡ loan_of w.old }
        ensures part { IsPart w.new }
        ensures kept { IsKept w.old w.new }
        ensures here { (g : ℕ) → g < lines.count
            → IsInLine self.now.turned self.now.inside (lines.first + g) k
            → oriented self.now.turned (entry (grid_of w.new)) (lines.first + g) k
            ≡ line_of panel.now (op_rows self.now.table) g k }
        ensures others { (h q : ℕ) → h < line_count self.now.turned (grid_of w.old)
            → q < op_rows self.now.table → (q ≢ k) ⊎ ((h < lines.first)
            ⊎ ((lines.first + lines.count ≤ h) ⊎ ¬ (IsInLine self.now.turned self.now.inside h q)))
            → oriented self.now.turned (entry (grid_of w.new)) h q
            ≡ oriented self.now.turned (entry (grid_of w.old)) h q }
        ensures residues { (a b : ℕ) → a < w.old.rows → b < w.old.cols
            → entry (grid_of w.new) a b < self.now.reducer }
    {
        let _count = self.count(w);
        let n = self.size() as usize;
        for g in 0..lines.count {
            self.write_unknown(w, lines.first + g as u32, k, panel[g * n + k as usize]);
        }
    }

    /// Writes the unknowns of so many lines of a part, from a panel, unknown by unknown: where lines are columns of the part,
    /// one unknown's are neighbours.
    fn write_by_unknowns(&self, w: &mut PartMut<'_>, first: u32, lines: usize, panel: &[u64])
        requires part { IsPart w.old }
        requires system { IsFor self.now (grid_of w.old) }
        requires lines_in { first + lines ≤ line_count self.now.turned (grid_of w.old) }
        requires room { lines * op_rows self.now.table ≤ length panel.now }
        requires panel { (g k : ℕ) → g < lines → k < op_rows self.now.table
            → line_of panel.now (op_rows self.now.table) g k < self.now.reducer }
        ensures loan { loan_of w.new ≡ loan_of w.old }
        ensures part { IsPart w.new }
        ensures kept { IsKept w.old w.new }
        ensures written { AreWritten self.now first lines (op_rows self.now.table) panel.now
            (grid_of w.old) (grid_of w.new) }
    {
        let lines = Lines {
            first,
            count: lines,
        };
        for k in 0..self.size() {
            self.write_across(w, lines, k, panel);
        }
    }

    /// Writes the unknowns of so many lines of a part, from a panel.
    pub(crate) fn write_lines(&self, w: &mut PartMut<'_>, first: u32, lines: usize, panel: &[u64])
        requires part { IsPart w.old }
        requires system { IsFor self.now (grid_of w.old) }
        requires lines_in { first + lines ≤ line_count self.now.turned (grid_of w.old) }
        requires room { lines * op_rows self.now.table ≤ length panel.now }
        requires panel { (g k : ℕ) → g < lines → k < op_rows self.now.table
            → line_of panel.now (op_rows self.now.table) g k < self.now.reducer }
        ensures loan { loan_of w.new ≡ loan_of w.old }
        ensures part { IsPart w.new }
        ensures kept { IsKept w.old w.new }
        ensures here { (g k : ℕ) → g < lines → k < op_rows self.now.table
            → IsInLine self.now.turned self.now.inside (first + g) k
            → oriented self.now.turned (entry (grid_of w.new)) (first + g) k ≡ line_of panel.now (op_rows self.now.table) g k }
        ensures others { (h k : ℕ) → h < line_count self.now.turned (grid_of w.old)
            → k < op_rows self.now.table
            → (h < first) ⊎ ((first + lines ≤ h) ⊎ ¬ (IsInLine self.now.turned self.now.inside h k))
            → oriented self.now.turned (entry (grid_of w.new)) h k ≡ oriented self.now.turned (entry (grid_of w.old)) h k }
        ensures residues { (a b : ℕ) → a < w.old.rows → b < w.old.cols
            → entry (grid_of w.new) a b < self.now.reducer }
    {
        if self.turned {
            self.write_by_unknowns(w, first, lines, panel);
        } else {
            self.write_by_lines(w, first, lines, panel);
        }
    }

    /// Solves the system on lines of a part. `scratch` has room for four numbers for each.
    fn solve_piece(
        &self,
        w: &mut PartMut<'_>,
        lines: Lines,
        panel: &mut [u64],
        rows: &mut [u64],
        scratch: &mut [u64],
    )
        requires ready { IsReady self.now }
        requires part { IsPart w.old }
        requires system { IsFor self.now (grid_of w.old) }
        requires lines_in { lines.first + lines.count ≤ line_count self.now.turned (grid_of w.old) }
        requires few { op_rows self.now.table < 2 ^ 31 }
        requires entries { GROUP * op_rows self.now.table ≤ length rows.old }
        requires room { lines.count * op_rows self.now.table ≤ length panel.old }
        requires scratch { length scratch.old ≡ 4 * lines.count }
        ensures loan { loan_of w.new ≡ loan_of w.old }
        ensures part { IsPart w.new }
        ensures kept { IsKept w.old w.new }
        ensures solved { AreLinesSolved self.now lines.first (lines.first + lines.count)
            (grid_of w.old) (grid_of w.new) }
    {
        let _count = self.count(w);
        fill_lines(
            &self.lines_of(w),
            lines.first,
            0,
            self.size() as usize,
            lines.count,
            panel,
        );
        solve_panel(self, lines, panel, rows, scratch);
        self.write_lines(w, lines.first, lines.count, panel);
    }

    /// Solves the system on all lines of a part, by panels that fit into a buffer: it has room for the rows of a group of
    /// equations, for sums, and for a line or more.
    fn solve_by_panels(&self, w: &mut PartMut<'_>, room: &mut [u64])
        requires ready { IsReady self.now }
        requires part { IsPart w.old }
        requires system { IsFor self.now (grid_of w.old) }
        requires few { op_rows self.now.table < 2 ^ 31 }
        requires room { GROUP * op_rows self.now.table + 4 * LINES + op_rows self.now.table
            ≤ length room.old }
        ensures loan { loan_of w.new ≡ loan_of w.old }
        ensures part { IsPart w.new }
        ensures kept { IsKept w.old w.new }
        ensures solved { AreLinesSolved self.now 0 (line_count self.now.turned (grid_of w.old))
            (grid_of w.old) (grid_of w.new) }
    {
        let all = self.count(w);
        let n = self.size() as usize;
        let (rows, rest) = room.split_at_mut(GROUP as usize * n);
        let (scratch, panel) = rest.split_at_mut(4 * LINES);
        let most = lines_at_once(panel.len(), n, LINES);
        let mut first = 0;
        while first < all {
            let count = usize::min(most, (all - first) as usize);
            let lines = Lines { first, count };
            self.solve_piece(w, lines, panel, rows, &mut scratch[..4 * count]);
            first += count as u32;
        }
    }

    /// The same where a line has at most 32 unknowns.
    fn solve_least(&self, w: &mut PartMut<'_>)
        requires ready { IsReady self.now }
        requires part { IsPart w.old }
        requires system { IsFor self.now (grid_of w.old) }
        requires least { op_rows self.now.table ≤ 32 }
        ensures loan { loan_of w.new ≡ loan_of w.old }
        ensures part { IsPart w.new }
        ensures kept { IsKept w.old w.new }
        ensures solved { AreLinesSolved self.now 0 (line_count self.now.turned (grid_of w.old))
            (grid_of w.old) (grid_of w.new) }
    {
        let mut room = [0; 2048];
        self.solve_by_panels(w, &mut room);
    }

    /// The same where it has at most 128.
    fn solve_short(&self, w: &mut PartMut<'_>)
        requires ready { IsReady self.now }
        requires part { IsPart w.old }
        requires system { IsFor self.now (grid_of w.old) }
        requires short { op_rows self.now.table ≤ 128 }
        ensures loan { loan_of w.new ≡ loan_of w.old }
        ensures part { IsPart w.new }
        ensures kept { IsKept w.old w.new }
        ensures solved { AreLinesSolved self.now 0 (line_count self.now.turned (grid_of w.old))
            (grid_of w.old) (grid_of w.new) }
    {
        let mut room = [0; 6144];
        self.solve_by_panels(w, &mut room);
    }

    /// The same where it has at most 2048.
    fn solve_long(&self, w: &mut PartMut<'_>)
        requires ready { IsReady self.now }
        requires part { IsPart w.old }
        requires system { IsFor self.now (grid_of w.old) }
        requires long { op_rows self.now.table ≤ 2048 }
        ensures loan { loan_of w.new ≡ loan_of w.old }
        ensures part { IsPart w.new }
        ensures kept { IsKept w.old w.new }
        ensures solved { AreLinesSolved self.now 0 (line_count self.now.turned (grid_of w.old))
            (grid_of w.old) (grid_of w.new) }
    {
        let mut room = [0; 61440];
        self.solve_by_panels(w, &mut room);
    }

    /// Solves the system on all lines of a part.
    pub(crate) fn solve(&self, w: &mut PartMut<'_>)
        requires ready { IsReady self.now }
        requires part { IsPart w.old }
        requires system { IsFor self.now (grid_of w.old) }
        ensures loan { loan_of w.new ≡ loan_of w.old }
        ensures part { IsPart w.new }
        ensures kept { IsKept w.old w.new }
        ensures solved { AreLinesSolved self.now 0 (line_count self.now.turned (grid_of w.old))
            (grid_of w.old) (grid_of w.new) }
    {
        match self.size() {
            0..=32 => self.solve_least(w),
            33..=128 => self.solve_short(w),
            129..=2048 => self.solve_long(w),
            _ => self.solve_plainly(w),
        }
    }
}

/// How many lines are solved at once, at most.
const LINES: usize = 64;

/// How many lines of n numbers a panel has room for, at most so many.
pub(crate) fn lines_at_once(room: usize, n: usize, most: usize) -> usize
    requires one { n ≤ room }
    requires most { 0 < most }
    ensures some { 0 < result }
    ensures room { result * n ≤ room }
    ensures most { result ≤ most }
{
    if n == 0 {
        most
    } else {
        usize::min(room / n, most)
    }
}
