//! A Sylvester system, solved in place by pieces of columns that fit into buffers.

ghost use Rattle.std.specs.Prelude.{◌≡◌, ◌≢◌, ◌⊎◌, ℕ, ◌+◌, ◌*◌, ◌%◌, ◌<◌, ◌≤◌, ◌^◌, length, slice_index};
ghost use Rattle.residue_sums.specs.Residues.{Cong};
ghost use Rattle.residue_sums.specs.Sums.{sum_below};
ghost use Rattle.residue_sums.specs.Grids.{entry};
ghost use Rattle.matrix_parts.specs.Opers.{op_rows, op_table};
ghost use Rattle.matrix_parts.specs.Lent.{grid_of, loan_of, IsPart, IsKept};
ghost use Rattle.part_solves.specs.LineSystems.{line_of, order_in};
ghost use Rattle.part_solves.specs.SylvesterSystems.{sign, IsSylvester, IsSylvesterBlock, IsPiece, AreColumnsSolved};

use crate::line_solves::lines_at_once;
use crate::sylvester::{SylvesterSystem, combined_residues};
use crate::sylvester_pieces::Piece;
use matrix_parts::{Part, PartMut};
use operand_lines::fill_lines;
use row_products::{Panel, row_sums};

/// The entries of row i in the columns that are solved for before a piece.
fn row_piece<'b>(part: &'b Part<'_>, i: u32, p: Piece) -> &'b [u64]
    requires row_in { i < part.now.rows }
    requires within { p.from + p.len ≤ part.now.cols }
    ensures len { length result.now ≡ p.len }
    ensures entries { (k : ℕ) → k < p.len
        → slice_index result.now k ≡ entry part.now i (p.from + k) }
{
    let from = p.from as usize;
    &part.row(i)[from..from + p.len as usize]
}

impl<'a> SylvesterSystem<'a> {
    /// Takes from row i of a panel's columns what the columns before them give, a sum for each.
    fn put_rests(&self, i: u32, panel: &mut [u64], sums: &[u64])
        requires ready { IsSylvester self.now }
        requires row_in { i < op_rows self.now.columns.table }
        requires room { length sums.now * op_rows self.now.columns.table ≤ length panel.old }
        requires sums { (g : ℕ) → g < length sums.now
            → slice_index sums.now g < self.now.columns.reducer }
        requires panel { (g k : ℕ) → g < length sums.now → k < op_rows self.now.columns.table
            → line_of panel.old (op_rows self.now.columns.table) g k < self.now.columns.reducer }
        ensures here { (g : ℕ) → g < length sums.now → Cong self.now.columns.reducer
            (line_of panel.new (op_rows self.now.columns.table) g i + sign self.now.columns.reducer self.now.negative * slice_index sums.now g)
            (line_of panel.old (op_rows self.now.columns.table) g i) }
        ensures others { (g k : ℕ) → k < op_rows self.now.columns.table → k ≢ i
            → line_of panel.new (op_rows self.now.columns.table) g k ≡ line_of panel.old (op_rows self.now.columns.table) g k }
        ensures residues { (g k : ℕ) → g < length sums.now → k < op_rows self.now.columns.table
            → line_of panel.new (op_rows self.now.columns.table) g k < self.now.columns.reducer }
    {
        let m = self.columns.reducer.modulus();
        let n = self.columns.size() as usize;
        for g in 0..sums.len() {
            let at = g * n + i as usize;
            panel[at] = combined_residues(m, !self.negative, panel[at], sums[g]);
        }
    }

    /// Takes from row i of a piece what the columns solved for before it give.
    fn reduce_row(
        &self,
        w: &PartMut<'_>,
        p: Piece,
        i: u32,
        panel: &mut [u64],
        factor: &[u64],
        sums: &mut [u64],
    )
        requires ready { IsSylvester self.now }
        requires part { IsPart w.now }
        requires block { IsSylvesterBlock self.now (grid_of w.now) }
        requires piece { (p.first + p.lines ≤ op_rows self.now.rows.table)
            × (p.from + p.len ≤ op_rows self.now.rows.table) }
        requires few { op_rows self.now.rows.table < 2 ^ 31 }
        requires row_in { i < op_rows self.now.columns.table }
        requires count { length sums.old ≡ p.lines }
        requires room { p.lines * op_rows self.now.columns.table ≤ length panel.old }
        requires factor_room { p.lines * op_rows self.now.rows.table ≤ length factor.now }
        requires panel { (g k : ℕ) → g < p.lines → k < op_rows self.now.columns.table
            → line_of panel.old (op_rows self.now.columns.table) g k < self.now.columns.reducer }
        requires factor { (g k : ℕ) → g < p.lines → k < op_rows self.now.rows.table
            → line_of factor.now (op_rows self.now.rows.table) g k ≡ op_table self.now.rows.table (p.first + g) k }
        ensures here { (g : ℕ) → g < p.lines → Cong self.now.columns.reducer
            (line_of panel.new (op_rows self.now.columns.table) g i + sign self.now.columns.reducer self.now.negative
            * sum_below (λ k. entry (grid_of w.now) i (p.from + k) * op_table self.now.rows.table (p.first + g) (p.from + k)) p.len)
            (line_of panel.old (op_rows self.now.columns.table) g i) }
        ensures others { (g k : ℕ) → k < op_rows self.now.columns.table → k ≢ i
            → line_of panel.new (op_rows self.now.columns.table) g k ≡ line_of panel.old (op_rows self.now.columns.table) g k }
        ensures residues { (g k : ℕ) → g < p.lines → k < op_rows self.now.columns.table
            → line_of panel.new (op_rows self.now.columns.table) g k < self.now.columns.reducer }
    {
        self.rows.has_residues();
        let part = w.as_part();
        let lines = Panel {
            entries: factor,
            height: self.rows.size() as usize,
            from: p.from as usize,
        };
        row_sums(self.columns.reducer, row_piece(&part, i, p), lines, sums);
        self.put_rests(i, panel, sums);
    }

    /// Takes from a piece what the columns solved for before it give.
    fn reduce_piece(
        &self,
        w: &PartMut<'_>,
        p: Piece,
        panel: &mut [u64],
        factor: &[u64],
        sums: &mut [u64],
    )
        requires ready { IsSylvester self.now }
        requires part { IsPart w.now }
        requires block { IsSylvesterBlock self.now (grid_of w.now) }
        requires piece { (p.first + p.lines ≤ op_rows self.now.rows.table)
            × (p.from + p.len ≤ op_rows self.now.rows.table) }
        requires few { op_rows self.now.rows.table < 2 ^ 31 }
        requires count { length sums.old ≡ p.lines }
        requires room { p.lines * op_rows self.now.columns.table ≤ length panel.old }
        requires factor_room { p.lines * op_rows self.now.rows.table ≤ length factor.now }
        requires panel { (g k : ℕ) → g < p.lines → k < op_rows self.now.columns.table
            → line_of panel.old (op_rows self.now.columns.table) g k < self.now.columns.reducer }
        requires factor { (g k : ℕ) → g < p.lines → k < op_rows self.now.rows.table
            → line_of factor.now (op_rows self.now.rows.table) g k ≡ op_table self.now.rows.table (p.first + g) k }
        ensures here { (g i : ℕ) → g < p.lines → i < op_rows self.now.columns.table
            → Cong self.now.columns.reducer
            (line_of panel.new (op_rows self.now.columns.table) g i + sign self.now.columns.reducer self.now.negative
            * sum_below (λ k. entry (grid_of w.now) i (p.from + k) * op_table self.now.rows.table (p.first + g) (p.from + k)) p.len)
            (line_of panel.old (op_rows self.now.columns.table) g i) }
        ensures residues { (g k : ℕ) → g < p.lines → k < op_rows self.now.columns.table
            → line_of panel.new (op_rows self.now.columns.table) g k < self.now.columns.reducer }
    {
        for i in 0..self.columns.size() {
            self.reduce_row(w, p, i, panel, factor, sums);
        }
    }

    /// Solves for the columns of a piece. `factor` has room for as many rows of the right factor, transposed, `line` for a
    /// row of the left one, and `sums` a number for each column.
    fn solve_piece(
        &self,
        w: &mut PartMut<'_>,
        p: Piece,
        panel: &mut [u64],
        factor: &mut [u64],
        line: &mut [u64],
        sums: &mut [u64],
    )
        requires ready { IsSylvester self.now }
        requires part { IsPart w.old }
        requires block { IsSylvesterBlock self.now (grid_of w.old) }
        requires piece { IsPiece self.now.rows.table p }
        requires few { (op_rows self.now.columns.table < 2 ^ 31)
            × (op_rows self.now.rows.table < 2 ^ 31) }
        requires count { length sums.old ≡ p.lines }
        requires room { p.lines * op_rows self.now.columns.table ≤ length panel.old }
        requires factor_room { p.lines * op_rows self.now.rows.table ≤ length factor.old }
        requires entries { op_rows self.now.columns.table ≤ length line.old }
        ensures loan { loan_of w.new ≡ loan_of w.old }
        ensures part { IsPart w.new }
        ensures kept { IsKept w.old w.new }
        ensures solved { AreColumnsSolved self.now p.len (p.len + p.lines) (grid_of w.old)
            (grid_of w.new) }
    {
        let lines = p.lines as usize;
        let (rows, cols) = (self.columns.size() as usize, self.rows.size() as usize);
        fill_lines(&self.columns.lines_of(w), p.first, 0, rows, lines, panel);
        fill_lines(&self.rows.table, p.first, 0, cols, lines, factor);
        self.reduce_piece(w, p, panel, factor, sums);
        self.solve_piece_rows(p, panel, factor, line, sums);
        self.columns.write_lines(w, p.first, lines, panel);
    }

    /// Solves for all columns, by pieces that fit into buffers.
    fn solve_by_pieces(
        &self,
        w: &mut PartMut<'_>,
        panel: &mut [u64],
        factor: &mut [u64],
        line: &mut [u64],
        sums: &mut [u64],
    )
        requires ready { IsSylvester self.now }
        requires part { IsPart w.old }
        requires block { IsSylvesterBlock self.now (grid_of w.old) }
        requires few { (op_rows self.now.columns.table < 2 ^ 31)
            × (op_rows self.now.rows.table < 2 ^ 31) }
        requires room { op_rows self.now.columns.table ≤ length panel.old }
        requires factor_room { op_rows self.now.rows.table ≤ length factor.old }
        requires entries { op_rows self.now.columns.table ≤ length line.old }
        requires lines { 0 < length sums.old }
        ensures loan { loan_of w.new ≡ loan_of w.old }
        ensures part { IsPart w.new }
        ensures kept { IsKept w.old w.new }
        ensures solved { AreColumnsSolved self.now 0 (op_rows self.now.rows.table) (grid_of w.old)
            (grid_of w.new) }
    {
        let cols = self.rows.size();
        let most = lines_at_once(panel.len(), self.columns.size() as usize, sums.len());
        let most = lines_at_once(factor.len(), cols as usize, most);
        let mut at = 0;
        while at < cols {
            let lines = usize::min(most, (cols - at) as usize) as u32;
            let p = self.piece_at(at, lines);
            self.solve_piece(w, p, panel, factor, line, &mut sums[..lines as usize]);
            at += lines;
        }
    }

    /// The same where the block has at most 128 rows and columns.
    fn solve_small(&self, w: &mut PartMut<'_>)
        requires ready { IsSylvester self.now }
        requires part { IsPart w.old }
        requires block { IsSylvesterBlock self.now (grid_of w.old) }
        requires few { (op_rows self.now.columns.table ≤ 128)
            × (op_rows self.now.rows.table ≤ 128) }
        ensures loan { loan_of w.new ≡ loan_of w.old }
        ensures part { IsPart w.new }
        ensures kept { IsKept w.old w.new }
        ensures solved { AreColumnsSolved self.now 0 (op_rows self.now.rows.table) (grid_of w.old)
            (grid_of w.new) }
    {
        let mut panel = [0; 4096];
        let mut factor = [0; 4096];
        let mut line = [0; 128];
        let mut sums = [0; 64];
        self.solve_by_pieces(w, &mut panel, &mut factor, &mut line, &mut sums);
    }

    /// The same where it has at most 2048.
    fn solve_large(&self, w: &mut PartMut<'_>)
        requires ready { IsSylvester self.now }
        requires part { IsPart w.old }
        requires block { IsSylvesterBlock self.now (grid_of w.old) }
        requires few { (op_rows self.now.columns.table ≤ 2048)
            × (op_rows self.now.rows.table ≤ 2048) }
        ensures loan { loan_of w.new ≡ loan_of w.old }
        ensures part { IsPart w.new }
        ensures kept { IsKept w.old w.new }
        ensures solved { AreColumnsSolved self.now 0 (op_rows self.now.rows.table) (grid_of w.old)
            (grid_of w.new) }
    {
        let mut panel = [0; 16384];
        let mut factor = [0; 16384];
        let mut line = [0; 2048];
        let mut sums = [0; 64];
        self.solve_by_pieces(w, &mut panel, &mut factor, &mut line, &mut sums);
    }

    /// Solves for all columns.
    pub(crate) fn solve(&self, w: &mut PartMut<'_>)
        requires ready { IsSylvester self.now }
        requires part { IsPart w.old }
        requires block { IsSylvesterBlock self.now (grid_of w.old) }
        ensures loan { loan_of w.new ≡ loan_of w.old }
        ensures part { IsPart w.new }
        ensures kept { IsKept w.old w.new }
        ensures solved { AreColumnsSolved self.now 0 (op_rows self.now.rows.table) (grid_of w.old)
            (grid_of w.new) }
    {
        match u32::max(self.columns.size(), self.rows.size()) {
            0..=128 => self.solve_small(w),
            129..=2048 => self.solve_large(w),
            _ => self.solve_plainly(w),
        }
    }
}
