//! The columns of a Sylvester system by pieces: each is copied into a panel, less what the columns before it give, and
//! solved there row by row.

ghost use Rattle.std.specs.Prelude.{◌≡◌, ◌≢◌, ◌⊎◌, ℕ, ◌+◌, ◌*◌, ◌%◌, ◌<◌, ◌≤◌, ◌^◌, length, slice_index};
ghost use Rattle.residue_sums.specs.Residues.{Cong};
ghost use Rattle.residue_sums.specs.Sums.{sum_below};
ghost use Rattle.residue_sums.proofs.Sums.{without};
ghost use Rattle.residue_sums.specs.Tables.{Table};
ghost use Rattle.residue_sums.specs.Grids.{entry};
ghost use Rattle.matrix_parts.specs.Opers.{op_rows, op_table};
ghost use Rattle.matrix_parts.specs.Lent.{grid_of, IsPart};
ghost use Rattle.part_solves.specs.LineSystems.{IsEquation, line_of, order_in};
ghost use Rattle.part_solves.specs.SylvesterSystems.{sign, block_of, columns_of, order_within, IsSylvester, IsSylvesterBlock, IsPiece, IsPieceEquation, IsPieceTo};

use crate::line_systems::{Equation, unknown};
use crate::panel_solves::fill_row;
use crate::sylvester::{SylvesterSystem, combined_residues};
use matrix_parts::PartMut;
use row_products::{Panel, row_sums};

/// So many columns from a first one on, and the columns that are solved for before them: so many from another one on.
#[derive(Clone, Copy, Debug)]
pub(crate) struct Piece {
    pub(crate) first: u32,
    pub(crate) lines: u32,
    pub(crate) from: u32,
    pub(crate) len: u32,
}

impl<'a> SylvesterSystem<'a> {
    /// The columns whose turn is from `start` on, so many.
    pub(crate) fn piece_at(&self, start: u32, lines: u32) -> Piece
        requires ready { IsSylvester self.now }
        requires within { start + lines ≤ op_rows self.now.rows.table }
        ensures lines { result.lines ≡ lines }
        ensures len { result.len ≡ start }
        ensures piece { IsPiece self.now.rows.table result }
    {
        let n = self.rows.size();
        if self.rows.is_descending() {
            Piece {
                first: n - start - lines,
                lines,
                from: n - start,
                len: start,
            }
        } else {
            Piece {
                first: start,
                lines,
                from: 0,
                len: start,
            }
        }
    }

    /// The column of a piece that is solved for after r others.
    fn column_at(&self, p: Piece, r: u32) -> Equation
        requires ready { IsSylvester self.now }
        requires before_end { r < p.lines }
        requires within { p.first + p.lines ≤ op_rows self.now.rows.table }
        ensures place { order_within self.now.rows.table p.lines result.unknown ≡ r }
        ensures equation { IsPieceEquation self.now.rows.table p result }
    {
        if self.rows.is_descending() {
            Equation {
                unknown: p.lines - 1 - r,
                from: p.lines - r,
                len: r,
            }
        } else {
            Equation {
                unknown: r,
                from: 0,
                len: r,
            }
        }
    }

    /// What column e of a piece reads of its other columns in row i: `factor` has the piece's columns of the right factor as
    /// its lines.
    fn inner_sum(&self, p: Piece, e: Equation, i: u32, panel: &[u64], factor: &[u64]) -> u64
        requires ready { IsSylvester self.now }
        requires piece { p.first + p.lines ≤ op_rows self.now.rows.table }
        requires equation { IsPieceEquation self.now.rows.table p e }
        requires row_in { i < op_rows self.now.columns.table }
        requires room { p.lines * op_rows self.now.columns.table ≤ length panel.now }
        requires factor_room { p.lines * op_rows self.now.rows.table ≤ length factor.now }
        requires panel { (g k : ℕ) → g < p.lines → k < op_rows self.now.columns.table
            → line_of panel.now (op_rows self.now.columns.table) g k < self.now.columns.reducer }
        requires factor { (g k : ℕ) → g < p.lines → k < op_rows self.now.rows.table
            → line_of factor.now (op_rows self.now.rows.table) g k ≡ op_table self.now.rows.table (p.first + g) k }
        ensures value { result ≡ sum_below
            (λ k. block_of p.first (op_table self.now.rows.table) e.unknown (e.from + k)
            * columns_of panel.now (op_rows self.now.columns.table) i (e.from + k)) e.len % self.now.columns.reducer }
        ensures range { result < self.now.columns.reducer }
    {
        self.rows.has_residues();
        let reducer = self.columns.reducer;
        let m = reducer.modulus();
        let (rows, cols) = (self.columns.size() as usize, self.rows.size() as usize);
        let line = e.unknown as usize * cols;
        let mut sum = 0;
        for k in 0..e.len {
            let g = (e.from + k) as usize;
            let x = panel[g * rows + i as usize];
            let product = reducer.product(factor[line + (p.first as usize + g)], x);
            sum = m.add(sum, product);
        }
        sum
    }

    /// Solves for the entry of row i in column e of a piece: `sum` is what the equation reads of the column.
    fn put_entry(&self, p: Piece, e: Equation, i: u32, sum: u64, panel: &mut [u64], factor: &[u64])
        requires ready { IsSylvester self.now }
        requires piece { p.first + p.lines ≤ op_rows self.now.rows.table }
        requires equation { IsPieceEquation self.now.rows.table p e }
        requires row_in { i < op_rows self.now.columns.table }
        requires room { p.lines * op_rows self.now.columns.table ≤ length panel.old }
        requires factor_room { p.lines * op_rows self.now.rows.table ≤ length factor.now }
        requires panel { (g k : ℕ) → g < p.lines → k < op_rows self.now.columns.table
            → line_of panel.old (op_rows self.now.columns.table) g k < self.now.columns.reducer }
        requires factor { (g k : ℕ) → g < p.lines → k < op_rows self.now.rows.table
            → line_of factor.now (op_rows self.now.rows.table) g k ≡ op_table self.now.rows.table (p.first + g) k }
        requires sum { sum < self.now.columns.reducer }
        ensures solved { (before : Table)
            → Cong self.now.columns.reducer sum (sum_below (without i (λ k. op_table self.now.columns.table i k
            * columns_of panel.old (op_rows self.now.columns.table) k e.unknown)) (op_rows self.now.columns.table))
            → IsPieceTo self.now p before (columns_of panel.old (op_rows self.now.columns.table))
            (order_in self.now.columns.table i * p.lines + order_within self.now.rows.table p.lines e.unknown)
            → IsPieceTo self.now p before (columns_of panel.new (op_rows self.now.columns.table))
            (order_in self.now.columns.table i * p.lines + order_within self.now.rows.table p.lines e.unknown + 1) }
        ensures others { (g k : ℕ) → k < op_rows self.now.columns.table → (g ≢ e.unknown) ⊎ (k ≢ i)
            → line_of panel.new (op_rows self.now.columns.table) g k ≡ line_of panel.old (op_rows self.now.columns.table) g k }
        ensures residues { (g k : ℕ) → g < p.lines → k < op_rows self.now.columns.table
            → line_of panel.new (op_rows self.now.columns.table) g k < self.now.columns.reducer }
    {
        self.rows.has_residues();
        let _cols = self.rows.size();
        let m = self.columns.reducer;
        let inner = self.inner_sum(p, e, i, panel, factor);
        let total = combined_residues(m.modulus(), self.negative, sum, inner);
        let at = e.unknown as usize * self.columns.size() as usize + i as usize;
        panel[at] = unknown(
            m,
            panel[at],
            total,
            self.inverses.get(i, p.first + e.unknown),
        );
    }

    /// Solves for the entries of row i of a piece: `sums` has what their equations read of the columns.
    fn put_entries(&self, p: Piece, i: u32, panel: &mut [u64], factor: &[u64], sums: &[u64])
        requires ready { IsSylvester self.now }
        requires piece { p.first + p.lines ≤ op_rows self.now.rows.table }
        requires row_in { i < op_rows self.now.columns.table }
        requires room { p.lines * op_rows self.now.columns.table ≤ length panel.old }
        requires factor_room { p.lines * op_rows self.now.rows.table ≤ length factor.now }
        requires panel { (g k : ℕ) → g < p.lines → k < op_rows self.now.columns.table
            → line_of panel.old (op_rows self.now.columns.table) g k < self.now.columns.reducer }
        requires factor { (g k : ℕ) → g < p.lines → k < op_rows self.now.rows.table
            → line_of factor.now (op_rows self.now.rows.table) g k ≡ op_table self.now.rows.table (p.first + g) k }
        requires count { length sums.now ≡ p.lines }
        requires sums { (g : ℕ) → g < p.lines → slice_index sums.now g < self.now.columns.reducer }
        ensures solved { (before : Table)
            → ((g : ℕ) → g < p.lines → Cong self.now.columns.reducer (slice_index sums.now g)
            (sum_below (without i (λ k. op_table self.now.columns.table i k
            * columns_of panel.old (op_rows self.now.columns.table) k g)) (op_rows self.now.columns.table)))
            → IsPieceTo self.now p before (columns_of panel.old (op_rows self.now.columns.table))
            (order_in self.now.columns.table i * p.lines)
            → IsPieceTo self.now p before (columns_of panel.new (op_rows self.now.columns.table))
            (order_in self.now.columns.table i * p.lines + p.lines) }
        ensures residues { (g k : ℕ) → g < p.lines → k < op_rows self.now.columns.table
            → line_of panel.new (op_rows self.now.columns.table) g k < self.now.columns.reducer }
    {
        for r in 0..p.lines {
            let e = self.column_at(p, r);
            self.put_entry(p, e, i, sums[e.unknown as usize], panel, factor);
        }
    }

    /// Solves a piece for the entries of one row. `line` has room for what the row reads, and `sums` for a number for each
    /// column.
    fn solve_piece_row(
        &self,
        p: Piece,
        row: Equation,
        panel: &mut [u64],
        factor: &[u64],
        line: &mut [u64],
        sums: &mut [u64],
    )
        requires ready { IsSylvester self.now }
        requires piece { p.first + p.lines ≤ op_rows self.now.rows.table }
        requires row { IsEquation self.now.columns.table row }
        requires few { op_rows self.now.columns.table < 2 ^ 31 }
        requires room { p.lines * op_rows self.now.columns.table ≤ length panel.old }
        requires factor_room { p.lines * op_rows self.now.rows.table ≤ length factor.now }
        requires entries { length line.old ≡ row.len }
        requires count { length sums.old ≡ p.lines }
        requires panel { (g k : ℕ) → g < p.lines → k < op_rows self.now.columns.table
            → line_of panel.old (op_rows self.now.columns.table) g k < self.now.columns.reducer }
        requires factor { (g k : ℕ) → g < p.lines → k < op_rows self.now.rows.table
            → line_of factor.now (op_rows self.now.rows.table) g k ≡ op_table self.now.rows.table (p.first + g) k }
        ensures solved { (before : Table)
            → IsPieceTo self.now p before (columns_of panel.old (op_rows self.now.columns.table))
            (order_in self.now.columns.table row.unknown * p.lines)
            → IsPieceTo self.now p before (columns_of panel.new (op_rows self.now.columns.table))
            (order_in self.now.columns.table row.unknown * p.lines + p.lines) }
        ensures residues { (g k : ℕ) → g < p.lines → k < op_rows self.now.columns.table
            → line_of panel.new (op_rows self.now.columns.table) g k < self.now.columns.reducer }
    {
        self.columns.has_residues();
        fill_row(&self.columns.table, row.unknown, row.from, line);
        let lines = Panel {
            entries: panel,
            height: self.columns.size() as usize,
            from: row.from as usize,
        };
        row_sums(self.columns.reducer, line, lines, sums);
        self.put_entries(p, row.unknown, panel, factor, sums);
    }

    /// Solves a piece for all its entries.
    pub(crate) fn solve_piece_rows(
        &self,
        p: Piece,
        panel: &mut [u64],
        factor: &[u64],
        line: &mut [u64],
        sums: &mut [u64],
    )
        requires ready { IsSylvester self.now }
        requires piece { p.first + p.lines ≤ op_rows self.now.rows.table }
        requires few { op_rows self.now.columns.table < 2 ^ 31 }
        requires room { p.lines * op_rows self.now.columns.table ≤ length panel.old }
        requires factor_room { p.lines * op_rows self.now.rows.table ≤ length factor.now }
        requires entries { op_rows self.now.columns.table ≤ length line.old }
        requires count { length sums.old ≡ p.lines }
        requires panel { (g k : ℕ) → g < p.lines → k < op_rows self.now.columns.table
            → line_of panel.old (op_rows self.now.columns.table) g k < self.now.columns.reducer }
        requires factor { (g k : ℕ) → g < p.lines → k < op_rows self.now.rows.table
            → line_of factor.now (op_rows self.now.rows.table) g k ≡ op_table self.now.rows.table (p.first + g) k }
        ensures solved { IsPieceTo self.now p
            (columns_of panel.old (op_rows self.now.columns.table))
            (columns_of panel.new (op_rows self.now.columns.table)) (op_rows self.now.columns.table * p.lines) }
        ensures residues { (g k : ℕ) → g < p.lines → k < op_rows self.now.columns.table
            → line_of panel.new (op_rows self.now.columns.table) g k < self.now.columns.reducer }
    {
        for r in 0..self.columns.size() {
            let row = self.columns.equation_at(r);
            self.solve_piece_row(p, row, panel, factor, &mut line[..row.len as usize], sums);
        }
    }
}
