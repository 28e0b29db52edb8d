//! Three equations of a triangular system, solved on the lines of a panel: what they read of the unknowns that come before
//! all of them is added up for the three at once, and the rest, of one unknown or two, for each.

ghost use Rattle.std.specs.Prelude.{◌≡◌, ◌≢◌, ℕ, ◌+◌, ◌-◌, ◌*◌, ◌%◌, ◌<◌, ◌≤◌, ◌^◌, length, slice_index};
ghost use Rattle.residue_sums.specs.Residues.{Cong};
ghost use Rattle.residue_sums.specs.Sums.{sum_below};
ghost use Rattle.residue_sums.proofs.Sums.{without};
ghost use Rattle.matrix_algebra.proofs.Triangles.{structure_of};
ghost use Rattle.matrix_parts.specs.Opers.{op_rows, op_table};
ghost use Rattle.part_solves.specs.LineSystems.{IsReady, IsInBand, AreBandRows, AreSpanSums, AreSolvedTo, equation_of, early_of, late_of, line_of, order_in};

use crate::line_systems::{Band, Equation, Group, LineSystem, Lines};
use crate::panel_solves::put_unknowns;
use row_products::{Panel, Reducer, Rows, three_row_sums};
use structure_rules::Structure;

/// The rows of a band, which lie one behind the other.
#[derive(Clone, Copy, Debug)]
pub(crate) struct BandRows<'a> {
    pub(crate) band: Band,
    pub(crate) entries: &'a [u64],
}

/// An equation of which a part was added up for each line: `early` has its sums. Beside it, the equation reads the entries of
/// `row`, from column `from` on.
#[derive(Clone, Copy, Debug)]
struct Begun<'a> {
    unknown: u32,
    from: u32,
    row: &'a [u64],
    early: &'a [u64],
}

impl<'a> LineSystem<'a> {
    /// What the equation that is solved after `start + late` others reads of the unknowns that are solved for before the
    /// last `late` of them.
    fn early_at(&self, start: u32, late: u32) -> Equation
        requires before_end { start + late < op_rows self.now.table }
        ensures { result ≡ early_of (structure_of self.now.table.primed self.now.table.structure)
            (op_rows self.now.table) start late }
    {
        let n = self.size();
        match self.structure() {
            Structure::Upper | Structure::UnitUpper => Equation {
                unknown: n - 1 - (start + late),
                from: n - start,
                len: start,
            },
            Structure::Diagonal => Equation {
                unknown: start + late,
                from: 0,
                len: 0,
            },
            _ => Equation {
                unknown: start + late,
                from: 0,
                len: start,
            },
        }
    }

    /// What it reads of the last `late` of them.
    fn late_at(&self, start: u32, late: u32) -> Equation
        requires before_end { start + late < op_rows self.now.table }
        ensures { result ≡ late_of (structure_of self.now.table.primed self.now.table.structure)
            (op_rows self.now.table) start late }
    {
        let n = self.size();
        match self.structure() {
            Structure::Upper | Structure::UnitUpper => Equation {
                unknown: n - 1 - (start + late),
                from: n - (start + late),
                len: late,
            },
            Structure::Diagonal => Equation {
                unknown: start + late,
                from: 0,
                len: 0,
            },
            _ => Equation {
                unknown: start + late,
                from: start,
                len: late,
            },
        }
    }
}

/// So many numbers of a list, from a place on.
fn numbers_from(list: &[u64], start: usize, len: usize) -> &[u64]
    requires { start + len ≤ length list.now }
    ensures len { length result.now ≡ len }
    ensures entries { (k : ℕ) → k < len
        → slice_index result.now k ≡ slice_index list.now (start + k) }
{
    &list[start..start + len]
}

/// What an equation reads of the rows of a band.
fn row_of_band<'b>(system: &LineSystem<'_>, rows: BandRows<'b>, e: Equation) -> &'b [u64]
    requires rows { AreBandRows system.now.table rows.band rows.entries.now }
    requires equation { IsInBand rows.band e }
    ensures len { length result.now ≡ e.len }
    ensures entries { (k : ℕ) → k < e.len
        → slice_index result.now k ≡ op_table system.now.table e.unknown (e.from + k) }
{
    let band = rows.band;
    let start = (e.unknown - band.row) as usize * band.width as usize;
    let start = start + (e.from - band.from) as usize;
    numbers_from(rows.entries, start, e.len as usize)
}

/// A sum to which the products of two short rows are added, modulo m.
fn late_sum(m: Reducer, early: u64, row: &[u64], line: &[u64]) -> u64
    requires len { length line.now ≡ length row.now }
    requires early { early < 2 ^ 32 }
    requires few { length row.now < 2 ^ 31 }
    requires small_row { (k : ℕ) → k < length row.now → slice_index row.now k < 2 ^ 32 }
    requires small_line { (k : ℕ) → k < length row.now → slice_index line.now k < 2 ^ 32 }
    ensures value { result ≡ (early + sum_below
        (λ k. slice_index row.now k * slice_index line.now k)
        (length row.now)) % m }
    ensures range { result < m }
{
    let mut sum = early;
    for k in 0..row.len() {
        sum += m.product(row[k], line[k]);
    }
    m.residue(sum)
}

/// What an equation reads of the other unknowns of each line of a panel, which holds them from `from` on.
fn late_sums(m: Reducer, e: Begun<'_>, panel: Panel<'_>, sums: &mut [u64])
    requires count { length e.early.now ≡ length sums.old }
    requires lines { length sums.old * panel.height ≤ length panel.entries.now }
    requires within { panel.from + length e.row.now ≤ panel.height }
    requires early { (g : ℕ) → g < length sums.old → slice_index e.early.now g < 2 ^ 32 }
    requires few { length e.row.now < 2 ^ 31 }
    requires small_row { (k : ℕ) → k < length e.row.now → slice_index e.row.now k < 2 ^ 32 }
    requires small_panel { (g k : ℕ) → g < length sums.old → k < length e.row.now
        → slice_index panel.entries.now (g * panel.height + (panel.from + k)) < 2 ^ 32 }
    ensures sums { (g : ℕ) → g < length sums.old
        → slice_index sums.new g ≡ (slice_index e.entry.early.now g
        + sum_below (λ k. slice_index e.entry.row.now k
        * slice_index panel.entry.entries.now (g * panel.entry.height + (panel.entry.from + k)))
        (length e.entry.row.now)) % m }
    ensures range { (g : ℕ) → g < length sums.old → slice_index sums.new g < m }
{
    for g in 0..sums.len() {
        let line = panel.line(g, e.row.len());
        sums[g] = late_sum(m, e.early[g], e.row, line);
    }
}

/// Solves an equation on each line of a panel. `sums` has room for one number for each line.
fn solve_begun(
    system: &LineSystem<'_>,
    first: u32,
    e: Begun<'_>,
    panel: &mut [u64],
    sums: &mut [u64],
)
    requires ready { IsReady system.now }
    requires below { e.unknown < op_rows system.now.table }
    requires within { e.from + length e.row.now ≤ op_rows system.now.table }
    requires count { length e.early.now ≡ length sums.old }
    requires lines { first + length sums.old < 2 ^ 32 }
    requires few { op_rows system.now.table < 2 ^ 31 }
    requires room { length sums.old * op_rows system.now.table ≤ length panel.old }
    requires row { (k : ℕ) → k < length e.row.now
        → slice_index e.row.now k ≡ op_table system.now.table e.unknown (e.from + k) }
    requires early { (g : ℕ) → g < length sums.old
        → slice_index e.early.now g < system.now.reducer }
    requires residues { (g k : ℕ) → g < length sums.old → k < op_rows system.now.table
        → line_of panel.old (op_rows system.now.table) g k < system.now.reducer }
    ensures solved { (before : ℕ → ℕ → ℕ)
        → ((g : ℕ) → g < length sums.old → Cong system.now.reducer (slice_index e.entry.early.now g
        + sum_below (λ k. slice_index e.entry.row.now k
        * line_of panel.old (op_rows system.now.table) g (e.entry.from + k))
        (length e.entry.row.now))
        (sum_below (without e.entry.unknown (λ k. op_table system.now.table e.entry.unknown k
        * line_of panel.old (op_rows system.now.table) g k)) (op_rows system.now.table)))
        → AreSolvedTo system.now first (length sums.old) before panel.old
        (order_in system.now.table e.entry.unknown)
        → AreSolvedTo system.now first (length sums.old) before panel.new
        (order_in system.now.table e.entry.unknown + 1) }
    ensures others { (g k : ℕ) → k < op_rows system.now.table → k ≢ e.entry.unknown
        → line_of panel.new (op_rows system.now.table) g k
        ≡ line_of panel.old (op_rows system.now.table) g k }
    ensures residues { (g k : ℕ) → g < length sums.old → k < op_rows system.now.table
        → line_of panel.new (op_rows system.now.table) g k < system.now.reducer }
{
    system.has_residues();
    let lines = Panel {
        entries: panel,
        height: system.size() as usize,
        from: e.from as usize,
    };
    late_sums(system.reducer, e, lines, sums);
    let inverse = system.inverse_at(e.unknown);
    put_unknowns(system, first, e.unknown, inverse, panel, sums);
}

/// Adds up, for at most three equations and each line of a panel, what they read of the unknowns that come before all of them.
/// Those of equation s stand from s * lines on.
fn early_sums(
    system: &LineSystem<'_>,
    lines: usize,
    group: Group,
    rows: BandRows<'_>,
    panel: &[u64],
    sums: &mut [u64],
)
    requires ready { IsReady system.now }
    requires some { 0 < group.count }
    requires at_most_three { group.count ≤ 3 }
    requires within { group.start + group.count ≤ op_rows system.now.table }
    requires rows { AreBandRows system.now.table rows.band rows.entries.now }
    requires band { (s : ℕ) → s < group.count → IsInBand rows.band
        (early_of (structure_of system.now.table.primed system.now.table.structure)
        (op_rows system.now.table) group.start s) }
    requires few { op_rows system.now.table < 2 ^ 31 }
    requires room { lines * op_rows system.now.table ≤ length panel.now }
    requires sizes { length sums.old ≡ 3 * lines }
    requires residues { (g k : ℕ) → g < lines → k < op_rows system.now.table
        → line_of panel.now (op_rows system.now.table) g k < system.now.reducer }
    ensures sums { (s : ℕ) → s < group.count → AreSpanSums system.now
        (early_of (structure_of system.now.table.primed system.now.table.structure)
        (op_rows system.now.table) group.start s)
        lines panel.now (λ g. slice_index sums.new (s * lines + g)) }
    ensures range { (p : ℕ) → p < 3 * lines → slice_index sums.new p < system.now.reducer }
{
    system.has_residues();
    let first = system.early_at(group.start, 0);
    let second = system.early_at(group.start, u32::min(1, group.count - 1));
    let third = system.early_at(group.start, u32::min(2, group.count - 1));
    let three = Rows {
        first: row_of_band(system, rows, first),
        second: row_of_band(system, rows, second),
        third: row_of_band(system, rows, third),
    };
    let solved = Panel {
        entries: panel,
        height: system.size() as usize,
        from: first.from as usize,
    };
    three_row_sums(system.reducer, three, solved, lines, sums);
}

/// Solves at most three equations on each line of a panel, one after another. `scratch` has room for four numbers for each line.
pub(crate) fn solve_three(
    system: &LineSystem<'_>,
    lines: Lines,
    group: Group,
    rows: BandRows<'_>,
    panel: &mut [u64],
    scratch: &mut [u64],
)
    requires ready { IsReady system.now }
    requires some { 0 < group.count }
    requires at_most_three { group.count ≤ 3 }
    requires within { group.start + group.count ≤ op_rows system.now.table }
    requires rows { AreBandRows system.now.table rows.band rows.entries.now }
    requires band { (s : ℕ) → s < group.count → IsInBand rows.band
        (equation_of (structure_of system.now.table.primed system.now.table.structure)
        (op_rows system.now.table) (group.start + s)) }
    requires lines { lines.first + lines.count < 2 ^ 32 }
    requires few { op_rows system.now.table < 2 ^ 31 }
    requires room { lines.count * op_rows system.now.table ≤ length panel.old }
    requires scratch { length scratch.old ≡ 4 * lines.count }
    requires residues { (g k : ℕ) → g < lines.count → k < op_rows system.now.table
        → line_of panel.old (op_rows system.now.table) g k < system.now.reducer }
    ensures solved { (before : ℕ → ℕ → ℕ)
        → AreSolvedTo system.now lines.first lines.count before panel.old group.start
        → AreSolvedTo system.now lines.first lines.count before panel.new
        (group.start + group.count) }
    ensures residues { (g k : ℕ) → g < lines.count → k < op_rows system.now.table
        → line_of panel.new (op_rows system.now.table) g k < system.now.reducer }
{
    let (early, sums) = scratch.split_at_mut(3 * lines.count);
    early_sums(system, lines.count, group, rows, panel, early);
    for s in 0..group.count {
        let whole = system.equation_at(group.start + s);
        let late = system.late_at(group.start, s);
        let e = Begun {
            unknown: whole.unknown,
            from: late.from,
            row: row_of_band(system, rows, late),
            early: numbers_from(early, s as usize * lines.count, lines.count),
        };
        solve_begun(system, lines.first, e, panel, sums);
    }
}
