//! The entries of one row in a piece of columns that is factored in place: what is left of the row once the products with the
//! columns before the piece, and with those of the piece itself, are subtracted, divided by pivots below the diagonal.

ghost use Rattle.std.specs.Prelude.{◌≡◌, ◌≢◌, ℕ, ◌+◌, ◌-◌, ◌*◌, ◌/◌, ◌%◌, ◌^◌, ◌<◌, ◌≤◌, min, length, slice_index};
ghost use Rattle.residue_sums.specs.Residues.{Cong, IsModulus};
ghost use Rattle.residue_sums.specs.Sums.{sum_below};
ghost use Rattle.part_factors.specs.PanelRows.{in_panel, AreSolved};

use row_products::{Panel, Reducer, row_sums};

const LIMIT: u64 = 1 << 32;

/// The sum of the products of two runs of numbers below 2^32, modulo m. It is kept in two exact halves, so that short runs,
/// for which this is meant, need one reduction alone.
pub(crate) fn product_sum(m: Reducer, xs: &[u64], ys: &[u64]) -> u64
    requires len { length ys.now ≡ length xs.now }
    requires few { length xs.now < 2 ^ 31 }
    requires small_xs { (k : ℕ) → k < length xs.now → slice_index xs.now k < 2 ^ 32 }
    requires small_ys { (k : ℕ) → k < length xs.now → slice_index ys.now k < 2 ^ 32 }
    ensures value { result
        ≡ sum_below (λ k. slice_index xs.now k * slice_index ys.now k) (length xs.now) % m }
    ensures range { result < m }
{
    let _modulus = m.modulus();
    let mut low = 0;
    let mut high = 0;
    for k in 0..xs.len() {
        let product = xs[k] * ys[k];
        low += product % LIMIT;
        high += product / LIMIT;
    }
    let top = m.residue(high + low / LIMIT);
    m.residue(top * LIMIT + low % LIMIT)
}

/// What is left of r once a sum is subtracted, and the products of the first values and of the numbers of a line.
fn rest_of(m: Reducer, r: u64, sum: u64, values: &[u64], line: &[u64]) -> u64
    requires r { r < m }
    requires sum { sum < m }
    requires within { length line.now ≤ length values.now }
    requires few { length line.now < 2 ^ 31 }
    requires small_values { (k : ℕ) → k < length line.now → slice_index values.now k < m }
    requires small_line { (k : ℕ) → k < length line.now → slice_index line.now k < m }
    ensures value { Cong m
        (sum + sum_below (λ k. slice_index values.now k * slice_index line.now k) (length line.now)
        + result) r }
    ensures range { result < m }
{
    let modulus = m.modulus();
    let first = modulus.sub(r, sum);
    let more = product_sum(m, &values[..line.len()], line);
    modulus.sub(first, more)
}

/// The residue x times inverse j, where there is one, and else x.
fn divided(m: Reducer, x: u64, inverses: &[u64], j: usize) -> u64
    requires x { x < m }
    requires small { (k : ℕ) → k < length inverses.now → slice_index inverses.now k < m }
    ensures below { j < length inverses.now → result ≡ (x * slice_index inverses.now j) % m }
    ensures above { length inverses.now ≤ j → result ≡ x }
    ensures range { result < m }
{
    let _modulus = m.modulus();
    if j < inverses.len() {
        m.product(x, inverses[j])
    } else {
        x
    }
}

/// Turns sums into the entries of a row, one after another: what is left of entry j without sum j, and without the products
/// of the entries before j and of line j of the panel, times inverse j. There are as many such products as inverses at most,
/// and an entry without an inverse isn't multiplied.
fn solve_row(m: Reducer, row: &[u64], panel: Panel<'_>, inverses: &[u64], values: &mut [u64])
    requires len_row { length row.now ≡ length values.old }
    requires known { length inverses.now ≤ length values.old }
    requires few { length values.old < 2 ^ 31 }
    requires lines { length values.old * panel.height ≤ length panel.entries.now }
    requires within { panel.from + length inverses.now ≤ panel.height }
    requires small_row { (j : ℕ) → j < length values.old → slice_index row.now j < m }
    requires small_sums { (j : ℕ) → j < length values.old → slice_index values.old j < m }
    requires small_inverses { (j : ℕ) → j < length inverses.now → slice_index inverses.now j < m }
    requires small_panel { (j k : ℕ) → j < length values.old → k < length inverses.now → k < j
        → slice_index panel.entries.now (j * panel.height + (panel.from + k)) < m }
    ensures solved { AreSolved m (λ j. slice_index row.now j) (λ j. slice_index values.old j)
        (λ j. slice_index inverses.now j)
        (in_panel panel.entry.entries.now panel.entry.height panel.entry.from)
        (length inverses.now) (length values.old) (λ j. slice_index values.new j) }
    ensures range { (j : ℕ) → j < length values.old → slice_index values.new j < m }
{
    let _modulus = m.modulus();
    for j in 0..values.len() {
        let line = panel.line(j, usize::min(j, inverses.len()));
        let rest = rest_of(m, row[j], values[j], values, line);
        values[j] = divided(m, rest, inverses, j);
    }
}

/// The entries of row i from the first column of a piece on: of the whole row, and of the panel with the lines of the piece,
/// whose numbers from `from` on belong to the piece itself. Below the diagonal each is multiplied by the inverse of its pivot.
pub(crate) fn row_values(
    m: Reducer,
    row: &[u64],
    i: usize,
    panel: Panel<'_>,
    inverses: &[u64],
    values: &mut [u64],
)
    requires within { panel.from + length values.old ≤ length row.now }
    requires pivots { length values.old ≤ length inverses.now }
    requires few { length row.now < 2 ^ 31 }
    requires lines { length values.old * panel.height ≤ length panel.entries.now }
    requires height { panel.from + length values.old ≤ panel.height }
    requires small_row { (k : ℕ) → k < length row.now → slice_index row.now k < m }
    requires small_inverses { (j : ℕ) → j < length inverses.now → slice_index inverses.now j < m }
    requires small_panel { (j k : ℕ) → j < length values.old → k < i → k < panel.from + j
        → slice_index panel.entries.now (j * panel.height + k) < m }
    ensures range { (j : ℕ) → j < length values.old → slice_index values.new j < m }
    ensures solved { AreSolved m (λ j. slice_index row.now (panel.entry.from + j))
        (λ j. sum_below (λ k. slice_index row.now k
        * in_panel panel.entry.entries.now panel.entry.height 0 j k) (min i panel.entry.from))
        (λ j. slice_index inverses.now j)
        (in_panel panel.entry.entries.now panel.entry.height panel.entry.from)
        (min (i - panel.entry.from) (length values.old)) (length values.old)
        (λ j. slice_index values.new j) }
{
    let _modulus = m.modulus();
    let start = usize::min(i, panel.from);
    let before = Panel {
        entries: panel.entries,
        height: panel.height,
        from: 0,
    };
    row_sums(m, &row[..start], before, values);
    let known = usize::min(i - start, values.len());
    let here = &row[panel.from..panel.from + values.len()];
    solve_row(m, here, panel, &inverses[..known], values);
}

/// How many columns a piece has at most.
pub(crate) const WIDTH: usize = 32;

/// Up to how many rows a part is factored with a small panel, and how many numbers that panel has: those of a whole piece.
pub(crate) const FEW_ROWS: u32 = 128;

pub(crate) const FEW_NUMBERS: usize = 4352;

/// Up to how many rows a part is factored by panels, and how many numbers a large panel has: those of a whole piece of 1,024
/// rows, and of half a piece of 2,048.
pub(crate) const MANY_ROWS: u32 = 2048;

pub(crate) const MANY_NUMBERS: usize = 33024;

/// How many numbers stand unused behind each line of a panel, so that lines of a power of 2 don't share places of a cache.
pub(crate) const LINE_GAP: usize = 8;

/// A row of a matrix in a piece of columns that begins at column `from`, and how many numbers a line of the piece's panel has.
#[derive(Clone, Copy, Debug)]
pub(crate) struct RowPiece {
    pub(crate) row: u32,
    pub(crate) from: u32,
    pub(crate) height: usize,
}

/// Writes one value as number k into each line of a panel.
fn put_column(panel: &mut [u64], height: usize, k: usize, values: &[u64])
    requires lines { length panel.old ≡ length values.now * height }
    requires within { k < height }
    ensures here { (j : ℕ) → j < length values.now
        → in_panel panel.new height 0 j k ≡ slice_index values.now j }
    ensures others { (j p : ℕ) → p < height → p ≢ k
        → in_panel panel.new height 0 j p ≡ in_panel panel.old height 0 j p }
{
    for j in 0..values.len() {
        panel[j * height + k] = values[j];
    }
}

/// Copies the entries of a row in a piece into the piece's panel, one into each line, where the row is one that other rows
/// meet there: down to the last row of the piece's own diagonal.
pub(crate) fn copy_row(panel: &mut [u64], at: RowPiece, values: &[u64])
    requires lines { length panel.old ≡ length values.now * at.height }
    requires within { at.from + length values.now ≤ at.height }
    requires few { length values.now < 2 ^ 31 }
    ensures here { at.row < at.from + length values.now → (j : ℕ) → j < length values.now
        → in_panel panel.new at.height 0 j at.row ≡ slice_index values.now j }
    ensures others { (j p : ℕ) → p < at.height → p ≢ at.row
        → in_panel panel.new at.height 0 j p ≡ in_panel panel.old at.height 0 j p }
{
    let row = at.row as usize;
    if row < at.from as usize + values.len() {
        put_column(panel, at.height, row, values);
    }
}
