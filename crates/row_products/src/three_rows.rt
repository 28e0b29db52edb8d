ghost use Rattle.std.specs.Prelude.{◌≡◌, ℕ, ◌+◌, ◌*◌, ◌%◌, ◌<◌, ◌≤◌, ◌^◌, length, slice_index};
ghost use Rattle.residue_sums.specs.Sums.{sum_below};
ghost use Rattle.row_products.specs.HalfSums.{IsHalfSums};

use crate::halves::Halves;
use crate::panel::Panel;
use crate::reducer::Reducer;

/// Three rows of one length.
#[derive(Clone, Copy, Debug)]
pub struct Rows<'a> {
    pub first: &'a [u64],
    pub second: &'a [u64],
    pub third: &'a [u64],
}

/// The sums of the products of three rows and of one line.
#[derive(Clone, Copy, Debug)]
struct Column {
    first: Halves,
    second: Halves,
    third: Halves,
}

/// The sums of three rows and of two lines, which stand side by side.
#[derive(Clone, Copy, Debug)]
struct Tile {
    here: Column,
    next: Column,
}

/// The sums of the products of three rows and of two lines of their length.
fn tile_halves(rows: Rows<'_>, here: &[u64], next: &[u64]) -> Tile
    requires len_second { length rows.second.now ≡ length rows.first.now }
    requires len_third { length rows.third.now ≡ length rows.first.now }
    requires len_here { length here.now ≡ length rows.first.now }
    requires len_next { length next.now ≡ length rows.first.now }
    requires small_first { (k : ℕ) → k < length rows.first.now
        → slice_index rows.first.now k < 2 ^ 32 }
    requires small_second { (k : ℕ) → k < length rows.first.now
        → slice_index rows.second.now k < 2 ^ 32 }
    requires small_third { (k : ℕ) → k < length rows.first.now
        → slice_index rows.third.now k < 2 ^ 32 }
    requires small_here { (k : ℕ) → k < length rows.first.now → slice_index here.now k < 2 ^ 32 }
    requires small_next { (k : ℕ) → k < length rows.first.now → slice_index next.now k < 2 ^ 32 }
    ensures first_here { IsHalfSums
        (λ k. slice_index rows.entry.first.now k * slice_index here.now k)
        (length rows.entry.first.now) result.here.first.low result.here.first.high }
    ensures second_here { IsHalfSums
        (λ k. slice_index rows.entry.second.now k * slice_index here.now k)
        (length rows.entry.first.now) result.here.second.low result.here.second.high }
    ensures third_here { IsHalfSums
        (λ k. slice_index rows.entry.third.now k * slice_index here.now k)
        (length rows.entry.first.now) result.here.third.low result.here.third.high }
    ensures first_next { IsHalfSums
        (λ k. slice_index rows.entry.first.now k * slice_index next.now k)
        (length rows.entry.first.now) result.next.first.low result.next.first.high }
    ensures second_next { IsHalfSums
        (λ k. slice_index rows.entry.second.now k * slice_index next.now k)
        (length rows.entry.first.now) result.next.second.low result.next.second.high }
    ensures third_next { IsHalfSums
        (λ k. slice_index rows.entry.third.now k * slice_index next.now k)
        (length rows.entry.first.now) result.next.third.low result.next.third.high }
{
    let mut first_here = Halves::NONE;
    let mut second_here = Halves::NONE;
    let mut third_here = Halves::NONE;
    let mut first_next = Halves::NONE;
    let mut second_next = Halves::NONE;
    let mut third_next = Halves::NONE;
    for k in 0..rows.first.len() {
        first_here = first_here.plus(rows.first[k], here[k]);
        second_here = second_here.plus(rows.second[k], here[k]);
        third_here = third_here.plus(rows.third[k], here[k]);
        first_next = first_next.plus(rows.first[k], next[k]);
        second_next = second_next.plus(rows.second[k], next[k]);
        third_next = third_next.plus(rows.third[k], next[k]);
    }
    Tile {
        here: Column {
            first: first_here,
            second: second_here,
            third: third_here,
        },
        next: Column {
            first: first_next,
            second: second_next,
            third: third_next,
        },
    }
}

/// Writes the sums of three rows and of lines j and j + 1. Where j is the last line, it stands for the one beyond it.
fn put_tile_sums(
    m: Reducer,
    rows: Rows<'_>,
    panel: Panel<'_>,
    j: usize,
    lines: usize,
    sums: &mut [u64],
)
    requires here { j < lines }
    requires sizes { length sums.old ≡ 3 * lines }
    requires len_second { length rows.second.now ≡ length rows.first.now }
    requires len_third { length rows.third.now ≡ length rows.first.now }
    requires lines { lines * panel.height ≤ length panel.entries.now }
    requires within { panel.from + length rows.first.now ≤ panel.height }
    requires few { length rows.first.now < 2 ^ 31 }
    requires small_first { (k : ℕ) → k < length rows.first.now
        → slice_index rows.first.now k < 2 ^ 32 }
    requires small_second { (k : ℕ) → k < length rows.first.now
        → slice_index rows.second.now k < 2 ^ 32 }
    requires small_third { (k : ℕ) → k < length rows.first.now
        → slice_index rows.third.now k < 2 ^ 32 }
    requires small_panel { (j k : ℕ) → j < lines → k < length rows.first.now
        → slice_index panel.entries.now (j * panel.height + (panel.from + k)) < 2 ^ 32 }
    ensures first { (i : ℕ) → j ≤ i → i < j + 2 → i < lines → slice_index sums.new i
        ≡ sum_below (λ k. slice_index rows.entry.first.now k
        * slice_index panel.entry.entries.now (i * panel.entry.height + (panel.entry.from + k)))
        (length rows.entry.first.now) % m }
    ensures second { (i : ℕ) → j ≤ i → i < j + 2 → i < lines → slice_index sums.new (lines + i)
        ≡ sum_below (λ k. slice_index rows.entry.second.now k
        * slice_index panel.entry.entries.now (i * panel.entry.height + (panel.entry.from + k)))
        (length rows.entry.first.now) % m }
    ensures third { (i : ℕ) → j ≤ i → i < j + 2 → i < lines → slice_index sums.new (2 * lines + i)
        ≡ sum_below (λ k. slice_index rows.entry.third.now k
        * slice_index panel.entry.entries.now (i * panel.entry.height + (panel.entry.from + k)))
        (length rows.entry.first.now) % m }
    ensures before_first { (i : ℕ) → i < j → slice_index sums.new i ≡ slice_index sums.old i }
    ensures before_second { (i : ℕ) → i < j → slice_index sums.new (lines + i)
        ≡ slice_index sums.old (lines + i) }
    ensures before_third { (i : ℕ) → i < j → slice_index sums.new (2 * lines + i)
        ≡ slice_index sums.old (2 * lines + i) }
    ensures positive { 0 < m }
{
    let n = rows.first.len();
    let next = usize::min(j + 1, lines - 1);
    let tile = tile_halves(rows, panel.line(j, n), panel.line(next, n));
    sums[j] = tile.here.first.residue(m);
    sums[next] = tile.next.first.residue(m);
    sums[lines + j] = tile.here.second.residue(m);
    sums[lines + next] = tile.next.second.residue(m);
    sums[2 * lines + j] = tile.here.third.residue(m);
    sums[2 * lines + next] = tile.next.third.residue(m);
}

/// For each of three rows and each line j of the panel below `lines`: the sum of the products of the row and of that line's
/// numbers from `from` on, modulo m. Those of row r stand in `sums` from r * lines on, where `sums` has 3 * lines numbers.
///
/// The panel has at least that many lines, of at least `from` numbers and as many as a row has. Rows and lines have numbers
/// below 2^32, and a row has fewer than 2^31 of them.
pub fn three_row_sums(m: Reducer, rows: Rows<'_>, panel: Panel<'_>, lines: usize, sums: &mut [u64])
    requires sizes { length sums.old ≡ 3 * lines }
    requires len_second { length rows.second.now ≡ length rows.first.now }
    requires len_third { length rows.third.now ≡ length rows.first.now }
    requires lines { lines * panel.height ≤ length panel.entries.now }
    requires within { panel.from + length rows.first.now ≤ panel.height }
    requires few { length rows.first.now < 2 ^ 31 }
    requires small_first { (k : ℕ) → k < length rows.first.now
        → slice_index rows.first.now k < 2 ^ 32 }
    requires small_second { (k : ℕ) → k < length rows.first.now
        → slice_index rows.second.now k < 2 ^ 32 }
    requires small_third { (k : ℕ) → k < length rows.first.now
        → slice_index rows.third.now k < 2 ^ 32 }
    requires small_panel { (j k : ℕ) → j < lines → k < length rows.first.now
        → slice_index panel.entries.now (j * panel.height + (panel.from + k)) < 2 ^ 32 }
    ensures first { (j : ℕ) → j < lines → slice_index sums.new j
        ≡ sum_below (λ k. slice_index rows.entry.first.now k
        * slice_index panel.entry.entries.now (j * panel.entry.height + (panel.entry.from + k)))
        (length rows.entry.first.now) % m }
    ensures second { (j : ℕ) → j < lines → slice_index sums.new (lines + j)
        ≡ sum_below (λ k. slice_index rows.entry.second.now k
        * slice_index panel.entry.entries.now (j * panel.entry.height + (panel.entry.from + k)))
        (length rows.entry.first.now) % m }
    ensures third { (j : ℕ) → j < lines → slice_index sums.new (2 * lines + j)
        ≡ sum_below (λ k. slice_index rows.entry.third.now k
        * slice_index panel.entry.entries.now (j * panel.entry.height + (panel.entry.from + k)))
        (length rows.entry.first.now) % m }
    ensures range { (p : ℕ) → p < 3 * lines → slice_index sums.new p < m }
{
    for pair in 0..lines.div_ceil(2) {
        put_tile_sums(m, rows, panel, 2 * pair, lines, sums);
    }
}
