ghost use Rattle.std.specs.Prelude.{◌≡◌, ℕ, ◌+◌, ◌*◌, ◌%◌, ◌<◌, ◌≤◌, ◌^◌, length, slice_index};
ghost use Rattle.residue_sums.specs.Sums.{sum_below};
ghost use Rattle.row_products.specs.HalfSums.{IsHalfSums};

use crate::halves::Halves;
use crate::panel::Panel;
use crate::reducer::Reducer;

/// One value for each of four lines.
#[derive(Clone, Copy, Debug)]
struct Four<T> {
    first: T,
    second: T,
    third: T,
    fourth: T,
}

/// The sums of the products of a row and of four lines of its length.
fn four_halves(row: &[u64], lines: Four<&[u64]>) -> Four<Halves>
    requires first { length lines.first.now ≡ length row.now }
    requires second { length lines.second.now ≡ length row.now }
    requires third { length lines.third.now ≡ length row.now }
    requires fourth { length lines.fourth.now ≡ length row.now }
    requires small_row { (k : ℕ) → k < length row.now → slice_index row.now k < 2 ^ 32 }
    requires small_first { (k : ℕ) → k < length row.now → slice_index lines.first.now k < 2 ^ 32 }
    requires small_second { (k : ℕ) → k < length row.now → slice_index lines.second.now k < 2 ^ 32 }
    requires small_third { (k : ℕ) → k < length row.now → slice_index lines.third.now k < 2 ^ 32 }
    requires small_fourth { (k : ℕ) → k < length row.now → slice_index lines.fourth.now k < 2 ^ 32 }
    ensures first { IsHalfSums (λ k. slice_index row.now k * slice_index lines.entry.first.now k)
        (length row.now) result.first.low result.first.high }
    ensures second { IsHalfSums (λ k. slice_index row.now k * slice_index lines.entry.second.now k)
        (length row.now) result.second.low result.second.high }
    ensures third { IsHalfSums (λ k. slice_index row.now k * slice_index lines.entry.third.now k)
        (length row.now) result.third.low result.third.high }
    ensures fourth { IsHalfSums (λ k. slice_index row.now k * slice_index lines.entry.fourth.now k)
        (length row.now) result.fourth.low result.fourth.high }
{
    let mut first = Halves::NONE;
    let mut second = Halves::NONE;
    let mut third = Halves::NONE;
    let mut fourth = Halves::NONE;
    for k in 0..row.len() {
        first = first.plus(row[k], lines.first[k]);
        second = second.plus(row[k], lines.second[k]);
        third = third.plus(row[k], lines.third[k]);
        fourth = fourth.plus(row[k], lines.fourth[k]);
    }
    Four {
        first,
        second,
        third,
        fourth,
    }
}

/// Writes the sums of up to four lines from line j on. Where fewer are left, the last line stands for those beyond it.
fn put_four_sums(m: Reducer, row: &[u64], panel: Panel<'_>, j: usize, sums: &mut [u64])
    requires here { j < length sums.old }
    requires lines { length sums.old * panel.height ≤ length panel.entries.now }
    requires within { panel.from + length row.now ≤ panel.height }
    requires few { length row.now < 2 ^ 31 }
    requires small_row { (k : ℕ) → k < length row.now → slice_index row.now k < 2 ^ 32 }
    requires small_panel { (j k : ℕ) → j < length sums.old → k < length row.now
        → slice_index panel.entries.now (j * panel.height + (panel.from + k)) < 2 ^ 32 }
    ensures sums { (i : ℕ) → j ≤ i → i < j + 4 → i < length sums.old → slice_index sums.new i
        ≡ sum_below (λ k. slice_index row.now k
        * slice_index panel.entry.entries.now (i * panel.entry.height + (panel.entry.from + k)))
        (length row.now) % m }
    ensures before { (i : ℕ) → i < j → slice_index sums.new i ≡ slice_index sums.old i }
    ensures positive { 0 < m }
{
    let n = row.len();
    let last = sums.len() - 1;
    let second = usize::min(j + 1, last);
    let third = usize::min(j + 2, last);
    let fourth = usize::min(j + 3, last);
    let halves = four_halves(
        row,
        Four {
            first: panel.line(j, n),
            second: panel.line(second, n),
            third: panel.line(third, n),
            fourth: panel.line(fourth, n),
        },
    );
    sums[j] = halves.first.residue(m);
    sums[second] = halves.second.residue(m);
    sums[third] = halves.third.residue(m);
    sums[fourth] = halves.fourth.residue(m);
}

/// For each line j of the panel below the length of `sums`: the sum of the products of the row and of that line's numbers
/// from `from` on, modulo m.
///
/// The panel has at least that many lines, of at least `from` numbers and as many as the row has. The row and the lines have
/// numbers below 2^32, and the row has fewer than 2^31 of them.
pub fn row_sums(m: Reducer, row: &[u64], panel: Panel<'_>, sums: &mut [u64])
    requires lines { length sums.old * panel.height ≤ length panel.entries.now }
    requires within { panel.from + length row.now ≤ panel.height }
    requires few { length row.now < 2 ^ 31 }
    requires small_row { (k : ℕ) → k < length row.now → slice_index row.now k < 2 ^ 32 }
    requires small_panel { (j k : ℕ) → j < length sums.old → k < length row.now
        → slice_index panel.entries.now (j * panel.height + (panel.from + k)) < 2 ^ 32 }
    ensures sums { (j : ℕ) → j < length sums.old → slice_index sums.new j
        ≡ sum_below (λ k. slice_index row.now k
        * slice_index panel.entry.entries.now (j * panel.entry.height + (panel.entry.from + k)))
        (length row.now) % m }
    ensures range { (j : ℕ) → j < length sums.old → slice_index sums.new j < m }
{
    for four in 0..sums.len().div_ceil(4) {
        put_four_sums(m, row, panel, 4 * four, sums);
    }
}
