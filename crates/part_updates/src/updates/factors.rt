//! The columns that a first factor is multiplied by: those of a second one, or of a middle one times the second.

ghost use Rattle.std.specs.Prelude.{◌≡◌, ◌≢◌, ◌⊎◌, true, ℕ, ◌+◌, ◌*◌, ◌%◌, ◌<◌, ◌≤◌, ◌^◌, length, slice_index};
ghost use Rattle.residue_sums.specs.Tables.{times};
ghost use Rattle.structure_rules.specs.declared.Structure.TheVariants.{Diagonal};
ghost use Rattle.matrix_parts.specs.Opers.{op_rows, op_cols, op_table, IsOper};
ghost use Rattle.part_updates.specs.ProductFactors.{second_table, AreFactors, HaveSmallEntries};

use crate::updates::spans::span_of;
use matrix_parts::Oper;
use operand_lines::fill_lines;
use row_products::Reducer;
use structure_rules::Structure;

/// The factors of a product: `first * second`, or `first * middle * second` where it is scaled.
#[derive(Drop)]
pub(crate) struct Factors<'a> {
    pub(crate) first: Oper<'a>,
    pub(crate) middle: Oper<'a>,
    pub(crate) second: Oper<'a>,
    pub(crate) scaled: bool,
}

/// The columns of a product from `left` on, so many, over so many of its inner numbers from `inner` on.
#[derive(Clone, Copy, Debug)]
pub(crate) struct Piece {
    pub(crate) left: u32,
    pub(crate) lines: usize,
    pub(crate) inner: u32,
    pub(crate) height: usize,
}

/// The piece without the inner numbers at which its lines, which are rows of an operand, are all zero by structure.
fn needed_columns(o: &Oper<'_>, piece: Piece) -> Piece
    requires rows_in { piece.left + piece.lines ≤ op_rows o.now }
    requires cols_in { piece.inner + piece.height ≤ op_cols o.now }
    ensures left { result.left ≡ piece.left }
    ensures lines { result.lines ≡ piece.lines }
    ensures from { piece.inner ≤ result.inner }
    ensures within { result.inner + result.height ≤ piece.inner + piece.height }
    ensures zero { (k j : ℕ) → piece.inner ≤ k → k < piece.inner + piece.height → (k < result.inner) ⊎ (result.inner + result.height ≤ k)
        → piece.left ≤ j → j < piece.left + piece.lines → op_table o.now j k ≡ 0 }
{
    let _cols = o.cols();
    let span = span_of(o, piece.left, piece.lines, piece.inner, piece.height);
    Piece {
        left: piece.left,
        lines: piece.lines,
        inner: piece.inner + span.begin as u32,
        height: span.width,
    }
}

/// The piece without the inner numbers at which its columns of the second factor are all zero by structure.
pub(crate) fn needed_of(factors: &Factors<'_>, piece: Piece) -> Piece
    requires cols_in { piece.left + piece.lines ≤ op_cols factors.now.second }
    requires rows_in { piece.inner + piece.height ≤ op_rows factors.now.second }
    ensures left { result.left ≡ piece.left }
    ensures lines { result.lines ≡ piece.lines }
    ensures from { piece.inner ≤ result.inner }
    ensures within { result.inner + result.height ≤ piece.inner + piece.height }
    ensures zero { (m k j : ℕ) → piece.inner ≤ k → k < piece.inner + piece.height → (k < result.inner) ⊎ (result.inner + result.height ≤ k)
        → piece.left ≤ j → j < piece.left + piece.lines → second_table m factors.now k j ≡ 0 }
{
    if factors.scaled {
        piece
    } else {
        needed_columns(&factors.second.turned(), piece)
    }
}

/// Multiplies the numbers of a line, from a place of the panel on, by the diagonal of d from one place on.
fn scale_line(m: Reducer, d: &Oper<'_>, from: u32, panel: &mut [u64], at: usize, height: usize)
    requires oper { IsOper d.now }
    requires rows_in { from + height ≤ op_rows d.now }
    requires cols_in { from + height ≤ op_cols d.now }
    requires room { at + height ≤ length panel.old }
    requires small_d { (k : ℕ) → k < op_rows d.now → op_table d.now k k < 2 ^ 32 }
    requires small { (k : ℕ) → k < height → slice_index panel.old (at + k) < 2 ^ 32 }
    ensures here { (k : ℕ) → k < height → slice_index panel.new (at + k)
        ≡ slice_index panel.old (at + k) * op_table d.now (from + k) (from + k) % m }
    ensures others { (p : ℕ) → (p < at) ⊎ (at + height ≤ p) → slice_index panel.new p ≡ slice_index panel.old p }
{
    let _rows = d.rows();
    for k in 0..height {
        let place = from + k as u32;
        panel[at + k] = m.product(panel[at + k], d.get(place, place));
    }
}

/// Multiplies the numbers of each line of a piece by the diagonal of d.
fn scale_lines(m: Reducer, d: &Oper<'_>, piece: Piece, panel: &mut [u64])
    requires oper { IsOper d.now }
    requires rows_in { piece.inner + piece.height ≤ op_rows d.now }
    requires cols_in { piece.inner + piece.height ≤ op_cols d.now }
    requires room { piece.lines * piece.height ≤ length panel.old }
    requires small_d { (k : ℕ) → k < op_rows d.now → op_table d.now k k < 2 ^ 32 }
    requires small { (g k : ℕ) → g < piece.lines → k < piece.height → slice_index panel.old (g * piece.height + k) < 2 ^ 32 }
    ensures { (g k : ℕ) → g < piece.lines → k < piece.height → slice_index panel.new (g * piece.height + k)
        ≡ slice_index panel.old (g * piece.height + k) * op_table d.now (piece.inner + k) (piece.inner + k) % m }
{
    for g in 0..piece.lines {
        scale_line(m, d, piece.inner, panel, g * piece.height, piece.height);
    }
}

/// The entry in row i and column j of d * b.
fn product_entry(m: Reducer, d: &Oper<'_>, b: &Oper<'_>, i: u32, j: u32) -> u64
    requires opers { IsOper d.now }
    requires oper_b { IsOper b.now }
    requires row_in { i < op_rows d.now }
    requires col_in { j < op_cols b.now }
    requires inner { op_rows b.now ≡ op_cols d.now }
    requires small_d { (i k : ℕ) → i < op_rows d.now → k < op_cols d.now → op_table d.now i k < 2 ^ 32 }
    requires small_b { (k j : ℕ) → k < op_rows b.now → j < op_cols b.now → op_table b.now k j < 2 ^ 32 }
    ensures { result ≡ times m (op_cols d.now) (op_table d.now) (op_table b.now) i j }
{
    let modulus = m.modulus();
    let mut sum = 0;
    for k in 0..d.cols() {
        sum = modulus.add(sum, m.product(d.get(i, k), b.get(k, j)));
    }
    sum
}

/// Writes number k of each line of a piece, whose lines are columns of d * b.
fn product_across(m: Reducer, d: &Oper<'_>, b: &Oper<'_>, piece: Piece, k: usize, panel: &mut [u64])
    requires oper_d { IsOper d.now }
    requires oper_b { IsOper b.now }
    requires inner { op_rows b.now ≡ op_cols d.now }
    requires cols_in { piece.left + piece.lines ≤ op_cols b.now }
    requires rows_in { piece.inner + piece.height ≤ op_rows d.now }
    requires inside { k < piece.height }
    requires room { piece.lines * piece.height ≤ length panel.old }
    requires small_d { (i k : ℕ) → i < op_rows d.now → k < op_cols d.now → op_table d.now i k < 2 ^ 32 }
    requires small_b { (k j : ℕ) → k < op_rows b.now → j < op_cols b.now → op_table b.now k j < 2 ^ 32 }
    ensures here { (g : ℕ) → g < piece.lines → slice_index panel.new (g * piece.height + k)
        ≡ times m (op_cols d.now) (op_table d.now) (op_table b.now) (piece.inner + k) (piece.left + g) }
    ensures others { (g q : ℕ) → q < piece.height → q ≢ k → slice_index panel.new (g * piece.height + q) ≡ slice_index panel.old (g * piece.height + q) }
{
    let _sizes = (d.rows(), b.cols());
    let row = piece.inner + k as u32;
    for g in 0..piece.lines {
        panel[g * piece.height + k] = product_entry(m, d, b, row, piece.left + g as u32);
    }
}

/// Writes the lines of a piece, which are columns of d * b.
fn fill_products(m: Reducer, d: &Oper<'_>, b: &Oper<'_>, piece: Piece, panel: &mut [u64])
    requires oper_d { IsOper d.now }
    requires oper_b { IsOper b.now }
    requires inner { op_rows b.now ≡ op_cols d.now }
    requires cols_in { piece.left + piece.lines ≤ op_cols b.now }
    requires rows_in { piece.inner + piece.height ≤ op_rows d.now }
    requires room { piece.lines * piece.height ≤ length panel.old }
    requires small_d { (i k : ℕ) → i < op_rows d.now → k < op_cols d.now → op_table d.now i k < 2 ^ 32 }
    requires small_b { (k j : ℕ) → k < op_rows b.now → j < op_cols b.now → op_table b.now k j < 2 ^ 32 }
    ensures { (g k : ℕ) → g < piece.lines → k < piece.height → slice_index panel.new (g * piece.height + k)
        ≡ times m (op_cols d.now) (op_table d.now) (op_table b.now) (piece.inner + k) (piece.left + g) }
{
    for k in 0..piece.height {
        product_across(m, d, b, piece, k, panel);
    }
}

/// Writes the lines of a piece, which are columns of d * b, where d is diagonal.
fn fill_scaled(m: Reducer, d: &Oper<'_>, b: &Oper<'_>, piece: Piece, panel: &mut [u64])
    requires diagonal { d.now.structure ≡ Diagonal }
    requires oper_d { IsOper d.now }
    requires oper_b { IsOper b.now }
    requires inner { op_rows b.now ≡ op_cols d.now }
    requires square { op_rows d.now ≡ op_cols d.now }
    requires cols_in { piece.left + piece.lines ≤ op_cols b.now }
    requires rows_in { piece.inner + piece.height ≤ op_rows d.now }
    requires room { piece.lines * piece.height ≤ length panel.old }
    requires small_d { (i k : ℕ) → i < op_rows d.now → k < op_cols d.now → op_table d.now i k < 2 ^ 32 }
    requires small_b { (k j : ℕ) → k < op_rows b.now → j < op_cols b.now → op_table b.now k j < 2 ^ 32 }
    ensures { (g k : ℕ) → g < piece.lines → k < piece.height → slice_index panel.new (g * piece.height + k)
        ≡ times m (op_cols d.now) (op_table d.now) (op_table b.now) (piece.inner + k) (piece.left + g) }
{
    fill_lines(
        &b.turned(),
        piece.left,
        piece.inner,
        piece.height,
        piece.lines,
        panel,
    );
    scale_lines(m, d, piece, panel);
}

/// Writes the lines of a piece, which are columns of middle * second.
fn fill_middle(m: Reducer, factors: &Factors<'_>, piece: Piece, panel: &mut [u64])
    requires factors { AreFactors factors.now }
    requires scaled { factors.now.scaled ≡ true }
    requires cols_in { piece.left + piece.lines ≤ op_cols factors.now.second }
    requires rows_in { piece.inner + piece.height ≤ op_cols factors.now.first }
    requires room { piece.lines * piece.height ≤ length panel.old }
    requires small { HaveSmallEntries factors.now }
    ensures { (g k : ℕ) → g < piece.lines → k < piece.height → slice_index panel.new (g * piece.height + k)
        ≡ times m (op_cols factors.now.middle) (op_table factors.now.middle) (op_table factors.now.second) (piece.inner + k) (piece.left + g) }
{
    if factors.middle.structure == Structure::Diagonal {
        fill_scaled(m, &factors.middle, &factors.second, piece, panel);
    } else {
        fill_products(m, &factors.middle, &factors.second, piece, panel);
    }
}

/// Writes the lines of a piece, which are columns of what the first factor is multiplied by.
pub(crate) fn fill_second(m: Reducer, factors: &Factors<'_>, piece: Piece, panel: &mut [u64])
    requires factors { AreFactors factors.now }
    requires cols_in { piece.left + piece.lines ≤ op_cols factors.now.second }
    requires rows_in { piece.inner + piece.height ≤ op_cols factors.now.first }
    requires room { piece.lines * piece.height ≤ length panel.old }
    requires small { HaveSmallEntries factors.now }
    ensures lines { (g k : ℕ) → g < piece.lines → k < piece.height
        → slice_index panel.new (g * piece.height + k) ≡ second_table m factors.now (piece.inner + k) (piece.left + g) }
    ensures range { (g k : ℕ) → g < piece.lines → k < piece.height → slice_index panel.new (g * piece.height + k) < 2 ^ 32 }
{
    let _modulus = m.modulus();
    if factors.scaled {
        fill_middle(m, factors, piece, panel);
    } else {
        fill_lines(
            &factors.second.turned(),
            piece.left,
            piece.inner,
            piece.height,
            piece.lines,
            panel,
        );
    }
}
