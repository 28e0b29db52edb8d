//! Entries of a row of a product. They are added up as whole numbers, a piece of the row at a time, and reduced once.

ghost use Rattle.std.specs.Prelude.{◌≡◌, ℕ, ◌+◌, ◌*◌, ◌%◌, ◌<◌, ◌≤◌, ◌^◌, length, slice_index};
ghost use Rattle.residue_sums.specs.Residues.{IsModulus};
ghost use Rattle.residue_sums.specs.Tables.{product, times, transpose};
ghost use Rattle.residue_sums.specs.Grids.{AreResidues, entry};
ghost use Rattle.structure_rules.specs.declared.Structure.TheVariants.{Diagonal, UnitLower};
ghost use Rattle.structure_rules.specs.Structures.{view};
ghost use Rattle.equation.specs.Candidates.{combined_at, IsReadable, view_cols, view_rows, view_table};

use crate::job::Place;
use crate::views::FactorView;
use field_word::Modulus;
use matrix_core::Matrix;
use structure_rules::Structure;

/// How many entries of a row are added up together.
pub(crate) const PIECE: usize = 64;

/// Makes the sums 0.
fn clear(sums: &mut [u128])
    ensures { (j : ℕ) → j < length sums.old → slice_index sums.new j ≡ 0 }
{
    sums.fill(0);
}

/// Adds x times each number of the row to the sum in its place.
fn add_multiple(sums: &mut [u128], x: u64, row: &[u64])
    requires places { length row.now ≡ length sums.old }
    requires room { (j : ℕ) → j < length sums.old
        → slice_index sums.old j + x * slice_index row.now j < 2 ^ 128 }
    ensures { (j : ℕ) → j < length sums.old
        → slice_index sums.new j ≡ slice_index sums.old j + x * slice_index row.now j }
{
    for j in 0..sums.len() {
        sums[j] += u128::from(x) * u128::from(row[j]);
    }
}

/// Adds x times each entry of row k, from a column on, to the sum in its place.
fn add_entries(sums: &mut [u128], x: u64, v: &FactorView, k: u32, from: u32)
    requires readable { IsReadable (2 ^ 32) v.now }
    requires row_in { k < view_rows v.now }
    requires within { from + length sums.old ≤ view_cols v.now }
    requires places { from + length sums.old < 2 ^ 32 }
    requires room { (j : ℕ) → j < length sums.old
        → slice_index sums.old j + x * view_table v.now k (from + j) < 2 ^ 128 }
    ensures { (j : ℕ) → j < length sums.old
        → slice_index sums.new j ≡ slice_index sums.old j + x * view_table v.now k (from + j) }
{
    for j in 0..sums.len() {
        sums[j] += u128::from(x) * u128::from(v.entry(k, from + j as u32));
    }
}

/// The same, along the stored row where the view reads it as it is stored.
fn add_row(sums: &mut [u128], x: u64, v: &FactorView, k: u32, from: u32)
    requires readable { IsReadable (2 ^ 32) v.now }
    requires row_in { k < view_rows v.now }
    requires within { from + length sums.old ≤ view_cols v.now }
    requires places { from + length sums.old < 2 ^ 32 }
    requires room { (j : ℕ) → j < length sums.old
        → slice_index sums.old j + x * view_table v.now k (from + j) < 2 ^ 128 }
    ensures { (j : ℕ) → j < length sums.old
        → slice_index sums.new j ≡ slice_index sums.old j + x * view_table v.now k (from + j) }
{
    if v.primed || v.structure != Structure::General {
        add_entries(sums, x, v, k, from);
    } else {
        let start = k as usize * v.matrix.cols() as usize + from as usize;
        let end = start + sums.len();
        add_multiple(sums, x, &v.matrix.entries()[start..end]);
    }
}

/// Makes the sums those of row `at.row` of a product, from column `at.col` on. Inner places at which the structures of the
/// factors have zeros are left out.
fn multiply_row(sums: &mut [u128], f: &FactorView, g: &FactorView, at: Place)
    requires first { IsReadable (2 ^ 32) f.now }
    requires second { IsReadable (2 ^ 32) g.now }
    requires inner { view_cols f.now ≡ view_rows g.now }
    requires row_in { at.row < view_rows f.now }
    requires within { at.col + length sums.old ≤ view_cols g.now }
    requires places { at.col + length sums.old < 2 ^ 32 }
    ensures { (j : ℕ) → j < length sums.old
        → slice_index sums.new j ≡ product (view_cols f.now) (view_table f.now)
        (view_table g.now) at.row (at.col + j) }
{
    clear(sums);
    let end = u32::min(f.row_end(at.row), g.col_end(at.col + sums.len() as u32));
    let start = u32::min(end, u32::max(f.row_start(at.row), g.col_start(at.col)));
    for k in start..end {
        let x = f.entry(at.row, k);
        add_row(sums, x, g, k, at.col);
    }
}

/// Makes the sums those of row `at.row` of L * D * L', from column `at.col` on, where the matrix packs L and D. Each
/// L * D is reduced first. The products end at the diagonals of L and of L'.
fn multiply_ldl_row(m: Modulus, sums: &mut [u128], w: &Matrix, at: Place)
    requires modulus { IsModulus m }
    requires residues { AreResidues m w.now }
    requires square { w.now.rows ≡ w.now.cols }
    requires row_in { at.row < w.now.rows }
    requires within { at.col + length sums.old ≤ w.now.cols }
    requires places { at.col + length sums.old < 2 ^ 32 }
    ensures { (j : ℕ) → j < length sums.old → slice_index sums.new j
        ≡ product w.now.rows (times m w.now.rows (view UnitLower (entry w.now)) (view Diagonal (entry w.now))) (transpose (view UnitLower (entry w.now))) at.row (at.col + j) }
{
    let lower = FactorView {
        matrix: w,
        structure: Structure::UnitLower,
        primed: true,
    };
    clear(sums);
    let _rows = w.rows();
    for k in 0..u32::min(at.row + 1, at.col + sums.len() as u32) {
        let x = m.mul(w.view_entry(Structure::UnitLower, at.row, k), w.get(k, k));
        add_row(sums, x, &lower, k, at.col);
    }
}

/// Writes the residues of the sums.
fn reduce(m: Modulus, out: &mut [u64], sums: &[u128])
    requires places { length sums.now ≡ length out.old }
    ensures { (j : ℕ) → j < length out.old → slice_index out.new j ≡ slice_index sums.now j % m }
{
    for j in 0..out.len() {
        out[j] = (sums[j] % u128::from(m.value())) as u64;
    }
}

/// Writes the entries of row `at.row` of a product modulo m, from column `at.col` on.
pub(crate) fn write_product(m: Modulus, out: &mut [u64], f: &FactorView, g: &FactorView, at: Place)
    requires modulus { IsModulus m }
    requires first { IsReadable m f.now }
    requires second { IsReadable m g.now }
    requires inner { view_cols f.now ≡ view_rows g.now }
    requires row_in { at.row < view_rows f.now }
    requires within { at.col + length out.old ≤ view_cols g.now }
    requires few { length out.old ≤ 64 }
    requires places { at.col + length out.old < 2 ^ 32 }
    ensures { (j : ℕ) → j < length out.old
        → slice_index out.new j ≡ times m (view_cols f.now) (view_table f.now)
        (view_table g.now) at.row (at.col + j) }
{
    let mut sums = [0; PIECE];
    let width = out.len();
    multiply_row(&mut sums[..width], f, g, at);
    reduce(m, out, &sums[..width]);
}

/// Writes the entries of row `at.row` of L * D * L' modulo m, from column `at.col` on.
pub(crate) fn write_ldl(m: Modulus, out: &mut [u64], w: &Matrix, at: Place)
    requires modulus { IsModulus m }
    requires residues { AreResidues m w.now }
    requires square { w.now.rows ≡ w.now.cols }
    requires row_in { at.row < w.now.rows }
    requires within { at.col + length out.old ≤ w.now.cols }
    requires few { length out.old ≤ 64 }
    requires places { at.col + length out.old < 2 ^ 32 }
    ensures { (j : ℕ) → j < length out.old → slice_index out.new j
        ≡ times m w.now.rows (times m w.now.rows (view UnitLower (entry w.now)) (view Diagonal (entry w.now))) (transpose (view UnitLower (entry w.now))) at.row (at.col + j) }
{
    let mut sums = [0; PIECE];
    let width = out.len();
    multiply_ldl_row(m, &mut sums[..width], w, at);
    reduce(m, out, &sums[..width]);
}

/// Writes the entries of row `at.row` of a view, from column `at.col` on.
pub(crate) fn write_row(out: &mut [u64], v: &FactorView, at: Place)
    requires readable { IsReadable (2 ^ 32) v.now }
    requires row_in { at.row < view_rows v.now }
    requires within { at.col + length out.old ≤ view_cols v.now }
    requires places { at.col + length out.old < 2 ^ 32 }
    ensures { (j : ℕ) → j < length out.old
        → slice_index out.new j ≡ view_table v.now at.row (at.col + j) }
{
    for j in 0..out.len() {
        out[j] = v.entry(at.row, at.col + j as u32);
    }
}

/// The sum of two residues, or their difference.
pub(crate) fn combined(m: Modulus, minus: bool, a: u64, b: u64) -> u64
    requires first { a < m }
    requires second { b < m }
    ensures value { result ≡ combined_at m minus a b }
    ensures range { result < m }
{
    if minus { m.sub(a, b) } else { m.add(a, b) }
}

/// Adds the residues in their places, or subtracts them.
pub(crate) fn combine(m: Modulus, minus: bool, out: &mut [u64], other: &[u64])
    requires places { length other.now ≡ length out.old }
    requires first { (j : ℕ) → j < length out.old → slice_index out.old j < m }
    requires second { (j : ℕ) → j < length out.old → slice_index other.now j < m }
    ensures { (j : ℕ) → j < length out.old
        → slice_index out.new j ≡ combined_at m minus (slice_index out.old j)
        (slice_index other.now j) }
{
    for j in 0..out.len() {
        out[j] = combined(m, minus, out[j], other[j]);
    }
}
