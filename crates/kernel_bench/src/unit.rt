//! The product by the plain loop, which rates of kernels are compared with: row by row, each sum as one number of 128 bits
//! that is reduced once.

ghost use Rattle.std.specs.Prelude.{◌≡◌, ℕ, ◌+◌, ◌*◌, ◌%◌, ◌<◌, ◌≤◌, ◌^◌, ◌⊎◌, length, slice_index, All};
ghost use Rattle.residue_sums.specs.Sums.{sum_below};
ghost use Rattle.residue_sums.specs.Tables.{times};
ghost use Rattle.residue_sums.specs.Grids.{AreResidues, entry};
ghost use Rattle.kernel_bench.specs.Squares.{HasProduct};

use field_word::Modulus;
use matrix_core::Matrix;

/// Adds x times each number of the row to the sum in its place.
fn add_multiple(sums: &mut [u128], x: u64, row: &[u64])
    requires places { length row.now ≡ length sums.old }
    requires room { (j : ℕ) → j < length sums.old
        → slice_index sums.old j + x * slice_index row.now j < 2 ^ 128 }
    ensures { (j : ℕ) → j < length sums.old
        → slice_index sums.new j ≡ slice_index sums.old j + x * slice_index row.now j }
{
    for j in 0..sums.len() {
        sums[j] += u128::from(x) * u128::from(row[j]);
    }
}

/// Makes the sums those of one row of a product, as whole numbers: of the row, and the columns of the matrix b.
fn multiply_row(sums: &mut [u128], row: &[u64], b: &Matrix)
    requires inner { b.now.rows ≡ length row.now }
    requires few { length row.now < 2 ^ 32 }
    requires places { length sums.old ≡ b.now.cols }
    requires first { All (λ x. x < 2 ^ 32) row.now }
    requires second { AreResidues (2 ^ 32) b.now }
    ensures sums { (j : ℕ) → j < b.now.cols
        → slice_index sums.new j ≡ sum_below (λ k. slice_index row.now k * entry b.now k j)
        (length row.now) }
{
    let cols = sums.len();
    let entries = b.entries();
    sums.fill(0);
    for k in 0..row.len() {
        add_multiple(sums, row[k], &entries[k * cols..k * cols + cols]);
    }
}

/// Adds the residues of the sums to the entries from a place on.
fn add_reduced(m: Modulus, entries: &mut [u64], start: usize, sums: &[u128])
    requires within { start + length sums.now ≤ length entries.old }
    requires residues { All (λ x. x < m) entries.old }
    ensures here { (j : ℕ) → j < length sums.now
        → slice_index entries.new (start + j)
        ≡ (slice_index entries.old (start + j) + slice_index sums.now j % m) % m }
    ensures others { (p : ℕ) → (p < start) ⊎ (start + length sums.now ≤ p)
        → slice_index entries.new p ≡ slice_index entries.old p }
    ensures residues { All (λ x. x < m) entries.new }
{
    for j in 0..sums.len() {
        let residue = (sums[j] % u128::from(m.value())) as u64;
        entries[start + j] = m.add(entries[start + j], residue);
    }
}

/// Adds row i of a product to the entries in its places.
fn add_row(
    m: Modulus,
    entries: &mut [u64],
    sums: &mut [u128],
    first: &Matrix,
    second: &Matrix,
    i: usize,
)
    requires row_in { i < first.now.rows }
    requires width { length sums.old ≡ second.now.cols }
    requires places { length entries.old ≡ first.now.rows * second.now.cols }
    requires inner { second.now.rows ≡ first.now.cols }
    requires residues { All (λ x. x < m) entries.old }
    requires first { AreResidues m first.now }
    requires second { AreResidues m second.now }
    ensures here { (j : ℕ) → j < second.now.cols → slice_index entries.new (i * second.now.cols + j)
        ≡ (slice_index entries.old (i * second.now.cols + j) + times m first.now.cols (entry first.now) (entry second.now) i j) % m }
    ensures others { (p : ℕ) → (p < i * second.now.cols)
        ⊎ (i * second.now.cols + second.now.cols ≤ p)
        → slice_index entries.new p ≡ slice_index entries.old p }
    ensures residues { All (λ x. x < m) entries.new }
{
    let (inner, cols) = (first.cols() as usize, second.cols() as usize);
    let row = &first.entries()[i * inner..i * inner + inner];
    multiply_row(sums, row, second);
    add_reduced(m, entries, i * cols, sums);
}

/// Adds the product of two matrices modulo m to the entries of a third, row by row. `sums` has room for a row of it.
pub(crate) fn add_product(
    m: Modulus,
    entries: &mut [u64],
    sums: &mut [u128],
    first: &Matrix,
    second: &Matrix,
)
    requires places { length entries.old ≡ first.now.rows * second.now.cols }
    requires width { length sums.old ≡ second.now.cols }
    requires inner { second.now.rows ≡ first.now.cols }
    requires residues { All (λ x. x < m) entries.old }
    requires first { AreResidues m first.now }
    requires second { AreResidues m second.now }
    ensures product { HasProduct m first.now.rows first.now second.now entries.old entries.new }
    ensures residues { All (λ x. x < m) entries.new }
{
    for i in 0..first.rows() as usize {
        add_row(m, entries, sums, first, second, i);
    }
}
