//! A triangular system that is solved in place, over slices that hold matrices row by row.

ghost use Rattle.std.specs.Prelude.{◌≡◌, ℕ, ◌+◌, ◌*◌, ◌%◌, ◌<◌, ◌≤◌, All, length, slice_index};
ghost use Rattle.residue_sums.specs.Residues.{Cong};
ghost use Rattle.residue_sums.specs.Sums.{sum_below};
ghost use Rattle.residue_sums.specs.Tables.{product};
ghost use Rattle.structure_rules.specs.declared.Structure.TheVariants.{Lower};
ghost use Rattle.structure_rules.specs.Structures.{view};
ghost use Rattle.algebra_witness.specs.Entries.{entries};

use field_word::Modulus;

/// Which products are added up: the first `count` along a row of a matrix with `inner` columns and down a column of one
/// with `cols` columns.
#[derive(Clone, Copy)]
pub struct Products {
    pub inner: usize,
    pub cols: usize,
    pub row: usize,
    pub col: usize,
    pub count: usize,
}

/// The sum of these products of the entries of `a` and of `b`.
#[tactic(auto, using(residue_sums::proofs::Sums::mod_sum_step))]
pub fn row_times_column(modulus: Modulus, a: &[u64], b: &[u64], of: Products) -> u64
    requires row { of.row * of.inner + of.count ≤ length a.now }
    requires column { of.count * of.cols ≤ length b.now }
    requires place { of.col < of.cols }
    requires first { All (λ x. x < modulus) a.now }
    requires second { All (λ x. x < modulus) b.now }
    ensures value { result
        ≡ sum_below (λ k. slice_index a.now (of.row * of.inner + k) * slice_index b.now (k * of.cols + of.col)) of.count % modulus }
    ensures range { result < modulus }
{
    let mut sum = 0;
    for k in 0..of.count {
        let (x, y) = (a[of.row * of.inner + k], b[k * of.cols + of.col]);
        sum = modulus.add(sum, modulus.mul(x, y));
    }
    sum
}

/// Solves T * X = W in place of W, for a lower triangular T of n rows and a W of p columns, row by row.
pub fn solve_lower(modulus: Modulus, t: &[u64], inverses: &[u64], w: &mut [u64], n: usize, p: usize)
    requires square { length t.now ≡ n * n }
    requires pivots { length inverses.now ≡ n }
    requires shape { length w.old ≡ n * p }
    requires factor { All (λ x. x < modulus) t.now }
    requires inverted { All (λ x. x < modulus) inverses.now }
    requires right { All (λ x. x < modulus) w.old }
    requires units { (i : ℕ) → i < n → Cong modulus
        (entries n n t.now i i * slice_index inverses.now i) 1 }
    ensures residues { All (λ x. x < modulus) w.new }
    ensures solves { (i j : ℕ) → i < n → j < p
        → Cong modulus (product n (view Lower (entries n n t.now)) (entries n p w.new) i j) (entries n p w.old i j) }
{
    for i in 0..n {
        for j in 0..p {
            let products = Products {
                inner: n,
                cols: p,
                row: i,
                col: j,
                count: i,
            };
            let others = row_times_column(modulus, t, w, products);
            let rest = modulus.sub(w[i * p + j], others);
            w[i * p + j] = modulus.mul(rest, inverses[i]);
        }
    }
}
