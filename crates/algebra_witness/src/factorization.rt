//! The factors L * U of a square matrix in place, without pivoting, over a slice that holds the matrix row by row.

ghost use Rattle.std.specs.Prelude.{◌≡◌, ◌↔◌, ℕ, ◌+◌, ◌*◌, ◌<◌, ◌≤◌, All, length, slice_index, OnOk};
ghost use Rattle.residue_sums.specs.Residues.{IsUnit};
ghost use Rattle.structure_rules.specs.declared.Structure.TheVariants.{UnitLower, Upper};
ghost use Rattle.structure_rules.specs.Structures.{view};
ghost use Rattle.matrix_algebra.specs.Factors.{IsLu, IsLuBadPivot};
ghost use Rattle.algebra_witness.specs.Entries.{entries};

use crate::substitution::{Products, row_times_column};
use field_word::Modulus;

/// What an entry in row i and column j is multiplied by: the inverse of its column's pivot below the diagonal, and 1
/// on it and above.
fn scale_of(inverses: &[u64], i: usize, j: usize) -> u64
    requires { j < length inverses.now }
    ensures lower { j < i → result ≡ slice_index inverses.now j }
    ensures upper { i ≤ j → result ≡ 1 }
{
    if j < i { inverses[j] } else { 1 }
}

/// Factors the n by n matrix w in place into L, unit lower, and U, upper, row by row, or names the first pivot that
/// is no unit. `inverses` takes the inverses of the pivots.
pub fn factor_lu(
    modulus: Modulus,
    w: &mut [u64],
    inverses: &mut [u64],
    n: usize,
) -> Result<(), usize>
    requires square { length w.old ≡ n * n }
    requires pivots { length inverses.old ≡ n }
    requires entries { All (λ x. x < modulus) w.old }
    requires room { All (λ x. x < modulus) inverses.old }
    ensures factors { OnOk result (IsLu modulus n (entries n n w.old)
        (view UnitLower (entries n n w.new)) (view Upper (entries n n w.new))) }
    ensures units { OnOk result ((i : ℕ) → i < n → IsUnit modulus (entries n n w.new i i)) }
    ensures bad_pivot { (k : ℕ) → (result ≡ Err k) ↔ IsLuBadPivot modulus n (entries n n w.old) k }
{
    let m = modulus.value();
    for i in 0..n {
        for j in 0..n {
            let products = Products {
                inner: n,
                cols: n,
                row: i,
                col: j,
                count: i.min(j),
            };
            let others = row_times_column(modulus, w, w, products);
            let rest = (w[i * n + j] + m - others) % m;
            let scale = scale_of(inverses, i, j);
            w[i * n + j] = modulus.mul(rest, scale);
        }
        match modulus.inverse(w[i * n + i]) {
            Some(inverse) => {
                inverses[i] = inverse;
            }
            None => return Err(i),
        }
    }
    Ok(())
}
