ghost use Rattle.std.specs.Prelude.{◌≡◌, ℕ, ◌+◌, ◌-◌, ◌*◌, ◌/◌, ◌%◌, ◌<◌, ◌≤◌, All, length, slice_index};
ghost use Rattle.residue_sums.specs.Sums.{sum_below, part_sum};

use field_word::Modulus;

/// The sum of a slice of residues.
pub fn sum(modulus: Modulus, a: &[u64]) -> u64
    requires { All (λ x. x < modulus) a.now }
    ensures { result ≡ sum_below (slice_index a.now) (length a.now) % modulus }
{
    let mut total = 0;
    for x in a {
        total = modulus.add(total, *x);
    }
    total
}

/// The sum of a slice of residues, part by part, each of `size` residues but for a shorter last one.
#[tactic(auto, using(residue_sums::proofs::Sums::mod_sum_step))]
pub fn sum_by_parts(modulus: Modulus, a: &[u64], size: usize) -> u64
    requires size { 0 < size }
    requires residues { All (λ x. x < modulus) a.now }
    ensures { result ≡ sum_below (slice_index a.now) (length a.now) % modulus }
{
    let mut total = 0;
    for p in 0..a.len().div_ceil(size) {
        total = modulus.add(total, sum_of_part(modulus, a, size, p));
    }
    total
}

/// The sum of the residues of part p.
fn sum_of_part(modulus: Modulus, a: &[u64], size: usize, p: usize) -> u64
    requires inside { p * size < length a.now }
    requires residues { All (λ x. x < modulus) a.now }
    ensures value { result ≡ part_sum (length a.now) size (slice_index a.now) p % modulus }
    ensures range { result < modulus }
{
    let start = p * size;
    let end = start + size.min(a.len() - start);
    sum(modulus, &a[start..end])
}

#[cfg(test)]
mod tests {
    use super::*;
    use crate::dot::{dot, dot_delayed};

    // The greatest residues modulo the greatest prime below 2^32: each product is 1, and no two of them fit without a reduction.
    #[test]
    fn sums_of_greatest_residues(rt: HostRuntime) {
        let modulus = Modulus::new(4294967291).expect(&rt, "the modulus is in range");
        let a = [4294967290; 5];
        assert!(rt; a.iter().all(|x| *x < modulus.value()));
        assert_eq!(rt; dot(modulus, &a, &a), 5);
        assert_eq!(rt; dot_delayed(modulus, &a, &a), 5);
        assert_eq!(rt; sum(modulus, &a), 4294967286);
        assert_eq!(rt; sum_by_parts(modulus, &a, 2), 4294967286);
    }
}
