ghost use Rattle.std.specs.Prelude.{◌≡◌, ℕ, ◌+◌, ◌-◌, ◌*◌, ◌%◌, ◌^◌, ◌<◌, ◌≤◌, All, length, slice_index};
ghost use Rattle.residue_sums.specs.Sums.{sum_below};

use field_word::Modulus;

/// The dot product of two slices of residues, reduced at each step.
#[tactic(auto, using(residue_sums::proofs::Sums::mod_sum_step))]
pub fn dot(modulus: Modulus, a: &[u64], b: &[u64]) -> u64
    requires lengths { length a.now ≡ length b.now }
    requires first { All (λ x. x < modulus) a.now }
    requires second { All (λ x. x < modulus) b.now }
    ensures { result ≡ sum_below (λ k. slice_index a.now k * slice_index b.now k)
        (length a.now) % modulus }
{
    let mut sum = 0;
    for (x, y) in a.iter().zip(b) {
        sum = modulus.add(sum, modulus.mul(*x, *y));
    }
    sum
}

/// The sum, reduced where it is above `room` and the next product might not fit.
fn make_room(modulus: Modulus, sum: u64, room: u64) -> u64
    requires { modulus ≤ room + 1 }
    ensures fits { result ≤ room }
    ensures value { result % modulus ≡ sum % modulus }
{
    if sum <= room {
        sum
    } else {
        sum % modulus.value()
    }
}

/// The dot product of two slices of residues, with a reduction only where the next product might not fit.
#[tactic(auto, using(residue_sums::proofs::Sums::mod_sum_step_delayed))]
pub fn dot_delayed(modulus: Modulus, a: &[u64], b: &[u64]) -> u64
    requires lengths { length a.now ≡ length b.now }
    requires first { All (λ x. x < modulus) a.now }
    requires second { All (λ x. x < modulus) b.now }
    ensures { result ≡ sum_below (λ k. slice_index a.now k * slice_index b.now k)
        (length a.now) % modulus }
{
    let greatest = modulus.value() - 1;
    let room = u64::MAX - greatest * greatest;
    let mut sum = 0;
    for (x, y) in a.iter().zip(b) {
        sum = make_room(modulus, sum, room) + x * y;
    }
    sum % modulus.value()
}
