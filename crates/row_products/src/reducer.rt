ghost use Rattle.std.specs.Prelude.{◌≡◌, ℕ, ◌+◌, ◌*◌, ◌-◌, ◌/◌, ◌%◌, ◌<◌, ◌^◌};
ghost use Rattle.residue_sums.specs.Residues.{IsModulus};

use field_word::Modulus;
use std::marker::Model;

/// A modulus with the reciprocal that sums are reduced by. Contracts see it as its number.
#[derive(Clone, Copy, Debug)]
pub struct Reducer {
    modulus: Modulus,
    /// (2^64 - 1) / m, rounded down.
    reciprocal: u64,
}

impl Model for Reducer {
    ghost use Rattle.std.specs.Prelude.{◌≡◌, ℕ, ◌-◌, ◌/◌, ◌^◌};
    ghost use Rattle.residue_sums.specs.Residues.{IsModulus};

    ghost Value = { ℕ };

    ghost view = { λ r. r.modulus };

    ghost invariant = { λ r. IsModulus r.modulus × (r.reciprocal ≡ (2 ^ 64 - 1) / r.modulus) };

    ghost inverse = { λ m. record { modulus = m; reciprocal = (2 ^ 64 - 1) / m } };
}

impl Reducer {
    /// The modulus with its reciprocal.
    pub fn new(m: Modulus) -> Reducer
        ensures { result ≡ m }
    {
        Reducer {
            modulus: m,
            reciprocal: u64::MAX / m.value(),
        }
    }

    /// The modulus itself.
    pub fn modulus(self) -> Modulus
        ensures value { result ≡ self }
        ensures range { IsModulus self }
    {
        self.modulus
    }

    /// The residue of a number of 64 bits.
    ///
    /// By division with a precomputed reciprocal, which is at most one too small: Barrett's method, as in Brent and Zimmermann,
    /// Modern Computer Arithmetic, section 2.4.1.
    #[inline(always)]
    pub fn residue(self, x: u64) -> u64
        ensures value { result ≡ x % self }
        ensures range { result < self }
        ensures small { result < 2 ^ 32 }
    {
        let m = self.modulus.value();
        let quotient = ((u128::from(x) * u128::from(self.reciprocal)) >> 64) as u64;
        let rest = x - quotient * m;
        if rest >= m { rest - m } else { rest }
    }

    /// The residue of the product of two numbers below 2^32.
    #[inline(always)]
    pub fn product(self, x: u64, y: u64) -> u64
        requires first { x < 2 ^ 32 }
        requires second { y < 2 ^ 32 }
        ensures value { result ≡ x * y % self }
        ensures range { result < self }
    {
        self.residue(x * y)
    }
}
