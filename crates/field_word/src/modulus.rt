ghost use Rattle.std.specs.Prelude.{◌≡◌, ◌+◌, ◌-◌, ◌*◌, ◌%◌, ◌<◌, ◌↔◌, IsSome, IfSome};
ghost use Rattle.std.specs.Int.{IsGcd};
ghost use Rattle.residue_sums.specs.Residues.{IsModulus, Cong, IsUnit};

use std::marker::Model;

const LIMIT: u64 = 1 << 32;

/// What residues are taken by: a number from 2 on and below 2^32, which need not be a prime.
#[derive(Clone, Copy, Debug, PartialEq, Eq)]
pub struct Modulus {
    value: u64,
}

impl Model for Modulus {
    ghost use Rattle.std.specs.Prelude.{ℕ};
    ghost use Rattle.residue_sums.specs.Residues.{IsModulus};

    ghost Value = { ℕ };

    ghost view = { λ a. a.value };

    ghost invariant = { λ a. IsModulus a.value };

    ghost inverse = { λ n. record { value = n } };
}

/// The greatest common divisor of a modulus and a residue, and a factor of the residue that gives it.
struct Bezout {
    divisor: u64,
    factor: u64,
}

impl Modulus {
    /// The modulus m, or None where m is below 2 or 2^32 and above.
    pub fn new(m: u64) -> Option<Modulus>
        ensures range { IsSome result ↔ IsModulus m }
        ensures value { IfSome result (λ modulus. modulus ≡ m) }
    {
        if 2 <= m && m < LIMIT {
            Some(Modulus { value: m })
        } else {
            None
        }
    }

    /// The number itself.
    pub fn value(self) -> u64
        ensures value { result ≡ self }
        ensures range { IsModulus self }
    {
        self.value
    }

    /// The sum of two residues.
    pub fn add(self, a: u64, b: u64) -> u64
        requires first { a < self }
        requires second { b < self }
        ensures value { result ≡ (a + b) % self }
        ensures range { result < self }
    {
        let sum = a + b;
        if sum < self.value {
            sum
        } else {
            sum - self.value
        }
    }

    /// The difference of two residues.
    pub fn sub(self, a: u64, b: u64) -> u64
        requires first { a < self }
        requires second { b < self }
        ensures value { result ≡ (a + self - b) % self }
        ensures range { result < self }
    {
        if b <= a { a - b } else { a + self.value - b }
    }

    /// The product of two residues.
    pub fn mul(self, a: u64, b: u64) -> u64
        requires first { a < self }
        requires second { b < self }
        ensures value { result ≡ (a * b) % self }
        ensures range { result < self }
    {
        a * b % self.value
    }

    /// The residue whose sum with a is 0.
    pub fn neg(self, a: u64) -> u64
        requires { a < self }
        ensures value { result ≡ (self - a) % self }
        ensures range { result < self }
    {
        if a == 0 { 0 } else { self.value - a }
    }

    /// The extended Euclidean algorithm. The factors alternate in sign, so that their absolute values are kept,
    /// which stay below the modulus: no step reduces them.
    fn bezout(self, a: u64) -> Bezout
        requires { a < self }
        ensures divisor { IsGcd self a result.divisor }
        ensures factor { Cong self (a * result.factor) result.divisor }
        ensures range { result.factor < self }
        ensures modulus { IsModulus self }
    {
        let mut high = self.value;
        let mut low = a;
        let mut high_factor = 0;
        let mut low_factor = 1;
        let mut is_high_positive = false;
        while low != 0 {
            let factor = high_factor + high / low * low_factor;
            let rest = high % low;
            high = low;
            low = rest;
            high_factor = low_factor;
            low_factor = factor;
            is_high_positive = !is_high_positive;
        }
        Bezout {
            divisor: high,
            factor: if is_high_positive {
                high_factor
            } else {
                self.neg(high_factor)
            },
        }
    }

    /// The residue whose product with a is 1, or None where a is no unit.
    ///
    /// By the extended Euclidean algorithm: Knuth, The Art of Computer Programming, volume 2, section 4.5.2.
    #[tactic(auto, using(crate::proofs::Euclid::one_from_IsUnit))]
    pub fn inverse(self, a: u64) -> Option<u64>
        requires { a < self }
        ensures units { IsSome result ↔ IsUnit self a }
        ensures product { IfSome result (λ u. (a * u) % self ≡ 1) }
        ensures range { IfSome result (λ u. u < self) }
    {
        let Bezout { divisor, factor } = self.bezout(a);
        if divisor == 1 { Some(factor) } else { None }
    }
}

/// A law: a unit has one inverse.
pub fn inverse_is_unique(modulus: Modulus, a: u64, u: u64, v: u64)
    requires first { u < modulus }
    requires second { v < modulus }
    requires first_product { (a * u) % modulus ≡ 1 }
    requires second_product { (a * v) % modulus ≡ 1 }
    ensures { u ≡ v }
{}

#[cfg(test)]
mod tests {
    use super::*;

    // Each row is a modulus, two residues a and b, and then a + b, a - b, a * b, -a and the inverse of a, computed by Python.
    #[test]
    fn arithmetic_matches_values_from_outside(rt: HostRuntime) {
        assert_eq!(rt; Modulus::new(1), None);
        assert_eq!(rt; Modulus::new(4294967296), None);
        for (m, a, b, sum, difference, product, negative, inverse) in [
            (2, 1, 1, 0, 0, 1, 1, Some(1)),
            (7, 3, 5, 1, 5, 1, 4, Some(5)),
            (7, 0, 6, 6, 1, 0, 0, None),
            (6, 4, 5, 3, 5, 2, 2, None),
            (6, 5, 2, 1, 3, 4, 1, Some(5)),
            (
                4294967291,
                123456789,
                4000000000,
                4123456789,
                418424080,
                3088476646,
                4171510502,
                Some(2196879611),
            ),
            (
                4294967295,
                7,
                4294967290,
                2,
                12,
                4294967260,
                4294967288,
                Some(1227133513),
            ),
            (
                4294967295, 3, 65537, 65540, 4294901761, 196611, 4294967292, None,
            ),
        ] {
            let modulus = Modulus::new(m).expect(&rt, "the modulus is in range");
            assert!(rt; a < modulus.value() && b < modulus.value());
            assert_eq!(rt; modulus.add(a, b), sum, "{a} + {b} modulo {m}");
            assert_eq!(rt; modulus.sub(a, b), difference, "{a} - {b} modulo {m}");
            assert_eq!(rt; modulus.mul(a, b), product, "{a} * {b} modulo {m}");
            assert_eq!(rt; modulus.neg(a), negative, "-{a} modulo {m}");
            assert_eq!(rt;
                modulus.inverse(a),
                inverse,
                "the inverse of {a} modulo {m}"
            );
            if let Some(u) = modulus.inverse(a) {
                inverse_is_unique(modulus, a, u, u);
            }
        }
    }
}
