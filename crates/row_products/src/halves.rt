ghost use Rattle.std.specs.Prelude.{◌≡◌, ℕ, ◌+◌, ◌*◌, ◌/◌, ◌%◌, ◌<◌, ◌^◌};
ghost use Rattle.row_products.specs.HalfSums.{IsResidueOfHalves};

use crate::reducer::Reducer;

const LIMIT: u64 = 1 << 32;

/// A sum of products in two numbers of 64 bits, both modulo 2^64: the sum itself, and the sum of what each product has above
/// its low 32 bits. Of fewer than 2^31 products they tell the whole sum.
#[derive(Clone, Copy, Debug)]
pub(crate) struct Halves {
    pub(crate) low: u64,
    pub(crate) high: u64,
}

impl Halves {
    /// The sum of no products.
    pub(crate) const NONE: Halves = Halves { low: 0, high: 0 };

    /// The sum with one more product. That both factors are taken modulo 2^32 changes neither: it shows the compiler that
    /// they have 32 bits, so that it multiplies several pairs by one instruction.
    #[inline(always)]
    pub(crate) fn plus(self, x: u64, y: u64) -> Halves
        requires first { x < 2 ^ 32 }
        requires second { y < 2 ^ 32 }
        ensures low { result.low ≡ (self.low + x * y) % 2 ^ 64 }
        ensures high { result.high ≡ (self.high + x * y / 2 ^ 32) % 2 ^ 64 }
    {
        let product = (x % LIMIT) * (y % LIMIT);
        Halves {
            low: self.low.wrapping_add(product),
            high: self.high.wrapping_add(product >> 32),
        }
    }

    /// The residue of the sum.
    #[inline(always)]
    pub(crate) fn residue(self, m: Reducer) -> u64
        ensures value { IsResidueOfHalves m self.low self.high result }
        ensures range { result < m }
    {
        let rest = self.low.wrapping_sub(self.high << 32);
        let top = m.residue(self.high.wrapping_add(rest >> 32));
        m.residue((top << 32) + rest % LIMIT)
    }
}
