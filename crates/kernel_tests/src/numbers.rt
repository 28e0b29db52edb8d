//! Residues that functions of their places determine.

ghost use Rattle.std.specs.Prelude.{◌≡◌, ◌<◌, All, IfOk, vec_len};

use field_word::Modulus;
use std::alloc::{AllocError, Global};

/// Numbers, each of which its place determines.
pub trait Numbers {
    fn number(&self, place: usize) -> u64;
}

/// So many numbers modulo m. Its one error is want of memory.
pub fn residues<N: Numbers>(
    alloc: Global,
    m: Modulus,
    count: usize,
    numbers: &N,
) -> Result<Vec<u64>, AllocError>
    ensures count { IfOk result (λ v. vec_len v ≡ count) }
    ensures residues { IfOk result (λ v. All (λ x. x < m) v.items) }
{
    let mut found = vec![in alloc; 0; count]?;
    for p in 0..count {
        found[p] = numbers.number(p) % m.value();
    }
    Ok(found)
}

/// What stands on the diagonal of a drawn matrix.
#[derive(Clone, Copy, Debug, PartialEq, Eq)]
pub enum Diagonal {
    /// Whatever is drawn.
    Any,
    /// Numbers from 1 to half of the modulus.
    Low,
    /// Numbers from 0 to half of the modulus, so that the sum of one of `Low` with any of them is not 0 where m is odd or 2.
    Added,
    /// Their negatives.
    Subtracted,
}

/// Numbers that a seed determines: for one seed of four each is m - 1, the greatest residue.
#[derive(Clone, Copy, Debug)]
pub struct Drawn {
    pub m: Modulus,
    pub seed: u64,
    pub cols: u32,
    pub diagonal: Diagonal,
    /// The row whose number on the diagonal is 0.
    pub zero: Option<usize>,
}

/// A number that two numbers determine: Steele, Lea and Flood, Fast splittable pseudorandom number generators.
fn mixed(seed: u64, place: u64) -> u64 {
    let x = seed
        .wrapping_mul(0x5851_f42d_4c95_7f2d)
        .wrapping_add(place.wrapping_mul(0x9e37_79b9_7f4a_7c15));
    let y = (x ^ (x >> 30)).wrapping_mul(0xbf58_476d_1ce4_e5b9);
    let z = (y ^ (y >> 27)).wrapping_mul(0x94d0_49bb_1331_11eb);
    z ^ (z >> 31)
}

impl Drawn {
    /// A residue for a place.
    fn residue(&self, place: usize) -> u64 {
        if self.seed % 4 == 3 {
            self.m.value() - 1
        } else {
            mixed(self.seed, place as u64) % self.m.value()
        }
    }

    /// What a residue becomes on the diagonal.
    fn on_diagonal(&self, x: u64) -> u64 {
        let m = self.m.value();
        match self.diagonal {
            Diagonal::Any => x,
            Diagonal::Low => 1 + x % (m / 2),
            Diagonal::Added => x % m.div_ceil(2),
            Diagonal::Subtracted => m - x % m.div_ceil(2),
        }
    }
}

impl Numbers for Drawn {
    fn number(&self, place: usize) -> u64 {
        let x = self.residue(place);
        let step = self.cols as usize + 1;
        if place % step != 0 {
            x
        } else if self.zero == Some(place / step) {
            0
        } else {
            self.on_diagonal(x)
        }
    }
}
