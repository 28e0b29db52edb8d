ghost use Rattle.std.specs.Prelude.{◌≡◌, ℕ, ◌+◌, ◌*◌, ◌^◌, ◌<◌, List, length, slice_index, slice_set};
ghost use Rattle.std.specs.Borrow.{GName};
ghost use Rattle.std.specs.Ptr.{Ptr};
ghost use Rattle.matrix_parts.specs.declared.region.Region.{Region};
ghost use Rattle.matrix_parts.specs.Regions.{lent_in, shared_in, covers};

use std::marker::{Model, PhantomData};

/// Where the numbers lie that some part of was lent. It owns nothing.
#[derive(Clone, Copy, Drop)]
pub(crate) struct Base {
    pub(crate) at: *mut u64,
}

/// Rows and columns side by side of a rectangle whose row i begins at the place first + i * stride.
#[derive(Clone, Copy, Drop)]
pub(crate) struct Region {
    pub(crate) first: usize,
    pub(crate) stride: usize,
    pub(crate) top: u32,
    pub(crate) left: u32,
    pub(crate) rows: u32,
    pub(crate) cols: u32,
}

/// The right to the numbers of one region. It takes no bytes.
#[derive(Drop)]
pub(crate) struct Lent<'a> {
    pub(crate) mark: PhantomData<&'a mut u64>,
    ghost loan: { GName },
    ghost at: { Ptr },
    ghost region: { Region },
    ghost numbers: { List ℕ },
}

impl<'a> Model for Lent<'a> {
    ghost also_owns = { λ l. lent_in 'a l.loan l.at l.region l.numbers };

    ghost also_shares = { λ l _ κ. shared_in 'a l.at l.region l.numbers κ };
}

impl<'a> Lent<'a> {
    /// The number at a place of the region.
    pub(crate) fn read(&self, base: Base, place: usize) -> u64
        requires base { base.at ≡ self.now.at }
        requires place { place < length self.now.numbers }
        requires covered { covers self.now.region place }
        ensures { result ≡ slice_index self.now.numbers place }
    {
        unsafe { base.at.add(place).read() }
    }

    /// Writes a number at a place of the region.
    pub(crate) fn write(&mut self, base: Base, place: usize, v: u64)
        requires base { base.at ≡ self.old.at }
        requires place { place < length self.old.numbers }
        requires covered { covers self.old.region place }
        ensures { self.new ≡ record self.old { numbers = slice_set self.old.numbers place v } }
    {
        unsafe { base.at.add(place).write(v) }
    }
}

impl Region {
    /// The place of the entry in row i and column j.
    pub(crate) fn place(&self, i: u32, j: u32) -> usize
        requires { self.now.first + (self.now.top + i) * self.now.stride + (self.now.left + j) < 2 ^ 63 }
        ensures { result ≡ self.now.first + (self.now.top + i) * self.now.stride + (self.now.left + j) }
    {
        let row = self.top as usize + i as usize;
        let col = self.left as usize + j as usize;
        self.first + row * self.stride + col
    }
}
