//! How blocks are taken, given back and put. While a seat holds a block, no other one does.

ghost use Rattle.std.specs.Prelude.{◌≡◌, ◌==◌, ◌<◌, true, false, ◌∷◌};
ghost use Rattle.atomic_table.specs.Table.{rest};
ghost use Rattle.residue_sums.specs.Grids.{Grid};
ghost use Rattle.block_store.specs.declared.view.Fact.TheVariants.{Away, Gave, Put, Took};
ghost use Rattle.block_store.specs.Blocks.{access_of, block_count, uses, IsFound, IsLeft};
ghost use Rattle.block_store.specs.Plays.{Holds, IsRunning};
ghost use Rattle.block_store.specs.Seats.{key_of, view, IsSameSeat, IsSeatOf};
ghost use Rattle.block_store.specs.Views.{learned};

use crate::plays::{Gives, Puts, Subject, Takes};
use crate::seat::{Board, Seat};
use std::marker::Brand;

impl Board {
    /// Takes a block that a running step of this seat uses, as the step finds it. False where the block is away.
    ///
    /// It exchanges the word of the block's turn from 0 to 1.
    pub(crate) fn take(&self, seat: &mut Seat, t: u32, block: u32) -> bool
        requires seat { IsSeatOf self.now seat.old }
        requires block { block < block_count (key_of self.now) }
        requires runs { IsRunning (view seat.old) t }
        requires uses { uses (key_of self.now) t block ≡ true }
        ensures same { IsSameSeat seat.old seat.new }
        ensures taken { result ≡ true → (view seat.new ≡ learned (Took block) (view seat.old))
            × ((g : Grid) × (seat.new.inner.me.1 ≡ (block, g) ∷ seat.old.inner.me.1)
            × IsFound (key_of self.now) t block g) }
        ensures away { result ≡ false → (view seat.new ≡ learned (Away block) (view seat.old))
            × (seat.new.inner.me.1 ≡ seat.old.inner.me.1) }
    {
        self.take_named::<Brand>(seat, t, block)
    }

    fn take_named<J: Subject>(&self, seat: &mut Seat, t: u32, block: u32) -> bool
        requires named { (t ≡ J.step) × (block ≡ J.block) }
        requires seat { IsSeatOf self.now seat.old }
        requires block { block < block_count (key_of self.now) }
        requires runs { IsRunning (view seat.old) t }
        requires uses { uses (key_of self.now) t block ≡ true }
        ensures same { IsSameSeat seat.old seat.new }
        ensures taken { result ≡ true → (view seat.new ≡ learned (Took block) (view seat.old))
            × ((g : Grid) × (seat.new.inner.me.1 ≡ (block, g) ∷ seat.old.inner.me.1)
            × IsFound (key_of self.now) t block g) }
        ensures away { result ≡ false → (view seat.new ≡ learned (Away block) (view seat.old))
            × (seat.new.inner.me.1 ≡ seat.old.inner.me.1) }
    {
        let _ = t;
        let word = self.steps as usize + 1 + block as usize;
        let shared = &self.table.shared;
        let found = shared.compare_exchange::<Takes<J>>(&mut seat.inner, word, 0, 1);
        found == 0
    }

    /// Gives back the block that this seat kept, as its step found it: what a step does that fails. It swaps the word of the
    /// block's turn for 0.
    pub fn give(&self, seat: &mut Seat, t: u32, block: u32)
        requires seat { IsSeatOf self.now seat.old }
        requires block { block < block_count (key_of self.now) }
        requires runs { IsRunning (view seat.old) t }
        requires uses { uses (key_of self.now) t block ≡ true }
        requires holds { Holds (view seat.old) block }
        requires top { (g : Grid) × (seat.old.inner.me.1 ≡ (block, g) ∷ rest seat.old.inner.me.1)
            × IsFound (key_of self.now) t block g }
        ensures same { IsSameSeat seat.old seat.new }
        ensures given { (view seat.new ≡ learned (Gave block) (view seat.old))
            × (seat.new.inner.me.1 ≡ rest seat.old.inner.me.1) }
    {
        self.give_named::<Brand>(seat, t, block)
    }

    fn give_named<J: Subject>(&self, seat: &mut Seat, t: u32, block: u32)
        requires named { (t ≡ J.step) × (block ≡ J.block) }
        requires seat { IsSeatOf self.now seat.old }
        requires block { block < block_count (key_of self.now) }
        requires runs { IsRunning (view seat.old) t }
        requires uses { uses (key_of self.now) t block ≡ true }
        requires holds { Holds (view seat.old) block }
        requires top { (g : Grid) × (seat.old.inner.me.1 ≡ (block, g) ∷ rest seat.old.inner.me.1)
            × IsFound (key_of self.now) t block g }
        ensures same { IsSameSeat seat.old seat.new }
        ensures given { (view seat.new ≡ learned (Gave block) (view seat.old))
            × (seat.new.inner.me.1 ≡ rest seat.old.inner.me.1) }
    {
        let _ = t;
        let word = self.steps as usize + 1 + block as usize;
        let shared = &self.table.shared;
        shared.swap::<Gives<J>>(&mut seat.inner, word, 0);
    }

    /// Puts the block that this seat took last, which has what its step leaves in it. It swaps the word of the block's turn
    /// for 0.
    pub(crate) fn put(&self, seat: &mut Seat, t: u32, block: u32)
        requires seat { IsSeatOf self.now seat.old }
        requires block { block < block_count (key_of self.now) }
        requires runs { IsRunning (view seat.old) t }
        requires writes { ((access_of (key_of self.now) t).write == block) ≡ true }
        requires holds { Holds (view seat.old) block }
        requires top { (g : Grid) × (seat.old.inner.me.1 ≡ (block, g) ∷ rest seat.old.inner.me.1)
            × IsLeft (key_of self.now) t block g }
        ensures same { IsSameSeat seat.old seat.new }
        ensures put { (view seat.new ≡ learned (Put t block) (view seat.old))
            × (seat.new.inner.me.1 ≡ rest seat.old.inner.me.1) }
    {
        self.put_named::<Brand>(seat, t, block)
    }

    fn put_named<J: Subject>(&self, seat: &mut Seat, t: u32, block: u32)
        requires named { (t ≡ J.step) × (block ≡ J.block) }
        requires seat { IsSeatOf self.now seat.old }
        requires block { block < block_count (key_of self.now) }
        requires runs { IsRunning (view seat.old) t }
        requires writes { ((access_of (key_of self.now) t).write == block) ≡ true }
        requires holds { Holds (view seat.old) block }
        requires top { (g : Grid) × (seat.old.inner.me.1 ≡ (block, g) ∷ rest seat.old.inner.me.1)
            × IsLeft (key_of self.now) t block g }
        ensures same { IsSameSeat seat.old seat.new }
        ensures put { (view seat.new ≡ learned (Put t block) (view seat.old))
            × (seat.new.inner.me.1 ≡ rest seat.old.inner.me.1) }
    {
        let _ = t;
        let word = self.steps as usize + 1 + block as usize;
        let shared = &self.table.shared;
        shared.swap::<Puts<J>>(&mut seat.inner, word, 0);
    }
}
