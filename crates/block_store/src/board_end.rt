//! A board whose steps have all ended is taken apart.

ghost use Rattle.std.specs.Prelude.{◌≡◌, ◌*◌, ◌≤◌, ℕ, [], IfOk};
ghost use Rattle.std.specs.Mem.Slots.{slots_items, slots_len, IsFull};
ghost use Rattle.std.specs.Vec.{vec_capacity};
ghost use Rattle.block_store.specs.Holding.{HaveLast};
ghost use Rattle.block_store.specs.Keys.{step_count};
ghost use Rattle.block_store.specs.Plays.{NotHolds, StandsForAll};
ghost use Rattle.block_store.specs.Seats.{key_of, view, IsSeatOf};

use crate::seat::{Board, Seat};
use atomic_table::Closed;
use matrix_core::Matrix;
use std::alloc::{AllocError, Global};

/// What a board leaves.
#[derive(Drop)]
pub struct ClosedBoard {
    /// Each block after all steps, by its number.
    pub blocks: Vec<Matrix>,
}

impl Board {
    /// The blocks after all steps. The seat stands for all workers, holds no block, and has loaded the clock as twice the number
    /// of steps. Its one error is want of memory.
    pub fn close(self, alloc: Global, seat: Seat) -> Result<ClosedBoard, AllocError>
        requires seat { IsSeatOf self seat }
        requires all { StandsForAll (key_of self) (view seat) }
        requires ended { (view seat).clock ≡ 2 * step_count (key_of self) }
        requires free { (x : ℕ) → NotHolds (view seat) x }
        ensures { IfOk result (λ closed. HaveLast (key_of self) closed.blocks.items) }
    {
        let Seat { inner } = seat;
        let Board { table, steps: _ } = self;
        let room = Vec::with_capacity(alloc, table.slot_count())?;
        let blocks = taken_out(table.close_with(inner), room);
        Ok(ClosedBoard { blocks })
    }
}

/// What the slots of a closed table hold, in a vector with room for it.
fn taken_out(closed: Closed<Matrix, Global>, room: Vec<Matrix>) -> Vec<Matrix>
    requires full { IsFull closed.slots }
    requires empty { room.items ≡ [] }
    requires room { slots_len closed.slots ≤ vec_capacity room }
    ensures { result.items ≡ slots_items closed.slots }
{
    let mut closed = closed;
    let mut blocks = room;
    for x in 0..closed.slot_count() {
        blocks.push_reserved(closed.take(x));
    }
    closed.free();
    blocks
}
