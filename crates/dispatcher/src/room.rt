//! How much room the steps of a plan need.

ghost use Rattle.std.specs.Prelude.{◌≡◌, ◌+◌, ◌<◌, ℕ, length, max, All, IfOk};
ghost use Rattle.step_replays.specs.Replays.{nth_access};
ghost use Rattle.block_store.specs.Blocks.{block_count};
ghost use Rattle.block_store.specs.Seats.{key_of};
ghost use Rattle.dispatcher.specs.SharedRuns.{entries_of, entry_count, AreBlockSizes};
ghost use Rattle.dispatcher.specs.BufferSizes.{need_of, HaveRoom, NamesBlocks, NeedRoom};

use crate::shared_run::Size;
use block_store::Board;
use dependence_queue::Access;
use std::alloc::AllocError;
use step_replays::Step;

/// Room for the entries of the blocks that a step reads, for where they stand, and for the entries of the block that it writes.
#[derive(Clone, Copy)]
pub(crate) struct Room {
    pub(crate) reads: usize,
    pub(crate) cuts: usize,
    pub(crate) write: usize,
}

/// The least room for each of these steps. Its one error is want of memory: a machine can't number the entries that a step reads.
pub(crate) fn room_for(board: &Board, steps: &[Step], sizes: &[Size]) -> Result<Room, AllocError>
    requires names { (p : ℕ) → p < length steps.now
        → NamesBlocks (key_of board.now) (nth_access steps.now p) }
    requires sizes { AreBlockSizes (key_of board.now) sizes.now }
    ensures enough { IfOk result (HaveRoom (key_of board.now) steps.now (length steps.now)) }
    ensures least { IfOk result (NeedRoom (key_of board.now) steps.now (length steps.now)) }
{
    let mut room = Room {
        reads: 0,
        cuts: 0,
        write: 0,
    };
    for n in 0..steps.len() {
        let need = need_of(board, &steps[n].access, sizes)?;
        room = larger(room, need);
    }
    Ok(room)
}

/// The least room for both of two steps.
fn larger(room: Room, other: Room) -> Room
    ensures reads { result.reads ≡ max room.reads other.reads }
    ensures cuts { result.cuts ≡ max room.cuts other.cuts }
    ensures write { result.write ≡ max room.write other.write }
{
    Room {
        reads: room.reads.max(other.reads),
        cuts: room.cuts.max(other.cuts),
        write: room.write.max(other.write),
    }
}

/// The room that one step needs.
fn need_of(board: &Board, access: &Access, sizes: &[Size]) -> Result<Room, AllocError>
    requires names { NamesBlocks (key_of board.now) access.now }
    requires sizes { AreBlockSizes (key_of board.now) sizes.now }
    ensures { IfOk result (λ room. room ≡ need_of (key_of board.now) access.now) }
{
    let reads = access.reads.as_slice();
    Ok(Room {
        reads: entries_of(board, reads, sizes)?,
        cuts: reads.len(),
        write: entry_count(board, access.write, sizes),
    })
}

/// How many entries these blocks have together.
fn entries_of(board: &Board, reads: &[u32], sizes: &[Size]) -> Result<usize, AllocError>
    requires there { All (λ x. x < block_count (key_of board.now)) reads.now }
    requires sizes { AreBlockSizes (key_of board.now) sizes.now }
    ensures { IfOk result (λ n. n ≡ entries_of (key_of board.now) reads.now) }
{
    let mut sum: usize = 0;
    for k in 0..reads.len() {
        let more = entry_count(board, reads[k], sizes);
        sum = plus(sum, more)?;
    }
    Ok(sum)
}

/// A sum, if a machine can count so far.
fn plus(a: usize, b: usize) -> Result<usize, AllocError>
    ensures { IfOk result (λ n. n ≡ a + b) }
{
    match a.checked_add(b) {
        Some(sum) => Ok(sum),
        None => Err(AllocError),
    }
}

/// How many entries a block has.
fn entry_count(board: &Board, x: u32, sizes: &[Size]) -> usize
    requires there { x < block_count (key_of board.now) }
    requires sizes { AreBlockSizes (key_of board.now) sizes.now }
    ensures { result ≡ entry_count (key_of board.now) x }
{
    let _ = board;
    let size = sizes[x as usize];
    size.rows as usize * size.cols as usize
}
