//! Where a worker has the blocks of the step that it does.

ghost use Rattle.std.specs.Prelude.{◌≡◌, IfOk};
ghost use Rattle.std.specs.List.{range_with_len};
ghost use Rattle.block_store.specs.Seats.{key_of};
ghost use Rattle.dispatcher.specs.SharedRuns.{AreBlockSizes, AreBuffers};
ghost use Rattle.dispatcher.specs.Crews.{IsBoardOf};
ghost use Rattle.dispatcher.specs.Plans.{IsPlan};

use crate::plan::Plan;
use crate::room::room_for;
use crate::shared_run::Size;
use crate::sizes::sizes_of;
use block_kernels::Cut;
use block_store::Board;
use job_blocks::JobBlocks;
use std::alloc::{AllocError, Global};

/// The buffers of a worker, with room for any step: for the entries of the blocks that it reads, with where each of them stands
/// and their numbers in this order, from 0; for those of the block that it writes; and for a row of a block.
#[derive(Drop)]
pub struct Buffers {
    pub reads: Vec<u64>,
    pub cuts: Vec<Cut>,
    pub numbers: Vec<u32>,
    pub write: Vec<u64>,
    pub spare: Vec<u64>,
}

impl Buffers {
    /// Room for any step of a board of this plan. Its one error is want of memory.
    pub(crate) fn new(
        alloc: Global,
        plan: &Plan<'_>,
        board: &Board,
        sizes: &[Size],
    ) -> Result<Buffers, AllocError>
        requires plan { IsPlan plan.now }
        requires board { IsBoardOf plan.now board.now }
        requires sizes { AreBlockSizes (key_of board.now) sizes.now }
        ensures { IfOk result (AreBuffers (key_of board.now)) }
    {
        let room = room_for(board, plan.steps.as_slice(), sizes)?;
        let none = Cut {
            at: 0,
            rows: 0,
            cols: 0,
        };
        Ok(Buffers {
            reads: vec![in alloc; 0; room.reads]?,
            cuts: vec![in alloc; none; room.cuts]?,
            numbers: numbers_below(alloc, room.cuts)?,
            write: vec![in alloc; 0; room.write]?,
            spare: vec![in alloc; 0; plan.b as usize]?,
        })
    }
}

/// The shapes of all blocks of a board of this plan, by number. Its one error is want of memory.
pub(crate) fn block_sizes(
    alloc: Global,
    plan: &Plan<'_>,
    board: &Board,
) -> Result<Vec<Size>, AllocError>
    requires plan { IsPlan plan.now }
    requires board { IsBoardOf plan.now board.now }
    ensures { IfOk result (λ sizes. AreBlockSizes (key_of board.now) sizes.items) }
{
    let _ = board;
    let blocks = JobBlocks::new(alloc, plan.job, plan.b)?;
    sizes_of(alloc, &blocks)
}

/// The numbers below a count. Its one error is want of memory, also where numbers of blocks don't go so far.
fn numbers_below(alloc: Global, count: usize) -> Result<Vec<u32>, AllocError>
    ensures { IfOk result (λ numbers. numbers.items ≡ range_with_len 0 count) }
{
    let Ok(end) = u32::try_from(count) else {
        return Err(AllocError);
    };
    let mut numbers = Vec::with_capacity(alloc, count)?;
    for k in 0..end {
        numbers.push(k)?;
    }
    Ok(numbers)
}
