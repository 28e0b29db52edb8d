//! The workers of a run, before it.

ghost use Rattle.std.specs.Prelude.{◌≡◌, ◌+◌, ◌*◌, ◌≤◌, ◌<◌, ℕ, length, IfOk};
ghost use Rattle.block_store.specs.Blocks.{block_count};
ghost use Rattle.block_store.specs.Keys.{step_count};
ghost use Rattle.block_store.specs.Seats.{key_of, AreFirstSeats, IsNewSeat};
ghost use Rattle.ready_queue.specs.Queues.{IsFirstPass};
ghost use Rattle.dispatcher.specs.SharedRuns.{AreBlockSizes, AreBuffers};
ghost use Rattle.dispatcher.specs.Crews.{IsBoardOf, IsCrew};
ghost use Rattle.dispatcher.specs.Plans.{IsPlan};
ghost use Rattle.dispatcher.specs.Workers.{IsNewWorker};

use crate::buffers::block_sizes;
use crate::plan::Plan;
use crate::shared_run::Size;
use crate::worker::Worker;
use block_store::{Board, Seats};
use ready_queue::Ready;
use schedule_core::Event;
use std::alloc::{AllocError, Global};

/// The workers of a run with the queue of steps that they take from, and room for the events of its steps.
#[derive(Drop)]
pub struct Crew {
    pub workers: Vec<Worker>,
    pub ready: Ready,
    pub sizes: Vec<Size>,
    pub room: Vec<Event>,
}

impl Crew {
    /// A worker for each seat of a new board of this plan. All memory that the run needs is taken here. Its one error is want of
    /// memory.
    pub fn new(
        alloc: Global,
        plan: &Plan<'_>,
        board: &Board,
        mut seats: Seats,
    ) -> Result<Crew, AllocError>
        requires plan { IsPlan plan.now }
        requires board { IsBoardOf plan.now board.now }
        requires seats { AreFirstSeats board.now seats.items }
        ensures { IfOk result (IsCrew board.now) }
    {
        let count = seats.len();
        let (ready, mut passes) = Ready::new(alloc, plan.steps.len() as u32, count as u32)?;
        let sizes = block_sizes(alloc, plan, board)?;
        let room = vec![in alloc; Event::Start(0); 2 * plan.steps.len()]?;
        let mut workers = Vec::with_capacity(alloc, count)?;
        while let Some(seat) = seats.pop() {
            let Some(pass) = passes.pop() else {
                unreachable!()
            };
            let worker = Worker::new(alloc, plan, board, sizes.as_slice(), seat, pass)?;
            workers.push(worker)?;
        }
        Ok(Crew {
            workers,
            ready,
            sizes,
            room,
        })
    }
}
