//! A worker of a run.

ghost use Rattle.std.specs.Prelude.{◌≡◌, IfOk};
ghost use Rattle.block_store.specs.Seats.{key_of, IsNewSeat};
ghost use Rattle.ready_queue.specs.declared.queue.Ready.{Ready};
ghost use Rattle.ready_queue.specs.Queues.{IsFirstPass};
ghost use Rattle.dispatcher.specs.SharedRuns.{AreBlockSizes};
ghost use Rattle.dispatcher.specs.Crews.{IsBoardOf};
ghost use Rattle.dispatcher.specs.Plans.{IsPlan};
ghost use Rattle.dispatcher.specs.Workers.{IsNewWorker};

use crate::buffers::Buffers;
use crate::plan::Plan;
use crate::shared_run::Size;
use block_store::{Board, Seat};
use ready_queue::Pass;
use schedule_core::Event;
use std::alloc::{AllocError, Global};
use task_values::Failure;

/// A worker of a run: its seat on the board, its pass of the queue, its buffers, what happened by the stamps that its seat drew,
/// and of the steps that failed with this worker the one of the least statement.
#[derive(Drop)]
pub struct Worker {
    pub seat: Seat,
    pub pass: Pass,
    pub buffers: Buffers,
    pub log: Vec<Option<Event>>,
    pub failed: Option<Failure>,
}

impl Worker {
    /// A worker that has done nothing, with this seat of a board of this plan, and this pass of a queue. Its one error is want of
    /// memory.
    pub(crate) fn new(
        alloc: Global,
        plan: &Plan<'_>,
        board: &Board,
        sizes: &[Size],
        seat: Seat,
        pass: Pass,
    ) -> Result<Worker, AllocError>
        requires plan { IsPlan plan.now }
        requires board { IsBoardOf plan.now board.now }
        requires sizes { AreBlockSizes (key_of board.now) sizes.now }
        requires seat { IsNewSeat board.now seat }
        ensures same { IfOk result (λ worker. worker.seat ≡ seat) }
        ensures new { IfOk result (λ worker. (ready : Ready) → IsFirstPass ready pass
            → IsNewWorker board.now ready worker) }
    {
        let buffers = Buffers::new(alloc, plan, board, sizes)?;
        let log = vec![in alloc; None; 2 * plan.steps.len()]?;
        Ok(Worker {
            seat,
            pass,
            buffers,
            log,
            failed: None,
        })
    }
}
