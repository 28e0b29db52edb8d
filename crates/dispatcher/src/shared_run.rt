//! What the workers of a run share.

use block_store::Board;
use crossbeam_utils::sync::EventCount;
use dependence_queue::Edges;
use ready_queue::Ready;
use task_values::Run;

/// The rows and columns of a block.
#[derive(Clone, Copy, Debug)]
pub struct Size {
    pub rows: u32,
    pub cols: u32,
}

/// The steps of a run with the direct edges between them; the board on which they are taken, the queue of those that may start, the
/// shapes of the blocks by number, and what a worker sleeps on that finds no step.
#[derive(Clone, Copy)]
pub struct SharedRun<'a> {
    pub run: Run<'a>,
    pub edges: &'a Edges,
    pub board: &'a Board,
    pub ready: &'a Ready,
    pub sizes: &'a [Size],
    pub event_count: &'a EventCount,
}
