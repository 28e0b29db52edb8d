//! The queue and a caller's token.

ghost use Rattle.std.specs.Prelude.{◌*◌, ◌<◌, ◌≤◌};
ghost use Rattle.crossbeam_queue.specs.Passes.{ruled_capacity};

use crate::pass_view::{PassView, ReadyRule};
use crossbeam_queue::RuledArrayQueue;

/// Step numbers that wait for a worker.
#[derive(Drop)]
pub struct Ready {
    pub numbers: RuledArrayQueue<u32, PassView, ReadyRule>,
    pub steps: u32,
    pub callers: u32,
    ghost called: { 0 < callers },
    ghost roomy: { steps * callers ≤ ruled_capacity numbers },
}

/// A caller's token, by which it pushes to its queue and pops from it. It has no bytes.
#[derive(Drop)]
pub struct Pass {
    pub inner: crossbeam_queue::Pass<u32, PassView>,
}

/// The passes of all callers of a queue.
pub type Passes = Vec<Pass>;
