//! The queue of steps that may start, which the workers of a run share: nothing that was pushed is lost, and nothing is popped
//! more often than it was pushed.
//!
//! A worker has a pass, whose view is what it pushed and popped; it exists in proofs alone (`pass_view`). The rule of the queue
//! (`specs/Rule.antt`) says of the numbers in the queue and all views, between any two steps of the queue, that each number was
//! pushed as often as it was popped and stands in the queue, and that no pass pushed a number twice. So there is room for each
//! push: the queue has a place for each step and caller.
#![tactic(auto)]

mod calls;
pub mod laws;
mod moves;
mod pass_view;
mod queue;
#[cfg(test)]
mod tests;

pub use pass_view::{PassView, ReadyRule};
pub use queue::{Pass, Passes, Ready};
