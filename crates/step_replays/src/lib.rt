//! Steps of a job, what each leaves in the blocks, and what their replay comes to.
//!
//! A step is a block task of a statement, or the test of its pivots, with the blocks that it writes and reads. `specs/` says
//! how blocks are numbered and which a step uses (`Accesses`), which lists of steps fit a job (`Fits`), and what becomes of
//! steps that are gone through in their order (`Replays`): each leaves what its kernel leaves, fails at a bad pivot, or is
//! skipped behind a failed one. Whatever order fits, the replay does what the job means; that law, and what holds of the blocks
//! on the way, stand in `laws`. What the first steps leave to the next one, whole shapes and what it divides by (`Fronts`), stands
//! in `found_pivots`.
#![tactic(auto)]

pub mod found_pivots;
pub mod laws;
mod step;

pub use step::{Step, StepList};
