//! Steps of a job done by the kernels, one after another: `replay`.
//!
//! The blocks of the job's matrices and its pivot lists stand in one store, by number (`store`). A step that conflicts with a
//! step that failed or was skipped is skipped, which marks on the blocks tell (`marks`). Any other one is done by its kernel on
//! the block that it writes, and leaves it or meets a bad pivot (`run`). What the last step leaves is gathered (`replaying`).
//!
//! Other orders of the steps use the same parts: a run (`Run`), what is held of it (`Store`, `Marks`, `Failure`), and what a
//! store comes to behind all steps (`outcome_of`). A run also does a step by the blocks alone that it uses (`Run::step`), for
//! whoever holds them elsewhere than in one store. Blocks keep their sizes (`laws`).
#![tactic(auto)]

pub mod laws;
mod marks;
mod outcome;
mod replaying;
mod run;
mod store;

pub use marks::Marks;
pub use outcome::{Failure, Outcome};
pub use replaying::{outcome_of, replay};
pub use run::{DoneStep, Run};
pub use store::{Store, no_block};
