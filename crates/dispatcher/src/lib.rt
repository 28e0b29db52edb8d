//! Workers that take the steps of a job on threads, each step once and after all that it depends on.
//!
//! A plan (`Plan`) says what is run. Its board (`block_store`) has the steps and the blocks, and the queue (`ready_queue`) the steps
//! that may start; the workers share both (`shared_run`), and each has buffers of its own (`worker`), with room for any step (`buffers`,
//! `room`, `sizes`). A worker pops a step, claims it, draws its first stamp, copies what it reads and what it writes (`copying`), lets
//! its kernel change the copy of that, and puts it in its place (`doing`), draws its second stamp, and tells the steps behind it
//! (`telling`, `working`). Once all steps have ended, the workers' seats are joined into one that knows all that was done, and by what
//! the board's rule says of it the stamps are a schedule of the steps (`joining`, `running`). `run_steps` goes all the way from a plan
//! to what its job means (`finishing`).
//!
//! Which worker does what, and in which order steps that don't conflict go, no clause says. No clause says either that a run returns.
#![tactic(auto)]

mod buffers;
mod copying;
mod crew;
mod doing;
mod finishing;
mod joining;
mod plan;
mod room;
mod running;
mod shared_run;
mod sizes;
mod telling;
mod worker;
mod working;

pub use crew::Crew;
pub use finishing::{Finished, run_steps};
pub use plan::Plan;
pub use running::{Ran, run};
