//! Orders in which steps may begin and end, and a machine that takes them one by one.
//!
//! Each step begins and ends once, and begins only when all steps before it that it conflicts with have ended
//! (`specs/Schedules.antt`). `laws` says that the tests of schedules and of their beginnings tell just that, that some
//! schedule continues each beginning, that steps which run at one time don't conflict, that direct edges tell which step may
//! begin, and how many there are. `block_laws` says what the blocks of a job are meanwhile (`specs/EventBlocks.antt`): the
//! values of a replay in the order of the steps; and that a step's outcome in the replay is the one thing that can become of it
//! behind the steps before it.
//!
//! `Machine` is a list of steps with the events so far (`specs/Courses.antt`). It takes an event exactly where it may come next, which
//! marks and counters tell (`turns`): a step waits for as many direct edges as come from steps that haven't ended
//! (`edges_of_steps` finds them). A step is done when it ends, unless a step that it conflicts with failed or was skipped; its block is
//! kept until then, and put back where it meets a bad pivot (`held`). `run_events` goes through a whole list of events, and
//! answers what the steps come to if the list is a schedule.
#![tactic(auto)]

pub mod block_laws;
mod event;
mod held;
pub mod laws;
mod machine;
mod running;
mod step_edges;
mod turns;

pub use event::{Event, EventList};
pub use held::lesser;
pub use machine::Machine;
pub use running::run_events;
pub use step_edges::edges_of_steps;

#[cfg(test)]
mod tests;
