//! The list of steps that a job is run by.
//!
//! `issue` lists, statement after statement, the test of its pivots where it has one and then its block tasks in the order of the
//! loop of its variant, each with its accesses. Which variant a statement has is said by a `Choice`. `issue` refuses numbers
//! that aren't one for each statement or that have no variant, and a job that has more parts of a dimension or more steps than
//! a run may have. The list fits the job (`laws`), so its replay does what the job means; so does the canonical list, which has
//! each statement's block tasks in canonical order.
#![tactic(auto)]

mod choice;
mod fault;
mod job_steps;
pub mod laws;
mod loop_order;
mod parts;
mod statement_steps;
mod variants;

pub use choice::Choice;
pub use fault::IssueFault;
pub use job_steps::issue;

#[cfg(test)]
mod tests;
