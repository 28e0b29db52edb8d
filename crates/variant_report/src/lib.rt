//! What the program prints: of a family each loop variant on a line, with its split, its directions and the tasks
//! of its invariant; of a run the matrices that the job prints; of its trace the steps, the direct edges between
//! them and a schedule; of a run of a generated job a summary, the sums of the printed matrices' entries; of an operation its
//! partitioned matrix expression; of a worksheet that was checked the verdict.
#![tactic(auto)]

mod families;
mod number_lines;
mod orders;
mod pmes;
mod results;
mod self_words;
mod summaries;
mod traces;
mod verdicts;

pub use families::write_family;
pub use orders::ordered_events;
pub use pmes::write_pme;
pub use results::write_result;
pub use self_words::SelfWords;
pub use summaries::write_summary;
pub use traces::write_trace;
pub use verdicts::write_verdict;

#[cfg(test)]
mod tests;
