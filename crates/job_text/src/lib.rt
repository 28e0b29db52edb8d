//! Jobs as text: a header, the modulus, operations, matrices, statements and prints.
//!
//! `read_job` reads one, or names the first fault and its line; `write_job` prints the one normal text. Behind a job an
//! input may have a second part: where it begins, `read_job` says, and `read_after` reads one that has each statement's
//! work matrix as it stands after it. `laws` and `after_laws` say what the definitions mean together.
#![tactic(auto)]

mod after;
pub mod after_laws;
#[cfg(test)]
mod after_tests;
mod binding;
mod blocks;
mod fault;
mod header;
pub mod laws;
mod names;
mod reading;
mod second_part;
mod statements;
mod stop;
#[cfg(test)]
mod tests;
#[cfg(test)]
mod whole_text_tests;
mod writing;

pub use after::read_after;
pub use fault::JobFault;
pub use reading::read_job;
pub use stop::Stop;
pub use writing::write_job;
