//! Jobs that are generated from a seed, to have something to run.
//!
//! A generated job makes a matrix S from factors that have ones on their diagonal, factors it
//! again, and solves two triangular systems by these factors. All numbers are drawn from the seed,
//! so that size, modulus and seed name the job (`specs/GeneratedJobs`). `generate` makes it, and
//! `laws` says that it is valid, that its text is read back, and that it has no bad pivot.
#![tactic(auto)]

mod draws;
mod generated;
pub mod laws;
mod lists;
mod operations;

pub use generated::generate;

#[cfg(test)]
mod tests;
