//! The check of a worksheet.
//!
//! `check` says that a worksheet is right, or its first wrong place with what was found there and what is due. Its verdict
//! is right exactly on valid worksheets.
#![tactic(auto)]

mod checking;
mod findings;
mod invariants;
pub mod laws;
mod lines;
mod split_sides;
mod update_lines;

pub use checking::check;
