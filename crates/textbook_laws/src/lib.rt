//! What the partitioned matrix expressions of LU and LDL say, in a textbook's words.
//!
//! The expression of each block is made by one rule for all forms (`block_values`). `laws` says that for a matrix cut in two these
//! expressions have values exactly where the equations hold that a textbook states for the four blocks.
#![tactic(auto)]

pub mod laws;
