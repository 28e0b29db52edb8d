//! Sums of products along rows, modulo m: the inner loop of every kernel, on slices and numbers alone.
//!
//! A `Reducer` is a modulus with its reciprocal. The numbers that are multiplied are below 2^32. A sum of their products is kept
//! in two halves of 64 bits (`Halves`) and is reduced once, at its end. `row_sums` takes one row by the lines of a panel,
//! four lines at a time; `three_row_sums` takes three rows, two lines at a time.
#![tactic(auto)]

mod halves;
mod one_row;
mod panel;
mod reducer;
#[cfg(test)]
mod tests;
mod three_rows;

pub use one_row::row_sums;
pub use panel::Panel;
pub use reducer::Reducer;
pub use three_rows::{Rows, three_row_sums};
