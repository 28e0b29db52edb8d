//! Matrices of whole numbers, seen as a number of rows, a number of columns and the entries row by row.
//!
//! A `Matrix` owns its entries, side by side and row after row, so that code which goes along rows works
//! on plain slices (`entries`, `into_entries`, `from_entries`).
#![tactic(auto)]

mod matrix;

pub use matrix::Matrix;

/// A list of matrices.
pub type MatrixList = item_lists::ItemList<Matrix>;
