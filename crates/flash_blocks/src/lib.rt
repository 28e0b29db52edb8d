//! Matrices cut into blocks, and gathered again.
//!
//! Under block size b the rows of a matrix have `part_count rows b` parts, and its columns
//! `part_count cols b`; all are of length b but perhaps the last. A block is a part of the rows and a part of
//! the columns, as a matrix of its own. `cut` copies the blocks out of a matrix into a `Flash`, row by row, and
//! `gather` makes the one matrix that has the blocks of a flash, so that gathering a cut gives the matrix back
//! (`laws`). In between a block is lent to be read or written (`Flash::block`, `Flash::block_mut`), and may then
//! have any shape: only `gather` asks that each has the shape of its parts.
#![tactic(auto)]

mod cutting;
mod flash;
mod gathering;
pub mod laws;
mod rows;

pub use cutting::cut;
pub use flash::Flash;
pub use gathering::gather;
