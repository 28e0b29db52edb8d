//! Matrices as text: a line `matrix NAME ROWS COLS`, a line for each row, and `end`.
//!
//! `next_matrix` reads one from the lines of a text, or names the first fault and its line; `read_matrix` does so
//! from a token on. Which lines spell a matrix is one definition (`specs/MatrixLines`), which fault lines have is
//! another (`specs/MatrixFaults`), and the laws join the two. `next_rows` reads what is behind the first line, for
//! a block that another word begins. `write_matrix` prints the one normal text (`specs/MatrixTexts`).
#![tactic(auto)]

mod fault;
pub mod laws;
mod reading;
#[cfg(test)]
mod tests;
mod writing;

pub use fault::MatrixFault;
pub use reading::{is_heading, is_sized_line, next_matrix, next_rows, read_matrix};
pub use writing::write_matrix;
