//! Kernels: what one block task does on borrowed parts of matrices, in place and without memory of its own.
//!
//! Each kernel leaves in the part that it writes the one solution of its own small equation (`IsValue` and the words of
//! `equation/specs/Kernels`), touches no entry outside the part or outside the structure that it is told, and names the
//! first pivot that is no unit where it may meet one. The kernels stand in three crates that don't know each other: products
//! (`part_updates`), systems (`part_solves`) and pivots with factors (`part_factors`). Inside, each copies lines of its operands
//! into buffers on the stack (`operand_lines`), sums products along them (`row_products`), and reduces each sum once.
#![tactic(auto)]

pub use part_factors::{BadPivot, factor_ldl, factor_lu, pivots, pivots_sylvester};
pub use part_solves::{solve_left, solve_right, solve_right_ldl, solve_sylvester};
pub use part_updates::{update, update_ldl};
