//! Triangular systems and Sylvester systems, solved on a part in place.
//!
//! A triangular table is a list of equations between the unknowns of each line of a part, a column where the table stands on
//! the left and a row where it stands on the right (`line_systems`). Lines are copied into a panel, as many as there is room
//! for, and each equation is solved on all of them by one row of the table (`panel_solves`, `line_solves`); three equations at
//! a time share the sums over the unknowns that come before all of them (`three_solves`). A Sylvester system has such a table
//! on either side: it is solved by pieces of columns, from which the columns before them are taken first
//! (`sylvester_solves`), and in a piece row by row (`sylvester_pieces`). What is too large for a buffer is solved entry by
//! entry (`plain_solves`, `sylvester`).
#![tactic(auto)]

mod ldl_solves;
mod line_solves;
mod line_systems;
mod panel_solves;
mod plain_solves;
mod solves;
mod sylvester;
mod sylvester_pieces;
mod sylvester_solves;
mod three_solves;

pub use ldl_solves::solve_right_ldl;
pub use solves::{solve_left, solve_right};
pub use sylvester::solve_sylvester;
