//! Jobs, their statements, and the equation that each statement states.
//!
//! `specs/Equations` says, entry by entry, when a matrix satisfies the equation of an operation for given
//! matrices, for all six forms; `specs/Meanings` says what a whole job means. Both speak of whole matrices and
//! never of blocks, tasks or loops. `laws` says what follows from them.
#![tactic(auto)]

mod candidate;
mod input_pivots;
mod job;
pub mod laws;
mod residuals;
mod row_products;
mod views;

pub use input_pivots::first_bad_input_pivot;
pub use job::{Job, OperationList, Place, Statement, StatementList};
pub use residuals::{residual, residual_row};
