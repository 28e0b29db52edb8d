//! Expressions of blocks.
//!
//! `expand` cuts the equation of an operation into the equations of its blocks, `simplify` drops from an expression what
//! is zero by structure, `state_expr` is the state of a block with some of its tasks done, and `write_expr` prints it.
//! What an expression stands for is said in `block_values`; `laws` says that expanding and simplifying keep it.
#![tactic(auto)]

mod build;
mod expanding;
mod expr;
pub mod laws;
mod operands;
mod orders;
mod places;
mod simplifying;
mod states;
mod write;

pub use block_values::Leaf;
pub use expanding::expand;
pub use expr::{BlockEquation, BlockEquations, Expr, ExprList};
pub use places::{two_parts, work_places};
pub use simplifying::simplify;
pub use states::state_expr;
pub use write::{put_place, write_expr};
