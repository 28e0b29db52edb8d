//! Families of loop invariants: for each split of an operation's dimensions and each direction, the sets of
//! block tasks that a loop can keep done.
#![tactic(auto)]

mod families;
pub mod laws;
mod rules;
mod splits;
mod variant;
mod walk;

pub use families::{family, variant_at};
pub use rules::holds;
pub use splits::{dir_of, is_split};
pub use variant::Variant;
