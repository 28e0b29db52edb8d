//! What expressions of blocks stand for, as definitions and laws, with no code but their leaves.
#![tactic(auto)]

pub mod laws;
mod leaf;

pub use leaf::Leaf;
