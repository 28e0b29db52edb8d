//! What the expressions of blocks say beyond what their own crates need: for which block each of them stands, which blocks are zero
//! by structure, and that the settings that all laws on expressions are about exist.
#![tactic(auto)]

pub mod laws;
#[cfg(test)]
mod tests;
