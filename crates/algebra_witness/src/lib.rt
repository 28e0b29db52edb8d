//! Small functions that use the lemmas of the base crates from code, so that each premise of a lemma is met somewhere.
#![tactic(auto)]

pub mod dot;
pub mod factorization;
pub mod parts;
pub mod substitution;
