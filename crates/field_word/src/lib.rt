//! Exact arithmetic on residues modulo a number below 2^32, and the inverses of units.
//!
//! `Modulus` is seen by contracts as its number. A residue is a `u64` below it, which callers show once, where it comes from outside.
#![tactic(auto)]

mod modulus;

pub use modulus::{Modulus, inverse_is_unique};
