//! Partitioned matrix expressions: what each block of W holds when all its tasks are done, the block tasks, and which
//! task needs which, with two parts in each dimension of a split.
#![tactic(auto)]

mod builder;
mod needs;
mod pme;

pub use builder::derive_pme;
pub use pme::{Pair, PairList, Pme};
