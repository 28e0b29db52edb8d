//! The blocks of a job under a block size.
//!
//! `JobBlocks` numbers them, matrix by matrix and row by row, with the pivot lists behind, in constant time. It says
//! which blocks a step writes and reads (`JobBlocks::access`), cuts the job's matrices into the list of all blocks
//! (`JobBlocks::first_blocks`), and gathers matrices from such a list (`JobBlocks::gathered`). `laws` says what the
//! numbers mean: each is that of one block, and no step reads what it writes.
#![tactic(auto)]

mod accesses;
mod factors;
mod gathering;
mod job_blocks;
pub mod laws;
mod lengths;
mod reads;
mod statements;
mod storing;
mod tables;

pub use job_blocks::JobBlocks;
