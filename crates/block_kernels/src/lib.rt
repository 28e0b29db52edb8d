//! One step of a statement, done by the kernels on whole blocks.
//!
//! A block task reads blocks of known matrices and of W by number, and changes one block (`block_task`). What it reads are the
//! matrices of a store, or blocks that lie in a room of numbers (`stored_blocks`).
//! Here its kernel is chosen, and how it reads each block: the structure of a diagonal block, and the other way round where a
//! factor is primed or a place of a symmetric matrix is mirrored (`operands`). Updates (`updates`) and solves (`solves`,
//! `factors`) go by the kernels of `kernel_lib`; what is summed or solved is theirs. The step that tests the pivots of a statement
//! fills the statement's list with their inverses (`pivot_lists`), which solves then divide by (`lists`).
#![tactic(auto)]

mod block_task;
mod factors;
mod lists;
mod operands;
mod pivot_lists;
mod pivot_rows;
mod solves;
mod stored_blocks;
mod updates;

pub use block_task::BlockTask;
pub use stored_blocks::{Cut, StoredBlocks};
