//! The block tasks of an operation.
//!
//! Each dimension is cut into parts (`Counts`), and W into blocks. A task adds a product to one block of W, or solves
//! the block. `exists` says which tasks an operation has, `tasks` lists them in canonical order, `earlier` is that
//! order, `needs` says which task needs which, and `class` is the task of a coarser cut (`Cut`) that a task is part
//! of. `laws` says what their definitions mean together: the list has what exists, in a strict order that extends the
//! needs, and a task needs what it reads and, for a solve, the other tasks of its block.
#![tactic(auto)]

mod classes;
mod cut;
mod existence;
mod factors;
mod fault;
pub mod laws;
mod listing;
mod need;
mod order;
mod parts;

pub use classes::{class, inner_dim};
pub use cut::{Counts, Cut, Sides};
pub use existence::exists;
pub use fault::TaskFault;
pub use listing::tasks;
pub use need::needs;
pub use order::earlier;

#[cfg(test)]
mod tests;
