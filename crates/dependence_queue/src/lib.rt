//! Steps that use blocks, and which of them depend on which.
//!
//! A step writes one block and reads others (`Access`). Two steps conflict where one writes what the other reads, or both
//! write one block. A conflict on a block that no step between them writes is a direct edge. `specs/Conflicts.antt` says so
//! of accesses by the number of their step, so that it serves lists of any kind; `laws` says what this means: a conflict
//! is a direct edge, or comes in by one from a step between.
//!
//! `analyse` answers the direct edges of a list of accesses (`specs/Edges.antt`). It goes through the steps once and keeps,
//! for each block, the last step that writes it and the steps that read it since. `edge_laws` says that edges reach what
//! conflicts reach.
#![tactic(auto)]

mod access;
mod analysis;
mod block_use;
mod edge;
pub mod edge_laws;
mod edges;
pub mod laws;
mod row;

pub use access::{Access, AccessList};
pub use analysis::analyse;
pub use edge::Edge;
pub use edges::Edges;

#[cfg(test)]
mod tests;
