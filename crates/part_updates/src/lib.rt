//! Products that are added to a part in place, or subtracted from it.
//!
//! An update goes over the inner numbers of a product in depths that a buffer on the stack has room for, and in each depth over
//! pieces of columns. The columns of a piece are copied into a panel (`updates/factors`), a middle factor being multiplied in by
//! then, the rows of the first factor meet them three at a time (`updates/rows`), and the sums, reduced once, are added to the
//! entries that the structure of the part has (`changes`, `updates/tiles`). Inner numbers at which a factor is zero by its
//! structure are left out (`updates/spans`), so that a triangular factor makes about half of the work.
#![tactic(auto)]

mod changes;
mod updates;

pub use updates::{update, update_ldl};
