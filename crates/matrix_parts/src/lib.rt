//! Parts of one matrix, borrowed without copying, and operands: parts that are read through the view of a structure.
//!
//! A `Part` is lent to be read and a `PartMut` to be written. Both are rectangles of one slice: a first place, a stride
//! from row to row, and so many rows and columns. What kernels read is an `Oper`: a part with its structure, transposed
//! where it is primed.
#![tactic(auto)]

mod oper;
mod panel_mut;
mod part;
mod part_mut;
mod region;
#[cfg(test)]
mod tests;

pub use oper::Oper;
pub use panel_mut::PanelMut;
pub use part::{Part, part_of_slice, whole};
pub use part_mut::{PartMut, whole_mut, whole_of};
