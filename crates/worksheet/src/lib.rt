//! Worksheets of loop variants.
//!
//! A loop along the dimensions of a split has three parts in each of them: those that are done, the next one in the
//! middle, and those that remain. The worksheet of a variant says what each block of W holds before and after the middle
//! part goes over, and the updates between. `make` makes it, and `Valid` in `specs/Worksheets` says which worksheets are
//! right, in whatever order their updates stand. A `Verdict` tells of a worksheet that it is right, or its first wrong
//! place with what was found there and what is due.
#![tactic(auto)]

mod copies;
mod ends;
pub mod laws;
mod making;
mod moments;
mod sheet;
mod verdict;

pub use copies::copied;
pub use making::{make, tasks_in, worksheet_of};
pub use moments::{cut_after, cut_before, three_parts};
pub use sheet::{End, EndList, State, StateList, Worksheet};
pub use verdict::{Shown, Verdict, WsPlace};
