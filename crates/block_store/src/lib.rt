//! The board by which the workers of a run take the steps of a job, each once and after all that it depends on.
//!
//! A board is a table of words and slots that its workers share: a clock, a word for each step, with the number of direct edges into
//! it that aren't noticed yet, a bit for its claim and a mark to skip it, and a word for the turn of each block, which lies in a
//! slot. A worker has a seat. It claims a step, begins and ends it, and tells the steps behind it (`board`); meanwhile it copies
//! rectangles of blocks into buffers and puts what its step leaves (`copying`), for which it takes blocks and gives them back
//! (`blocks`). What a seat did is its view, a list of facts that exists in proofs alone (`view`).
//!
//! The rule of the board (`specs/Rule.antt`) says of the words and all views, between any two atomic steps, that each step is
//! claimed once and with all edges into it noticed, and that the stamps that the clock gave go forward along each edge; and of the
//! blocks (`specs/Holding.antt`) that one seat at most holds each, and that the others lie in their slots as the steps so far leave
//! them. What one atomic step tells its caller stands in `plays`.
#![tactic(auto)]

mod blocks;
mod board;
mod board_end;
mod copying;
mod key;
pub mod laws;
mod new_board;
mod outcome;
mod plays;
mod rect;
mod seat;
#[cfg(test)]
mod tests;
mod view;

pub use board_end::ClosedBoard;
pub use key::BoardKey;
pub use new_board::Seats;
pub use outcome::StepOutcome;
pub use rect::{Copied, Rect};
pub use seat::{Board, Seat};
pub use view::{BoardRule, Fact, View};
