//! Worksheets as text, both ways.
//!
//! `write_worksheet` prints one with its comments: the operation's equation, and what each block holds before and after.
//! `read_worksheet` reads one from the second part of an input, or names the first fault and its line.
#![tactic(auto)]

mod equation_text;
mod fault;
pub mod laws;
mod loop_lines;
mod names;
mod reading;
mod round_lines;
mod words;
mod writing;

pub use fault::WsFault;
pub use names::named;
pub use reading::read_worksheet;
pub use writing::write_worksheet;
