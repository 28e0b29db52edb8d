//! Tests of the call that does all that the program does (`top`, of `flame_top`).
//!
//! A run of it on streams in memory stands in `answers`. Its commands answer while memory lasts, with the text and the status that are
//! due (`commands`), and several workers of a command work beside each other (`threads`).
#![tactic(auto)]

#[cfg(test)]
mod answers;
#[cfg(test)]
mod commands;
#[cfg(test)]
mod threads;
