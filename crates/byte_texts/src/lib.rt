//! Decimal numbers as bytes, and reading from left to right.
//!
//! A printed number is std's `decimal` of it. Reading a number is a second function on lists, which answers
//! the number and the bytes behind it (`specs/Decimals`). Two laws on lists join the two: what is read is
//! spelled so, and what is spelled so is read (`proofs/DecimalTexts`). `specs/Reading` has what every reader
//! is stated by: a value or a fault, and `Gives`, which holds the code of a reader to its function.
#![tactic(auto)]

mod decimals;

pub use decimals::{put_decimal, read_decimal};
