//! Tokens of a text: names, numbers and signs, each a slice of the source with its line.
//!
//! `scan` answers the tokens of bytes in order, or the first bad byte (`specs/Tokens`). They are all that the
//! bytes have, which is said place by place (`specs/Tokenization`). Readers above go by a cursor, `Lines`, line
//! by line; what they see of a line, `TextLine`, is its number and its words (`specs/Lines`, `specs/Words`). Why
//! lines are refused is one type (`specs/Faults`). What is printed has one spelling (`specs/NormalTexts`), and
//! scanning it gives the same lines back.
#![tactic(auto)]

pub mod laws;
mod lines;
mod names;
mod scanner;
mod text_line;
mod token;
mod words;

use item_lists::ItemList;
pub use lines::{Lines, TextEnd, end_line};
pub use names::{has_twice, is_among, number_of};
pub use scanner::scan;
pub use text_line::{TextLine, Words};
pub use token::{Front, ScanFault, Token, TokenKind};
pub use words::{is_name, is_number, number};

/// The bytes of a name.
pub type Name = ItemList<u8>;

/// Names in their order.
pub type NameList = ItemList<Name>;

/// Where the second part of an input begins, or its end: the byte's place, from 0, and its line's number.
#[derive(Clone, Copy, Debug, PartialEq, Eq)]
pub struct Rest {
    pub at: u32,
    pub line: u32,
}

#[cfg(test)]
mod tests;
