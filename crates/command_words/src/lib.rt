//! The words of a command.
//!
//! A command (`command`) has one spelling, a list of words in a fixed order (`specs/Words.antt`). `read_words` is the way
//! back: the command that words name, or none exactly where they name none. It goes from the first word to the last: the first
//! says which command it is (`reading`), then come names, or numbers and sizes (`fronts`), then the options of a run (`options`);
//! each word is the one that is due there, a name (`names`), or a number in its range (`numbers`). `laws` says that words name at
//! most one command, and that all words name a command or are bad.
#![tactic(auto)]

mod command;
mod fronts;
mod laws;
mod names;
mod numbers;
mod options;
mod reading;

pub use command::{Command, RunWords};
pub use laws::{words_are_named_or_bad, words_name_one_command};
pub use reading::read_words;

#[cfg(test)]
mod tests;
