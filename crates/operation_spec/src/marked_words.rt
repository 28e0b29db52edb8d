//! The words of an equation, each with the `'` behind it.

ghost use Rattle.std.specs.Prelude.{◌≡◌, ◌≤◌, length, codes, IfOk};
ghost use Rattle.text_scan.specs.Lines.{begins_with};
ghost use Rattle.operation_spec.specs.Equations.{is_factor, is_plain, is_plus_or_minus, marked, side_of};
ghost use Rattle.operation_spec.specs.MarkedWords.{behind_prime, marked_word, marked_words};
ghost use Rattle.operation_spec.specs.OperationFaults.{names_of};

use crate::equation::Side;
use crate::names::operand_number;
use crate::operation::Operand;
use std::alloc::{AllocError, Global};
use text_scan::{Words, is_name};

/// A word of an equation, and whether `'` stands behind it.
#[derive(Clone, Copy, Debug)]
pub struct MarkedWord<'a> {
    pub word: &'a [u8],
    pub primed: bool,
}

impl<'a> MarkedWord<'a> {
    /// Whether this is the text, with no `'` behind it.
    pub fn is_plain(&self, text: &[u8]) -> bool
        ensures { result ≡ is_plain text.now (marked_word self.now) }
    {
        !self.primed && self.word == text
    }

    /// Whether this is `+` or `-`.
    pub fn is_plus_or_minus(&self) -> bool
        ensures { result ≡ is_plus_or_minus (marked_word self.now) }
    {
        self.is_plain(b"+") || self.is_plain(b"-")
    }

    /// Whether this is a name, perhaps with `'` behind it.
    pub fn is_factor(&self) -> bool
        ensures { result ≡ is_factor (marked_word self.now) }
    {
        is_name(self.word)
    }

    /// The operand with this name.
    pub fn side(&self, work: &Operand, knowns: &[Operand]) -> Side
        requires { length knowns.now ≤ 6 }
        ensures { result ≡ side_of (names_of work.now knowns.now) (marked_word self.now) }
    {
        Side {
            operand: operand_number(work, knowns, self.word) as u32,
            primed: self.primed,
        }
    }
}

/// The words behind a word, and whether `'` stood in front of them, which is taken off.
fn take_prime(words: &mut Words<'_>) -> bool
    ensures { (result ≡ begins_with (codes "'") words.old) × (words.new ≡ behind_prime words.old) }
{
    let primed = words.begins_with(b"'");
    if primed {
        let _ = words.next();
    }
    primed
}

/// The words of an equation, each `'` with the word before it.
pub fn marked<'a>(alloc: Global, words: Words<'a>) -> Result<Vec<MarkedWord<'a>>, AllocError>
    ensures { IfOk result (λ found. marked_words found.items ≡ marked words.entry) }
{
    let mut found = Vec::new(alloc);
    let mut rest = words;
    while let Some(word) = rest.next() {
        let primed = take_prime(&mut rest);
        found.push(MarkedWord { word, primed })?;
    }
    Ok(found)
}
