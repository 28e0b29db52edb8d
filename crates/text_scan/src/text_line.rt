//! A line of a text, and its words.

ghost use Rattle.std.specs.Prelude.{◌≡◌, ◌∷◌, [], length, drop, MatchOption, IfOk, IsTrue};
ghost use Rattle.std.specs.List.{list_all};
ghost use Rattle.std.specs.Str.{bytes_eq};
ghost use Rattle.text_scan.specs.Lines.{begins_with, is_end, nth_word};
ghost use Rattle.text_scan.specs.TokenWords.{HaveWords, words_of};
ghost use Rattle.text_scan.specs.Words.{is_name, is_number, small_number};

use crate::token::Token;
use crate::words::{is_name, is_number, number};
use crate::{Name, NameList};
use std::alloc::{AllocError, Global};
use std::marker::Model;

/// A text as a name of its own. Its one error is want of memory.
fn name_of(alloc: Global, text: &[u8]) -> Result<Name, AllocError>
    ensures { IfOk result (λ name. name ≡ text.now) }
{
    let mut bytes = Vec::new(alloc);
    bytes.extend_from_slice(text)?;
    Ok(Name::from_vec(bytes))
}

/// The tokens from a place on.
fn tokens_behind(tokens: &[Token], at: usize) -> &[Token]
    ensures { result.now ≡ drop at tokens.now }
{
    if at < tokens.len() {
        &tokens[at..]
    } else {
        &[]
    }
}

/// Words that follow each other on a line.
#[derive(Drop)]
pub struct Words<'a> {
    bytes: &'a [u8],
    tokens: &'a [Token],
}

impl<'a> Model for Words<'a> {
    ghost use Rattle.std.specs.Prelude.{ℕ, List};
    ghost use Rattle.text_scan.specs.TokenWords.{HaveWords, words_of};

    ghost Value = { List (List ℕ) };

    ghost view = { λ s. words_of s.bytes.now s.tokens.now };

    ghost invariant = { λ s. HaveWords s.bytes.now s.tokens.now };
}

impl<'a> Words<'a> {
    /// How many they are.
    pub fn len(&self) -> usize
        ensures { result ≡ length self.now }
    {
        self.tokens.len()
    }

    /// Takes the first word off.
    pub fn next(&mut self) -> Option<&'a [u8]>
        ensures { MatchOption result (self.old ≡ []) (λ word. self.old ≡ word.now ∷ self.new) }
    {
        match self.tokens {
            [first, behind @ ..] => {
                let text = first.text(self.bytes);
                self.tokens = behind;
                Some(text)
            }
            [] => None,
        }
    }

    /// Whether the first word is this one.
    pub fn begins_with(&self, word: &[u8]) -> bool
        ensures { result ≡ begins_with word.now self.now }
    {
        match self.tokens {
            [first, ..] => first.text(self.bytes) == word,
            [] => false,
        }
    }

    /// Whether each word may stand as a name.
    pub fn are_names(&self) -> bool
        ensures { result ≡ list_all is_name self.now }
    {
        let bytes = self.bytes;
        for token in self.tokens {
            if !is_name(token.text(bytes)) {
                return false;
            }
        }
        true
    }

    /// Whether each word may stand as a number.
    pub fn are_numbers(&self) -> bool
        ensures { result ≡ list_all is_number self.now }
    {
        let bytes = self.bytes;
        for token in self.tokens {
            if !is_number(token.text(bytes)) {
                return false;
            }
        }
        true
    }

    /// The words as names of their own. Its one error is want of memory.
    pub fn names(&self, alloc: Global) -> Result<NameList, AllocError>
        ensures { IfOk result (λ names. names ≡ self.now) }
    {
        let bytes = self.bytes;
        let mut names = NameList::new(alloc);
        for token in self.tokens {
            names.push(name_of(alloc, token.text(bytes))?)?;
        }
        Ok(names)
    }
}

/// A line of a text: its number and its words.
#[derive(Drop)]
pub struct TextLine<'a> {
    number: u32,
    bytes: &'a [u8],
    tokens: &'a [Token],
}

impl<'a> Model for TextLine<'a> {
    ghost use Rattle.text_scan.specs.Lines.{Line};
    ghost use Rattle.text_scan.specs.TokenWords.{HaveWords, words_of};

    ghost Value = { Line };

    ghost view = { λ s. record { number = s.number; words = words_of s.bytes.now s.tokens.now } };

    ghost invariant = { λ s. HaveWords s.bytes.now s.tokens.now };
}

impl<'a> TextLine<'a> {
    /// The line of tokens with a number.
    pub(crate) fn new(number: u32, bytes: &'a [u8], tokens: &'a [Token]) -> TextLine<'a>
        requires { HaveWords bytes.now tokens.now }
        ensures { result ≡ record { number = number; words = words_of bytes.now tokens.now } }
    {
        TextLine {
            number,
            bytes,
            tokens,
        }
    }

    /// Its number in the text.
    pub fn number(&self) -> u32
        ensures { result ≡ self.now.number }
    {
        self.number
    }

    /// How many words it has.
    pub fn len(&self) -> usize
        ensures { result ≡ length self.now.words }
    {
        self.tokens.len()
    }

    /// The word at a place, from 0; empty past the last.
    pub fn word(&self, at: usize) -> &'a [u8]
        ensures { result.now ≡ nth_word self.now.words at }
    {
        match self.tokens.get(at) {
            Some(token) => token.text(self.bytes),
            None => &[],
        }
    }

    /// Whether this is the word at a place.
    pub fn is_text(&self, at: usize, text: &[u8]) -> bool
        ensures { result ≡ bytes_eq (nth_word self.now.words at) text.now }
    {
        self.word(at) == text
    }

    /// Whether the first word is this one.
    pub fn begins_with(&self, word: &[u8]) -> bool
        ensures { result ≡ begins_with word.now self.now.words }
    {
        match self.tokens {
            [first, ..] => first.text(self.bytes) == word,
            [] => false,
        }
    }

    /// Whether it is the word `end`, alone.
    pub fn is_end(&self) -> bool
        ensures { result ≡ is_end self.now.words }
    {
        match self.tokens {
            [word] => word.text(self.bytes) == b"end".as_slice(),
            _ => false,
        }
    }

    /// The word at a place as a name of its own. Its one error is want of memory.
    pub fn name(&self, alloc: Global, at: usize) -> Result<Name, AllocError>
        ensures { IfOk result (λ name. name ≡ nth_word self.now.words at) }
    {
        name_of(alloc, self.word(at))
    }

    /// The number that the word at a place is, where it may stand as one; there is none from 2^64 on.
    pub fn number_at(&self, at: usize) -> Option<u64>
        ensures { IsTrue (is_number (nth_word self.now.words at))
            → result ≡ small_number (nth_word self.now.words at) }
    {
        match self.tokens.get(at) {
            Some(token) => {
                if is_number(token.text(self.bytes)) {
                    number(self.bytes, *token)
                } else {
                    None
                }
            }
            None => None,
        }
    }

    /// The words from a place on.
    pub fn behind(&self, at: usize) -> Words<'a>
        ensures { result ≡ drop at self.now.words }
    {
        Words {
            bytes: self.bytes,
            tokens: tokens_behind(self.tokens, at),
        }
    }
}
