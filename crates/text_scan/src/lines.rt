//! The lines of a text, one after another.

ghost use Rattle.std.specs.Prelude.{◌≡◌, ◌≤◌, ◌∷◌, ◌++◌, [], ◌↔◌, ◌==◌, List, ℕ, map, length, true, false, Some, IsNone, IfSome, MatchOption};
ghost use Rattle.std.specs.List.{prefix_len};
ghost use Rattle.byte_texts.specs.Reading.{Gives};
ghost use Rattle.text_scan.specs.Faults.{◌on◌};
ghost use Rattle.text_scan.specs.FaultKinds.{Syntax};
ghost use Rattle.text_scan.specs.LineOrder.{AreLines};
ghost use Rattle.text_scan.specs.Lines.{begins, lines_of, end_line_of, due_line, front_line, inner_line, word_count};
ghost use Rattle.text_scan.specs.Scanned.{AreTokens};
ghost use Rattle.text_scan.specs.Words.{word};

use crate::text_line::TextLine;
use crate::token::Token;
use std::marker::Model;

/// Where a text ends too early: the number of the line at its end.
#[derive(Clone, Copy, Debug, PartialEq, Eq)]
pub struct TextEnd {
    pub line: u32,
}

/// A line with tokens: its number, its tokens, and those behind it.
#[derive(Clone, Copy, Debug)]
struct TokenLine<'a> {
    number: u32,
    tokens: &'a [Token],
    rest: &'a [Token],
}

/// How many of the tokens from the front on stand on the line with the number.
fn line_len(number: u32, tokens: &[Token]) -> usize
    ensures value { result ≡ prefix_len (λ t. t.line == number) tokens.now }
    ensures within { result ≤ length tokens.now }
{
    tokens.iter().take_while(|t| t.line == number).count()
}

/// The first line of the tokens; there is none where there is no token.
fn split_line(tokens: &[Token]) -> Option<TokenLine<'_>>
    ensures none { IsNone result ↔ (tokens.now ≡ []) }
    ensures parts { IfSome result (λ line. tokens.now ≡ line.tokens.now ++ line.rest.now) }
    ensures line { IfSome result (λ line. (bytes : List ℕ) → lines_of bytes tokens.now
        ≡ record { number = line.number; words = map (word bytes) line.tokens.now }
        ∷ lines_of bytes line.rest.now) }
{
    let number = tokens.first()?.line;
    let (tokens, rest) = tokens.split_at(line_len(number, tokens));
    Some(TokenLine {
        number,
        tokens,
        rest,
    })
}

/// The number of the line at the end of the bytes, the first of which is on `first_line`.
pub fn end_line(first_line: u32, bytes: &[u8]) -> u32
    requires short { length bytes.now ≤ 67108865 }
    requires low { first_line ≤ 67108865 }
    ensures { result ≡ end_line_of first_line bytes.now }
{
    first_line + bytes.iter().filter(|b| **b == b'\n').count() as u32
}

/// The lines of a text that are left to be read. A reader takes them off one by one; behind an error it says
/// nothing of those that are left.
#[derive(Drop)]
pub struct Lines<'a> {
    bytes: &'a [u8],
    tokens: &'a [Token],
    first_line: u32,
    end: u32,
}

impl<'a> Model for Lines<'a> {
    ghost use Rattle.text_scan.specs.Left.{Left, AreLeft};
    ghost use Rattle.text_scan.specs.Lines.{lines_of};

    ghost Value = { Left };

    ghost view = { λ s. record { end = s.end; lines = lines_of s.bytes.now s.tokens.now } };

    ghost invariant = { λ s. AreLeft s.end s.first_line s.bytes.now s.tokens.now };
}

impl<'a> Lines<'a> {
    /// The lines of bytes, of which these are the tokens, or the last of them. The first byte is on `first_line`.
    pub fn new(first_line: u32, bytes: &'a [u8], tokens: &'a [Token]) -> Lines<'a>
        requires short { length bytes.now ≤ 67108865 }
        requires low { first_line ≤ 67108865 }
        requires scanned { AreTokens first_line bytes.now tokens.now }
        ensures { result ≡ record {
          end = end_line_of first_line bytes.now;
          lines = lines_of bytes.now tokens.now;
        } }
    {
        Lines {
            bytes,
            tokens,
            first_line,
            end: end_line(first_line, bytes),
        }
    }

    /// They have words and ascending numbers, up to that of the line at the end. It does nothing.
    pub fn are_lines(&self)
        ensures { AreLines self.now.end self.now.lines }
    {
        let _ = &self.tokens;
    }

    /// The number of the line at the end of the text.
    pub fn end(&self) -> u32
        ensures { result ≡ self.now.end }
    {
        self.end
    }

    /// How many words they have.
    pub fn word_count(&self) -> usize
        ensures { result ≡ word_count self.now.lines }
    {
        self.tokens.len()
    }

    /// The first line, which is left.
    pub fn peek(&self) -> Option<TextLine<'a>>
        ensures { result ≡ front_line self.now.lines }
    {
        let bytes = self.bytes;
        match split_line(self.tokens) {
            Some(line) => Some(TextLine::new(line.number, bytes, line.tokens)),
            None => None,
        }
    }

    /// Whether the first line begins with the word.
    pub fn begins(&self, word: &[u8]) -> bool
        ensures { result ≡ begins word.now self.now.lines }
    {
        match self.peek() {
            Some(line) => line.begins_with(word),
            None => false,
        }
    }

    /// Takes the first line off.
    pub fn next(&mut self) -> Option<TextLine<'a>>
        ensures line { MatchOption result (self.old.lines ≡ [])
            (λ line. self.old.lines ≡ line ∷ self.new.lines) }
        ensures end { self.new.end ≡ self.old.end }
    {
        let bytes = self.bytes;
        match split_line(self.tokens) {
            Some(line) => {
                self.tokens = line.rest;
                Some(TextLine::new(line.number, bytes, line.tokens))
            }
            None => None,
        }
    }

    /// Takes the first line off, where it begins with the word.
    pub fn next_with(&mut self, word: &[u8]) -> Option<TextLine<'a>>
        ensures { MatchOption result ((begins word.now self.old.lines ≡ false)
            × (self.new ≡ self.old))
            (λ line. (begins word.now self.old.lines ≡ true)
            × (self.old.lines ≡ line ∷ self.new.lines) × (self.new.end ≡ self.old.end)) }
    {
        if self.begins(word) { self.next() } else { None }
    }

    /// Takes the line off that is due. Its error is the text's end.
    pub fn due(&mut self) -> Result<TextLine<'a>, TextEnd>
        ensures line { Gives (λ end. Some (Syntax on end.line)) (λ line. (line, self.new.lines))
            result (due_line self.old.end self.old.lines) }
        ensures end { self.new.end ≡ self.old.end }
    {
        match self.next() {
            Some(line) => Ok(line),
            None => Err(TextEnd { line: self.end }),
        }
    }

    /// Takes the line off that is due, where another is due behind it. Its error is the text's end, which a line
    /// without its line feed is.
    pub fn inner(&mut self) -> Result<TextLine<'a>, TextEnd>
        ensures line { Gives (λ end. Some (Syntax on end.line)) (λ line. (line, self.new.lines))
            result (inner_line self.old.end self.old.lines) }
        ensures end { self.new.end ≡ self.old.end }
    {
        match self.next() {
            Some(line) => {
                if line.number() == self.end {
                    Err(TextEnd { line: self.end })
                } else {
                    Ok(line)
                }
            }
            None => Err(TextEnd { line: self.end }),
        }
    }
}
