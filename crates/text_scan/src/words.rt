//! What a word is by its text.

ghost use Rattle.std.specs.Prelude.{◌≡◌, ◌+◌, ◌≤◌, length, IsTrue};
ghost use Rattle.text_scan.specs.Words.{word, kind_of, is_word, is_name, is_number, small_number};
ghost use Rattle.text_scan.specs.declared.token.TokenKind.TheVariants.{Number};

use crate::token::Token;
use byte_texts::read_decimal;

/// How many bytes a name may have.
const NAME_LIMIT: usize = 32;

impl Token {
    /// Lends the text of the token, of these bytes.
    pub fn text<'a>(&self, bytes: &'a [u8]) -> &'a [u8]
        requires { self.now.start + self.now.len ≤ length bytes.now }
        ensures { result.now ≡ word bytes.now self.now }
    {
        let start = self.start as usize;
        &bytes[start..start + self.len as usize]
    }
}

/// Whether a word may stand as a name: it begins as one, and has at most 32 bytes.
pub fn is_name(text: &[u8]) -> bool
    ensures { result ≡ is_name text.now }
{
    match text {
        [first, ..] => first.is_ascii_alphabetic() && text.len() <= NAME_LIMIT,
        [] => false,
    }
}

/// Whether a word may stand as a number: it begins as one, and no zero leads a further digit.
pub fn is_number(text: &[u8]) -> bool
    ensures { result ≡ is_number text.now }
{
    match text {
        [first] => first.is_ascii_digit(),
        [first, ..] => first.is_ascii_digit() && *first != b'0',
        [] => false,
    }
}

/// The number that a token of these bytes is. There is none exactly where a zero leads a further digit, and
/// from 2^64 on.
pub fn number(bytes: &[u8], token: Token) -> Option<u64>
    requires within { token.start + token.len ≤ length bytes.now }
    requires word { IsTrue (is_word (word bytes.now token)) }
    requires kind { kind_of (word bytes.now token) ≡ Number }
    ensures { result ≡ small_number (word bytes.now token) }
{
    match read_decimal(token.text(bytes)) {
        Some((value, _rest)) => Some(value),
        None => None,
    }
}
