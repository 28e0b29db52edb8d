//! Words that are names, as texts have them.

ghost use Rattle.std.specs.Prelude.{◌≡◌, ◌↔◌, map, string_bytes, IfOk, IsTrue};
ghost use Rattle.std.specs.List.{list_all};
ghost use Rattle.command_words.specs.Words.{ArePmeWords, may_name};
ghost use Rattle.text_scan.specs.Tokens.{is_name_byte};

use std::alloc::{AllocError, Global};
use text_scan::{Name, NameList, is_name};

/// Whether all bytes may stand in a name: they are letters, digits and `_`.
fn are_name_bytes(bytes: &[u8]) -> bool
    ensures { result ≡ list_all is_name_byte bytes.now }
{
    bytes.iter().all(|b| b.is_ascii_alphabetic() || b.is_ascii_digit() || *b == b'_')
}

/// Whether a word may name something in a text: it begins with a letter, has letters, digits and `_`, and at most 32 bytes.
pub fn may_name(word: &[u8]) -> bool
    ensures { result ≡ may_name word.now }
{
    match word {
        [_, rest @ ..] => is_name(word) && are_name_bytes(rest),
        [] => false,
    }
}

/// Whether each of the words may.
fn may_all_name(words: &[String]) -> bool
    ensures { result ≡ list_all may_name (map string_bytes words.now) }
{
    for word in words {
        if !may_name(word.as_bytes()) {
            return false;
        }
    }
    true
}

/// Whether the words are an operation's name, and the names of one dimension or two.
pub fn are_pme_words(op: &str, dims: &[String]) -> bool
    ensures { IsTrue result ↔ ArePmeWords op.now (map string_bytes dims.now) }
{
    may_name(op.as_bytes()) && !dims.is_empty() && dims.len() <= 2 && may_all_name(dims)
}

/// A word as a name.
pub fn name_of(alloc: Global, word: &str) -> Result<Name, AllocError>
    ensures { IfOk result (λ name. name ≡ word.now) }
{
    Ok(Name::from_vec(Vec::from_slice(alloc, word.as_bytes())?))
}

/// Words as names.
pub fn names_of(alloc: Global, words: &[String]) -> Result<NameList, AllocError>
    ensures { IfOk result (λ names. names ≡ map string_bytes words.now) }
{
    let mut names = NameList::new(alloc);
    for word in words {
        names.push(name_of(alloc, word.as_str())?)?;
    }
    Ok(names)
}
