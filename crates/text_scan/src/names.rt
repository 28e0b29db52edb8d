//! Names by their numbers in a list.

ghost use Rattle.std.specs.Prelude.{◌≡◌, ◌≤◌, length};
ghost use Rattle.text_scan.specs.Names.{has_twice, is_among, number_of};

use crate::Name;

/// The first number with this name; the count of the names where none has it.
pub fn number_of(names: &[Name], text: &[u8]) -> usize
    ensures value { result ≡ number_of names.now text.now }
    ensures within { result ≤ length names.now }
{
    names
        .iter()
        .take_while(|name| name.as_slice() != text)
        .count()
}

/// Whether one of the names is this one.
pub fn is_among(names: &[Name], text: &[u8]) -> bool
    ensures { result ≡ is_among names.now text.now }
{
    number_of(names, text) < names.len()
}

/// Whether a name stands twice.
pub fn has_twice(names: &[Name]) -> bool
    ensures { result ≡ has_twice names.now }
{
    match names {
        [name, others @ ..] => is_among(others, name.as_slice()) || has_twice(others),
        [] => false,
    }
}
