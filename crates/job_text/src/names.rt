//! Names of a text, and their numbers among those that are declared.

ghost use Rattle.std.specs.Prelude.{◌≡◌, ◌≤◌, length, map, not, ◌==◌, IfOk};
ghost use Rattle.std.specs.List.{list_all, prefix_len};
ghost use Rattle.std.specs.Str.{bytes_eq};
ghost use Rattle.text_scan.specs.Names.{is_among, number_of};
ghost use Rattle.job_text.specs.JobFaults.{has_number};

use operation_spec::Operation;
use std::alloc::{AllocError, Global};
use text_scan::{Name, Words, is_among, number_of};

/// How many operations stand before the first with this name.
fn others_before(operations: &[Operation], text: &[u8]) -> usize
    ensures value { result ≡ prefix_len (λ op. not (bytes_eq op.name text.now)) operations.now }
    ensures within { result ≤ length operations.now }
{
    operations
        .iter()
        .take_while(|op| op.name.as_slice() != text)
        .count()
}

/// The number of the first operation with this name; the count of the operations where none has it.
#[tactic(auto, using(crate::proofs::OperationNumbers::operation_number_is))]
pub fn operation_number(operations: &[Operation], text: &[u8]) -> usize
    ensures value { result ≡ number_of (map (λ op. op.name) operations.now) text.now }
    ensures within { result ≤ length operations.now }
{
    others_before(operations, text)
}

/// Whether each of the words is one of the names.
pub fn are_among(names: &[Name], words: Words<'_>) -> bool
    ensures { result ≡ list_all (is_among names.now) words.entry }
{
    let mut rest = words;
    while let Some(word) = rest.next() {
        if !is_among(names, word) {
            return false;
        }
    }
    true
}

/// The numbers that the words have among the names.
pub fn numbers_of(alloc: Global, names: &[Name], words: Words<'_>) -> Result<Vec<u32>, AllocError>
    requires { length names.now ≤ 32 }
    ensures { IfOk result (λ numbers. numbers.items ≡ map (number_of names.now) words.entry) }
{
    let mut numbers = Vec::new(alloc);
    let mut rest = words;
    while let Some(word) = rest.next() {
        numbers.push(number_of(names, word) as u32)?;
    }
    Ok(numbers)
}

/// Whether the number is none of these.
fn is_new(numbers: &[u32], n: u32) -> bool
    ensures { result ≡ list_all (λ k. not (k == n)) numbers.now }
{
    numbers.iter().all(|k| *k != n)
}

/// Whether the number is among these.
pub fn has_number(numbers: &[u32], n: u32) -> bool
    ensures { result ≡ has_number numbers.now n }
{
    !is_new(numbers, n)
}
