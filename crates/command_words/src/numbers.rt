//! Words that are numbers in a range.

ghost use Rattle.std.specs.Prelude.{◌≡◌, ◌≢◌, ◌≤◌, ◌<◌, ◌^◌, ◌==◌, ℕ, List, IfOk, MatchOption, map, decimal};
ghost use Rattle.std.specs.List.{slice_split};
ghost use Rattle.command_words.specs.Words.{AreVariants, variants_word};

use byte_texts::read_decimal;
use std::alloc::{AllocError, Global};
use structure_rules::NumberList;

/// The number that a whole word is.
fn word_number(word: &[u8]) -> Option<u64>
    ensures { MatchOption result ((n : ℕ) → n < 2 ^ 64 → word.now ≢ decimal n)
        (λ n. (n < 2 ^ 64) × (word.now ≡ decimal n)) }
{
    match read_decimal(word) {
        Some((value, rest)) => if rest.is_empty() { Some(value) } else { None },
        None => None,
    }
}

/// The number that a whole word is, where it is neither below `low` nor above `high`.
pub fn number_in(word: &str, low: u32, high: u32) -> Option<u32>
    ensures { MatchOption result ((n : ℕ) → low ≤ n → n ≤ high → word.now ≢ decimal n)
        (λ n. (low ≤ n) × (n ≤ high) × (word.now ≡ decimal n)) }
{
    let number = word_number(word.as_bytes())?;
    if number < u64::from(low) || u64::from(high) < number {
        return None;
    }
    Some(number as u32)
}

/// The pieces of a word between its commas.
fn pieces(alloc: Global, word: &str) -> Result<Vec<&str>, AllocError>
    ensures { IfOk result (λ all.
        map (λ x. x.now) all.items ≡ slice_split (λ b. b == 44) word.now) }
{
    word.split(',').collect(alloc)
}

/// The numbers of variants that a word lists, with a comma between each two and nothing else. There are none where a piece is no
/// number from 1 to 4,294,967,295.
pub fn variants_in(alloc: Global, word: &str) -> Result<Option<NumberList>, AllocError>
    ensures { IfOk result (λ found. MatchOption found
        ((numbers : List ℕ) → AreVariants numbers → word.now ≢ variants_word numbers)
        (λ numbers. AreVariants numbers × (word.now ≡ variants_word numbers))) }
{
    let mut numbers = NumberList::new(alloc);
    for piece in &pieces(alloc, word)? {
        match number_in(piece, 1, u32::MAX) {
            Some(number) => numbers.push(number)?,
            None => return Ok(None),
        }
    }
    Ok(Some(numbers))
}
