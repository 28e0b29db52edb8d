//! What words begin with, and the words behind it.

ghost use Rattle.std.specs.Prelude.{◌≡◌, ◌≢◌, ◌≤◌, ℕ, List, ◌∷◌, ◌++◌, MatchOption, map, string_bytes, decimal};
ghost use Rattle.command_words.specs.Words.{AreMakeNumbers, AreSizes, make_words, size_words};

use crate::numbers::number_in;

/// The words behind the first one, where that is the given one.
pub fn behind<'a>(words: &'a [String], word: &str) -> Option<&'a [String]>
    ensures { MatchOption result
        ((rest : List (List ℕ)) → map string_bytes words.now ≢ word.now ∷ rest)
        (λ rest. map string_bytes words.now ≡ word.now ∷ map string_bytes rest.now) }
{
    let (first, rest) = words.split_first()?;
    if first.as_str() == word {
        Some(rest)
    } else {
        None
    }
}

/// A number, and the words behind it.
#[derive(Clone, Copy, Drop)]
struct Numbered<'a> {
    number: u32,
    rest: &'a [String],
}

/// The number that the first word is, in a range.
fn number_first(words: &[String], low: u32, high: u32) -> Option<Numbered>
    ensures { MatchOption result ((n : ℕ) (rest : List (List ℕ)) → low ≤ n → n ≤ high
        → map string_bytes words.now ≢ decimal n ∷ rest)
        (λ x. (low ≤ x.number) × (x.number ≤ high)
        × (map string_bytes words.now ≡ decimal x.number ∷ map string_bytes x.rest.now)) }
{
    let (first, rest) = words.split_first()?;
    let number = number_in(first.as_str(), low, high)?;
    Some(Numbered { number, rest })
}

/// The numbers of a generated job, and the words behind them.
#[derive(Clone, Copy, Drop)]
pub struct MakeNumbers<'a> {
    pub n: u32,
    pub m: u32,
    pub seed: u32,
    pub rest: &'a [String],
}

pub fn make_numbers(words: &[String]) -> Option<MakeNumbers>
    ensures { MatchOption result ((n m seed : ℕ) (rest : List (List ℕ)) → AreMakeNumbers n m seed
        → map string_bytes words.now ≢ make_words n m seed ++ rest)
        (λ x. AreMakeNumbers x.n x.m x.seed
        × (map string_bytes words.now ≡ make_words x.n x.m x.seed ++ map string_bytes x.rest.now)) }
{
    let n = number_first(words, 0, 1024)?;
    let m = number_first(n.rest, 2, u32::MAX)?;
    let seed = number_first(m.rest, 0, u32::MAX)?;
    Some(MakeNumbers {
        n: n.number,
        m: m.number,
        seed: seed.number,
        rest: seed.rest,
    })
}

/// The block size and the workers, and the words behind them.
#[derive(Clone, Copy, Drop)]
pub struct SizeNumbers<'a> {
    pub block: u32,
    pub workers: u32,
    pub rest: &'a [String],
}

pub fn size_numbers(words: &[String]) -> Option<SizeNumbers>
    ensures { MatchOption result
        ((block workers : ℕ) (rest : List (List ℕ)) → AreSizes block workers
        → map string_bytes words.now ≢ size_words block workers ++ rest)
        (λ x. AreSizes x.block x.workers
        × (map string_bytes words.now ≡
        size_words x.block x.workers ++ map string_bytes x.rest.now)) }
{
    let block = number_first(behind(words, "--block")?, 1, 1024)?;
    let workers = number_first(behind(block.rest, "--workers")?, 1, 16)?;
    Some(SizeNumbers {
        block: block.number,
        workers: workers.number,
        rest: workers.rest,
    })
}
