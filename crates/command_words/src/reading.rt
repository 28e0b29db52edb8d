//! Reading the words of a command.

ghost use Rattle.std.specs.Prelude.{◌∷◌, IfOk, IfSome, IfNone, MatchOption, map, codes, string_bytes};
ghost use Rattle.command_words.specs.Words.{AreBad, AreWordsOf};

use crate::command::{Command, RunWords};
use crate::fronts::{make_numbers, size_numbers};
use crate::names::{are_pme_words, may_name, name_of, names_of};
use crate::numbers::number_in;
use crate::options::options_of;
use std::alloc::{AllocError, Global};
use variant_report::SelfWords;

/// `derive`, and nothing behind it.
fn derive_of(words: &[String]) -> Option<Command>
    ensures { MatchOption result (AreBad (codes "derive" ∷ map string_bytes words.now))
        (AreWordsOf (codes "derive" ∷ map string_bytes words.now)) }
{
    if words.is_empty() {
        Some(Command::Derive)
    } else {
        None
    }
}

/// `pme`, and the names of an operation and of one dimension or two behind it.
fn pme_of(alloc: Global, words: &[String]) -> Result<Option<Command>, AllocError>
    ensures { IfOk result (λ found. MatchOption found
        (AreBad (codes "pme" ∷ map string_bytes words.now))
        (AreWordsOf (codes "pme" ∷ map string_bytes words.now))) }
{
    let Some((op, dims)) = words.split_first() else {
        return Ok(None);
    };
    if !are_pme_words(op.as_str(), dims) {
        return Ok(None);
    }
    let op = name_of(alloc, op.as_str())?;
    let dims = names_of(alloc, dims)?;
    Ok(Some(Command::Pme { op, dims }))
}

/// `worksheet`, and the name of an operation and the number of a variant behind it.
fn worksheet_of(alloc: Global, words: &[String]) -> Result<Option<Command>, AllocError>
    ensures { IfOk result (λ found. MatchOption found
        (AreBad (codes "worksheet" ∷ map string_bytes words.now))
        (AreWordsOf (codes "worksheet" ∷ map string_bytes words.now))) }
{
    let [op, number] = words else {
        return Ok(None);
    };
    let Some(number) = number_in(number.as_str(), 1, u32::MAX) else {
        return Ok(None);
    };
    if !may_name(op.as_bytes()) {
        return Ok(None);
    }
    let op = name_of(alloc, op.as_str())?;
    Ok(Some(Command::Worksheet { op, number }))
}

/// `check`, and nothing behind it.
fn check_of(words: &[String]) -> Option<Command>
    ensures { MatchOption result (AreBad (codes "check" ∷ map string_bytes words.now))
        (AreWordsOf (codes "check" ∷ map string_bytes words.now)) }
{
    if words.is_empty() {
        Some(Command::Check)
    } else {
        None
    }
}

/// `verify`, and nothing behind it.
fn verify_of(words: &[String]) -> Option<Command>
    ensures { MatchOption result (AreBad (codes "verify" ∷ map string_bytes words.now))
        (AreWordsOf (codes "verify" ∷ map string_bytes words.now)) }
{
    if words.is_empty() {
        Some(Command::Verify)
    } else {
        None
    }
}

/// `make`, and N, M and SEED behind it.
fn make_of(words: &[String]) -> Option<Command>
    ensures { MatchOption result (AreBad (codes "make" ∷ map string_bytes words.now))
        (AreWordsOf (codes "make" ∷ map string_bytes words.now)) }
{
    let numbers = make_numbers(words)?;
    if !numbers.rest.is_empty() {
        return None;
    }
    Some(Command::Make {
        n: numbers.n,
        m: numbers.m,
        seed: numbers.seed,
    })
}

/// `run`, and the sizes and options behind it.
fn run_of(alloc: Global, words: &[String]) -> Result<Option<Command>, AllocError>
    ensures { IfOk result (λ found. MatchOption found
        (AreBad (codes "run" ∷ map string_bytes words.now))
        (AreWordsOf (codes "run" ∷ map string_bytes words.now))) }
{
    let Some(sizes) = size_numbers(words) else {
        return Ok(None);
    };
    match options_of(alloc, sizes.rest)? {
        Some(options) => Ok(Some(Command::Run {
            words: RunWords {
                block: sizes.block,
                workers: sizes.workers,
                choice: options.choice,
                trace: options.trace,
            },
        })),
        None => Ok(None),
    }
}

/// `selfrun`, and N, M, SEED and the sizes behind it.
fn selfrun_of(words: &[String]) -> Option<Command>
    ensures { MatchOption result (AreBad (codes "selfrun" ∷ map string_bytes words.now))
        (AreWordsOf (codes "selfrun" ∷ map string_bytes words.now)) }
{
    let numbers = make_numbers(words)?;
    let sizes = size_numbers(numbers.rest)?;
    if !sizes.rest.is_empty() {
        return None;
    }
    Some(Command::SelfRun {
        words: SelfWords {
            n: numbers.n,
            m: numbers.m,
            seed: numbers.seed,
            block: sizes.block,
            workers: sizes.workers,
        },
    })
}

/// The command of a first word and the words behind it.
fn command_of(alloc: Global, first: &str, words: &[String]) -> Result<Option<Command>, AllocError>
    ensures { IfOk result (λ found. MatchOption found
        (AreBad (first.now ∷ map string_bytes words.now))
        (AreWordsOf (first.now ∷ map string_bytes words.now))) }
{
    if first == "derive" {
        Ok(derive_of(words))
    } else if first == "pme" {
        pme_of(alloc, words)
    } else if first == "worksheet" {
        worksheet_of(alloc, words)
    } else if first == "check" {
        Ok(check_of(words))
    } else if first == "verify" {
        Ok(verify_of(words))
    } else if first == "make" {
        Ok(make_of(words))
    } else if first == "run" {
        run_of(alloc, words)
    } else if first == "selfrun" {
        Ok(selfrun_of(words))
    } else {
        Ok(None)
    }
}

/// The command that the words name, or None exactly where they name none. The words are those after the
/// program's name. Its one error is want of memory.
pub fn read_words(alloc: Global, words: &Vec<String>) -> Result<Option<Command>, AllocError>
    ensures found { IfOk result (λ command.
        IfSome command (AreWordsOf (map string_bytes words.now.items))) }
    ensures none { IfOk result (λ command.
        IfNone command (AreBad (map string_bytes words.now.items))) }
{
    match words.split_first() {
        Some((first, rest)) => command_of(alloc, first.as_str(), rest),
        None => Ok(None),
    }
}
