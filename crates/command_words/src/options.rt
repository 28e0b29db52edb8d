//! What may stand behind the sizes of a run.

ghost use Rattle.std.specs.Prelude.{◌≡◌, ◌≢◌, Bool, List, ◌∷◌, ◌++◌, IfOk, MatchOption, map, codes, string_bytes};
ghost use Rattle.issue_list.specs.declared.choice.Choice.{Choice};
ghost use Rattle.command_words.specs.Words.{IsChoice, choice_words, trace_words};

use crate::fronts::behind;
use crate::numbers::variants_in;
use issue_list::Choice;
use std::alloc::{AllocError, Global};

/// The variants of a run, and whether its trace is printed.
#[derive(Drop)]
pub struct Options {
    pub choice: Choice,
    pub trace: bool,
}

/// Whether the words ask for a trace, where they say that or nothing.
fn trace_of(words: &[String]) -> Option<bool>
    ensures { MatchOption result ((trace : Bool) → map string_bytes words.now ≢ trace_words trace)
        (λ trace. map string_bytes words.now ≡ trace_words trace) }
{
    if words.is_empty() {
        return Some(false);
    }
    if behind(words, "--trace")?.is_empty() {
        Some(true)
    } else {
        None
    }
}

/// The options where the words are those behind `--variants`.
fn varied(alloc: Global, words: &[String]) -> Result<Option<Options>, AllocError>
    ensures { IfOk result (λ found. MatchOption found
        ((choice : Choice) (trace : Bool) → IsChoice choice
        → codes "--variants" ∷ map string_bytes words.now ≢
        choice_words choice ++ trace_words trace)
        (λ x. IsChoice x.choice
        × (codes "--variants" ∷ map string_bytes words.now ≡
        choice_words x.choice ++ trace_words x.trace))) }
{
    let Some((list, rest)) = words.split_first() else {
        return Ok(None);
    };
    let Some(trace) = trace_of(rest) else {
        return Ok(None);
    };
    match variants_in(alloc, list.as_str())? {
        Some(numbers) => Ok(Some(Options {
            choice: Choice::Each(numbers),
            trace,
        })),
        None => Ok(None),
    }
}

/// The options that the words are: perhaps `--variants V,V`, then perhaps `--trace`, and nothing else.
pub fn options_of(alloc: Global, words: &[String]) -> Result<Option<Options>, AllocError>
    ensures { IfOk result (λ found. MatchOption found
        ((choice : Choice) (trace : Bool) → IsChoice choice
        → map string_bytes words.now ≢ choice_words choice ++ trace_words trace)
        (λ x. IsChoice x.choice
        × (map string_bytes words.now ≡ choice_words x.choice ++ trace_words x.trace))) }
{
    match behind(words, "--variants") {
        Some(rest) => varied(alloc, rest),
        None => match trace_of(words) {
            Some(trace) => Ok(Some(Options {
                choice: Choice::First,
                trace,
            })),
            None => Ok(None),
        },
    }
}
