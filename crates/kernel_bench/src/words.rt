//! The words that name a task.

use crate::operands::{GENERAL, Reading};
use crate::runs::Amount;
use crate::tasks::{Kernel, Task};
use field_word::Modulus;
use structure_rules::Structure;

/// The greatest number of rows.
const MOST_ROWS: u32 = 2048;

/// The kernel of a name.
fn kernel_of(name: &str) -> Option<Kernel> {
    match name {
        "update" => Some(Kernel::Update),
        "update_ldl" => Some(Kernel::UpdateLdl),
        "solve_left" => Some(Kernel::SolveLeft),
        "solve_right" => Some(Kernel::SolveRight),
        "solve_right_ldl" => Some(Kernel::SolveRightLdl),
        "solve_sylvester" => Some(Kernel::SolveSylvester),
        "factor_lu" => Some(Kernel::FactorLu),
        "factor_ldl" => Some(Kernel::FactorLdl),
        "pivots" => Some(Kernel::Pivots),
        "unit" => Some(Kernel::Unit),
        _ => None,
    }
}

/// The structure of a word.
fn structure_of(word: &str) -> Option<Structure> {
    match word {
        "general" => Some(Structure::General),
        "lower" => Some(Structure::Lower),
        "unitlower" => Some(Structure::UnitLower),
        "upper" => Some(Structure::Upper),
        "unitupper" => Some(Structure::UnitUpper),
        "diagonal" => Some(Structure::Diagonal),
        "symmetric" => Some(Structure::Symmetric),
        _ => None,
    }
}

/// How the operand of a word is read: its structure, and a `'` behind it where it is primed.
fn reading_of(word: &str) -> Option<Reading> {
    match word.strip_suffix("'") {
        Some(structure) => Some(Reading {
            structure: structure_of(structure)?,
            primed: true,
        }),
        None => Some(Reading {
            structure: structure_of(word)?,
            primed: false,
        }),
    }
}

/// The reading at a place among the words, a general one where there are fewer words.
fn reading_at(words: &[String], at: usize) -> Option<Reading> {
    match words.get(at) {
        Some(word) => reading_of(word.as_str()),
        None => Some(GENERAL),
    }
}

/// The number at a place among the words.
fn number_at(words: &[String], at: usize) -> Option<u32> {
    words.get(at)?.as_str().parse::<u32>().ok()
}

/// How much the words say is to be done.
fn amount_of(words: &[String]) -> Option<Amount> {
    let n = number_at(words, 1)?;
    let m = Modulus::new(u64::from(number_at(words, 2)?))?;
    let count = number_at(words, 3)?;
    if MOST_ROWS < n {
        return None;
    }
    Some(Amount { m, n, count })
}

/// The task that the words name, or None where they name none.
pub(crate) fn task_of(words: &[String]) -> Option<Task> {
    if 7 < words.len() {
        return None;
    }
    let kernel = kernel_of(words.get(0)?.as_str())?;
    let amount = amount_of(words)?;
    let first = reading_at(words, 4)?;
    let second = reading_at(words, 5)?;
    let inside = reading_at(words, 6)?;
    Some(Task {
        kernel,
        amount,
        first,
        second,
        inside: inside.structure,
    })
}
