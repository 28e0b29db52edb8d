//! Which variants a job is run by.

ghost use Rattle.std.specs.Prelude.{◌≡◌, ◌<◌, length, slice_index_or};
ghost use Rattle.issue_list.specs.Choices.{numbers_for};

use structure_rules::NumberList;

/// A variant for each statement of a job.
#[derive(Debug, Drop)]
pub enum Choice {
    /// The first variant of each statement's operation.
    First,
    /// The variants with these numbers, one for each statement in order. The variants of an operation are numbered from 1.
    Each(NumberList),
}

impl Choice {
    /// How many numbers there are, of a job with so many statements.
    pub(crate) fn count(&self, due: u32) -> u64
        ensures { result ≡ length (numbers_for due self.now) }
    {
        match self {
            Choice::First => due as u64,
            Choice::Each(numbers) => numbers.len() as u64,
        }
    }

    /// The number of the statement at a place, from 0, of a job with so many statements. It is 0 where none is given.
    pub(crate) fn number(&self, due: u32, place: u32) -> u32
        requires { place < due }
        ensures { result ≡ slice_index_or (numbers_for due self.now) place 0 }
    {
        match self {
            Choice::First => 1,
            Choice::Each(numbers) => numbers.get(place as usize).copied().unwrap_or(0),
        }
    }
}
