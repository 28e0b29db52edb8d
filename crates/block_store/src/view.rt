//! What a seat knows, and the rule over the words, the blocks and all views.

use crate::key::BoardKey;
use crate::outcome::StepOutcome;
use atomic_table::TableRule;
use matrix_core::Matrix;
use std::collections::LinkedList;

/// One thing that a seat did or was told.
pub enum Fact {
    /// It claimed a step.
    Claimed(u32),
    /// It was refused a step, whose word was this.
    Refused(u32, u64),
    /// A step began, with this stamp.
    Began(u32, u64),
    /// A step ended, with this stamp.
    Ended(u32, u64, StepOutcome),
    /// It told the second step to be skipped, since the first one failed or was skipped.
    Marked(u32, u32),
    /// It told the second step that the first one has ended; so many edges into the second one weren't noticed yet.
    Noticed(u32, u32, u64),
    /// It took a block.
    Took(u32),
    /// It found that a block was away.
    Away(u32),
    /// It gave a block back as it was.
    Gave(u32),
    /// It put what a step leaves in a block.
    Put(u32, u32),
}

/// What a seat knows. No value of it is made.
pub struct View {
    /// What it did and was told, the latest first.
    pub facts: LinkedList<Fact>,
    /// The greatest clock value that it has loaded.
    pub clock: u64,
    /// The step whose bare mark its last exchange found. It is none between calls.
    pub found_mark: Option<u32>,
    /// The workers that the seat stands for.
    pub workers: LinkedList<u32>,
    pub key: BoardKey,
}

/// The rule of the board.
pub struct BoardRule;

impl TableRule<Matrix, View, BoardKey> for BoardRule {
    ghost use Rattle.block_store.specs.Holding.{IsRuled};
    ghost use Rattle.block_store.specs.Views.{opening_view};

    ghost holds = { λ key s. IsRuled key s.words s.homes s.views };

    ghost first = { opening_view };
}
