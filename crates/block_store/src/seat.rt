//! The board and a worker's token.

ghost use Rattle.std.specs.Prelude.{◌≡◌, ◌+◌, ◌<◌, ◌≤◌, None, length};
ghost use Rattle.block_store.specs.Blocks.{block_count};
ghost use Rattle.issue_list.specs.CanonicalSteps.{most_steps};
ghost use Rattle.block_store.specs.Keys.{step_count};

use crate::key::BoardKey;
use crate::view::{BoardRule, View};
use atomic_table::Table;
use matrix_core::Matrix;
use std::alloc::Global;

/// The words of a run, which its workers share: the clock, one word for each of so many steps, and one for the turn of each
/// block; and a slot for each block.
#[derive(Drop)]
pub struct Board {
    pub table: Table<Matrix, View, BoardKey, BoardRule, Global>,
    pub steps: u32,
    ghost counted: { steps ≡ step_count table.shared.key },
    ghost few: { steps ≤ most_steps },
    ghost sized: { step_count table.shared.key + 1 + block_count table.shared.key
        ≤ table.shared.table_id.words },
}

/// A worker's token, by which it takes steps on its board. It has no bytes.
#[derive(Drop)]
pub struct Seat {
    pub inner: atomic_table::Seat<Matrix, View>,
    ghost alive: { 0 < length inner.me.0.workers },
    ghost idle: { inner.me.0.found_mark ≡ None },
}
