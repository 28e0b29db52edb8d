//! What is held while the steps of a run are gone through.

ghost use Rattle.std.specs.Prelude.{◌≡◌, ◌+◌, ◌<◌, [], length, All, IfOk, slice_set, true};
ghost use Rattle.task_values.specs.Marks.{all_marked};
ghost use Rattle.task_values.specs.Progress.{IsActive, IsFirstStore, IsGone, IsRun, IsStoppedAt, first_of};

use crate::marks::Marks;
use crate::outcome::Failure;
use crate::run::Run;
use equation::Place;
use job_blocks::JobBlocks;
use matrix_core::Matrix;
use std::alloc::{AllocError, Global};
use std::mem;
use step_replays::Step;

/// All blocks by number, but for those that were lost to a step that failed; marks of the steps that failed or were skipped; room
/// for a row of a block; and the first step that failed.
#[derive(Drop)]
pub struct Store {
    pub blocks: Vec<Matrix>,
    pub marks: Marks,
    pub room: Vec<u64>,
    pub failure: Option<Failure>,
}

/// A matrix of nothing.
pub fn no_block(alloc: Global) -> Matrix
    ensures { result ≡ record { rows = 0; cols = 0; entries = [] } }
{
    Matrix::from_entries(0, 0, Vec::new(alloc))
}

impl Store {
    /// What is held before the first step of a run.
    pub fn first(alloc: Global, blocks: &JobBlocks<'_>) -> Result<Store, AllocError>
        ensures { IfOk result (IsFirstStore blocks.now) }
    {
        let stored = blocks.first_blocks(alloc)?;
        let count = stored.len();
        Ok(Store {
            blocks: stored,
            marks: Marks::none(alloc, count)?,
            room: vec![in alloc; 0; blocks.b() as usize]?,
            failure: None,
        })
    }

    /// Goes through step n of a run.
    pub fn go(&mut self, alloc: Global, run: &Run<'_>, n: usize)
        requires run { IsRun run.now }
        requires within { n < length run.now.steps.now }
        requires gone { IsGone run.now n self.old }
        ensures { IsGone run.now (n + 1) self.new }
    {
        if self.marks.stop(&run.steps[n].access) {
            self.skip(run, n);
        } else {
            self.take(alloc, run, n);
        }
    }

    /// Skips step n, which a step before it stops.
    fn skip(&mut self, run: &Run<'_>, n: usize)
        requires run { IsRun run.now }
        requires within { n < length run.now.steps.now }
        requires stopped { IsStoppedAt run.now n self.old }
        ensures { IsGone run.now (n + 1) self.new }
    {
        self.marks.mark(&run.steps[n].access);
    }

    /// Does step n, which no step before it stops.
    fn take(&mut self, alloc: Global, run: &Run<'_>, n: usize)
        requires run { IsRun run.now }
        requires within { n < length run.now.steps.now }
        requires active { IsActive run.now n self.old }
        ensures { IsGone run.now (n + 1) self.new }
    {
        let step = &run.steps[n];
        let write = step.access.write as usize;
        let block = mem::replace(&mut self.blocks[write], no_block(alloc));
        let done = run.done(n, self.blocks.as_slice(), block, self.room.as_mut_slice());
        match done.bad {
            None => {
                self.blocks[write] = done.block;
            }
            Some(place) => self.fail(step, place),
        }
    }

    /// Marks and notes a step that met a bad pivot.
    fn fail(&mut self, step: &Step, place: Place)
        requires write { step.now.access.write < length self.old.marks.written.items }
        requires reads { All (λ x. x < length self.old.marks.read.items) step.now.access.reads }
        ensures blocks { self.new.blocks.items ≡ self.old.blocks.items }
        ensures written { self.new.marks.written.items
            ≡ slice_set self.old.marks.written.items step.now.access.write true }
        ensures read { self.new.marks.read.items
            ≡ all_marked step.now.access.reads self.old.marks.read.items }
        ensures room { self.new.room.items ≡ self.old.room.items }
        ensures noted { self.new.failure ≡ first_of self.old.failure
            (record { statement = step.now.statement; row = place.row; col = place.col }) }
    {
        self.marks.mark(&step.access);
        if self.failure.is_none() {
            self.failure = Some(Failure {
                statement: step.statement,
                row: place.row,
                col: place.col,
            });
        }
    }
}
