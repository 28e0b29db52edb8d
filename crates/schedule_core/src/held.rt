//! The values of steps that end one after another, in any order that the steps' conflicts allow.

ghost use Rattle.std.specs.Prelude.{◌≡◌, ◌<◌, ◌≤◌, false, length, take, true, All, IfOk, slice_set};
ghost use Rattle.residue_sums.specs.Grids.{Grid};
ghost use Rattle.step_replays.specs.Replays.{nth_access};
ghost use Rattle.task_values.specs.Marks.{all_marked, meets};
ghost use Rattle.task_values.specs.Progress.{IsRun};
ghost use Rattle.schedule_core.specs.HeldSteps.{IsDue, IsFirstHeld, IsNextHeld, kept_of, lesser_of};

use equation::Place;
use job_blocks::JobBlocks;
use matrix_core::Matrix;
use std::alloc::{AllocError, Global};
use std::mem;
use step_replays::Step;
use task_values::{DoneStep, Failure, Run, Store, no_block};

/// The blocks as they stand, with the marks of the steps that ended and failed or were skipped, and the failure of the least
/// statement; and room for the entries of any block.
#[derive(Drop)]
pub struct Held {
    pub store: Store,
    pub spare: Vec<u64>,
    pub alloc: Global,
}

impl Held {
    /// What is held before any event of a run.
    pub fn first(alloc: Global, blocks: &JobBlocks<'_>) -> Result<Held, AllocError>
        ensures { IfOk result (IsFirstHeld blocks.now) }
    {
        let store = Store::first(alloc, blocks)?;
        let spare = vec![in alloc; 0; most_entries(store.blocks.as_slice())]?;
        Ok(Held {
            store,
            spare,
            alloc,
        })
    }

    /// Step n of a run, which has begun, ends. It is skipped where it conflicts with a step that ended and failed or was skipped,
    /// and else done.
    pub fn end(&mut self, run: &Run<'_>, n: usize)
        requires run { IsRun run.now }
        requires within { n < length run.now.steps.now }
        requires due { IsDue run.now n self.old }
        ensures { IsNextHeld run.now n self.old self.new }
    {
        if self.store.marks.stop(&run.steps[n].access) {
            self.skip(run, n);
        } else {
            self.take(run, n);
        }
    }

    /// Skips step n.
    fn skip(&mut self, run: &Run<'_>, n: usize)
        requires run { IsRun run.now }
        requires within { n < length run.now.steps.now }
        requires due { IsDue run.now n self.old }
        requires met { meets self.old.store.marks.written.items self.old.store.marks.read.items
            (nth_access run.now.steps.now n) ≡ true }
        ensures { IsNextHeld run.now n self.old self.new }
    {
        self.store.marks.mark(&run.steps[n].access);
    }

    /// Does step n.
    fn take(&mut self, run: &Run<'_>, n: usize)
        requires run { IsRun run.now }
        requires within { n < length run.now.steps.now }
        requires due { IsDue run.now n self.old }
        requires free { meets self.old.store.marks.written.items self.old.store.marks.read.items
            (nth_access run.now.steps.now n) ≡ false }
        ensures { IsNextHeld run.now n self.old self.new }
    {
        let step = &run.steps[n];
        let write = step.access.write as usize;
        save(
            self.store.blocks[write].entries(),
            self.spare.as_mut_slice(),
        );
        let block = mem::replace(&mut self.store.blocks[write], no_block(self.alloc));
        let store = &mut self.store;
        let done = run.done(n, store.blocks.as_slice(), block, store.room.as_mut_slice());
        let bad = done.bad;
        self.store.blocks[write] = kept(done, self.spare.as_slice());
        match bad {
            None => {}
            Some(place) => self.fail(step, place),
        }
    }

    /// Marks and notes a step that met a bad pivot.
    fn fail(&mut self, step: &Step, place: Place)
        requires write { step.now.access.write < length self.old.store.marks.written.items }
        requires reads { All (λ x. x < length self.old.store.marks.read.items)
            step.now.access.reads }
        ensures blocks { self.new.store.blocks.items ≡ self.old.store.blocks.items }
        ensures written { self.new.store.marks.written.items
            ≡ slice_set self.old.store.marks.written.items step.now.access.write true }
        ensures read { self.new.store.marks.read.items
            ≡ all_marked step.now.access.reads self.old.store.marks.read.items }
        ensures room { self.new.store.room.items ≡ self.old.store.room.items }
        ensures spare { self.new.spare.items ≡ self.old.spare.items }
        ensures noted { self.new.store.failure ≡ Some (lesser_of self.old.store.failure
            (record { statement = step.now.statement; row = place.row; col = place.col })) }
    {
        self.store.marks.mark(&step.access);
        let failure = Failure {
            statement: step.statement,
            row: place.row,
            col: place.col,
        };
        self.store.failure = Some(lesser(self.store.failure, failure));
    }
}

/// Of two failures, of which the first may be none, that of the lesser statement.
pub fn lesser(noted: Option<Failure>, failure: Failure) -> Failure
    ensures { result ≡ lesser_of noted failure }
{
    match noted {
        None => failure,
        Some(other) => if failure.statement < other.statement {
            failure
        } else {
            other
        },
    }
}

/// How many entries the greatest block has.
fn most_entries(blocks: &[Matrix]) -> usize
    ensures { All (λ (g : Grid). length g.entries ≤ result) blocks.now }
{
    let mut most = 0;
    for block in blocks {
        let count = block.entries().len();
        if count > most {
            most = count;
        }
    }
    most
}

/// Copies numbers to the beginning of a room.
fn save(numbers: &[u64], room: &mut [u64])
    requires { length numbers.now ≤ length room.old }
    ensures { take (length numbers.now) room.new ≡ numbers.now }
{
    room[..numbers.len()].copy_from_slice(numbers);
}

/// The block of a step that was done: what the step leaves, or, where it met a bad pivot, what it found.
fn kept(done: DoneStep, found: &[u64]) -> Matrix
    requires { length done.block.entries ≤ length found.now }
    ensures { result ≡ kept_of done.bad done.block found.now }
{
    match done.bad {
        None => done.block,
        Some(_) => restored(done.block, found),
    }
}

/// A block with the entries that it had before.
fn restored(block: Matrix, found: &[u64]) -> Matrix
    requires { length block.entries ≤ length found.now }
    ensures { result ≡ record block { entries = take (length block.entries) found.now } }
{
    let (rows, cols) = (block.rows(), block.cols());
    let mut entries = block.into_entries();
    let count = entries.len();
    entries.as_mut_slice().copy_from_slice(&found[..count]);
    Matrix::from_entries(rows, cols, entries)
}
