//! One step of a run, done by its kernel on the block that it writes: a matrix of a store, or a part that is lent.

ghost use Rattle.std.specs.Prelude.{◌≡◌, ◌<◌, ◌≤◌, ◌^◌, length, MatchOption};
ghost use Rattle.matrix_parts.specs.Lent.{grid_of, loan_of, IsKept, IsPart};
ghost use Rattle.step_replays.specs.Replays.{nth_step};
ghost use Rattle.task_values.specs.AnyTasks.{CanDo, IsDoneSo};
ghost use Rattle.task_values.specs.FoundBlocks.{AreFirstNumbers, ComesTo, Finds, result_of};
ghost use Rattle.task_values.specs.Progress.{Fails, IsReady, IsRun, Leaves, operation_at, work_at};

use block_kernels::{BlockTask, StoredBlocks};
use equation::{Job, Place};
use matrix_core::Matrix;
use matrix_parts::{PartMut, whole_of};
use operation_spec::Kind;
use step_replays::Step;

/// A job under block size b, with the steps that it is run by.
#[derive(Clone, Copy)]
pub struct Run<'a> {
    pub job: &'a Job,
    pub b: u32,
    pub steps: &'a [Step],
}

/// What a step that was done leaves of the block that it writes, and the bad pivot that it met, if it met one. What is left by
/// a step that met one is of no use but for its shape.
#[derive(Drop)]
pub struct DoneStep {
    pub block: Matrix,
    pub bad: Option<Place>,
}

impl Run<'_> {
    /// The task of step n as its kernel takes it, with the blocks that it reads, by number, in a store.
    fn task<'b>(&'b self, n: usize, reads: &'b [u32], store: StoredBlocks<'b>) -> BlockTask<'b>
        requires run { IsRun self.now }
        requires within { n < length self.now.steps.now }
        ensures modulus { result.m ≡ self.now.job.now.modulus }
        ensures size { result.b ≡ self.now.b }
        ensures operation { result.op.now ≡ operation_at self.now n }
        ensures task { result.task ≡ (nth_step self.now.steps.now n).task }
        ensures reads { result.reads.now ≡ reads.now }
        ensures store { result.store ≡ store.entry }
        ensures few { (work_at self.now n).rows < 2 ^ 32 }
    {
        let step = &self.steps[n];
        let statement = &self.job.statements.as_slice()[step.statement as usize - 1];
        let op = &self.job.operations.as_slice()[statement.operation as usize];
        let _rows = self.job.matrices.as_slice()[statement.bind.work as usize].rows();
        BlockTask {
            m: self.job.modulus,
            b: self.b,
            op,
            task: step.task,
            reads,
            store,
        }
    }

    /// Does step n, the next one, with the blocks of a store, on the block that it writes. The room is for b numbers.
    pub fn done(&self, n: usize, store: &[Matrix], block: Matrix, room: &mut [u64]) -> DoneStep
        requires run { IsRun self.now }
        requires ready { IsReady self.now n store.now block }
        requires room { self.now.b ≤ length room.old }
        ensures outcome { MatchOption result.bad
            (Leaves self.now n store.now block result.block) (Fails self.now n store.now block) }
        ensures rows { result.block.rows ≡ block.rows }
        ensures cols { result.block.cols ≡ block.cols }
        ensures count { length result.block.entries ≡ length block.entries }
    {
        let reads = self.steps[n].access.reads.as_slice();
        let task = self.task(n, reads, StoredBlocks::of_matrices(store));
        done_on_matrix(&task, block, room)
    }

    /// Does step n, whenever that is, by the blocks alone that it uses, wherever they lie; it answers the first bad pivot that the step
    /// meets.
    ///
    /// `reads` are the blocks that it reads, in the order of its access, and `numbers` are the numbers below their count. `w` is the
    /// block that it writes, as the step finds it; what is left there where a pivot is answered is of no use. The room is for b
    /// numbers.
    pub fn step(
        &self,
        n: usize,
        reads: &StoredBlocks<'_>,
        numbers: &[u32],
        w: &mut PartMut<'_>,
        room: &mut [u64],
    ) -> Option<Place>
        requires run { IsRun self.now }
        requires within { n < length self.now.steps.now }
        requires numbers { AreFirstNumbers numbers.now (length reads.now) }
        requires part { IsPart w.old }
        requires finds { Finds self.now n reads.now (grid_of w.old) }
        requires room { self.now.b ≤ length room.old }
        ensures loan { loan_of w.new ≡ loan_of w.old }
        ensures part { IsPart w.new }
        ensures kept { IsKept w.old w.new }
        ensures outcome { ComesTo self.now n (result_of result (grid_of w.new)) }
    {
        let task = self.task(n, numbers, reads.reborrow());
        done_on_part(&task, w, room)
    }
}

/// Does a task, block task or test of pivots, on the block that it writes, and answers its first bad pivot.
fn done_on_part(task: &BlockTask<'_>, w: &mut PartMut<'_>, room: &mut [u64]) -> Option<Place>
    requires part { IsPart w.old }
    requires can { CanDo task.now (grid_of w.old) }
    requires room { task.now.b ≤ length room.old }
    ensures loan { loan_of w.new ≡ loan_of w.old }
    ensures part { IsPart w.new }
    ensures kept { IsKept w.old w.new }
    ensures outcome { IsDoneSo task.now (grid_of w.old) (grid_of w.new) result }
{
    match task.task.kind {
        Kind::Pivots => task.write_pivots(w),
        _ => task.apply(w, room),
    }
}

/// The same on a matrix, which is handed back in any case.
fn done_on_matrix(task: &BlockTask<'_>, block: Matrix, room: &mut [u64]) -> DoneStep
    requires can { CanDo task.now block }
    requires room { task.now.b ≤ length room.old }
    ensures outcome { IsDoneSo task.now block result.block result.bad }
    ensures rows { result.block.rows ≡ block.rows }
    ensures cols { result.block.cols ≡ block.cols }
    ensures count { length result.block.entries ≡ length block.entries }
{
    let mut changed = block;
    let (rows, cols) = (changed.rows(), changed.cols());
    let entries = changed.entries_mut();
    let mut w = whole_of(entries, rows, cols);
    let bad = done_on_part(task, &mut w, room);
    let _ = entries.len();
    DoneStep {
        block: changed,
        bad,
    }
}
