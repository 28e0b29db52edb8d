//! A board before the first step, with a seat for each worker.

ghost use Rattle.std.specs.Prelude.{◌≡◌, ◌+◌, ◌≤◌, ◌<◌, ◌++◌, [], length, map, replicate, IfOk};
ghost use Rattle.std.specs.List.{range_with_len};
ghost use Rattle.dependence_queue.specs.Edges.{count_into, edges_of};
ghost use Rattle.equation.specs.Jobs.{IsJob};
ghost use Rattle.job_blocks.specs.BlockedJobs.{AreFirstBlocks};
ghost use Rattle.schedule_core.specs.StepAccesses.{accesses_of};
ghost use Rattle.issue_list.specs.CanonicalSteps.{most_steps};
ghost use Rattle.block_store.specs.Seats.{key_of, view, AreFirstSeats, AreNewSeats, IsKeyOf, IsNewSeat};

use crate::key::BoardKey;
use crate::seat::{Board, Seat};
use atomic_table::Table;
use dependence_queue::Edges;
use equation::Job;
use job_blocks::JobBlocks;
use matrix_core::Matrix;
use std::alloc::{AllocError, Global};
use std::snapshot::Snapshot;
use step_replays::StepList;

/// The seats of all workers of a board.
pub type Seats = Vec<Seat>;

impl Board {
    /// A board for the steps of a job under block size b, which none has claimed, with a seat for each of so many workers. The
    /// edges are the direct ones between the steps. Its one error is want of memory.
    pub fn new(
        alloc: Global,
        job: &Job,
        b: u32,
        steps: &StepList,
        edges: &Edges,
        workers: u32,
    ) -> Result<(Board, Seats), AllocError>
        requires job { IsJob job.now }
        requires size { 1 ≤ b }
        requires workers { 1 ≤ workers }
        requires few { length steps.now ≤ most_steps }
        requires edges { edges.now ≡ edges_of (accesses_of steps.now) }
        ensures key { IfOk result (λ r. IsKeyOf job.now b steps.now workers (key_of r.0)) }
        ensures seats { IfOk result (λ r. AreFirstSeats r.0 r.1.items) }
    {
        let key = BoardKey {
            job: Snapshot::of(job),
            b,
            steps: Snapshot::of(steps),
            workers,
        };
        let slots = first_slots(alloc, job, b)?;
        let count = steps.len() as u32;
        let words = first_words(alloc, edges, count, slots.len())?;
        let Ok((table, inner)) = Table::new(alloc, words.as_slice(), slots, &key) else {
            return Err(AllocError);
        };
        let board = Board {
            table,
            steps: count,
        };
        let seats = board.seats(alloc, Seat { inner }, workers)?;
        Ok((board, seats))
    }

    /// A seat for each of so many workers, which a new seat stands for.
    fn seats(&self, alloc: Global, seat: Seat, workers: u32) -> Result<Seats, AllocError>
        requires seat { IsNewSeat self.now seat }
        requires workers { length (view seat).workers ≡ workers }
        ensures { IfOk result (λ seats.
            AreNewSeats self.now workers (view seat).workers seats.items) }
    {
        let mut last = seat;
        let mut seats = Vec::with_capacity(alloc, workers as usize)?;
        for _ in 1..workers {
            let first = self.split(&mut last);
            seats.push(first)?;
        }
        seats.push(last)?;
        Ok(seats)
    }
}

/// The blocks of a job before any step.
fn first_slots(alloc: Global, job: &Job, b: u32) -> Result<Vec<Matrix>, AllocError>
    requires job { IsJob job.now }
    requires size { 1 ≤ b }
    ensures { IfOk result (λ slots. AreFirstBlocks (record { job = job.now; b = b }) slots.items) }
{
    let blocks = JobBlocks::new(alloc, job, b)?;
    blocks.first_blocks(alloc)
}

/// The clock, the number of edges into each step, and a turn for each of so many blocks.
fn first_words(
    alloc: Global,
    edges: &Edges,
    steps: u32,
    blocks: usize,
) -> Result<Vec<u64>, AllocError>
    requires { steps ≤ most_steps }
    ensures { IfOk result (λ words. words.items
        ≡ map (λ t. count_into edges.now t) (range_with_len 0 (steps + 1)) ++ replicate blocks 0) }
{
    let mut words = counted_edges(alloc, edges, steps)?;
    let turns = vec![in alloc; 0; blocks]?;
    words.extend_from_slice(turns.as_slice())?;
    Ok(words)
}

/// The clock, and the number of edges into each step.
fn counted_edges(alloc: Global, edges: &Edges, steps: u32) -> Result<Vec<u64>, AllocError>
    requires { steps ≤ most_steps }
    ensures { IfOk result (λ words. words.items
        ≡ map (λ t. count_into edges.now t) (range_with_len 0 (steps + 1))) }
{
    let mut words = Vec::with_capacity(alloc, steps as usize + 1)?;
    for t in 0..steps + 1 {
        words.push(u64::from(edges.preds(t)))?;
    }
    Ok(words)
}
