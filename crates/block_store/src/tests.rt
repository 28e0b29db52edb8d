ghost use Rattle.std.specs.Prelude.{◌≡◌, ◌≤◌, [], length, IfOk, IfSome};
ghost use Rattle.equation.specs.Jobs.{IsJob};
ghost use Rattle.block_store.specs.Keys.{step_count};
ghost use Rattle.block_store.specs.Plays.{StandsForAll};
ghost use Rattle.block_store.specs.Seats.{key_of, view, AreFirstSeats, IsSeatOf};

use super::*;
use equation::Job;
use issue_list::{Choice, issue};
use job_text::{Stop, read_job};
use schedule_core::edges_of_steps;
use std::alloc::{AllocError, Global};
use std::test::Fail;

/// A job without statements, so without steps. Its matrix has two blocks of at most two rows.
const MATRIX: &str = "flame 1\nmodulus 101\nmatrix A 3 2\n1 2\n3 4\n5 6\nend\n";

fn job_of(alloc: Global, text: &str) -> Result<Job, AllocError>
    requires { length text.now ≤ 1000 }
    ensures { IfOk result IsJob }
{
    match read_job(alloc, text.as_bytes(), Stop::Nothing) {
        Ok((job, _)) => Ok(job),
        Err(_) => Err(AllocError),
    }
}

/// The two seats of a new board as one.
fn joined(board: &Board, seats: Seats) -> Option<Seat>
    requires two { (key_of board.now).workers ≡ 2 }
    requires seats { AreFirstSeats board.now seats.items }
    ensures seat { IfSome result (IsSeatOf board.now) }
    ensures all { IfSome result (λ seat. StandsForAll (key_of board.now) (view seat)) }
    ensures facts { IfSome result (λ seat. (view seat).facts ≡ []) }
{
    let mut left = seats;
    let mut first = left.pop()?;
    let second = left.pop()?;
    board.join(&mut first, second);
    Some(first)
}

/// The blocks of a board without steps, by a seat that has done nothing.
fn finished(alloc: Global, board: Board, seat: Seat) -> Result<ClosedBoard, AllocError>
    requires none { step_count (key_of board) ≡ 0 }
    requires seat { IsSeatOf board seat }
    requires all { StandsForAll (key_of board) (view seat) }
    requires facts { (view seat).facts ≡ [] }
{
    let mut seat = seat;
    board.clock(&mut seat);
    board.close(alloc, seat)
}

/// The blocks of a job without steps, from a board of two seats.
fn closed_at_once(alloc: Global, job: &Job, b: u32) -> Result<Option<ClosedBoard>, AllocError>
    requires job { IsJob job.now }
    requires size { 1 ≤ b }
{
    let Ok(steps) = issue(alloc, job, b, &Choice::First) else {
        return Err(AllocError);
    };
    if steps.len() != 0 {
        return Ok(None);
    }
    let edges = edges_of_steps(alloc, steps.as_slice())?;
    let (board, seats) = Board::new(alloc, job, b, &steps, &edges, 2)?;
    let Some(seat) = joined(&board, seats) else {
        return Ok(None);
    };
    let closed = finished(alloc, board, seat)?;
    Ok(Some(closed))
}

#[test]
fn two_seats_close_a_board_without_steps(rt: HostRuntime) -> Result<(), Fail> {
    let alloc = rt.alloc();
    let job = job_of(alloc, MATRIX)?;
    let closed = closed_at_once(alloc, &job, 2)?;
    let whole = closed.is_some_and(|closed| match closed.blocks.as_slice() {
        [first, last] => {
            first.entries() == [1, 2, 3, 4].as_slice() && last.entries() == [5, 6].as_slice()
        }
        _ => false,
    });
    assert!(rt; whole);
    Ok(())
}
