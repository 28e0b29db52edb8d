//! Jobs of a few steps on blocks of one entry, and the call that runs one.

ghost use Rattle.std.specs.Prelude.{◌≤◌, IfOk, length};
ghost use Rattle.equation.specs.Jobs.{IsJob};
ghost use Rattle.dependence_queue.specs.Edges.{most_accesses};
ghost use Rattle.step_replays.specs.Fits.{FitsJob};

use dependence_queue::Edges;
use dispatcher::{Finished, Plan, run_steps};
use equation::Job;
use issue_list::{Choice, issue};
use job_text::{Stop, read_job};
use outside_io::Gate;
use schedule_core::edges_of_steps;
use std::alloc::{AllocError, Global};
use std::sync::Wait;
use std::thread::Threads;
use step_replays::StepList;
use task_values::Outcome;

/// A job with the numbers that its run leaves in one of its matrices.
#[derive(Clone, Copy)]
pub struct Due {
    pub text: &'static str,
    pub matrix: usize,
    pub entries: &'static [u64],
}

/// Two products, of which the second one reads what the first one leaves, and adds to what that one reads.
pub const PRODUCTS: Due = Due {
    matrix: 0,
    entries: &[2, 3, 4, 5],
    text: "flame 1\nmodulus 101\noperation mul\ndims m n k\nwork W general m n\nknown A general m k\nknown B general k n\nequation X = W + A * B\nend\nmatrix A 2 2\n1 2\n3 4\nend\nmatrix B 2 2\n1 0\n0 1\nend\nmatrix C 2 2\n0 0\n0 0\nend\nmatrix D 2 1\n1\n1\nend\nmatrix E 1 2\n1 1\nend\ndo mul C A B\ndo mul A D E\n",
};

/// A factorisation of three rows.
pub const FACTORS: Due = Due {
    matrix: 0,
    entries: &[2, 1, 1, 2, 3, 1, 1, 1, 6],
    text: "flame 1\nmodulus 101\noperation lu\ndims n\nwork W general n n\nequation lu X = W\nend\nmatrix A 3 3\n2 1 1\n4 5 3\n2 4 8\nend\ndo lu A\n",
};

/// A Sylvester equation of two rows and two columns.
pub const SYLVESTER: Due = Due {
    matrix: 0,
    entries: &[1, 1, 1, 1],
    text: "flame 1\nmodulus 7\noperation syl\ndims m n\nwork W general m n\nknown T lower m m\nknown U upper n n\nequation T * X + X * U = W\nend\nmatrix W 2 2\n2 3\n4 5\nend\nmatrix T 2 2\n1 0\n1 2\nend\nmatrix U 2 2\n1 1\n0 1\nend\ndo syl W T U\n",
};

/// Two systems, of which both have a pivot without inverse.
pub const FAILING: &str =
    "flame 1\nmodulus 7\noperation low\ndims m n\nwork W general m n\nknown T lower m m\nequation T * X = W\nend\nmatrix S 2 2\n1 0\n0 0\nend\nmatrix T 2 2\n0 0\n0 1\nend\nmatrix B 2 1\n1\n1\nend\nmatrix C 2 1\n1\n1\nend\ndo low B S\ndo low C T\n";

/// A product of four steps, and beside it a system whose bad pivot stands in the first row, the second one, the third one.
pub const BESIDE: [&str; 3] = [
    "flame 1\nmodulus 7\noperation mul\ndims m n k\nwork W general m n\nknown A general m k\nknown B general k n\nequation X = W + A * B\nend\noperation low\ndims m n\nwork W general m n\nknown T lower m m\nequation T * X = W\nend\nmatrix W 1 2\n0 0\nend\nmatrix A 1 2\n1 1\nend\nmatrix B 2 2\n1 1\n1 1\nend\nmatrix C 3 1\n1\n1\n1\nend\nmatrix T 3 3\n0 0 0\n1 1 0\n1 1 1\nend\ndo mul W A B\ndo low C T\n",
    "flame 1\nmodulus 7\noperation mul\ndims m n k\nwork W general m n\nknown A general m k\nknown B general k n\nequation X = W + A * B\nend\noperation low\ndims m n\nwork W general m n\nknown T lower m m\nequation T * X = W\nend\nmatrix W 1 2\n0 0\nend\nmatrix A 1 2\n1 1\nend\nmatrix B 2 2\n1 1\n1 1\nend\nmatrix C 3 1\n1\n1\n1\nend\nmatrix T 3 3\n1 0 0\n1 0 0\n1 1 1\nend\ndo mul W A B\ndo low C T\n",
    "flame 1\nmodulus 7\noperation mul\ndims m n k\nwork W general m n\nknown A general m k\nknown B general k n\nequation X = W + A * B\nend\noperation low\ndims m n\nwork W general m n\nknown T lower m m\nequation T * X = W\nend\nmatrix W 1 2\n0 0\nend\nmatrix A 1 2\n1 1\nend\nmatrix B 2 2\n1 1\n1 1\nend\nmatrix C 3 1\n1\n1\n1\nend\nmatrix T 3 3\n1 0 0\n1 1 0\n1 1 0\nend\ndo mul W A B\ndo low C T\n",
];

/// The job that a text spells.
fn job_of(alloc: Global, text: &str) -> Result<Job, AllocError>
    ensures { IfOk result IsJob }
{
    let bytes = text.as_bytes();
    if bytes.len() > 10_000 {
        return Err(AllocError);
    }
    match read_job(alloc, bytes, Stop::Nothing) {
        Ok((job, _)) => Ok(job),
        Err(_) => Err(AllocError),
    }
}

/// Its steps by first variants, on blocks of one entry.
fn steps_of(alloc: Global, job: &Job) -> Result<StepList, AllocError>
    requires { IsJob job.now }
    ensures fit { IfOk result (FitsJob job.now 1) }
    ensures few { IfOk result (λ steps. length steps ≤ most_accesses) }
{
    match issue(alloc, job, 1, &Choice::First) {
        Ok(steps) => Ok(steps),
        Err(_) => Err(AllocError),
    }
}

/// The direct edges between the steps of the job that a text spells.
pub fn edges_of(alloc: Global, text: &str) -> Result<Edges, AllocError> {
    let job = job_of(alloc, text)?;
    let steps = steps_of(alloc, &job)?;
    edges_of_steps(alloc, steps.as_slice())
}

/// What the steps of the job that a text spells come to by so many workers.
pub fn ran<R: Threads + Wait + Sync, G: Gate>(
    rt: &R,
    alloc: Global,
    text: &str,
    workers: u32,
    gate: &G,
) -> Result<Finished, AllocError>
    requires some { 1 ≤ workers }
    requires few { workers ≤ 16 }
{
    let job = job_of(alloc, text)?;
    let steps = steps_of(alloc, &job)?;
    let edges = edges_of_steps(alloc, steps.as_slice())?;
    let plan = Plan {
        job: &job,
        b: 1,
        steps: &steps,
        workers,
    };
    run_steps(rt, alloc, &plan, &edges, gate)
}

/// Whether the steps of a job leave what is due.
pub fn leaves(outcome: &Outcome, due: &Due) -> bool {
    match outcome {
        Outcome::Done(matrices) => match matrices.get(due.matrix) {
            Some(matrix) => matrix.entries() == due.entries,
            None => false,
        },
        Outcome::BadPivot { .. } => false,
    }
}

/// Whether the steps of a job meet a bad pivot on the diagonal of a statement.
pub fn fails_at(outcome: &Outcome, number: u32, place: u32) -> bool {
    match outcome {
        Outcome::Done(_) => false,
        Outcome::BadPivot {
            statement,
            row,
            col,
        } => *statement == number && *row == place && *col == place,
    }
}
