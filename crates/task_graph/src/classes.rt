//! The class of a task: the task of a coarser cut that it is part of.

ghost use Rattle.std.specs.Prelude.{◌≡◌};
ghost use Rattle.task_graph.specs.Classes.{inner_dim_of_term, inner_dim, side_of, part_in, coarse_of, class_of};

use crate::cut::{Cut, Sides};
use crate::existence::exists_under;
use crate::factors::factor_cols;
use operation_spec::{Kind, Operation, Task};

/// The class of a task: the task of the same kind with each index in its coarse part where the cut has it, and else
/// the solve of the coarse block.
pub fn class(op: &Operation, cut: &Cut, task: Task) -> Task
    ensures { result ≡ class_of op.now cut.now task }
{
    let coarse = coarse(op, cut, task);
    if exists_under(op, cut, coarse) {
        coarse
    } else {
        Task {
            kind: Kind::Solve,
            term: 0,
            i: coarse.i,
            j: coarse.j,
            k: 0,
        }
    }
}

/// The task of the same kind with each index in its coarse part.
fn coarse(op: &Operation, cut: &Cut, task: Task) -> Task
    ensures { result ≡ coarse_of op.now cut.now task }
{
    Task {
        kind: task.kind,
        term: task.term,
        i: part_in(cut, op.work.rows, task.i),
        j: part_in(cut, op.work.cols, task.j),
        k: part_in(cut, inner_dim(op, task.kind, task.term), task.k),
    }
}

/// The coarse part of an index of a dimension.
fn part_in(cut: &Cut, dim: u32, index: u32) -> u32
    ensures { result ≡ part_in cut.now dim index }
{
    side_of(cut.get(dim as usize).copied().unwrap_or(Sides::One), index)
}

/// The part that an index goes to.
fn side_of(sides: Sides, index: u32) -> u32
    ensures { result ≡ side_of sides index }
{
    match sides {
        Sides::One => 0,
        Sides::Two { edge } => u32::from(index >= edge),
    }
}

/// The dimension of the inner part of a task with this kind and term: that of the product of the term, which is
/// numbered from 1, or that which an update goes along. It is 0 where there is no such term or the kind has no inner part.
pub fn inner_dim(op: &Operation, kind: Kind, term: u32) -> u32
    ensures { result ≡ inner_dim op.now kind term }
{
    match kind {
        Kind::Term => inner_dim_of_term(op, term),
        Kind::Left => op.work.rows,
        Kind::Right => op.work.cols,
        Kind::Pivots | Kind::Solve => 0,
    }
}

/// The dimension that the product of a term goes along; terms are numbered from 1.
fn inner_dim_of_term(op: &Operation, term: u32) -> u32
    ensures { result ≡ inner_dim_of_term op.now term }
{
    if term == 0 {
        return 0;
    }
    match op.terms.get((term - 1) as usize) {
        Some(term) => factor_cols(op, term.first),
        None => 0,
    }
}
