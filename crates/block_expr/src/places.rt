//! The blocks of W's structure, and the parts that a split makes.

ghost use Rattle.std.specs.Prelude.{◌≡◌, ◌++◌, IfOk, OnOk};
ghost use Rattle.block_expr.specs.Places.{if_work_block, row_places, work_places};
ghost use Rattle.invariant_family.specs.Splits.{two_parts};
ghost use Rattle.task_graph.specs.Tasks.{is_work_block, parts_of};

use equation::Place;
use invariant_family::is_split;
use operation_spec::{Operation, Split};
use std::alloc::{AllocError, Global};
use task_graph::Counts;

/// Two parts in each dimension of the split, and one in the others.
#[tactic(auto, using(invariant_family::proofs::Numbering::map_numbers_more))]
pub fn two_parts(alloc: Global, op: &Operation, split: Split) -> Result<Counts, AllocError>
    ensures { IfOk result (λ parts. parts ≡ two_parts op.now split) }
{
    let mut parts = Counts::new(alloc);
    for dim in 0..op.dims.len() {
        parts.push(if is_split(split, dim) { 2 } else { 1 })?;
    }
    Ok(parts)
}

/// How many parts a dimension is cut into, and 0 where nothing is said of it.
pub(crate) fn parts_of(parts: &Counts, dim: u32) -> u32
    ensures { result ≡ parts_of parts.now dim }
{
    parts.get(dim as usize).copied().unwrap_or(0)
}

/// The blocks of W's structure, row by row.
#[tactic(auto, using(crate::proofs::EachBelow::each_more))]
pub fn work_places(alloc: Global, op: &Operation, parts: &Counts) -> Result<Vec<Place>, AllocError>
    ensures { IfOk result (λ found. found.items ≡ work_places op.now parts.now) }
{
    let mut found = Vec::new(alloc);
    for i in 0..parts_of(parts, op.work.rows) {
        add_row(op, parts, i, &mut found)?;
    }
    Ok(found)
}

/// Adds the blocks of a row.
#[tactic(auto, using(crate::proofs::EachBelow::each_more))]
fn add_row(op: &Operation, parts: &Counts, i: u32, found: &mut Vec<Place>) -> Result<(), AllocError>
    ensures { OnOk result (found.new.items ≡ found.old.items ++ row_places op.now parts.now i) }
{
    for j in 0..parts_of(parts, op.work.cols) {
        add_if_any(op, parts, i, j, found)?;
    }
    Ok(())
}

/// Adds block (i, j) where it is one of W's structure.
fn add_if_any(
    op: &Operation,
    parts: &Counts,
    i: u32,
    j: u32,
    found: &mut Vec<Place>,
) -> Result<(), AllocError>
    ensures { OnOk result (found.new.items
        ≡ found.old.items ++ if_work_block op.now parts.now i j) }
{
    if is_work_block(op, parts, i, j) {
        found.push(Place { row: i, col: j })?;
    }
    Ok(())
}

/// Whether (i, j) is a block of W's structure.
fn is_work_block(op: &Operation, parts: &Counts, i: u32, j: u32) -> bool
    ensures { result ≡ is_work_block op.now parts.now i j }
{
    i < parts_of(parts, op.work.rows)
        && j < parts_of(parts, op.work.cols)
        && !op.work.structure.zero(i, j)
}
