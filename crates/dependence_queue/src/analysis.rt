ghost use Rattle.std.specs.Prelude.{◌≡◌, ℕ, ◌<◌, ◌≤◌, ◌^◌, [], length, map, replicate, All, IfOk, OnOk, Some};
ghost use Rattle.std.specs.List.{range_with_len};
ghost use Rattle.std.specs.Option.{option_to_list};
ghost use Rattle.dependence_queue.specs.declared.edge.EdgeKind.TheVariants.{Anti};
ghost use Rattle.dependence_queue.specs.Edges.{access_at, most_accesses, edges_from, edges_of};
ghost use Rattle.dependence_queue.specs.Marks.{found_edge, mark_at, mark_all, IsStepOf};
ghost use Rattle.dependence_queue.specs.Uses.{no_use, flows_into, marks_into, AreRows, HasSteps, UsesBelow};

use crate::block_use::{BlockUse, note, unused_blocks};
use crate::edge::EdgeKind;
use crate::row::Row;
use crate::{Access, AccessList, Edge, Edges};
use std::alloc::{AllocError, Global};

/// The direct edges between the steps of a list of accesses, which are numbered from 1. A step may read a block twice, and
/// may read the block that it writes.
///
/// It takes time and memory in proportion to the accesses, the edges and the greatest number of a block. Its one error is
/// want of memory.
pub fn analyse(alloc: Global, accesses: &AccessList) -> Result<Edges, AllocError>
    requires few { length accesses.now ≤ most_accesses }
    ensures exact { IfOk result (λ edges. edges ≡ edges_of accesses.now) }
{
    let accesses = accesses.as_slice();
    let rows = find_rows(alloc, accesses)?;
    Edges::from_rows(alloc, rows.as_slice())
}

/// The edges from each step, by the steps to which they go.
fn find_rows(alloc: Global, accesses: &[Access]) -> Result<Vec<Row>, AllocError>
    requires few { length accesses.now ≤ most_accesses }
    ensures { IfOk result (λ rows. rows.items
        ≡ map (edges_from (access_at accesses.now) (length accesses.now))
        (range_with_len 1 (length accesses.now))) }
{
    let mut uses = unused_blocks(alloc, block_count(accesses))?;
    let mut rows = empty_rows(alloc, accesses.len())?;
    mark_edges(alloc, accesses, &mut uses, &mut rows)?;
    Ok(rows)
}

/// A number that is past those of all blocks that are used.
fn block_count(accesses: &[Access]) -> usize
    ensures { All (UsesBelow result) accesses.now }
{
    let mut count: usize = 0;
    for access in accesses {
        let past_write = count.max(access.write as usize + 1);
        count = past(access.reads.as_slice(), past_write);
    }
    count
}

/// The greatest of one more than each of these numbers, and of another one.
fn past(numbers: &[u32], least: usize) -> usize
    ensures past { All (λ x. x < result) numbers.now }
    ensures least { least ≤ result }
{
    let mut end = least;
    for number in numbers {
        end = end.max(*number as usize + 1);
    }
    end
}

/// As many rows with no edge.
fn empty_rows(alloc: Global, count: usize) -> Result<Vec<Row>, AllocError>
    ensures { IfOk result (λ rows. rows.items ≡ replicate count []) }
{
    let mut rows = Vec::with_capacity(alloc, count)?;
    for _ in 0..count {
        rows.push(Row::new(alloc))?;
    }
    Ok(rows)
}

/// Goes through the steps and marks the edges into each of them.
fn mark_edges(
    alloc: Global,
    accesses: &[Access],
    uses: &mut [BlockUse],
    rows: &mut [Row],
) -> Result<(), AllocError>
    requires few { length accesses.now ≤ most_accesses }
    requires blocks { All (UsesBelow (length uses.old)) accesses.now }
    requires unused { uses.old ≡ replicate (length uses.old) no_use }
    requires empty { rows.old ≡ replicate (length accesses.now) [] }
    ensures { OnOk result (AreRows (access_at accesses.now) (length accesses.now) rows.new) }
{
    let mut step = 0;
    for access in accesses {
        step += 1;
        mark_edges_into(rows, uses, access, step)?;
        note(alloc, uses, access, step)?;
    }
    Ok(())
}

/// Marks the edges into one step, by what the steps before it did with the blocks.
fn mark_edges_into(
    rows: &mut [Row],
    uses: &[BlockUse],
    access: &Access,
    step: u32,
) -> Result<(), AllocError>
    requires blocks { UsesBelow (length uses.now) access.now }
    requires steps { All (HasSteps (length rows.old)) uses.now }
    ensures { OnOk result (rows.new ≡ mark_all (marks_into step access.now uses.now) rows.old) }
{
    mark_flows(rows, uses, access.reads.as_slice(), step)?;
    let used = &uses[access.write as usize];
    mark_readers(rows, used.readers.as_slice(), step)?;
    mark_writer(rows, used.writer, EdgeKind::Output, step)?;
    Ok(())
}

/// Marks the edges by which a step reads what others wrote.
fn mark_flows(
    rows: &mut [Row],
    uses: &[BlockUse],
    reads: &[u32],
    step: u32,
) -> Result<(), AllocError>
    requires blocks { All (λ x. x < length uses.now) reads.now }
    requires steps { All (HasSteps (length rows.old)) uses.now }
    ensures { OnOk result (rows.new ≡ mark_all (flows_into step uses.now reads.now) rows.old) }
{
    for block in reads {
        mark_writer(rows, uses[*block as usize].writer, EdgeKind::Flow, step)?;
    }
    Ok(())
}

/// Marks the edges by which a step writes what these read.
fn mark_readers(rows: &mut [Row], readers: &[u32], step: u32) -> Result<(), AllocError>
    requires { All (IsStepOf (length rows.old)) readers.now }
    ensures { OnOk result (rows.new ≡ mark_all (map (found_edge Anti step) readers.now) rows.old) }
{
    for from in readers {
        mark(rows, Edge::found(EdgeKind::Anti, step, *from))?;
    }
    Ok(())
}

/// Marks the edge from the last writer of a block, if there is one.
fn mark_writer(
    rows: &mut [Row],
    writer: Option<u32>,
    kind: EdgeKind,
    step: u32,
) -> Result<(), AllocError>
    requires { (s : ℕ) → writer ≡ Some s → IsStepOf (length rows.old) s }
    ensures { OnOk result (rows.new ≡ mark_all (map (found_edge kind step) (option_to_list writer)) rows.old) }
{
    match writer {
        Some(from) => mark(rows, Edge::found(kind, step, from)),
        None => Ok(()),
    }
}

/// Marks an edge in the row of the step that it comes from.
fn mark(rows: &mut [Row], found: Edge) -> Result<(), AllocError>
    requires { IsStepOf (length rows.old) found.from }
    ensures { OnOk result (rows.new ≡ mark_at found rows.old) }
{
    rows[found.from as usize - 1].mark(found)
}
