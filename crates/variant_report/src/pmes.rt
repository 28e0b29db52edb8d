//! Partitioned matrix expressions as text.

ghost use Rattle.std.specs.Prelude.{◌≡◌, ◌++◌, length, map, IfOk, OnOk, OnErr};
ghost use Rattle.block_expr.specs.Seen.{tree_of};
ghost use Rattle.pme_builder.specs.Pmes.{IsPme};
ghost use Rattle.variant_report.specs.PmeTexts.{block_line, block_lines, head_line, needs_of};
ghost use Rattle.variant_report.specs.PmeTexts.{needs_text, numbers_text, pme_text, second_name};
ghost use Rattle.variant_report.specs.PmeTexts.{task_line, task_lines};

use crate::number_lines::put_number_line;
use block_expr::{Expr, put_place, two_parts, work_places, write_expr};
use byte_texts::put_decimal;
use equation::Place;
use operation_spec::{Operation, Split, Task};
use pme_builder::{Pair, Pme};
use std::alloc::{AllocError, Global};
use structure_rules::NumberList;
use task_texts::{name_of, put_number, put_task};

/// Appends the text of the partitioned matrix expression that `derive_pme` answers for an operation and a split. Its
/// one error is want of memory, and then nothing is appended: the text is composed apart from `out` first.
pub fn write_pme(
    alloc: Global,
    op: &Operation,
    split: Split,
    p: &Pme,
    out: &mut Vec<u8>,
) -> Result<(), AllocError>
    requires { IsPme op.now split p.now }
    ensures ok { OnOk result (out.new.items ≡ out.old.items ++ pme_text op.now split) }
    ensures err { OnErr result (out.new.items ≡ out.old.items) }
{
    let parts = two_parts(alloc, op, split)?;
    let places = work_places(alloc, op, &parts)?;
    let mut text = Vec::new(alloc);
    put_head(op, split, &mut text)?;
    put_block_lines(alloc, op, &places, p.blocks.as_slice(), &mut text)?;
    put_number_line(b"tasks", p.tasks.len() as u64, &mut text)?;
    put_task_lines(alloc, p.tasks.as_slice(), p.edges.as_slice(), &mut text)?;
    text.extend_from_slice(b"end\n")?;
    out.extend_from_slice(&text)
}

/// Appends the line with the operation and the dimensions of the split.
fn put_head(op: &Operation, split: Split, out: &mut Vec<u8>) -> Result<(), AllocError>
    ensures { OnOk result (out.new.items ≡ out.old.items ++ head_line op.now split) }
{
    out.extend_from_slice(b"pme ")?;
    out.extend_from_slice(op.name.as_slice())?;
    out.extend_from_slice(b" split ")?;
    out.extend_from_slice(name_of(op, split.first))?;
    put_second(op, split.second, out)?;
    out.push(b'\n')?;
    Ok(())
}

/// Appends the name of a second dimension behind a space.
fn put_second(op: &Operation, second: Option<u32>, out: &mut Vec<u8>) -> Result<(), AllocError>
    ensures { OnOk result (out.new.items ≡ out.old.items ++ second_name op.now second) }
{
    match second {
        Some(d) => {
            out.push(b' ')?;
            Ok(out.extend_from_slice(name_of(op, d))?)
        }
        None => Ok(()),
    }
}

/// Appends the lines of blocks, each with its place and its expression.
fn put_block_lines(
    alloc: Global,
    op: &Operation,
    places: &[Place],
    blocks: &[Expr],
    out: &mut Vec<u8>,
) -> Result<(), AllocError>
    requires { length blocks.now ≡ length places.now }
    ensures { OnOk result (out.new.items
        ≡ out.old.items ++ block_lines op.now places.now (map tree_of blocks.now)) }
{
    for at in 0..places.len() {
        put_block(alloc, op, places[at], &blocks[at], out)?;
    }
    Ok(())
}

/// Appends the line of a block.
fn put_block(
    alloc: Global,
    op: &Operation,
    place: Place,
    block: &Expr,
    out: &mut Vec<u8>,
) -> Result<(), AllocError>
    ensures { OnOk result (out.new.items ≡ out.old.items ++ block_line op.now place (tree_of block.now)) }
{
    out.push(b'X')?;
    put_place(place.row, place.col, out)?;
    out.extend_from_slice(b" = ")?;
    write_expr(alloc, op, block, out)?;
    out.push(b'\n')?;
    Ok(())
}

/// Appends the lines of tasks, numbered from 1.
fn put_task_lines(
    alloc: Global,
    tasks: &[Task],
    edges: &[Pair],
    out: &mut Vec<u8>,
) -> Result<(), AllocError>
    ensures { OnOk result (out.new.items ≡ out.old.items ++ task_lines 1 tasks.now edges.now) }
{
    let mut number = 0;
    for task in tasks {
        number += 1;
        put_task_line(alloc, number, *task, edges, out)?;
    }
    Ok(())
}

/// Appends the line of a task under its number.
fn put_task_line(
    alloc: Global,
    number: u64,
    task: Task,
    edges: &[Pair],
    out: &mut Vec<u8>,
) -> Result<(), AllocError>
    ensures { OnOk result (out.new.items ≡ out.old.items ++ task_line number task edges.now) }
{
    let needs = needs_of(alloc, number, edges)?;
    put_decimal(number, out)?;
    out.push(b' ')?;
    put_task(task, out)?;
    put_needs(needs.as_slice(), out)?;
    out.push(b'\n')?;
    Ok(())
}

/// The numbers of the tasks that a task needs.
fn needs_of(alloc: Global, number: u64, edges: &[Pair]) -> Result<NumberList, AllocError>
    ensures { IfOk result (λ needs. needs ≡ needs_of number edges.now) }
{
    let mut needs = NumberList::new(alloc);
    for pair in edges {
        if u64::from(pair.task) == number {
            needs.push(pair.need)?;
        }
    }
    Ok(needs)
}

/// Appends the tasks that a task needs, if there are any.
fn put_needs(needs: &[u32], out: &mut Vec<u8>) -> Result<(), AllocError>
    ensures { OnOk result (out.new.items ≡ out.old.items ++ needs_text needs.now) }
{
    match needs {
        [] => Ok(()),
        [_, ..] => {
            out.extend_from_slice(b" needs")?;
            put_numbers(needs, out)
        }
    }
}

/// Appends each number behind a space.
fn put_numbers(numbers: &[u32], out: &mut Vec<u8>) -> Result<(), AllocError>
    ensures { OnOk result (out.new.items ≡ out.old.items ++ numbers_text numbers.now) }
{
    for number in numbers {
        out.push(b' ')?;
        put_number(*number, out)?;
    }
    Ok(())
}
