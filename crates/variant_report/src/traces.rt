ghost use Rattle.std.specs.Prelude.{◌≡◌, ◌++◌, slice_get, OnOk, OnErr};
ghost use Rattle.std.specs.List.{flat_map};
ghost use Rattle.std.specs.Option.{option_to_list};
ghost use Rattle.variant_report.specs.TraceTexts.{step_line, step_lines, steps_text, word_if, kinds_text, edge_line, edges_text, event_line, schedule_text, trace_text};

use crate::number_lines::put_number_line;
use byte_texts::put_decimal;
use dependence_queue::{Edge, Edges};
use schedule_core::{Event, EventList};
use std::alloc::{AllocError, Global};
use step_replays::{Step, StepList};
use task_texts::{put_number, put_task};

/// Appends the line of a step under its number.
fn put_step(number: u64, step: &Step, out: &mut Vec<u8>) -> Result<(), AllocError>
    ensures { OnOk result (out.new.items ≡ out.old.items ++ step_line number step.now) }
{
    put_decimal(number, out)?;
    out.push(b' ')?;
    put_number(step.statement, out)?;
    out.push(b' ')?;
    put_task(step.task, out)?;
    out.push(b'\n')?;
    Ok(())
}

/// Appends the lines of steps, numbered from 1.
fn put_step_lines(steps: &[Step], out: &mut Vec<u8>) -> Result<(), AllocError>
    ensures { OnOk result (out.new.items ≡ out.old.items ++ step_lines 1 steps.now) }
{
    let mut number = 0;
    for step in steps {
        number += 1;
        put_step(number, step, out)?;
    }
    Ok(())
}

fn put_steps(steps: &StepList, out: &mut Vec<u8>) -> Result<(), AllocError>
    ensures { OnOk result (out.new.items ≡ out.old.items ++ steps_text steps.now) }
{
    put_number_line(b"tasks", steps.len() as u64, out)?;
    put_step_lines(steps.as_slice(), out)?;
    Ok(())
}

/// Appends a word behind a space, where it holds.
fn put_word_if(holds: bool, word: &[u8], out: &mut Vec<u8>) -> Result<(), AllocError>
    ensures { OnOk result (out.new.items ≡ out.old.items ++ word_if holds word.now) }
{
    if holds {
        out.push(b' ')?;
        out.extend_from_slice(word)?;
    }
    Ok(())
}

/// Appends the kinds of an edge, each behind a space.
fn put_kinds(edge: Edge, out: &mut Vec<u8>) -> Result<(), AllocError>
    ensures { OnOk result (out.new.items ≡ out.old.items ++ kinds_text edge) }
{
    put_word_if(edge.flow, b"flow", out)?;
    put_word_if(edge.anti, b"anti", out)?;
    put_word_if(edge.output, b"output", out)?;
    Ok(())
}

fn put_edge(edge: Edge, out: &mut Vec<u8>) -> Result<(), AllocError>
    ensures { OnOk result (out.new.items ≡ out.old.items ++ edge_line edge) }
{
    put_decimal(u64::from(edge.from), out)?;
    out.push(b' ')?;
    put_decimal(u64::from(edge.to), out)?;
    put_kinds(edge, out)?;
    out.push(b'\n')?;
    Ok(())
}

/// Appends the line of the edge at a place, if there is one.
fn put_edge_at(edges: &Edges, at: usize, out: &mut Vec<u8>) -> Result<(), AllocError>
    ensures { OnOk result (out.new.items ≡ out.old.items
        ++ flat_map edge_line (option_to_list (slice_get edges.now at))) }
{
    match edges.get(at) {
        Some(edge) => put_edge(*edge, out),
        None => Ok(()),
    }
}

fn put_edge_lines(edges: &Edges, out: &mut Vec<u8>) -> Result<(), AllocError>
    ensures { OnOk result (out.new.items ≡ out.old.items ++ flat_map edge_line edges.now) }
{
    for at in 0..edges.len() {
        put_edge_at(edges, at, out)?;
    }
    Ok(())
}

fn put_edges(edges: &Edges, out: &mut Vec<u8>) -> Result<(), AllocError>
    ensures { OnOk result (out.new.items ≡ out.old.items ++ edges_text edges.now) }
{
    put_number_line(b"edges", edges.len() as u64, out)?;
    put_edge_lines(edges, out)?;
    Ok(())
}

fn put_event(event: Event, out: &mut Vec<u8>) -> Result<(), AllocError>
    ensures { OnOk result (out.new.items ≡ out.old.items ++ event_line event) }
{
    match event {
        Event::Start(n) => put_number_line(b"start", u64::from(n), out),
        Event::Finish(n) => put_number_line(b"finish", u64::from(n), out),
    }
}

fn put_event_lines(events: &[Event], out: &mut Vec<u8>) -> Result<(), AllocError>
    ensures { OnOk result (out.new.items ≡ out.old.items ++ flat_map event_line events.now) }
{
    for event in events {
        put_event(*event, out)?;
    }
    Ok(())
}

fn put_schedule(schedule: &EventList, out: &mut Vec<u8>) -> Result<(), AllocError>
    ensures { OnOk result (out.new.items ≡ out.old.items ++ schedule_text schedule.now) }
{
    put_number_line(b"schedule", schedule.len() as u64, out)?;
    put_event_lines(schedule.as_slice(), out)?;
    Ok(())
}

fn put_trace(
    steps: &StepList,
    edges: &Edges,
    schedule: &EventList,
    out: &mut Vec<u8>,
) -> Result<(), AllocError>
    ensures { OnOk result (out.new.items
        ≡ out.old.items ++ trace_text steps.now edges.now schedule.now) }
{
    out.extend_from_slice(b"trace\n")?;
    put_steps(steps, out)?;
    put_edges(edges, out)?;
    put_schedule(schedule, out)?;
    out.extend_from_slice(b"end\n")?;
    Ok(())
}

/// Appends the trace of a run: its steps, numbered from 1, with their statements and tasks; the direct edges
/// between them, with their kinds; and the events of a schedule. Each part has its count in front and keeps the
/// order in which it is given. Nothing is asked of them: that the edges are those of the steps, and that the events
/// are a schedule of them, is up to the caller. Its one error is want of memory, and then nothing is appended: the
/// text is composed apart from `out` first.
pub fn write_trace(
    alloc: Global,
    steps: &StepList,
    edges: &Edges,
    schedule: &EventList,
    out: &mut Vec<u8>,
) -> Result<(), AllocError>
    ensures ok { OnOk result (out.new.items
        ≡ out.old.items ++ trace_text steps.now edges.now schedule.now) }
    ensures err { OnErr result (out.new.items ≡ out.old.items) }
{
    let mut text = Vec::new(alloc);
    put_trace(steps, edges, schedule, &mut text)?;
    out.extend_from_slice(&text)
}
