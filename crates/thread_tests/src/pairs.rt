//! Two steps without a path between them run beside each other, whichever they are.

ghost use Rattle.std.specs.Prelude.{◌≤◌};

use crate::gates::{Holding, Pair, Until};
use crate::jobs::{Due, FACTORS, PRODUCTS, SYLVESTER, edges_of, leaves, ran};
use dependence_queue::Edges;
use schedule_core::Event;
use std::alloc::{AllocError, Global};
use std::sync::Wait;
use std::test::Fail;
use std::thread::Threads;

/// The mark of a step of fewer than 64.
fn mark(step: u32) -> u64 {
    1 << (step % 64)
}

/// The marks of a step and of all steps to which a path leads from it. Each edge goes to a later step, and the edges come by the
/// steps that they come from, so that a step is marked before its own edges come.
fn behind(edges: &Edges, step: u32) -> u64 {
    let mut marks = mark(step);
    for at in 0..edges.len() {
        if let Some(edge) = edges.get(at) {
            if marks & mark(edge.from) != 0 {
                marks |= mark(edge.to);
            }
        }
    }
    marks
}

/// Whether two steps are two, and no path leads from one to the other.
fn is_apart(edges: &Edges, pair: Pair) -> bool {
    behind(edges, pair.step) & mark(pair.other) == 0
        && behind(edges, pair.other) & mark(pair.step) == 0
}

/// Where an event comes in a schedule; past its end where it doesn't.
fn place_of(events: &[Event], event: Event) -> usize {
    for (at, other) in events.iter().enumerate() {
        if *other == event {
            return at;
        }
    }
    events.len()
}

/// Whether so many workers do a job, where a step of it is held until another one has entered or left: the other one begins
/// before the end of that which is held.
fn goes<R: Threads + Wait + Sync>(
    rt: &R,
    alloc: Global,
    due: &Due,
    pair: Pair,
    until: Until,
    workers: u32,
) -> Result<bool, AllocError>
    requires some { 1 ≤ workers }
    requires few { workers ≤ 16 }
{
    let gate = Holding::new(pair, until);
    let finished = ran(rt, alloc, due.text, workers, &gate)?;
    let events = finished.schedule.as_slice();
    let begun = place_of(events, Event::Start(pair.other));
    let ended = place_of(events, Event::Finish(pair.step));
    Ok(gate.has_met() && begun < ended && leaves(&finished.outcome, due))
}

/// Whether two workers, three and four do a job with a step that is held until another one has entered, or has left.
fn goes_on<R: Threads + Wait + Sync>(
    rt: &R,
    alloc: Global,
    due: &Due,
    pair: Pair,
) -> Result<bool, AllocError> {
    Ok(
        goes(rt, alloc, due, pair, Until::Entered, 2)?
            && goes(rt, alloc, due, pair, Until::Left, 2)?
            && goes(rt, alloc, due, pair, Until::Entered, 4)?
            && goes(rt, alloc, due, pair, Until::Left, 3)?,
    )
}

/// The pairs of steps of a job of so many that are two and have no path between them.
fn pairs_of(alloc: Global, edges: &Edges, steps: u32) -> Result<Vec<Pair>, AllocError> {
    let mut pairs = Vec::new(alloc);
    for step in 1..=steps {
        for other in 1..=steps {
            let pair = Pair { step, other };
            if is_apart(edges, pair) {
                pairs.push(pair)?;
            }
        }
    }
    Ok(pairs)
}

/// Jobs with the count of their steps, and of the pairs of those without a path between them.
const CASES: [(Due, u32, usize); 3] = [(PRODUCTS, 12, 100), (FACTORS, 14, 64), (SYLVESTER, 9, 12)];

#[test]
fn a_step_waits_for_no_step_but_those_before_it(rt: HostRuntime) -> Result<(), Fail> {
    let alloc = rt.alloc();
    for (due, steps, count) in CASES {
        let edges = edges_of(alloc, due.text)?;
        let pairs = pairs_of(alloc, &edges, steps)?;
        assert_eq!(rt; pairs.len(), count);
        for pair in pairs.iter() {
            assert!(rt; goes_on(&rt, alloc, &due, *pair)?);
        }
    }
    Ok(())
}
