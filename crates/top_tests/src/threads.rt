//! The workers of a command work beside each other.

use crate::answers::{NO_FAULTS, answered};
use outside_io::Gate;
use std::sync::atomic::AtomicU64;
use std::sync::atomic::Ordering::SeqCst;
use std::test::Fail;
use std::thread::yield_now;

/// For how many turns a gate holds a step at most.
const TURNS: u64 = 200_000_000;

/// Holds the first step that enters until another one has entered.
#[derive(Drop)]
struct HoldingFirst {
    entered: AtomicU64,
    met: AtomicU64,
}

impl HoldingFirst {
    fn new() -> HoldingFirst {
        HoldingFirst {
            entered: AtomicU64::new(0),
            met: AtomicU64::new(0),
        }
    }

    /// Whether so many steps entered, one of them while the first one was held.
    fn has_met(&self, steps: u64) -> bool {
        self.met.load(SeqCst) == 1 && self.entered.load(SeqCst) == steps
    }

    /// Waits until another step has entered, and gives that up after so many turns.
    fn hold(&self) {
        for _ in 0..TURNS {
            if self.entered.load(SeqCst) >= 2 {
                self.met.store(1, SeqCst);
                return;
            }
            yield_now();
        }
    }
}

impl Gate for HoldingFirst {
    fn enter(&self, _task: u32) {
        if self.entered.fetch_add(1, SeqCst) == 0 {
            self.hold();
        }
    }

    fn leave(&self, _task: u32) {}
}

/// Holds a step until another one has left.
#[derive(Drop)]
struct HoldingOne {
    step: u32,
    other: u32,
    left: AtomicU64,
    met: AtomicU64,
}

impl HoldingOne {
    fn new(step: u32, other: u32) -> HoldingOne {
        HoldingOne {
            step,
            other,
            left: AtomicU64::new(0),
            met: AtomicU64::new(0),
        }
    }

    /// Whether the step was held, and the other one left meanwhile.
    fn has_met(&self) -> bool {
        self.met.load(SeqCst) == 1
    }

    /// Waits until the other step has left, and gives that up after so many turns.
    fn hold(&self) {
        for _ in 0..TURNS {
            if self.left.load(SeqCst) == 1 {
                self.met.store(1, SeqCst);
                return;
            }
            yield_now();
        }
    }
}

impl Gate for HoldingOne {
    fn enter(&self, task: u32) {
        if task == self.step {
            self.hold();
        }
    }

    fn leave(&self, task: u32) {
        if task == self.other {
            self.left.store(1, SeqCst);
        }
    }
}

const RUN: &[&str] = &["run", "--block", "1", "--workers", "2"];

const TRACED: &[&str] = &["run", "--block", "1", "--workers", "2", "--trace"];

/// One row of a product of two steps for each of its two entries: 1 comes before 2, and 3 before 4.
const ROW: &str =
    "flame 1\nmodulus 7\noperation mul\ndims m n k\nwork W general m n\nknown A general m k\nknown B general k n\nequation X = W + A * B\nend\nmatrix W 1 2\n0 0\nend\nmatrix A 1 2\n1 1\nend\nmatrix B 2 2\n1 1\n1 1\nend\ndo mul W A B\nprint W\n";

const PRINTED_ROW: &str = "matrix W 1 2\n2 2\nend\n";

const SELFRUN: &[&str] = &["selfrun", "2", "101", "1", "--block", "1", "--workers", "2"];

const SUMMARY: &str = "selfrun 2 101 1 block 1 workers 2\ntasks 23\nsum S 88\nsum B 21\n";

#[test]
fn two_workers_of_a_command_work_beside_each_other(rt: HostRuntime) -> Result<(), Fail> {
    let alloc = rt.alloc();
    for (words, input, text, steps) in [(RUN, ROW, PRINTED_ROW, 4), (SELFRUN, "", SUMMARY, 23)] {
        let gate = HoldingFirst::new();
        let given = answered(&rt, alloc, words, &[input], NO_FAULTS, &gate)?;
        assert!(rt; given.says(0, text));
        assert!(rt; gate.has_met(steps));
    }
    Ok(())
}

// No schedule fits both gates, and none in which the steps go one after another in a fixed order fits either.
#[test]
fn a_schedule_is_that_of_the_run(rt: HostRuntime) -> Result<(), Fail> {
    let alloc = rt.alloc();
    for (step, other, start, finish) in [
        (1, 4, "start 4\n", "finish 1\n"),
        (3, 2, "start 2\n", "finish 3\n"),
    ] {
        let gate = HoldingOne::new(step, other);
        let given = answered(&rt, alloc, RUN, &[ROW], NO_FAULTS, &gate)?;
        assert!(rt; given.says(0, PRINTED_ROW));
        assert!(rt; gate.has_met());
        let gate = HoldingOne::new(step, other);
        let given = answered(&rt, alloc, TRACED, &[ROW], NO_FAULTS, &gate)?;
        assert!(rt; given.begins(0, PRINTED_ROW));
        assert!(rt; gate.has_met());
        assert!(rt; given.has_in_order(start, finish));
    }
    Ok(())
}
