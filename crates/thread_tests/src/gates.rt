//! Gates that hold a step, delay each step, or count.

use outside_io::Gate;
use std::hint;
use std::sync::atomic::AtomicU64;
use std::sync::atomic::Ordering::SeqCst;
use std::thread::yield_now;

/// For how many turns a gate holds a step at most.
const TURNS: u64 = 20_000_000;

/// When a step that is held may go on.
#[derive(Clone, Copy, Debug, PartialEq, Eq)]
pub enum Until {
    Entered,
    Left,
}

/// Two steps, of which the first one is held until the other one has entered or left.
#[derive(Clone, Copy)]
pub struct Pair {
    pub step: u32,
    pub other: u32,
}

/// Holds the step of a pair until the other one has entered or left.
#[derive(Drop)]
pub struct Holding {
    pair: Pair,
    until: Until,
    come: AtomicU64,
    met: AtomicU64,
}

impl Holding {
    pub fn new(pair: Pair, until: Until) -> Holding {
        Holding {
            pair,
            until,
            come: AtomicU64::new(0),
            met: AtomicU64::new(0),
        }
    }

    /// Whether the step was held, and the other one has come while it was.
    pub fn has_met(&self) -> bool {
        self.met.load(SeqCst) == 1
    }

    fn note(&self, task: u32, now: Until) {
        if task == self.pair.other && now == self.until {
            self.come.store(1, SeqCst);
        }
    }

    /// Waits until the other step has come, and gives that up after so many turns.
    fn hold(&self) {
        for _ in 0..TURNS {
            if self.come.load(SeqCst) == 1 {
                self.met.store(1, SeqCst);
                return;
            }
            yield_now();
        }
    }
}

impl Gate for Holding {
    fn enter(&self, task: u32) {
        self.note(task, Until::Entered);
        if task == self.pair.step {
            self.hold();
        }
    }

    fn leave(&self, task: u32) {
        self.note(task, Until::Left);
    }
}

/// Counts how often each step of at most fifteen enters and leaves, in a digit of a number in base 16.
#[derive(Drop)]
pub struct Counting {
    pub entered: AtomicU64,
    pub left: AtomicU64,
}

impl Counting {
    pub fn new() -> Counting {
        Counting {
            entered: AtomicU64::new(0),
            left: AtomicU64::new(0),
        }
    }
}

/// One in the digit of a step.
fn digit(task: u32) -> u64 {
    1 << (4 * (task % 16))
}

impl Gate for Counting {
    fn enter(&self, task: u32) {
        self.entered.fetch_add(digit(task), SeqCst);
    }

    fn leave(&self, task: u32) {
        self.left.fetch_add(digit(task), SeqCst);
    }
}

/// Delays each step, before and after its work, by a number of turns that it draws.
#[derive(Drop)]
pub struct Delaying {
    state: AtomicU64,
}

impl Delaying {
    /// The numbers that are drawn depend on a seed, and on the order in which steps come.
    pub fn new(seed: u64) -> Delaying {
        Delaying {
            state: AtomicU64::new(seed),
        }
    }
}

impl Gate for Delaying {
    fn enter(&self, task: u32) {
        let drawn = self.state.fetch_add(7_919, SeqCst);
        let turns = (drawn ^ u64::from(task)) % 3_001;
        for _ in 0..turns {
            hint::spin_loop();
        }
    }

    fn leave(&self, task: u32) {
        self.enter(task);
    }
}
