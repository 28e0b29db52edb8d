ghost use Rattle.std.specs.Prelude.{◌≡◌, ◌-◌, ◌<◌, ◌≤◌, ◌↔◌, ◌⊎◌, ◌++◌, [], Some, IsErr, min, length, take, IfOk, OnOk, OnErr};
ghost use Rattle.std.specs.Io.{WritesAtMost};
ghost use Rattle.std.specs.Io.KnownBytes.{Keeps, WriteAppends};
ghost use Rattle.outside_io.specs.Causes.{HasCause, one_more};
ghost use Rattle.outside_io.specs.Memory.{FailsNext};

use crate::outside::{Failed, Sink};
use crate::plan::is_planned;
use std::alloc::{AllocError, Global};
use std::marker::Model;

/// A sink in memory that takes its bytes in pieces, and fails at planned calls and where it is full.
#[derive(Drop)]
pub struct MemSink {
    taken: Vec<u8>,
    room: u32,
    piece: u32,
    failing: Vec<u32>,
    calls: u64,
    faults: u64,
}

impl Model for MemSink {
    ghost use Rattle.std.specs.Prelude.{◌<◌, ◌≤◌, vec_len, vec_capacity};
    ghost use Rattle.outside_io.specs.Memory.{Store};

    ghost Value = { Store };

    ghost view = { λ s. record {
      held = s.taken.items;
      room = s.room;
      piece = s.piece;
      failing = s.failing.items;
      calls = s.calls;
      faults = s.faults;
    } };

    ghost invariant = { λ s.
        (s.room ≤ vec_capacity s.taken) × (vec_len s.taken ≤ s.room) × (0 < s.piece) };
}

impl MemSink {
    /// An empty sink with room for `room` bytes, which takes at most `piece` of them at once. The calls of `write` and
    /// `flush` are numbered together, from 1, and those whose numbers are in `failing` fail. The room is allocated
    /// here, so that no later call wants memory.
    pub fn new(
        alloc: Global,
        room: u32,
        piece: u32,
        failing: Vec<u32>,
    ) -> Result<MemSink, AllocError>
        requires { 0 < piece }
        ensures { IfOk result (λ sink. sink ≡ record {
          held = [];
          room = room;
          piece = piece;
          failing = failing.items;
          calls = 0;
          faults = 0;
        }) }
    {
        let taken = Vec::with_capacity(alloc, room as usize)?;
        Ok(MemSink {
            taken,
            room,
            piece,
            failing,
            calls: 0,
            faults: 0,
        })
    }

    /// What it holds.
    pub fn bytes(&self) -> &[u8]
        ensures held { result.now ≡ self.now.held }
        ensures within { length result.now ≤ self.now.room }
    {
        self.taken.as_slice()
    }
}

impl Sink for MemSink {
    ghost held = { λ s. Some s.held };

    ghost faults = { λ s. s.faults };

    fn write(&mut self, piece: &[u8]) -> Result<usize, Failed>
        ensures bound { WritesAtMost result piece.now }
        ensures some { IfOk result (λ n. 0 < length piece.now → 0 < n) }
        ensures bytes { WriteAppends (Some self.old.held) (Some self.new.held) result piece.now }
        ensures cause { HasCause self.old.faults self.new.faults result }
        ensures planned { IsErr result ↔
            (FailsNext self.old.failing self.old.calls ⊎ (length self.old.held ≡ self.old.room)) }
        ensures count { IfOk result (λ n. n ≡
            min (min (length piece.now) self.old.piece) (self.old.room - length self.old.held)) }
        ensures took { IfOk result (λ n. self.new ≡ record self.old {
          held = self.old.held ++ take n piece.now;
          calls = one_more self.old.calls;
        }) }
        ensures failed { OnErr result (self.new ≡ record self.old {
          calls = one_more self.old.calls;
          faults = one_more self.old.faults;
        }) }
    {
        self.calls = self.calls.saturating_add(1);
        let left = self.room as usize - self.taken.len();
        if left == 0 || is_planned(&self.failing, self.calls) {
            self.faults = self.faults.saturating_add(1);
            return Err(Failed);
        }
        let count = piece.len().min(self.piece as usize).min(left);
        self.taken.extend_from_slice(&piece[..count]).unwrap();
        Ok(count)
    }

    fn flush(&mut self) -> Result<(), Failed>
        ensures bytes { Keeps (Some self.old.held) (Some self.new.held) }
        ensures cause { HasCause self.old.faults self.new.faults result }
        ensures planned { IsErr result ↔ FailsNext self.old.failing self.old.calls }
        ensures flushed { OnOk result (self.new ≡ record self.old {
          calls = one_more self.old.calls;
        }) }
        ensures failed { OnErr result (self.new ≡ record self.old {
          calls = one_more self.old.calls;
          faults = one_more self.old.faults;
        }) }
    {
        self.calls = self.calls.saturating_add(1);
        if is_planned(&self.failing, self.calls) {
            self.faults = self.faults.saturating_add(1);
            return Err(Failed);
        }
        Ok(())
    }
}
