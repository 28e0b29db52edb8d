ghost use Rattle.std.specs.Prelude.{◌≡◌, ◌≢◌, ◌<◌, ◌≤◌, List, ℕ, length, vec_len, Err, IfOk, OnOk, OnErr};
ghost use Rattle.std.specs.Io.KnownBytes.{Appends, Consumes, IsAtEnd};
ghost use Rattle.outside_io.specs.Causes.{HasCause, Rose, Tells};
ghost use Rattle.outside_io.specs.Whole.{AppendsFront};
ghost use Rattle.outside_io.specs.declared.whole.ReadEnd.TheVariants.{Memory, ReadFault};

use crate::outside::{Failed, Sink, Source};
use std::alloc::{AllocError, Global};

/// Why a source was not read to its end.
#[derive(Clone, Copy, Debug, PartialEq, Eq)]
pub enum ReadEnd {
    /// No memory was left for what was read.
    Memory,
    /// The source failed.
    ReadFault,
    /// The source gave more bytes than the limit.
    TooLong,
}

impl From<AllocError> for ReadEnd {
    ghost from_gives = { λ _ e. e ≡ Memory };

    fn from(_error: AllocError) -> ReadEnd {
        ReadEnd::Memory
    }
}

impl From<Failed> for ReadEnd {
    ghost from_gives = { λ _ e. e ≡ ReadFault };

    fn from(_failed: Failed) -> ReadEnd {
        ReadEnd::ReadFault
    }
}

/// Reads the source to its end, or until byte `limit + 1` was read. `limit` is a number of bytes.
pub fn read_all<S: Source>(alloc: Global, source: &mut S, limit: u32) -> Result<Vec<u8>, ReadEnd>
    ensures whole { IfOk result (λ bytes. Tells (S.left source.old) bytes.items) }
    ensures end { OnOk result (IsAtEnd (S.left source.new)) }
    ensures within { IfOk result (λ bytes. vec_len bytes ≤ limit) }
    ensures too_long { result ≡ Err ReadEnd.TooLong →
        (input : List ℕ) × Tells (S.left source.old) input × (limit < length input) }
    // Byte `limit + 1` was read.
    ensures too_long_read { result ≡ Err ReadEnd.TooLong →
        (front : List ℕ) × Consumes (S.left source.old) (S.left source.new) front
        × (limit < length front) }
    ensures read_fault { result ≡ Err ReadEnd.ReadFault →
        Rose (S.faults source.old) (S.faults source.new) }
    // A fault comes before byte `limit + 1`.
    ensures fault_within { result ≡ Err ReadEnd.ReadFault →
        (front : List ℕ) × Consumes (S.left source.old) (S.left source.new) front
        × (length front ≤ limit) }
    // Whatever it answers, it took a front of what was left.
    ensures taken { (front : List ℕ) × Consumes (S.left source.old) (S.left source.new) front }
    ensures later { S.faults source.old ≤ S.faults source.new }
    ensures quiet { result ≢ Err ReadEnd.ReadFault → S.faults source.new ≡ S.faults source.old }
{
    let mut bytes = Vec::new(alloc);
    let mut buf = [0u8; 16384];
    while bytes.len() <= limit as usize {
        let count = source.read(&mut buf)?;
        if count == 0 {
            return Ok(bytes);
        }
        bytes.extend_from_slice(&buf[..count])?;
    }
    Err(ReadEnd::TooLong)
}

/// Writes the bytes and flushes. After an `Err` a front of them is written.
pub fn write_all<K: Sink>(sink: &mut K, bytes: &[u8]) -> Result<(), Failed>
    ensures whole { OnOk result (Appends (K.held sink.old) (K.held sink.new) bytes.now) }
    ensures front { OnErr result (AppendsFront (K.held sink.old) (K.held sink.new) bytes.now) }
    ensures cause { HasCause (K.faults sink.old) (K.faults sink.new) result }
{
    let mut at = 0;
    while at < bytes.len() {
        at += sink.write(&bytes[at..])?;
    }
    sink.flush()
}

#[cfg(test)]
mod tests;
