ghost use Rattle.std.specs.Prelude.{◌≡◌, ◌<◌, None, length, IfOk, OnOk, OnErr};
ghost use Rattle.std.specs.Io.{ReadsAtMost, WritesAtMost};
ghost use Rattle.std.specs.Io.KnownBytes.{Keeps, ReadConsumes, WriteAppends};
ghost use Rattle.outside_io.specs.Causes.{HasCause, one_more};
ghost use Rattle.outside_io.specs.Standard.{sink_faults, sink_writer, source_faults, source_reader};

use crate::outside::{Failed, Sink, Source};
use std::io::{Read, Write};

/// A source over a reader of std. It tells no bytes, and counts each error of the reader. The count stands still at
/// the last number of 64 bits.
#[derive(Drop)]
pub struct StdSource<R> {
    inner: R,
    faults: u64,
}

impl<R: Read> StdSource<R> {
    /// A source over this reader, which has not failed yet.
    pub fn new(inner: R) -> StdSource<R>
        ensures reader { source_reader result ≡ inner }
        ensures faults { source_faults result ≡ 0 }
    {
        StdSource { inner, faults: 0 }
    }
}

impl<R: Read> Source for StdSource<R> {
    ghost left = { λ _. None };

    ghost faults = { λ s. source_faults s };

    fn read(&mut self, buf: &mut [u8]) -> Result<usize, Failed>
        ensures bound { ReadsAtMost result buf.new }
        ensures bytes { ReadConsumes None None result buf.new }
        ensures cause { HasCause (source_faults self.old) (source_faults self.new) result }
        ensures reader { ReadConsumes
            (R.remaining (source_reader self.old)) (R.remaining (source_reader self.new))
            result buf.new }
        ensures gave { OnOk result (source_faults self.new ≡ source_faults self.old) }
        ensures failed { OnErr result (source_faults self.new ≡ one_more (source_faults self.old)) }
    {
        match self.inner.read(buf) {
            Ok(count) => Ok(count),
            Err(_) => {
                self.faults = self.faults.saturating_add(1);
                Err(Failed)
            }
        }
    }
}

/// A sink over a writer of std. It tells no bytes, and counts each error of the writer, and each write of 0 bytes of
/// a piece that is not empty. The count stands still at the last number of 64 bits.
#[derive(Drop)]
pub struct StdSink<W> {
    inner: W,
    faults: u64,
}

impl<W: Write> StdSink<W> {
    /// A sink over this writer, which has not failed yet.
    pub fn new(inner: W) -> StdSink<W>
        ensures writer { sink_writer result ≡ inner }
        ensures faults { sink_faults result ≡ 0 }
    {
        StdSink { inner, faults: 0 }
    }
}

impl<W: Write> Sink for StdSink<W> {
    ghost held = { λ _. None };

    ghost faults = { λ s. sink_faults s };

    fn write(&mut self, piece: &[u8]) -> Result<usize, Failed>
        ensures bound { WritesAtMost result piece.now }
        ensures some { IfOk result (λ n. 0 < length piece.now → 0 < n) }
        ensures bytes { WriteAppends None None result piece.now }
        ensures cause { HasCause (sink_faults self.old) (sink_faults self.new) result }
        ensures writer { WriteAppends
            (W.contents (sink_writer self.old)) (W.contents (sink_writer self.new))
            result piece.now }
        ensures took { OnOk result (sink_faults self.new ≡ sink_faults self.old) }
        ensures failed { OnErr result (sink_faults self.new ≡ one_more (sink_faults self.old)) }
    {
        match self.inner.write(piece) {
            Ok(count) if 0 < count || piece.is_empty() => Ok(count),
            _ => {
                self.faults = self.faults.saturating_add(1);
                Err(Failed)
            }
        }
    }

    fn flush(&mut self) -> Result<(), Failed>
        ensures bytes { Keeps None None }
        ensures cause { HasCause (sink_faults self.old) (sink_faults self.new) result }
        ensures writer { Keeps
            (W.contents (sink_writer self.old)) (W.contents (sink_writer self.new)) }
        ensures flushed { OnOk result (sink_faults self.new ≡ sink_faults self.old) }
        ensures failed { OnErr result (sink_faults self.new ≡ one_more (sink_faults self.old)) }
    {
        match self.inner.flush() {
            Ok(()) => Ok(()),
            Err(_) => {
                self.faults = self.faults.saturating_add(1);
                Err(Failed)
            }
        }
    }
}

#[cfg(test)]
mod tests;
