ghost use Rattle.std.specs.Prelude.{◌≤◌, IfOk};

use super::{StdSink, StdSource};
use crate::outside::{Failed, Sink, Source};
use std::io;
use std::io::{Read, Write};
use std::test::*;

// A reader and a writer that answer each call by a plan: some bytes, or an error.
#[derive(Drop)]
struct Planned<'a> {
    plan: &'a [Option<usize>],
    calls: usize,
}

impl Planned<'_> {
    fn answer(&mut self, len: usize) -> io::Result<usize>
        ensures { IfOk result (λ n. n ≤ len) }
    {
        let planned = self.plan.get(self.calls).copied().flatten();
        self.calls = self.calls.saturating_add(1);
        match planned {
            Some(count) => Ok(count.min(len)),
            None => Err(io::Error::from(io::ErrorKind::BrokenPipe)),
        }
    }
}

impl Read for Planned<'_> {
    fn read(&mut self, buf: &mut [u8]) -> io::Result<usize> {
        self.answer(buf.len())
    }
}

impl Write for Planned<'_> {
    fn write(&mut self, buf: &[u8]) -> io::Result<usize> {
        self.answer(buf.len())
    }

    fn flush(&mut self) -> io::Result<()> {
        self.answer(0)?;
        Ok(())
    }
}

#[test]
fn counts_the_errors_of_a_reader(rt: HostRuntime) {
    let plan = [Some(3), None, Some(0), None, Some(20)];
    let mut source = StdSource::new(Planned {
        plan: &plan,
        calls: 0,
    });
    let mut buf = [0; 8];
    for (wanted, faults) in [
        (Ok(3), 0),
        (Err(Failed), 1),
        (Ok(0), 1),
        (Err(Failed), 2),
        (Ok(8), 2),
    ] {
        assert_eq!(rt; source.read(&mut buf), wanted);
        assert_eq!(rt; source.faults, faults);
    }
}

#[test]
fn counts_the_errors_of_a_writer(rt: HostRuntime) {
    let plan = [Some(2), Some(0), Some(0), None, Some(9), None, Some(0)];
    let mut sink = StdSink::new(Planned {
        plan: &plan,
        calls: 0,
    });
    for (piece, wanted, faults) in [
        ("abc", Ok(2), 0),
        ("abc", Err(Failed), 1),
        ("", Ok(0), 1),
        ("abc", Err(Failed), 2),
        ("abc", Ok(3), 2),
    ] {
        assert_eq!(rt; sink.write(piece.as_bytes()), wanted, "at {piece}");
        assert_eq!(rt; sink.faults, faults);
    }
    for (wanted, faults) in [(Err(Failed), 3), (Ok(()), 3)] {
        assert_eq!(rt; sink.flush(), wanted);
        assert_eq!(rt; sink.faults, faults);
    }
}
