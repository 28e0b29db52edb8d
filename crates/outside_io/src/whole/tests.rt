use super::{ReadEnd, read_all, write_all};
use crate::gate::{Gate, OpenGate};
use crate::memory_sink::MemSink;
use crate::memory_source::MemSource;
use crate::outside::{Failed, Sink};
use std::test::*;

#[test]
fn reads_to_the_end_the_limit_or_a_fault(rt: HostRuntime) -> Result<(), Fail> {
    for (failing, limit, wanted) in [
        (0, 6, None),
        (0, 5, Some(ReadEnd::TooLong)),
        (0, 0, Some(ReadEnd::TooLong)),
        (2, 6, Some(ReadEnd::ReadFault)),
        (3, 6, Some(ReadEnd::ReadFault)),
        (3, 5, Some(ReadEnd::TooLong)),
    ] {
        let failing = [failing].to_vec(rt.alloc())?;
        let mut source = MemSource::new(b"abcdef".to_vec(rt.alloc())?, 4, failing);
        let read = read_all(rt.alloc(), &mut source, limit);
        assert_eq!(rt; read.err(), wanted, "at most {limit}");
    }
    Ok(())
}

#[test]
fn reads_and_writes_on_after_a_fault(rt: HostRuntime) -> Result<(), Fail> {
    let mut source = MemSource::new(b"abcdef".to_vec(rt.alloc())?, 4, [2].to_vec(rt.alloc())?);
    assert_eq!(rt;
        read_all(rt.alloc(), &mut source, 9).err(),
        Some(ReadEnd::ReadFault)
    );
    let rest = read_all(rt.alloc(), &mut source, 9).ok().ok_or("no rest")?;
    assert_eq!(rt; rest.as_slice(), b"ef".as_slice());

    let mut sink = MemSink::new(rt.alloc(), 5, 3, [2].to_vec(rt.alloc())?)?;
    for (text, wanted, held) in [
        ("abc", Err(Failed), "abc"),
        ("d", Ok(()), "abcd"),
        ("efg", Err(Failed), "abcde"),
    ] {
        assert_eq!(rt;
            write_all(&mut sink, text.as_bytes()),
            wanted,
            "writing {text}"
        );
        assert_eq!(rt; sink.bytes(), held.as_bytes());
    }
    assert_eq!(rt; sink.write(b""), Err(Failed));
    assert_eq!(rt; sink.flush(), Ok(()));
    pass(&OpenGate, 1);
    Ok(())
}

fn pass<G: Gate>(gate: &G, task: u32) {
    gate.enter(task);
    gate.leave(task);
}
