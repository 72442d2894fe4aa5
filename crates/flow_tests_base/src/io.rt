//! Sources and sinks, and their faults.
use crate::checks::{bytes, holds, number};
use flow_io::{
    MemSink, MemSource, ReadFault, Sink, Source, StdSink, StdSource, SureSink, SureSource,
    read_all, write_all,
};
use std::io;
use std::io::{ErrorKind, Read, Write};
use std::process::Abort;

fn source(rt: &(impl Abort + AllocGlobal), fail: u64) -> MemSource {
    let bytes = Vec::from_slice(rt.alloc(), b"one, two, three, four").expect(rt, "memory");
    let fail = vec![in rt.alloc(); fail].expect(rt, "memory");
    MemSource {
        bytes,
        at: 0,
        calls: 0,
        fail,
        most: 7,
    }
}

fn sink(rt: &(impl Abort + AllocGlobal), fail: u64) -> MemSink {
    let fail = vec![in rt.alloc(); fail].expect(rt, "memory");
    MemSink {
        bytes: Vec::new(rt.alloc()),
        calls: 0,
        fail,
        most: 1,
        refused: 0,
    }
}

fn fails(rt: &(impl Abort + AllocGlobal), from: &mut MemSource) {
    let answer = read_all(rt.alloc(), from);
    assert!(rt; matches!(answer, Err(ReadFault::Read)));
}

fn reads<S: Source>(rt: &(impl Abort + AllocGlobal), from: &mut S) -> Vec<u8> {
    read_all(rt.alloc(), from).expect(rt, "bytes")
}

fn writes<K: Sink>(into: &mut K, bytes: &[u8]) -> bool {
    write_all(into, bytes).is_ok()
}

fn ends<K: Sink>(into: &mut K) -> bool {
    into.finish().is_ok()
}

#[test]
fn a_source_fails_at_each_call(rt: HostRuntime) {
    for call in 0..4 {
        let mut from = source(&rt, call);
        fails(&rt, &mut from);
        number(&rt, from.at as u64, 7 * call);
    }
    let mut from = source(&rt, 4);
    bytes(&rt, &reads(&rt, &mut from), b"one, two, three, four");
}

#[test]
fn a_sink_fails_at_each_call(rt: HostRuntime) {
    for call in 0..8 {
        let mut into = sink(&rt, call);
        holds(&rt, writes(&mut into, b"1234567") == (call == 7));
        number(&rt, into.bytes.len() as u64, call);
        holds(&rt, ends(&mut into) != (call == 7));
    }
}

fn many(rt: &(impl Abort + AllocGlobal)) -> SureSource {
    let bytes = vec![in rt.alloc(); 5u8; 100_000].expect(rt, "memory");
    SureSource { bytes, at: 1 }
}

#[test]
fn what_is_sure(rt: HostRuntime) {
    let mut from = many(&rt);
    let mut into = SureSink {
        bytes: Vec::new(rt.alloc()),
    };
    let bytes = reads(&rt, &mut from);
    number(&rt, bytes.len() as u64, 99_999);
    holds(&rt, writes(&mut into, &bytes));
    holds(&rt, ends(&mut into));
    number(&rt, into.bytes.len() as u64, 99_999);
}

#[derive(Drop)]
struct Broken;

impl Read for Broken {
    fn read(&mut self, _buf: &mut [u8]) -> io::Result<usize> {
        Err(io::Error::from(ErrorKind::Other))
    }
}

impl Write for Broken {
    fn write(&mut self, _buf: &[u8]) -> io::Result<usize> {
        Ok(0)
    }

    fn flush(&mut self) -> io::Result<()> {
        Err(io::Error::from(ErrorKind::Other))
    }
}

/// The number of bytes that a read gives, or 99 where it fails.
fn count<S: Source>(from: &mut S, into: &mut [u8]) -> u64 {
    from.read(into).map_or(99, |count| count as u64)
}

#[test]
fn a_reader_of_std(rt: HostRuntime) {
    let mut from = StdSource {
        inner: b"some".as_slice(),
        faults: 0,
    };
    let mut piece = [0u8; 8];
    number(&rt, count(&mut from, &mut piece), 4);
    bytes(&rt, &piece[..4], b"some");
    number(&rt, count(&mut from, &mut piece), 0);
    number(&rt, from.faults, 0);
    let mut broken = StdSource {
        inner: Broken,
        faults: 3,
    };
    number(&rt, count(&mut broken, &mut piece), 99);
    number(&rt, broken.faults, 4);
}

#[test]
fn a_writer_of_std(rt: HostRuntime) {
    let mut into = StdSink {
        inner: Vec::new(rt.alloc()),
        faults: 0,
        sent: true,
    };
    holds(&rt, writes(&mut into, b"some"));
    holds(&rt, ends(&mut into));
    bytes(&rt, into.inner.as_slice(), b"some");
    number(&rt, into.faults, 0);
    let mut broken = StdSink {
        inner: Broken,
        faults: 3,
        sent: true,
    };
    holds(&rt, !writes(&mut broken, b"some"));
    holds(&rt, !ends(&mut broken));
    number(&rt, broken.faults, 5);
}
