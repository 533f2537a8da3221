//! Readers and writers that fail once in mid-stream.

use super::*;
use std::process::Abort;

/// Reads two bytes at a time, and fails at one call.
#[derive(Drop)]
struct Halting {
    bytes: &'static [u8],
    calls_left: u32,
}

impl Read for Halting {
    fn read(&mut self, buf: &mut [u8]) -> io::Result<usize> {
        self.calls_left = self.calls_left.wrapping_sub(1);
        if self.calls_left == 0 {
            return Err(ErrorKind::Other.into());
        }
        let count = buf.len().min(self.bytes.len()).min(2);
        let (front, rest) = self.bytes.split_at(count);
        buf[..count].copy_from_slice(front);
        self.bytes = rest;
        Ok(count)
    }
}

/// Takes two bytes at a time, fails at one call, and takes none at another.
#[derive(Drop)]
struct Halted {
    count: u32,
    failing: u32,
    idle: u32,
}

impl Write for Halted {
    fn write(&mut self, buf: &[u8]) -> io::Result<usize> {
        self.count = self.count.saturating_add(1);
        if self.count == self.failing {
            return Err(ErrorKind::Other.into());
        }
        if self.count == self.idle {
            return Ok(0);
        }
        Ok(buf.len().min(2))
    }

    fn flush(&mut self) -> io::Result<()> {
        Ok(())
    }
}

/// Asserts what a call answers and the count of faults behind it.
fn answers(
    rt: &impl Abort,
    found: Result<usize, Failed>,
    faults: u64,
    wanted: Result<usize, Failed>,
    count: u64,
) {
    assert_eq!(rt; found, wanted);
    assert_eq!(rt; faults, count);
}

/// Asserts what a read of up to three bytes answers.
fn reads(
    rt: &impl Abort,
    source: &mut StdSource<Halting>,
    wanted: Result<usize, Failed>,
    count: u64,
) {
    let mut into = [0u8; 3];
    let found = source.read(&mut into);
    answers(rt, found, source.faults, wanted, count);
}

#[test]
fn a_source_counts_errors_alone(rt: HostRuntime) {
    let mut source = StdSource::new(Halting {
        bytes: b"abcde",
        calls_left: 2,
    });
    reads(&rt, &mut source, Ok(2), 0);
    reads(&rt, &mut source, Err(Failed), 1);
    reads(&rt, &mut source, Ok(2), 1);
    reads(&rt, &mut source, Ok(1), 1);
    reads(&rt, &mut source, Ok(0), 1);
    reads(&rt, &mut source, Ok(0), 1);
}

/// Asserts what a write of these bytes answers.
fn writes(
    rt: &impl Abort,
    sink: &mut StdSink<Halted>,
    bytes: &[u8],
    wanted: Result<usize, Failed>,
    count: u64,
) {
    let found = sink.write(bytes);
    answers(rt, found, sink.faults, wanted, count);
}

#[test]
fn a_sink_counts_errors_and_writes_of_nothing(rt: HostRuntime) {
    let mut sink = StdSink::new(Halted {
        count: 0,
        failing: 2,
        idle: 4,
    });
    writes(&rt, &mut sink, b"abc", Ok(2), 0);
    writes(&rt, &mut sink, b"c", Err(Failed), 1);
    writes(&rt, &mut sink, b"c", Ok(1), 1);
    writes(&rt, &mut sink, b"d", Err(Failed), 2);
    writes(&rt, &mut sink, b"", Ok(0), 2);
    writes(&rt, &mut sink, b"d", Ok(1), 2);
}
