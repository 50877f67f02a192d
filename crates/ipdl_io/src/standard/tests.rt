//! Tests of the sources and sinks over the readers and writers of std.

use super::*;
use std::io::{self, ErrorKind};
use std::test::Fail;

// A reader over a text whose first read fails where `errs` is set.
#[derive(Drop)]
struct Flaky<'a> {
    rest: &'a [u8],
    errs: bool,
}

impl Read for Flaky<'_> {
    fn read(&mut self, into: &mut [u8]) -> io::Result<usize> {
        if self.errs {
            self.errs = false;
            return Err(io::Error::from(ErrorKind::Interrupted));
        }
        self.rest.read(into)
    }
}

// A writer that takes a few bytes of a piece, or fails at the write or at the flush.
#[derive(Drop)]
struct Faulty {
    most: usize,
    write_errs: bool,
    flush_errs: bool,
}

impl Write for Faulty {
    fn write(&mut self, piece: &[u8]) -> io::Result<usize> {
        if self.write_errs {
            return Err(io::Error::from(ErrorKind::Other));
        }
        Ok(piece.len().min(self.most))
    }

    fn flush(&mut self) -> io::Result<()> {
        if self.flush_errs {
            return Err(io::Error::from(ErrorKind::Other));
        }
        Ok(())
    }
}

// One read of at most two bytes through the bound.
fn read<S: Source>(source: &mut S, into: &mut [u8; 2]) -> Got {
    source.read(into)
}

// One write of three bytes through the bound.
fn write<K: Sink>(sink: &mut K) -> Put {
    sink.write(b"xyz")
}

#[test]
fn source_gives_what_its_reader_gives(rt: HostRuntime) {
    let mut slice = StdSource::new(b"abc".as_slice());
    let mut into = [0; 2];
    for (answer, front) in [(Got::Bytes(2), "ab"), (Got::Bytes(1), "c"), (Got::End, "")] {
        assert_eq!(rt; read(&mut slice, &mut into), answer);
        assert!(rt; into.starts_with(front.as_bytes()));
    }
    assert_eq!(rt; slice.faults, 0);

    let mut flaky = StdSource::new(Flaky {
        rest: b"abc",
        errs: true,
    });
    for (answer, faults) in [(Got::Failed, 1), (Got::Bytes(2), 1), (Got::Bytes(1), 1)] {
        assert_eq!(rt; read(&mut flaky, &mut into), answer);
        assert_eq!(rt; flaky.faults, faults);
    }
}

#[test]
fn sink_takes_what_its_writer_takes(rt: HostRuntime) {
    let mut vector = StdSink::new(Vec::new(rt.alloc()));
    assert_eq!(rt; write(&mut vector), Put::Took(3));
    assert_eq!(rt; vector.writer.as_slice(), b"xyz".as_slice());
    assert_eq!(rt; vector.faults, 0);

    for (most, write_errs, flush_errs, answer, faults) in [
        (2, false, false, Put::Took(2), 0),
        (0, false, false, Put::Failed, 2),
        (2, true, false, Put::Failed, 2),
        (2, false, true, Put::Failed, 2),
    ] {
        let mut sink = StdSink::new(Faulty {
            most,
            write_errs,
            flush_errs,
        });
        assert_eq!(rt; write(&mut sink), answer);
        assert_eq!(rt; write(&mut sink), answer);
        assert_eq!(rt; sink.faults, faults);
    }
}
