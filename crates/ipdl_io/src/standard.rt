//! The readers and writers of std as sources and sinks.
ghost use Rattle.std.specs.Prelude.{◌≡◌, ◌<◌, ◌≤◌, None, length, IfSome};
ghost use Rattle.ipdl_io.specs.Faults.{last_count};

use crate::{Got, Put, Sink, Source};
use std::io::{Read, Write};

/// Any reader of std as a source, which tells no bytes. A read of 0 bytes is the end, and each
/// error of the reader is one fault.
#[derive(Drop)]
pub struct StdSource<R> {
    reader: R,
    faults: u64,
    ghost bounded: { faults ≤ last_count },
}

impl<R: Read> StdSource<R> {
    /// A source over the reader, with no fault so far.
    pub fn new(reader: R) -> StdSource<R>
        ensures { ⟦<StdSource<R> as Source>⟧.faults result ≡ 0 }
    {
        StdSource { reader, faults: 0 }
    }
}

impl<R: Read> Source for StdSource<R> {
    ghost left = { λ _. None };

    ghost faults = { λ source. source.faults };

    fn read(&mut self, into: &mut [u8]) -> Got {
        match self.reader.read(into) {
            Ok(0) => Got::End,
            Ok(count) => Got::Bytes(count),
            Err(_) => {
                self.faults = self.faults.saturating_add(1);
                Got::Failed
            }
        }
    }
}

/// Any writer of std as a sink, which tells no bytes and is flushed after each write. An error of
/// the write or of the flush, and a write of 0 bytes, is one fault.
#[derive(Drop)]
pub struct StdSink<W> {
    writer: W,
    faults: u64,
    ghost bounded: { faults ≤ last_count },
}

impl<W: Write> StdSink<W> {
    /// A sink into the writer, with no fault so far.
    pub fn new(writer: W) -> StdSink<W>
        ensures { ⟦<StdSink<W> as Sink>⟧.faults result ≡ 0 }
    {
        StdSink { writer, faults: 0 }
    }
}

// How many bytes were written and flushed, or `None` where that failed.
fn write_flushed<W: Write>(writer: &mut W, piece: &[u8]) -> Option<usize>
    ensures { IfSome result (λ count. (0 < count) × (count ≤ length piece.now)) }
{
    match writer.write(piece) {
        Ok(count) if count > 0 && writer.flush().is_ok() => Some(count),
        _ => None,
    }
}

impl<W: Write> Sink for StdSink<W> {
    ghost taken = { λ _. None };

    ghost faults = { λ sink. sink.faults };

    fn write(&mut self, piece: &[u8]) -> Put {
        match write_flushed(&mut self.writer, piece) {
            Some(count) => Put::Took(count),
            None => {
                self.faults = self.faults.saturating_add(1);
                Put::Failed
            }
        }
    }
}

#[cfg(test)]
mod tests;
