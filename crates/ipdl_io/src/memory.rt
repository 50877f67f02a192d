//! A source and a sink in memory, whose failures are planned.
ghost use Rattle.std.specs.Prelude.{◌≡◌, ◌<◌, ◌≤◌, [], Some, length, IfOk};
ghost use Rattle.ipdl_io.specs.Faults.{last_count};
ghost use Rattle.ipdl_io.specs.Memory.{fails_at, read_answer, after_read, write_answer, after_write};
ghost use Rattle.ipdl_io.specs.Streams.{ReadGives, WriteTakes};

use crate::{Got, Put, Sink, Source};
use ipdl_base::NoMemory;
use std::alloc::Global;
use std::marker::Model;

// Whether the call of this number is one of those that fail.
fn fails_at(fails: &[u32], call: u64) -> bool
    ensures { result ≡ fails_at fails.now call }
{
    fails.iter().any(|number| u64::from(*number) == call)
}

/// A source over bytes in memory. Its calls of the listed numbers, counted from 0, fail; each
/// other call gives as many bytes as the piece, the buffer and the rest allow.
#[derive(Drop)]
pub struct MemSource {
    bytes: Vec<u8>,
    given: usize,
    piece: usize,
    fails: Vec<u32>,
    calls: u64,
    faults: u64,
}

impl Model for MemSource {
    ghost use Rattle.std.specs.Prelude.{◌<◌, ◌≤◌, drop, length};
    ghost use Rattle.ipdl_io.specs.Memory.{SourceState};

    ghost Value = { SourceState };

    ghost view = { λ s. record {
      left = drop s.given s.bytes.items;
      piece = s.piece;
      fails = s.fails.items;
      calls = s.calls;
      faults = s.faults;
    } };

    ghost invariant = { λ s. (s.given ≤ length s.bytes.items) × (0 < s.piece) };
}

impl MemSource {
    /// A source that gives these bytes, at most `piece` of them in one call, and fails at the
    /// calls whose numbers `fails` lists. It has had no call yet.
    pub fn new(bytes: Vec<u8>, piece: usize, fails: Vec<u32>) -> MemSource
        requires { 0 < piece }
        ensures { result ≡ record {
          left = bytes.items;
          piece = piece;
          fails = fails.items;
          calls = 0;
          faults = 0;
        } }
    {
        MemSource {
            bytes,
            given: 0,
            piece,
            fails,
            calls: 0,
            faults: 0,
        }
    }
}

impl Source for MemSource {
    ghost left = { λ source. Some source.left };

    ghost faults = { λ source. source.faults };

    /// Takes no memory.
    fn read(&mut self, into: &mut [u8]) -> Got
        requires { 0 < length into.old }
        ensures gives { ReadGives result (Some self.old.left) (Some self.new.left)
            self.old.faults self.new.faults into.new }
        ensures bounded { self.new.faults ≤ last_count }

        // The answer, and the source after it.
        ensures exact { result ≡ read_answer self.old (length into.old) }
        ensures after { self.new ≡ after_read self.old (length into.old) }
    {
        let call = self.calls;
        self.calls = call.saturating_add(1);
        if fails_at(self.fails.as_slice(), call) {
            self.faults = self.faults.saturating_add(1);
            return Got::Failed;
        }
        let rest = &self.bytes[self.given..];
        if rest.is_empty() {
            return Got::End;
        }
        let count = self.piece.min(into.len()).min(rest.len());
        into[..count].copy_from_slice(&rest[..count]);
        self.given += count;
        Got::Bytes(count)
    }
}

/// A sink into memory. Its calls of the listed numbers, counted from 0, fail, and so does each
/// call where no room is left; each other call takes as many bytes as the piece, the argument and
/// the room allow.
#[derive(Drop)]
pub struct MemSink {
    taken: Vec<u8>,
    room: usize,
    piece: usize,
    fails: Vec<u32>,
    calls: u64,
    faults: u64,
}

impl Model for MemSink {
    ghost use Rattle.std.specs.Prelude.{◌<◌, ◌≤◌, vec_len, vec_capacity};
    ghost use Rattle.ipdl_io.specs.Memory.{SinkState};

    ghost Value = { SinkState };

    ghost view = { λ s. record {
      taken = s.taken.items;
      room = s.room;
      piece = s.piece;
      fails = s.fails.items;
      calls = s.calls;
      faults = s.faults;
    } };

    ghost invariant = { λ s.
        (vec_len s.taken ≤ s.room) × (s.room ≤ vec_capacity s.taken) × (0 < s.piece) };
}

impl MemSink {
    /// A sink that takes `room` bytes in all, at most `piece` of them in one call, and fails at
    /// the calls whose numbers `fails` lists. It has had no call yet. All its memory is taken here.
    pub fn new(
        alloc: Global,
        room: usize,
        piece: usize,
        fails: Vec<u32>,
    ) -> Result<MemSink, NoMemory>
        requires { 0 < piece }
        ensures { IfOk result (λ sink. sink ≡ record {
          taken = [];
          room = room;
          piece = piece;
          fails = fails.items;
          calls = 0;
          faults = 0;
        }) }
    {
        Ok(MemSink {
            taken: Vec::with_capacity(alloc, room)?,
            room,
            piece,
            fails,
            calls: 0,
            faults: 0,
        })
    }

    /// The bytes that were taken so far.
    pub fn taken(&self) -> &[u8]
        ensures { result.now ≡ self.now.taken }
    {
        self.taken.as_slice()
    }
}

impl Sink for MemSink {
    ghost taken = { λ sink. Some sink.taken };

    ghost faults = { λ sink. sink.faults };

    /// Takes no memory.
    fn write(&mut self, piece: &[u8]) -> Put
        requires { 0 < length piece.now }
        ensures takes { WriteTakes result (Some self.old.taken) (Some self.new.taken)
            self.old.faults self.new.faults piece.now }
        ensures bounded { self.new.faults ≤ last_count }

        // The answer, and the sink after it.
        ensures exact { result ≡ write_answer self.old (length piece.now) }
        ensures after { self.new ≡ after_write self.old piece.now }
    {
        let call = self.calls;
        self.calls = call.saturating_add(1);
        let left = self.room - self.taken.len();
        if fails_at(self.fails.as_slice(), call) || left == 0 {
            self.faults = self.faults.saturating_add(1);
            return Put::Failed;
        }
        let count = self.piece.min(piece.len()).min(left);
        self.taken.extend_from_slice(&piece[..count]).unwrap();
        Put::Took(count)
    }
}

#[cfg(test)]
mod tests;
