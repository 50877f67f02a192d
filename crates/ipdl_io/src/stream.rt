//! What a source and a sink are.
ghost use Rattle.std.specs.Prelude.{ℕ, ◌<◌, ◌≤◌, List, length, Option};

/// What a read gave.
#[derive(Clone, Copy, Debug, PartialEq, Eq)]
pub enum Got {
    /// So many bytes, at least one, at the front of the buffer.
    Bytes(usize),
    /// No byte is left. What the buffer holds is open.
    End,
    /// The read failed, and may be tried again. What the buffer holds is open.
    Failed,
}

/// What a write took.
#[derive(Clone, Copy, Debug, PartialEq, Eq)]
pub enum Put {
    /// So many bytes, at least one, of the front of the piece.
    Took(usize),
    /// The write failed and took nothing, and may be tried again.
    Failed,
}

/// A source of bytes, with a count of its faults. The count never falls, and where it has come
/// to 2^64 - 1 it stays there.
pub trait Source {
    ghost use Rattle.ipdl_io.specs.Faults.{last_count};
    ghost use Rattle.ipdl_io.specs.Streams.{ReadGives};

    // The bytes that are not given yet, or `None` where the source does not tell them.
    ghost left: { Self → Option (List ℕ) };

    // The count of the reads that failed.
    ghost faults: { Self → ℕ };

    /// Reads the next bytes into the front of a buffer that has room for at least one.
    fn read(&mut self, into: &mut [u8]) -> Got
        requires { 0 < length into.old }
        ensures gives { ReadGives result (left self.old) (left self.new)
            (faults self.old) (faults self.new) into.new }
        ensures bounded { faults self.new ≤ last_count };
}

/// A sink of bytes, with a count of its faults. The count never falls, and where it has come to
/// 2^64 - 1 it stays there.
pub trait Sink {
    ghost use Rattle.ipdl_io.specs.Faults.{last_count};
    ghost use Rattle.ipdl_io.specs.Streams.{WriteTakes};

    // The bytes that were taken, or `None` where the sink does not tell them.
    ghost taken: { Self → Option (List ℕ) };

    // The count of the writes that failed.
    ghost faults: { Self → ℕ };

    /// Writes the front of a piece that has at least one byte.
    fn write(&mut self, piece: &[u8]) -> Put
        requires { 0 < length piece.now }
        ensures takes { WriteTakes result (taken self.old) (taken self.new)
            (faults self.old) (faults self.new) piece.now }
        ensures bounded { faults self.new ≤ last_count };
}
