//! The bytes of a source, read to its end, and those of a text, written whole.

ghost use Rattle.std.specs.Prelude.{◌≡◌, ◌≤◌, true, false, IfOk, IfErr};
ghost use Rattle.ipdl_io.specs.Faults.{MayHaveRisen};
ghost use Rattle.ipdl_top.specs.Transfers.{Took, TookFront};
ghost use Rattle.ipdl_top.specs.Stops.{IsReadWhole, IsReadStopped};

use ipdl_base::Limit;
use ipdl_io::{Got, Put, Sink, Source};
use std::alloc::Global;

// Why a source was not read to its end.
#[derive(Clone, Copy)]
pub(crate) enum ReadStop {
    // The source failed.
    Fault,
    // The source gave a byte more than the limit.
    TooMany,
    // Memory was refused.
    Memory,
}

// Reads the source to its end, and at most one byte past the limit.
pub(crate) fn read_all<S: Source>(alloc: Global, source: &mut S) -> Result<Vec<u8>, ReadStop>
    ensures whole { IfOk result (λ bytes. IsReadWhole bytes.items (S.left source.old) (S.left source.new) (S.faults source.old) (S.faults source.new)) }
    ensures stopped { IfErr result (λ stop. IsReadStopped stop (S.left source.old) (S.left source.new) (S.faults source.old) (S.faults source.new)) }
{
    let limit = Limit::Source.number() as usize;
    let mut bytes = Vec::new(alloc);
    let mut buffer = [0u8; 4096];
    loop {
        let room = buffer.len().min(limit - bytes.len() + 1);
        let piece = &mut buffer[..room];
        match source.read(piece) {
            Got::End => return Ok(bytes),
            Got::Failed => return Err(ReadStop::Fault),
            Got::Bytes(count) => {
                if count > limit - bytes.len() {
                    return Err(ReadStop::TooMany);
                }
                if bytes.extend_from_slice(&piece[..count]).is_err() {
                    return Err(ReadStop::Memory);
                }
            }
        }
    }
}

// Writes the whole text, or the front of it where a write fails: whether it was written whole.
pub(crate) fn write_all<K: Sink>(sink: &mut K, text: &[u8]) -> bool
    ensures whole { result ≡ true → Took (K.taken sink.old) (K.taken sink.new) text.now }
    ensures calm { result ≡ true → K.faults sink.new ≡ K.faults sink.old }
    ensures front { TookFront (K.taken sink.old) (K.taken sink.new) text.now }
    ensures never_falls { K.faults sink.old ≤ K.faults sink.new }
    ensures fault { result ≡ false → MayHaveRisen (K.faults sink.old) (K.faults sink.new) }
{
    let mut done = 0;
    while done < text.len() {
        match sink.write(&text[done..]) {
            Put::Took(count) => done += count,
            Put::Failed => return false,
        }
    }
    true
}
