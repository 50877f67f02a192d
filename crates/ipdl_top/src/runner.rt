//! The run of a request: the source is read to its end, and the reply is written to the sink.

ghost use Rattle.std.specs.Prelude.{◌≡◌, ◌≢◌, ◌≤◌, ◌⊎◌, Some, List, ℕ, map, string_bytes};
ghost use Rattle.std.specs.Io.KnownBytes.{IsAtEnd};
ghost use Rattle.ipdl_io.specs.Faults.{MayHaveRisen, HasRisen, DidNotRise};
ghost use Rattle.ipdl_tree.specs.Trees.{Located};
ghost use Rattle.ipdl_forms.specs.Documents.{Document};
ghost use Rattle.ipdl_top.specs.Replies.{usage_reply, fault_reply};
ghost use Rattle.ipdl_top.specs.Requests.{Request, AskFor, AreOfNoForm, ReadsNothing};
ghost use Rattle.ipdl_top.specs.Runs.{IsVerdict, IsOfWholeSource, IsFinished, IsReplied, IsRepliedFront, IsAnswered, IsAccepted, IsChecked};
ghost use Rattle.ipdl_top.specs.Meanings.{HasEqualSidesIfExact, HasEqualSidesIfTrue, HasMeantNeighbours};
ghost use Rattle.ipdl_top.specs.Transfers.{GaveSome, GaveTooMany, Took, TookFront};

use crate::answering::reply_to;
use crate::request::request_in;
use crate::status::Status;
use crate::transfer::{ReadStop, read_all, write_all};
use ipdl_base::NoMemory;
use ipdl_io::{Sink, Source};
use std::alloc::Global;

// Writes the text, and gives the planned status, or that of a write that failed.
fn finish<K: Sink>(planned: Status, text: &[u8], sink: &mut K) -> Status
    ensures { IsFinished planned result (K.taken sink.old) (K.taken sink.new) (K.faults sink.old) (K.faults sink.new) text.now }
{
    if write_all(sink, text) {
        planned
    } else {
        Status::WriteFault
    }
}

/// Reads the source to its end, and writes the reply to the words and to its bytes.
///
/// The words are those after the program's name. `check`, `types` and `run NAME TAPE ORDER` are forms
/// of words: NAME is a name, TAPE a word of the digits 0 and 1, and ORDER a decimal number of 64
/// bits. At any other words nothing is read. The reply is formed whole before the first byte of it
/// is written. A source that fails is answered with the line `fault read`.
pub fn run<S: Source, K: Sink>(
    alloc: Global,
    words: &[String],
    source: &mut S,
    sink: &mut K,
) -> Status
    // Where no call fails, status and text are those of the reply to the words and all bytes.
    ensures replied { DidNotRise (S.faults source.old) (S.faults source.new) → DidNotRise (K.faults sink.old) (K.faults sink.new) →
        result ≢ Status.Memory → IsReplied (map string_bytes words.now) result (S.left source.old) (K.taken sink.old) (K.taken sink.new) }

    // No status that words and bytes decide is answered without its cause.
    ensures verdict { IsVerdict result → IsReplied (map string_bytes words.now) result (S.left source.old) (K.taken sink.old) (K.taken sink.new) }
    ensures usage_cause { result ≡ Status.Usage → AreOfNoForm (map string_bytes words.now) }
    ensures over_cause { result ≡ Status.OverLimit → GaveTooMany (S.left source.old) (S.left source.new) ⊎ IsAtEnd (S.left source.new) }
    ensures read_cause { result ≡ Status.ReadFault → MayHaveRisen (S.faults source.old) (S.faults source.new) }
    ensures write_cause { result ≡ Status.WriteFault → MayHaveRisen (K.faults sink.old) (K.faults sink.new) }

    // What is accepted is a document with a text that answers the request, and that text was
    // written; and each such document is accepted.
    ensures accepted { result ≡ Status.Accepted →
        IsAccepted (map string_bytes words.now) (S.left source.old) (K.taken sink.old) (K.taken sink.new) }
    ensures complete { (request : Request) (bytes : List ℕ) (t : Located) (d : Document) (text : List ℕ) → IsAnswered request bytes t d text →
        AskFor (map string_bytes words.now) request → S.left source.old ≡ Some bytes →
        DidNotRise (S.faults source.old) (S.faults source.new) → DidNotRise (K.faults sink.old) (K.faults sink.new) →
        result ≢ Status.Memory → (result ≡ Status.Accepted) × Took (K.taken sink.old) (K.taken sink.new) text }

    // What `check` accepts is true, under every interpretation of the symbols and in every closing
    // context. Each two neighbours of each chain, by a rule or by a theorem, are equal at the
    // interface of the theorem's left protocol; those by an assumption are the printed context around
    // its two sides, in the printed names and direction.
    ensures neighbours_mean { result ≡ Status.Accepted →
        IsChecked HasMeantNeighbours (map string_bytes words.now) (S.left source.old) (K.taken sink.old) (K.taken sink.new) }
    // The two protocols of a theorem that counts no assumption are equal.
    ensures exact_sides_are_equal { result ≡ Status.Accepted →
        IsChecked HasEqualSidesIfExact (map string_bytes words.now) (S.left source.old) (K.taken sink.old) (K.taken sink.new) }
    // And where the two sides of each assumption that it counts are equal, so are its two protocols.
    ensures sides_are_equal { result ≡ Status.Accepted →
        IsChecked HasEqualSidesIfTrue (map string_bytes words.now) (S.left source.old) (K.taken sink.old) (K.taken sink.new) }

    // At words of no form no memory is wanted, and nothing is read.
    ensures usage { AreOfNoForm (map string_bytes words.now) → IsFinished Status.Usage result (K.taken sink.old) (K.taken sink.new)
        (K.faults sink.old) (K.faults sink.new) usage_reply.text }
    ensures unread { ReadsNothing (map string_bytes words.now) → S.left source.new ≡ S.left source.old }
    ensures unread_faults { ReadsNothing (map string_bytes words.now) → S.faults source.new ≡ S.faults source.old }

    // What follows from a fault.
    ensures read_rose { HasRisen (S.faults source.old) (S.faults source.new) → DidNotRise (K.faults sink.old) (K.faults sink.new) → result ≡ Status.ReadFault }
    ensures read_rose_text { HasRisen (S.faults source.old) (S.faults source.new) → DidNotRise (K.faults sink.old) (K.faults sink.new) →
        Took (K.taken sink.old) (K.taken sink.new) fault_reply.text }
    ensures write_rose { HasRisen (K.faults sink.old) (K.faults sink.new) → result ≡ Status.WriteFault }
    ensures write_rose_text { DidNotRise (S.faults source.old) (S.faults source.new) → HasRisen (K.faults sink.old) (K.faults sink.new) →
        IsRepliedFront (map string_bytes words.now) (S.left source.old) (K.taken sink.old) (K.taken sink.new) }
    ensures both_rose_text { HasRisen (S.faults source.old) (S.faults source.new) → TookFront (K.taken sink.old) (K.taken sink.new) fault_reply.text }

    // What stands after every answer.
    ensures read_to_end { IsOfWholeSource (map string_bytes words.now) result → IsAtEnd (S.left source.new) }
    ensures memory_taken { result ≡ Status.Memory → K.taken sink.new ≡ K.taken sink.old }
    ensures memory_faults { result ≡ Status.Memory → K.faults sink.new ≡ K.faults sink.old }
    ensures source_faults { S.faults source.old ≤ S.faults source.new }
    ensures sink_faults { K.faults sink.old ≤ K.faults sink.new }
    ensures gave { GaveSome (S.left source.old) (S.left source.new) }
    ensures took { (text : List ℕ) × TookFront (K.taken sink.old) (K.taken sink.new) text }
{
    let request = match request_in(alloc, words) {
        Ok(Some(request)) => request,
        Ok(None) => return finish(Status::Usage, b"usage\n", sink),
        Err(NoMemory) => return Status::Memory,
    };
    let bytes = match read_all(alloc, source) {
        Ok(bytes) => bytes,
        Err(ReadStop::Fault) => return finish(Status::ReadFault, b"fault read\n", sink),
        Err(ReadStop::TooMany) => {
            return finish(
                Status::OverLimit,
                b"limit Source 1048576 at byte 1048576\n",
                sink,
            );
        }
        Err(ReadStop::Memory) => return Status::Memory,
    };
    match reply_to(alloc, &request, bytes.as_slice()) {
        Ok(answer) => finish(answer.status, answer.text.as_slice(), sink),
        Err(NoMemory) => Status::Memory,
    }
}
