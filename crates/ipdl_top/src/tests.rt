//! Runs over sources and sinks in memory: that the answers come where memory is there.

use crate::{Status, run};
use ipdl_io::{MemSink, MemSource};
use std::alloc::Global;
use std::test::Fail;

// The first document, whose protocols are one up to an exchange of the parts.
const EXCHANGE: &str =
    "(ipdl 1 (protocol A (inputs) (outputs (a 1) (b 1)) (par (out a (ret #0)) (out b (ret #1)))) (protocol B (inputs) (outputs (a 1) (b 1)) (par (out b (ret #1)) (out a (ret #0)))) (theorem t A B (left (comm ())) (right)))";

// What is written for it.
const CHAIN: &str =
    "theorem t A B\n0 (par (out a (ret #0)) (out b (ret #1)))\nby rule lr comm ()\n1 (par (out b (ret #1)) (out a (ret #0)))\nexact 1 assumed 0\naccepted theorems 1 neighbours 1\n";

// How a source and a sink over memory behave: their pieces, the sink's room, and the calls that fail.
#[derive(Clone, Copy)]
struct Ends {
    read_piece: usize,
    read_fails: u32,
    write_piece: usize,
    write_fails: u32,
    room: usize,
}

// No call fails: no test makes so many calls.
const NEVER: u32 = 1_000_000;

const CALM: Ends = Ends {
    read_piece: 4096,
    read_fails: NEVER,
    write_piece: 1_000_000,
    write_fails: NEVER,
    room: 17_000_000,
};

// Runs the words, which commas part, over the bytes: the status, and the sink.
fn outcome(
    alloc: Global,
    words: &str,
    bytes: &[u8],
    ends: Ends,
) -> Result<(Status, MemSink), Fail> {
    let mut owned = Vec::new(alloc);
    if !words.is_empty() {
        for word in words.split(',') {
            owned.push(String::from_str(alloc, word)?)?;
        }
    }
    let mut source = MemSource::new(
        bytes.to_vec(alloc)?,
        ends.read_piece.max(1),
        vec![in alloc; ends.read_fails]?,
    );
    let mut sink = MemSink::new(
        alloc,
        ends.room,
        ends.write_piece.max(1),
        vec![in alloc; ends.write_fails]?,
    )
    .map_err(|_| "no memory")?;
    let status = run(alloc, owned.as_slice(), &mut source, &mut sink);
    Ok((status, sink))
}

// One row for each command, each kind of refusal and words of no form. The table of `ipdl_rows` has the others.
#[test]
fn answers_documents(rt: HostRuntime) -> Result<(), Fail> {
    for (words, text, status, reply) in [
        ("check", EXCHANGE, Status::Accepted, CHAIN),
        ("types", "(ipdl 1)", Status::Accepted, "typed items 0\n"),
        ("check", "(ipdl 2)", Status::BadSource, "form 6 NotAForm\n"),
        (
            "check",
            "(ipdl 1 (protocol A (inputs) (outputs (c 1)) (out c (ret #0))) (theorem t A A (left (comm ())) (right)))",
            Status::WrongStep,
            "wrong t left 1 comm NoMatch\n",
        ),
        (
            "check",
            "(ipdl 1 (protocol A (inputs) (outputs) (nil)) (theorem t A A (left) (right (rev (unit ()) (par (out c (ret x0)) (nil))))))",
            Status::WrongStep,
            "wrong t right 1 rev unit NoVariable 0\n",
        ),
        ("", EXCHANGE, Status::Usage, "usage\n"),
        ("check,x", EXCHANGE, Status::Usage, "usage\n"),
    ] {
        let (answer, sink) = outcome(rt.alloc(), words, text.as_bytes(), CALM)?;
        assert_eq!(rt; answer, status, "{text}");
        assert_eq!(rt; sink.taken(), reply.as_bytes());
    }
    Ok(())
}

#[test]
fn answers_whatever_the_ends_do(rt: HostRuntime) -> Result<(), Fail> {
    for (read_piece, read_fails, write_piece, write_fails, room, status, taken) in [
        (1, NEVER, 4096, NEVER, 4096, Status::Accepted, CHAIN),
        (7, NEVER, 1, NEVER, 4096, Status::Accepted, CHAIN),
        (7, 1, 4096, NEVER, 4096, Status::ReadFault, "fault read\n"),
        (7, 1, 4, 1, 4096, Status::WriteFault, "faul"),
        (4096, NEVER, 4, 0, 4096, Status::WriteFault, ""),
        (4096, NEVER, 4, 1, 4096, Status::WriteFault, "theo"),
        (4096, NEVER, 4, NEVER, 7, Status::WriteFault, "theorem"),
    ] {
        let ends = Ends {
            read_piece,
            read_fails,
            write_piece,
            write_fails,
            room,
        };
        let (answer, sink) = outcome(rt.alloc(), "check", EXCHANGE.as_bytes(), ends)?;
        assert_eq!(rt; answer, status);
        assert_eq!(rt; sink.taken(), taken.as_bytes());
    }
    Ok(())
}

fn push_repeated(text: &mut String, piece: &str, count: u32) -> Result<(), Fail> {
    for _ in 0..count {
        text.push_str(piece)?;
    }
    Ok(())
}

// A chain has 60 bytes around its two terms, with their numbers, where the theorem's name has four.
// A term has 7 beside its two parts. The first has 35 and 204 times 160, the second 56. So a chain
// has 65,536 bytes, and 256 chains have 16,777,216.
#[test]
fn counts_the_bytes_of_the_chains(rt: HostRuntime) -> Result<(), Fail> {
    let piece =
        " (new ((h 128)) (out h (ret #00000000000000000000000000000000000000000000000000000000000000000000000000000000000000000000000000000000000000000000000000000000)))";
    let second = "(out d (ret #00000000000000000000000000000000000000000))";
    let mut first = String::from_str(rt.alloc(), "(new ((g 0)) (par (out g (ret #))")?;
    push_repeated(&mut first, piece, 204)?;
    first.push_str("))")?;
    let first = first.as_str();
    for (theorems, status, taken) in [
        (256, Status::Accepted, 16_777_216 + 37),
        (257, Status::OverLimit, 38),
    ] {
        let mut text = String::from_str(rt.alloc(), "(ipdl 1")?;
        write!(
            text,
            " (protocol A (inputs) (outputs (d 41)) (par {first} {second}))"
        )?;
        write!(
            text,
            " (protocol B (inputs) (outputs (d 41)) (par {second} {first}))"
        )?;
        for number in 100..100 + theorems {
            write!(text, " (theorem t{number} A B (left (comm ())) (right))")?;
        }
        text.push_str(")")?;
        let (answer, sink) = outcome(rt.alloc(), "check", text.as_str().as_bytes(), CALM)?;
        assert_eq!(rt; answer, status);
        assert_eq!(rt; sink.taken().len(), taken);
    }
    Ok(())
}

// Four theorems of 2,048 steps each have as many neighbours as there may be, and a fifth one more.
#[test]
fn counts_the_neighbours_of_the_chains(rt: HostRuntime) -> Result<(), Fail> {
    let mut steps = String::new(rt.alloc());
    push_repeated(&mut steps, " (comm ())", 2048)?;
    let steps = steps.as_str();
    for (last, status, reply) in [
        (
            "",
            Status::Accepted,
            "accepted theorems 4 neighbours 8192\n",
        ),
        (
            " (theorem u A A (left) (right (comm ())))",
            Status::OverLimit,
            "limit Chain 8192 at theorem u right 1\n",
        ),
    ] {
        let mut text = String::from_str(
            rt.alloc(),
            "(ipdl 1 (protocol A (inputs) (outputs) (par (nil) (nil)))",
        )?;
        for number in 0..4 {
            write!(text, " (theorem t{number} A A (left{steps}) (right))")?;
        }
        write!(text, "{last})")?;
        let (answer, sink) = outcome(rt.alloc(), "check", text.as_str().as_bytes(), CALM)?;
        assert_eq!(rt; answer, status);
        assert!(rt; sink.taken().ends_with(reply.as_bytes()));
    }
    Ok(())
}
