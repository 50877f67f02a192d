//! Answers each row of a table of documents, and tells the rows that are answered otherwise.
//!
//! A row is a line `WORDS|SOURCE|STATUS|ANSWER`. In its fields `\n`, `\t` and `\xHH` are the bytes
//! that they are in Rust, and `{N:TEXT}` is the text N times, in which `@` is the number of the
//! turn, counted from 0. An empty line and one that begins with `#` are no rows.
#![tactic(auto)]

use ipdl_io::{MemSink, MemSource};
use ipdl_top::run;
use std::alloc::{AllocError, Global};
use std::io;

// How many bytes the source gives, and the sink takes, at once.
const PIECE: usize = 65_536;

// The most bytes that an answer may have.
const ROOM: usize = 1_048_576;

// A row, with its fields as they are written.
#[derive(Clone, Copy)]
struct Row<'a> {
    words: &'a str,
    source: &'a str,
    status: &'a str,
    answer: &'a str,
}

// The row that a line is, if it is one.
fn row_of(line: &str) -> Option<Row<'_>> {
    let (words, rest) = line.split_once('|')?;
    let (source, rest) = rest.split_once('|')?;
    let (status, answer) = rest.split_once('|')?;
    Some(Row {
        words,
        source,
        status,
        answer,
    })
}

// Pushes the text, whose escapes stand for bytes.
fn push_escaped(bytes: &mut Vec<u8>, text: &str) -> Result<(), AllocError> {
    let mut pieces = text.split('\\');
    if let Some(first) = pieces.next() {
        bytes.extend_from_slice(first.as_bytes())?;
    }
    for piece in pieces {
        let (byte, rest) = if let Some(rest) = piece.strip_prefix('n') {
            (b'\n', rest)
        } else if let Some(rest) = piece.strip_prefix('t') {
            (b'\t', rest)
        } else {
            hexadecimal(piece)
        };
        bytes.push(byte)?;
        bytes.extend_from_slice(rest.as_bytes())?;
    }
    Ok(())
}

// The byte of `xHH` at the front of the piece, and what follows it.
fn hexadecimal(piece: &str) -> (u8, &str) {
    match (piece.get(1..3), piece.get(3..)) {
        (Some(digits), Some(rest)) => (u8::from_str_radix(digits, 16).unwrap_or(0), rest),
        _ => (0, piece),
    }
}

// Pushes the text, with the number of the turn for each `@`.
fn push_turn(bytes: &mut Vec<u8>, text: &str, turn: u32) -> Result<(), AllocError> {
    let mut pieces = text.split('@');
    if let Some(first) = pieces.next() {
        push_escaped(bytes, first)?;
    }
    for piece in pieces {
        push_decimal(bytes, turn)?;
        push_escaped(bytes, piece)?;
    }
    Ok(())
}

// Pushes the digits of the number.
fn push_decimal(bytes: &mut Vec<u8>, number: u32) -> Result<(), AllocError> {
    if number >= 10 {
        push_decimal(bytes, number / 10)?;
    }
    bytes.push(b'0' + (number % 10) as u8)?;
    Ok(())
}

// The bytes of a field.
fn bytes_of(alloc: Global, field: &str) -> Result<Vec<u8>, AllocError> {
    let mut bytes = Vec::new(alloc);
    let mut pieces = field.split('{');
    if let Some(first) = pieces.next() {
        push_escaped(&mut bytes, first)?;
    }
    for piece in pieces {
        let (repeated, rest) = piece.split_once('}').unwrap_or((piece, ""));
        let (count, text) = repeated.split_once(':').unwrap_or(("1", repeated));
        for turn in 0..count.parse::<u32>().unwrap_or(0) {
            push_turn(&mut bytes, text, turn)?;
        }
        push_escaped(&mut bytes, rest)?;
    }
    Ok(bytes)
}

// The status and the bytes that the program answers to the row's words and source.
fn answered(alloc: Global, row: Row<'_>) -> io::Result<(u8, Vec<u8>)> {
    let mut words = Vec::new(alloc);
    for word in row.words.split(' ') {
        words.push(String::from_str(alloc, word)?)?;
    }
    let mut source = MemSource::new(bytes_of(alloc, row.source)?, PIECE, Vec::new(alloc));
    let Ok(mut sink) = MemSink::new(alloc, ROOM, PIECE, Vec::new(alloc)) else {
        return Err(io::Error::from(io::ErrorKind::OutOfMemory));
    };
    let status = run(alloc, words.as_slice(), &mut source, &mut sink);
    Ok((status.number(), sink.taken().to_vec(alloc)?))
}

fn main(rt: HostRuntime) -> io::Result<()> {
    let alloc = rt.alloc();
    let table = io::read_to_string(alloc, rt.reader())?;
    let mut count = 0u64;
    for line in table
        .split('\n')
        .filter(|line| !line.is_empty() && !line.starts_with('#'))
    {
        let Some(row) = row_of(line) else {
            println!(rt; "this line is no row: {line}")?;
            continue;
        };
        let (status, answer) = answered(alloc, row)?;
        let wanted = bytes_of(alloc, row.answer)?;
        if row.status.parse::<u8>().ok() == Some(status) && answer.as_slice() == wanted.as_slice() {
            count = count.saturating_add(1);
        } else {
            let text = String::from_utf8_lossy(alloc, answer.as_slice())?;
            println!(rt; "answered with {status} and {text:?}: {line}")?;
        }
    }
    println!(rt; "{count} rows are answered as the table says")?;
    Ok(())
}
