//! The program: the one call of `ipdl_top` over standard input and standard output.
#![tactic(auto)]

use ipdl_io::{StdSink, StdSource};
use ipdl_top::run;
use std::env::Env;
use std::process::ExitCode;
use std::{env, io};

/// The exit status where memory for the words is refused.
const NO_MEMORY: u8 = 6;

/// The exit status where the system does not give the words for another cause.
const NO_WORDS: u8 = 8;

// The words after the program's name.
fn words<R: Env + AllocGlobal>(rt: &R) -> io::Result<Vec<String>> {
    let mut words = Vec::new(rt.alloc());
    for word in env::args(rt)?.skip(1) {
        words.push(word)?;
    }
    Ok(words)
}

fn main(rt: HostRuntime) -> ExitCode {
    match words(&rt) {
        Ok(words) => {
            let mut source = StdSource::new(rt.reader());
            let mut sink = StdSink::new(io::writer(&rt));
            let status = run(rt.alloc(), words.as_slice(), &mut source, &mut sink);
            ExitCode::from(status.number())
        }
        Err(error) if error.kind() == io::ErrorKind::OutOfMemory => ExitCode::from(NO_MEMORY),
        Err(_) => ExitCode::from(NO_WORDS),
    }
}
