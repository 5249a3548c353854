//! The program `pooma`: the words of the command line, standard input and standard output.
//!
//! It ends with the number of the status. Where the runtime refuses the words themselves it ends with 6 for want of
//! memory, and else with 7, which is the number of no status.
#![tactic(auto)]

use pooma_io::{ReadSource, WriteSink};
use pooma_top::{NoGate, Status, top};
use std::env;
use std::io::{self, ErrorKind};
use std::process::ExitCode;
use std::rt::Env;

/// The words of the command line are no text.
const WORDS_REFUSED: u8 = 7;

fn main(rt: HostRuntime) -> ExitCode {
    let words = match words(&rt) {
        Ok(words) => words,
        Err(e) if e.kind() == ErrorKind::OutOfMemory => {
            return ExitCode::from(Status::OutOfMemory.number());
        }
        Err(_) => return ExitCode::from(WORDS_REFUSED),
    };
    let mut source = ReadSource::new(rt.reader());
    let mut sink = WriteSink::new(io::writer(&rt));
    let status = top(&rt, rt.alloc(), &words, &mut source, &mut sink, &NoGate);
    ExitCode::from(status.number())
}

/// The words after the program's name.
fn words<R: Env + AllocGlobal>(rt: &R) -> io::Result<Vec<String>> {
    Ok(env::args(rt)?.skip(1).collect(rt.alloc())?)
}
