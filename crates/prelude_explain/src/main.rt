//! The program `prelude_explain`: what `prelude` wrote on its `err` comes on standard input, and its explanation goes to
//! standard output. It stands on `prl_explain` alone.
#![tactic(auto)]

use prl_explain::explain;
use prl_io::{HostFiles, HostSink, status_of, words_of};
use std::io;
use std::io::Read;
use std::process::ExitCode;

/// The most bytes of standard input that are read: more than a line has.
const MAX_LINE: u64 = 4096;

/// The status where standard input cannot be read.
const NO_INPUT: u8 = 3;

fn line(rt: &HostRuntime) -> io::Result<Vec<u8>> {
    let mut bytes = Vec::new(rt.alloc());
    rt.stdin().take(MAX_LINE).read_to_end(&mut bytes)?;
    Ok(bytes)
}

/// Standard input, which is not looked at where the words ask for what the options mean.
fn input(rt: &HostRuntime, words: &[String]) -> io::Result<Vec<u8>> {
    match words {
        [_, word] if word.as_bytes() == b"--help".as_slice() => Ok(Vec::new(rt.alloc())),
        _ => line(rt),
    }
}

fn main(rt: HostRuntime) -> ExitCode {
    let words = match words_of(&rt) {
        Ok(words) => words,
        Err(status) => return ExitCode::from(status),
    };
    let line = match input(&rt, &words) {
        Ok(line) => line,
        Err(error) => return ExitCode::from(status_of(&error, NO_INPUT)),
    };
    let mut files = HostFiles::new(&rt);
    let mut out = HostSink::new(rt.stdout());
    let mut err = HostSink::new(rt.stderr());
    ExitCode::from(explain(rt.alloc(), &words, &line, &mut files, &mut out, &mut err))
}
