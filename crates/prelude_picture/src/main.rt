//! The program `prelude_picture`: it draws the plan of a file and writes the picture to standard output. It stands on
//! `prl_picture` alone.
#![tactic(auto)]

use prl_io::{HostFiles, HostSink, words_of};
use prl_picture::draw;
use std::process::ExitCode;

fn main(rt: HostRuntime) -> ExitCode {
    let words = match words_of(&rt) {
        Ok(words) => words,
        Err(status) => return ExitCode::from(status),
    };
    let mut files = HostFiles::new(&rt);
    let mut out = HostSink::new(rt.stdout());
    let mut err = HostSink::new(rt.stderr());
    ExitCode::from(draw(rt.alloc(), &words, &mut files, &mut out, &mut err))
}
