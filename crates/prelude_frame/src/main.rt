//! The program `prelude_frame`: it tells the frame of a static cyclic table, which a target runs in each hyperperiod. It stands on
//! `prl_frame` alone.
#![tactic(auto)]

use prl_frame::tell_frame;
use prl_io::{HostFiles, HostSink, words_of};
use std::process::ExitCode;

fn main(rt: HostRuntime) -> ExitCode {
    let words = match words_of(&rt) {
        Ok(words) => words,
        Err(status) => return ExitCode::from(status),
    };
    let mut files = HostFiles::new(&rt);
    let mut out = HostSink::new(rt.stdout());
    let mut err = HostSink::new(rt.stderr());
    ExitCode::from(tell_frame(rt.alloc(), &words, &mut files, &mut out, &mut err))
}
