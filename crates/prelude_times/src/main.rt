//! The program `prelude_times`: it tells how old the values of sensors are where the actuators of a plan use them, and what else a
//! plan says of time. It stands on `prl_times` alone.
#![tactic(auto)]

use prl_io::{HostFiles, HostSink, words_of};
use prl_times::tell;
use std::process::ExitCode;

fn main(rt: HostRuntime) -> ExitCode {
    let words = match words_of(&rt) {
        Ok(words) => words,
        Err(status) => return ExitCode::from(status),
    };
    let mut files = HostFiles::new(&rt);
    let mut out = HostSink::new(rt.stdout());
    let mut err = HostSink::new(rt.stderr());
    ExitCode::from(tell(rt.alloc(), &words, &mut files, &mut out, &mut err))
}
