//! The program `prelude_plot`: it draws rows of sensors and actuators and writes the plots to standard output. It stands on
//! `prl_plot` alone.
#![tactic(auto)]

use prl_io::{HostFiles, HostSink, words_of};
use prl_plot::plot;
use std::process::ExitCode;

fn main(rt: HostRuntime) -> ExitCode {
    let words = match words_of(&rt) {
        Ok(words) => words,
        Err(status) => return ExitCode::from(status),
    };
    let mut files = HostFiles::new(&rt);
    let mut out = HostSink::new(rt.stdout());
    let mut err = HostSink::new(rt.stderr());
    ExitCode::from(plot(rt.alloc(), &words, &mut files, &mut out, &mut err))
}
