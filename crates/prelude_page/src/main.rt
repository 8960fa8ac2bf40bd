//! The program `prelude_page`: it writes the page of a program, one file of HTML. It stands on `prl_page`
//! alone.
#![tactic(auto)]

use prl_io::{HostFiles, HostSink, words_of};
use prl_page::page;
use std::process::ExitCode;

fn main(rt: HostRuntime) -> ExitCode {
    let words = match words_of(&rt) {
        Ok(words) => words,
        Err(status) => return ExitCode::from(status),
    };
    let mut files = HostFiles::new(&rt);
    let mut out = HostSink::new(rt.stdout());
    let mut err = HostSink::new(rt.stderr());
    ExitCode::from(page(rt.alloc(), &words, &mut files, &mut out, &mut err))
}
