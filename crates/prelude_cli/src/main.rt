//! The program `prelude`: the command on the files and the standard streams of the process. It stands on
//! `prl_app` alone; what it trusts of the outside is said in `prl_io`.
#![tactic(auto)]

use prl_app::prelude;
use prl_io::{HostFiles, HostSink, NoProbe, words_of};
use std::process::ExitCode;
use std::sync::Wait;
use std::thread::Threads;

/// Does what the words ask for, on the files and the streams of the process: the status. It may wait for its threads.
fn run<R: Threads + Wait + Sync>(threads: &R, rt: &HostRuntime, words: &[String]) -> u8 {
    let mut files = HostFiles::new(rt);
    let mut out = HostSink::new(rt.stdout());
    let mut err = HostSink::new(rt.stderr());
    let status = prelude(
        threads,
        rt.alloc(),
        words,
        &mut files,
        &mut out,
        &mut err,
        &NoProbe,
    );
    status.code
}

fn main(rt: HostRuntime) -> ExitCode {
    match words_of(&rt) {
        Ok(words) => ExitCode::from(run(&rt, &rt, &words)),
        Err(status) => ExitCode::from(status),
    }
}
