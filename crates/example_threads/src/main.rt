//! An example: a run on threads of one's own. `example_threads run --program FILE ..` takes the words of `prelude run` and writes
//! the rows of each actuator, as `prelude run` does, but nothing of `prl_exec` runs the tasks: `polls.rt` serves the seats of a
//! board, as many at once as there are workers, `rounds.rt` lets its clock go on between, and `rows.rt` writes what the actuators got.
#![tactic(auto)]

mod polls;
mod rounds;
mod rows;

ghost use Rattle.std.specs.Prelude.{◌≤◌, length};

use kebrunza::commands::{
    Command, Ending, MAX_BODIES, MAX_PROGRAM, Mode, Ran, Request, Stop, WordsFault, make_ready,
    read_request, read_words, status_of, tell,
};
use kebrunza::outside::{Files, HostFiles, HostSink, words_of, write_all};
use rounds::closed_after;
use rows::text_of;
use std::alloc::Global;
use std::process::ExitCode;
use std::sync::Wait;
use std::thread::Threads;

/// The rows of the actuators after a run on so many threads.
fn text_after<R: Threads + Wait + Sync>(
    rt: &R,
    alloc: Global,
    request: &Request,
    workers: usize,
) -> Result<Vec<u8>, Stop>
    requires program { length request.now.texts.program.items ≤ MAX_PROGRAM }
    requires bodies { length request.now.texts.bodies.items ≤ MAX_BODIES }
{
    let ready = make_ready(alloc, request)?;
    let closed = closed_after(rt, alloc, &ready, workers)?;
    Ok(text_of(alloc, &ready.plan, &closed)?)
}

/// The rows that a command asks for.
fn answer<R: Threads + Wait + Sync, F: Files>(
    rt: &R,
    alloc: Global,
    files: &mut F,
    command: &Command,
) -> Result<Vec<u8>, Stop> {
    let request = read_request(alloc, files, command)?;
    text_after(rt, alloc, &request, command.workers as usize)
}

/// What the words ask for, where they are those of a run.
fn command_of(alloc: Global, words: &[String]) -> Result<Command, Ending> {
    match read_words(alloc, words) {
        Ok(command) => {
            if command.mode == Mode::Run {
                Ok(command)
            } else {
                drop(command);
                Err(Ending::Words)
            }
        }
        Err(WordsFault::Refused) => Err(Ending::Words),
        Err(WordsFault::Memory) => Err(Ending::Stopped(Stop::Memory)),
    }
}

/// Does what the words ask for: the status.
fn run<R: Threads + Wait + Sync>(threads: &R, rt: &HostRuntime, words: &[String]) -> u8 {
    let mut files = HostFiles::new(rt);
    let mut out = HostSink::new(rt.stdout());
    let mut err = HostSink::new(rt.stderr());
    let (command, ending) = match command_of(rt.alloc(), words) {
        Ok(command) => match answer(threads, rt.alloc(), &mut files, &command) {
            Ok(text) => match write_all(&mut out, &text) {
                Ok(()) => (Some(command), Ending::Done(Ran::Not)),
                Err(_) => (Some(command), Ending::Unwritten(Ran::Not)),
            },
            Err(stop) => (Some(command), Ending::Stopped(stop)),
        },
        Err(ending) => (None, ending),
    };
    tell(&mut err, &command, &ending);
    status_of(ending).code
}

fn main(rt: HostRuntime) -> ExitCode {
    match words_of(&rt) {
        Ok(words) => ExitCode::from(run(&rt, &rt, &words)),
        Err(status) => ExitCode::from(status),
    }
}
