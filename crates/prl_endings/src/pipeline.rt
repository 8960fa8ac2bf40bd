//! The modes of the command, each as the text or the run that its stages give.

ghost use Rattle.std.specs.Prelude.{◌≡◌, ◌<◌, ◌≤◌, ◌^◌, IfOk, IfErr, length};
ghost use Rattle.prl_arguments.specs.Arguments.{AreInRange};
ghost use Rattle.prl_calls.specs.Stops.{given_of, AsksFor, Passes};
ghost use Rattle.prl_stages.specs.Vocabulary.{IsMeant, stages_after, IsText};
ghost use Rattle.prl_endings.specs.Answers.{AsksBy, IsAnswer, IsAnswerOf, IsAnswerStop, files_of};
ghost use Rattle.prl_endings.specs.code.Modes.{HasFiles, KeepsTexts};

use crate::generated::generated_text;
use prl_arguments::{Command, Mode};
use prl_calls::{Request, read_request};
use prl_executions::{
    Outcome, accepted_text, cores_text, cycle_text, edf_text, flows_text, made_text, planned_text,
    print_text, replayed_text, run_outcome, run_text, scheduled_text,
};
use prl_io::{Files, Probe};
use prl_stages::{MAX_BODIES, MAX_PROGRAM, Ran, Stop};
use std::alloc::Global;
use std::sync::Wait;
use std::thread::Threads;

/// The text of a mode that runs nothing and keeps the texts of its files to its end.
fn kept_text(alloc: Global, mode: Mode, request: &Request) -> Result<Vec<u8>, Stop>
    requires mode { KeepsTexts mode }
    requires program { length request.now.texts.program.items ≤ MAX_PROGRAM }
    requires bodies { length request.now.texts.bodies.items ≤ MAX_BODIES }
    ensures { Passes (given_of request.now) (stages_after mode request.now.named) (λ text. IsText (given_of request.now) mode text.items) result }
{
    match mode {
        Mode::Print => print_text(alloc, request),
        Mode::Plan => planned_text(alloc, request),
        Mode::Check => accepted_text(alloc, request),
        Mode::Schedule => scheduled_text(alloc, request),
        Mode::Replay => replayed_text(alloc, request),
        Mode::Edf => edf_text(alloc, request),
        Mode::Cores => cores_text(alloc, request),
        Mode::Table => made_text(alloc, request),
        Mode::Run | Mode::Cycle => unreachable!(),
        Mode::Flows | Mode::Generate => unreachable!(),
    }
}

/// The text that a command with files means, with what it has run, by one thread.
fn requested(alloc: Global, command: &Command, request: Request) -> Result<(Vec<u8>, Ran), Stop>
    requires mode { HasFiles command.now.mode }
    requires program { length request.texts.program.items ≤ MAX_PROGRAM }
    requires bodies { length request.texts.bodies.items ≤ MAX_BODIES }
    requires until { request.until < 2 ^ 31 }
    ensures { Passes (given_of request) (stages_after command.now.mode request.named) (λ made. IsMeant (given_of request) command.now made.0.items made.1) result }
{
    match command.mode {
        Mode::Run => run_text(alloc, &request, command.clock),
        Mode::Cycle => cycle_text(alloc, &request),
        Mode::Flows => Ok((flows_text(alloc, request)?, Ran::Not)),
        mode => Ok((kept_text(alloc, mode, &request)?, Ran::Not)),
    }
}

/// The text that the command asks for: its files are read, or its texts are generated, and its stages give the text, with
/// what it has run on the way, by one thread.
pub fn answer<F: Files>(
    alloc: Global,
    files: &mut F,
    command: &Command,
) -> Result<(Vec<u8>, Ran), Stop>
    requires { AreInRange command.now.mode command.now.until command.now.workers command.now.size }
    ensures text { IfOk result (λ made. IsAnswer (F.seen files.old).folder command.now made.0.items made.1) }
    ensures stop { IfErr result (IsAnswerStop (F.seen files.old) (F.seen files.new) command.now) }
    ensures failed { IfOk result (λ _. (F.seen files.new).failed ≡ (F.seen files.old).failed) }
    ensures kept { (F.seen files.new).folder ≡ (F.seen files.old).folder }
    ensures asked { IfOk result (λ _. AsksFor (F.seen files.old) (F.seen files.new) command.now (files_of command.now.mode)) }
    ensures asks { IfErr result (AsksBy command.now.mode (F.seen files.old) (F.seen files.new) command.now) }
{
    if command.mode == Mode::Generate {
        return generated_text(alloc, command);
    }
    let request = read_request(alloc, files, command)?;
    requested(alloc, command, request)
}

/// What a command of mode `run` with several workers comes to: its files are read, and its stages give what is run. It may
/// wait.
pub fn answer_threads<R: Threads + Wait + Sync, F: Files, P: Probe>(
    rt: &R,
    alloc: Global,
    files: &mut F,
    command: &Command,
    probe: &P,
) -> Result<Outcome, Stop>
    requires mode { command.now.mode ≡ Mode.Run }
    requires range { AreInRange command.now.mode command.now.until command.now.workers command.now.size }
    ensures outcome { IfOk result (IsAnswerOf (F.seen files.old).folder command.now) }
    ensures stop { IfErr result (IsAnswerStop (F.seen files.old) (F.seen files.new) command.now) }
    ensures failed { IfOk result (λ _. (F.seen files.new).failed ≡ (F.seen files.old).failed) }
    ensures kept { (F.seen files.new).folder ≡ (F.seen files.old).folder }
    ensures asked { IfOk result (λ _. AsksFor (F.seen files.old) (F.seen files.new) command.now (files_of command.now.mode)) }
    ensures asks { IfErr result (AsksBy command.now.mode (F.seen files.old) (F.seen files.new) command.now) }
{
    let request = read_request(alloc, files, command)?;
    run_outcome(rt, alloc, &request, command.clock, command.workers, probe)
}
