//! The top calls: a command line, its files and its sinks, to a status.

ghost use Rattle.std.specs.Prelude.{map, IfNone, IfSome, Some, ◌≡◌, ◌≤◌};
ghost use Rattle.std.specs.Bool.{OnFalse, OnTrue};
ghost use Rattle.std.specs.String.{string_bytes};
ghost use Rattle.prl_arguments.specs.Arguments.{AreInRange, command_of};
ghost use Rattle.prl_endings.specs.ErrorLines.{line_of};
ghost use Rattle.prl_endings.specs.Statuses.{IsTold, ran_of, status_of};
ghost use Rattle.prl_app.specs.Endings.{Answers, AsksForThreads, HasRead, Outside, ReadsBy};
ghost use Rattle.prl_app.specs.code.Performed.{IsWrittenBy, Performs, line_is};

use prl_arguments::{Command, Mode, WordsFault, read_words};
use prl_endings::{Ending, Status, answer, answer_threads, status_of, tell};
use prl_executions::Outcome;
use prl_io::{Files, Probe, Sink, write_all};
use prl_stages::{Ran, Stop, stages_end_one_way};
use std::alloc::Global;
use std::sync::Wait;
use std::thread::Threads;

/// A command, where the words are one, and how its call ends.
type Performed = (Option<Command>, Ending);

/// Whether the command asks for a run on two workers or more.
fn is_for_threads(command: &Command) -> bool
    ensures yes { OnTrue result ((command.now.mode ≡ Mode.Run) × (2 ≤ command.now.workers)) }
    ensures no { OnFalse result (command.now.mode ≡ Mode.Run → 2 ≤ command.now.workers → ⊥) }
{
    command.mode == Mode::Run && command.workers >= 2
}

/// Writes the text.
fn written<S: Sink>(out: &mut S, text: &[u8], ran: Ran) -> Ending
    ensures { IsWrittenBy (S.seen out.old) (S.seen out.new) text.now ran result }
{
    match write_all(out, text) {
        Ok(()) => Ending::Done(ran),
        Err(_) => Ending::Unwritten(ran),
    }
}

/// Does what a command asks for by one thread, but for its line on `err`.
fn perform<F: Files, S: Sink>(
    alloc: Global,
    words: &[String],
    command: &Command,
    files: &mut F,
    out: &mut S,
) -> Ending
    requires asked { command_of (map string_bytes words.now) ≡ Some command.now }
    requires range { AreInRange command.now.mode command.now.until command.now.workers command.now.size }
    ensures ends { Performs (map string_bytes words.now) (F.seen files.old) (F.seen files.new)
        (S.seen out.old) (S.seen out.new) result }
    ensures kept { (F.seen files.new).folder ≡ (F.seen files.old).folder }
    ensures read { ReadsBy command.now (F.seen files.old) (F.seen files.new) result }
{
    match answer(alloc, files, command) {
        Ok((text, ran)) => written(out, &text, ran),
        Err(stop) => Ending::Stopped(stop),
    }
}

/// Does what the words ask for by one thread, but for its line on `err`. It is None where they ask for a run on
/// two workers or more.
fn perform_alone<F: Files, S: Sink>(
    alloc: Global,
    words: &[String],
    files: &mut F,
    out: &mut S,
) -> Option<Performed>
    ensures none { IfNone result (AsksForThreads (map string_bytes words.now)) }
    ensures alone { IfSome result (λ done. AsksForThreads (map string_bytes words.now) → done.1 ≡ Ending.Stopped Stop.Memory) }
    ensures files { IfNone result (F.seen files.new ≡ F.seen files.old) }
    ensures out { IfNone result (S.seen out.new ≡ S.seen out.old) }
    ensures ends { IfSome result (λ done. Performs (map string_bytes words.now) (F.seen files.old) (F.seen files.new)
        (S.seen out.old) (S.seen out.new) done.1) }
    ensures line { IfSome result (λ done. line_is (map string_bytes words.now) done.0 done.1) }
    ensures kept { (F.seen files.new).folder ≡ (F.seen files.old).folder }
    ensures read { IfSome result (λ done. HasRead (map string_bytes words.now) (F.seen files.old) (F.seen files.new) done.1) }
{
    let command = match read_words(alloc, words) {
        Ok(command) => command,
        Err(WordsFault::Refused) => return Some((None, Ending::Words)),
        Err(WordsFault::Memory) => return Some((None, Ending::Stopped(Stop::Memory))),
    };
    if is_for_threads(&command) {
        drop(command);
        return None;
    }
    let ending = perform(alloc, words, &command, files, out);
    Some((Some(command), ending))
}

/// Does what a command of a run on several workers asks for, but for its line on `err`. It may wait.
fn perform_run<R: Threads + Wait + Sync, F: Files, S: Sink, P: Probe>(
    rt: &R,
    alloc: Global,
    words: &[String],
    command: &Command,
    files: &mut F,
    out: &mut S,
    probe: &P,
) -> Ending
    requires asked { command_of (map string_bytes words.now) ≡ Some command.now }
    requires range { AreInRange command.now.mode command.now.until command.now.workers command.now.size }
    requires mode { command.now.mode ≡ Mode.Run }
    requires several { 2 ≤ command.now.workers }
    ensures ends { Performs (map string_bytes words.now) (F.seen files.old) (F.seen files.new)
        (S.seen out.old) (S.seen out.new) result }
    ensures kept { (F.seen files.new).folder ≡ (F.seen files.old).folder }
    ensures read { ReadsBy command.now (F.seen files.old) (F.seen files.new) result }
{
    match answer_threads(rt, alloc, files, command, probe) {
        Ok(Outcome::Ended(text, ran)) => written(out, &text, ran),
        Ok(Outcome::Overrun(plan, stopped)) => Ending::Overrun(plan, stopped),
        Err(stop) => Ending::Stopped(stop),
    }
}

/// Does what the words ask for, a run on several workers, but for its line on `err`. It may wait.
fn perform_threads<R: Threads + Wait + Sync, F: Files, S: Sink, P: Probe>(
    rt: &R,
    alloc: Global,
    words: &[String],
    files: &mut F,
    out: &mut S,
    probe: &P,
) -> Performed
    requires { AsksForThreads (map string_bytes words.now) }
    ensures ends { Performs (map string_bytes words.now) (F.seen files.old) (F.seen files.new)
        (S.seen out.old) (S.seen out.new) result.1 }
    ensures line { line_is (map string_bytes words.now) result.0 result.1 }
    ensures kept { (F.seen files.new).folder ≡ (F.seen files.old).folder }
    ensures read { HasRead (map string_bytes words.now) (F.seen files.old) (F.seen files.new) result.1 }
{
    let command = match read_words(alloc, words) {
        Ok(command) => command,
        Err(WordsFault::Refused) => return (None, Ending::Words),
        Err(WordsFault::Memory) => return (None, Ending::Stopped(Stop::Memory)),
    };
    let ending = perform_run(rt, alloc, words, &command, files, out, probe);
    (Some(command), ending)
}

/// Tells how a call ended.
fn finish<E: Sink>(err: &mut E, command: Option<Command>, ending: Ending) -> Status
    ensures code { result.code ≡ status_of ending }
    ensures ran { result.ran ≡ ran_of ending }
    ensures told { IsTold (E.seen err.old) (E.seen err.new) (line_of command ending) }
{
    tell(err, &command, &ending);
    drop(command);
    status_of(ending)
}

/// What `prelude` does where it waits for nobody. It is None exactly where the words ask for a run on two
/// workers or more, unless memory runs out; then nothing was read or written.
pub fn prelude_alone<F: Files, S: Sink, E: Sink>(
    alloc: Global,
    words: &[String],
    files: &mut F,
    out: &mut S,
    err: &mut E,
) -> Option<Status>
    ensures none { IfNone result (AsksForThreads (map string_bytes words.now)) }
    ensures alone { IfSome result (λ status. AsksForThreads (map string_bytes words.now) → status.code ≡ 6) }
    ensures untouched { IfNone result (◌≡◌ {A = Outside}
        (record { files = F.seen files.new; out = S.seen out.new; err = E.seen err.new })
        (record { files = F.seen files.old; out = S.seen out.old; err = E.seen err.old })) }
    // How the call ended, with its cause, its line on `err`, what it left in `out` and what it ran; and
    // that it could not end otherwise.
    ensures answers { IfSome result (λ status. Answers (map string_bytes words.now)
        (record { files = F.seen files.old; out = S.seen out.old; err = E.seen err.old })
        (record { files = F.seen files.new; out = S.seen out.new; err = E.seen err.new })
        status) }
{
    stages_end_one_way();
    match perform_alone(alloc, words, files, out) {
        None => None,
        Some((command, ending)) => Some(finish(err, command, ending)),
    }
}

/// Does what the words ask for, and tells how it ended: the text goes to `out`, and at every status but 0
/// one line goes to `err`. A run on several workers takes threads of the runtime, and calls the probe before
/// each job, by the thread that does it.
pub fn prelude<R: Threads + Wait + Sync, F: Files, S: Sink, E: Sink, P: Probe>(
    rt: &R,
    alloc: Global,
    words: &[String],
    files: &mut F,
    out: &mut S,
    err: &mut E,
    probe: &P,
) -> Status
    // How the call ended, with its cause, its line on `err`, what it left in `out` and what it ran; and
    // that it could not end otherwise.
    ensures answers { Answers (map string_bytes words.now)
        (record { files = F.seen files.old; out = S.seen out.old; err = E.seen err.old })
        (record { files = F.seen files.new; out = S.seen out.new; err = E.seen err.new })
        result }
{
    stages_end_one_way();
    match prelude_alone(alloc, words, files, out, err) {
        Some(status) => status,
        None => {
            let (command, ending) = perform_threads(rt, alloc, words, files, out, probe);
            finish(err, command, ending)
        }
    }
}
