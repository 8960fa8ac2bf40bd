//! How a call ends: its text, or why there is none, and its status.

ghost use Rattle.std.specs.Prelude.{◌≡◌, ◌≤◌, ◌<◌, OnErr, vec_items};
ghost use Rattle.prl_io.specs.Growth.{IsWritten};
ghost use Rattle.prl_io.specs.Endings.{Ends, IsTold, line_of, line_of_stop, status_of};

use crate::writing::{Failed, Sink, write_all, write_pieces};
use prl_base::Label;

/// Why there is no text.
#[derive(Drop)]
pub enum Stop {
    /// The words are no command: the line tells the form of one.
    Words(&'static str),
    /// A text is refused: the line tells which.
    Refused(&'static str),
    /// There is no file of this name.
    Absent(Label),
    /// The file of this name is too long.
    TooLong(Label),
    /// The reading of the file of this name failed.
    Unread(Label),
    Memory,
}

/// The status of a stop.
fn status_of(stop: &Stop) -> u8
    ensures { result ≡ status_of stop.now }
{
    match stop {
        Stop::Words(_) => 2,
        Stop::Refused(_) => 1,
        Stop::Absent(_) => 7,
        Stop::TooLong(_) => 7,
        Stop::Unread(_) => 3,
        Stop::Memory => 6,
    }
}

/// Writes a line of two parts.
fn write_two<E: Sink>(err: &mut E, front: &[u8], name: &[u8]) -> Result<(), Failed>
    ensures grown { IsWritten (E.seen err.old).written (E.seen err.new).written (line_of front.now name.now) result }
    ensures counted { (E.seen err.old).faults ≤ (E.seen err.new).faults }
    ensures failed { OnErr result ((E.seen err.old).faults < (E.seen err.new).faults) }
{
    write_pieces(err, &[front, name, b"\n".as_slice()])
}

/// Tells on `err` why there is no text, in one line.
fn tell<E: Sink>(err: &mut E, stop: &Stop)
    ensures { IsTold (E.seen err.old) (E.seen err.new) (line_of_stop stop.now) }
{
    let _ = match stop {
        Stop::Words(form) => write_two(err, b"usage: ", form.as_bytes()),
        Stop::Refused(what) => write_two(err, b"refused: ", what.as_bytes()),
        Stop::Absent(name) => write_two(err, b"absent ", name.bytes()),
        Stop::TooLong(name) => write_two(err, b"too long ", name.bytes()),
        Stop::Unread(name) => write_two(err, b"read fault ", name.bytes()),
        Stop::Memory => write_two(err, b"memory", b""),
    };
}

/// Ends a call: writes the text to `out`, or tells on `err` why there is none, and answers the status.
pub fn finish<S: Sink, E: Sink>(out: &mut S, err: &mut E, outcome: &Result<Vec<u8>, Stop>) -> u8
    ensures { Ends vec_items outcome.now (S.seen out.old) (S.seen out.new) (E.seen err.old) (E.seen err.new) result }
{
    match outcome {
        Err(stop) => {
            tell(err, stop);
            status_of(stop)
        }
        Ok(text) => {
            if write_all(out, text).is_ok() {
                return 0;
            }
            let _ = write_two(err, b"write fault", b"");
            4
        }
    }
}
