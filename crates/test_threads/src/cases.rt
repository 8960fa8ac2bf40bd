//! What lists of moves come to on a new board of the pair, worked out by hand.

use prl_base::{TaskNo, Value};
use prl_board::{Gate, Got, Half, Release, Ticked, Wrote};

/// What a task or the clock did.
#[derive(Clone, Copy)]
pub(crate) enum Did {
    Released(Release),
    Read(Got),
    Wrote(Wrote),
    Ended,
    Ticked(Ticked),
}

/// What a closed board shows: the clock's `now`; how many jobs of the sensor's and of the actuator's task have ended; the words
/// of the low and the high half of the one cell; 1 where all is done; and of how many of the sensor's rows, from the first one
/// on, the actuator has got the values.
pub(crate) type Shown = [u64; 7];

/// Moves on a new board, and what they come to.
#[derive(Clone, Copy)]
pub(crate) struct Case {
    pub(crate) name: &'static str,
    pub(crate) gate: Gate,
    /// A letter for each move: `i` for the sensor's task, `o` for the actuator's, `t` for the clock.
    pub(crate) moves: &'static [u8],
    /// A letter for what each did.
    pub(crate) letters: &'static [u8],
    /// The numbers that tell more of what the last one did.
    pub(crate) last: [u64; 3],
    pub(crate) shown: Shown,
    /// The task whose stop is then raised.
    pub(crate) stop: Option<TaskNo>,
}

/// What was done: a letter for it, and the numbers that tell more.
pub(crate) fn told(did: Did) -> (u8, [u64; 3]) {
    match did {
        Did::Released(Release::Open { job }) => (b'r', [job, 0, 0]),
        Did::Released(Release::Early { now, at }) => (b'e', [now, at, 0]),
        Did::Released(Release::Over) => (b'v', [0, 0, 0]),
        Did::Read(Got::Half) => (b'h', [0, 0, 0]),
        Did::Read(Got::Value(Value::Int(value))) => {
            (b'g', [(value < 0) as u64, value.unsigned_abs(), 0])
        }
        Did::Read(Got::Value(Value::Bool(value))) => (b'g', [2, value as u64, 0]),
        Did::Read(
            Got::NotYet {
                cell,
                wanted,
                found,
            },
        ) => (b'n', [cell.0 as u64, wanted as u64, found as u64]),
        Did::Read(
            Got::Overrun {
                cell,
                wanted,
                found,
            },
        ) => (b'x', [cell.0 as u64, wanted as u64, found as u64]),
        Did::Wrote(Wrote { edge, cell, half }) => {
            let high = matches!(half, Half::High) as u64;
            (b'w', [edge.0 as u64, cell.0 as u64, high])
        }
        Did::Ended => (b'.', [0, 0, 0]),
        Did::Ticked(Ticked::Now(now)) => (b't', [now, 0, 0]),
        Did::Ticked(Ticked::Behind { task, job }) => (b'b', [task.0 as u64, job, 0]),
        Did::Ticked(Ticked::End) => (b'z', [0, 0, 0]),
    }
}

/// Whether what the last move of the case did has its numbers.
pub(crate) fn is_last(did: Option<Did>, case: &Case) -> bool {
    match did {
        Some(did) => told(did).1 == case.last,
        None => false,
    }
}

/// A line a case: its name; `gated` or `free`; its moves; the letters of what each did; the numbers of the last one, then what
/// the closed board shows; and the task of a stop.
pub(crate) const CASES: &str = "\
nothing has happened at the opening|gated|||\
    last 0 0 0 now 0 done 0 0 words 0 0 ended 0 values 0
a job is released too early|gated|o|e|\
    last 0 1 0 now 0 done 0 0 words 0 0 ended 0 values 0
a reader finds nothing yet|gated|otoo|etrn|\
    last 0 1 0 now 1 done 0 0 words 0 0 ended 0 values 0
a write tells its half|gated|iii|rww|\
    last 0 0 1 now 0 done 0 0 words 4294967297 4294967296 ended 0 values 0
a gated clock waits for what is due|gated|iiiitttttttttt|rww.tttttttttb|\
    last 1 0 0 now 9 done 1 0 words 4294967297 4294967296 ended 0 values 0
all jobs end|gated|iiiitooootttttttttiiiitoooo|rww.trhg.tttttttttrww.trhg.|\
    last 0 0 0 now 11 done 2 2 words 8589934594 8589934592 ended 1 values 2
a low half is overrun by a free clock|free|iiiittttttttttiiioo|rww.ttttttttttrwwrx|\
    last 0 1 2 now 10 done 1 0 words 8589934594 8589934592 ended 0 values 0|1
a high half is overrun|free|iiiitootttttttttiiio|rww.trhtttttttttrwwx|\
    last 0 1 2 now 10 done 1 0 words 8589934594 8589934592 ended 0 values 0|1
a value is read beside the next low half|free|iiiitootttttttttiio|rww.trhtttttttttrwg|\
    last 0 1 0 now 10 done 1 0 words 8589934594 4294967296 ended 0 values 0
no job is left after the last one|free|iiiittttttttttiiiii|rww.ttttttttttrww.v|\
    last 0 0 0 now 10 done 2 0 words 8589934594 8589934592 ended 0 values 0";

/// The part of a line behind so many bars.
fn part(line: &'static str, bars: usize) -> &'static str {
    for (k, part) in line.split('|').enumerate() {
        if k == bars {
            return part;
        }
    }
    ""
}

/// The ten numbers of a text; the greatest of all where one is missing.
fn numbers_of(text: &str) -> [u64; 10] {
    let mut numbers = [u64::MAX; 10];
    let mut count = 0usize;
    for word in text.split_ascii_whitespace() {
        if let Ok(number) = word.parse::<u64>() {
            if count < 10 {
                numbers[count] = number;
                count += 1;
            }
        }
    }
    numbers
}

/// The gate of a name.
fn gate_of(name: &str) -> Gate {
    if name == "free" {
        Gate::Free
    } else {
        Gate::Gated
    }
}

/// The task of a number, where there is one.
fn task_of(digits: &str) -> Option<TaskNo> {
    match digits.parse::<u32>() {
        Ok(task) => Some(TaskNo(task)),
        Err(_) => None,
    }
}

/// The case of a line.
pub(crate) fn case_of(line: &'static str) -> Case {
    let numbers = numbers_of(part(line, 4));
    Case {
        name: part(line, 0),
        gate: gate_of(part(line, 1)),
        moves: part(line, 2).as_bytes(),
        letters: part(line, 3).as_bytes(),
        last: [numbers[0], numbers[1], numbers[2]],
        shown: [
            numbers[3], numbers[4], numbers[5], numbers[6], numbers[7], numbers[8], numbers[9],
        ],
        stop: task_of(part(line, 5)),
    }
}
