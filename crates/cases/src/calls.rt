//! What the lines below a command line say.

use crate::comparing::GAP;
use crate::drafts::Draft;
use crate::expanding::{Filling, add_lines, add_text};
use crate::lines::said;
use crate::report::Report;
use crate::scenes::{Scene, filled};

/// A command line, and what it is to tell.
#[derive(Drop)]
pub struct Call<'a> {
    /// The program's name, and its words.
    pub line: String,
    pub input: String,
    pub status: u8,
    /// What `out` is to be, with a `GAP` where any text may stand.
    pub out: String,
    pub err: String,
    /// All lines below it.
    pub lines: &'a [&'a str],
}

/// The newest command line of a scene, with what these lines say of it.
pub fn call_of<'a>(report: &mut Report, scene: &Scene<'_>, lines: &'a [&'a str]) -> Call<'a> {
    let fillings = scene.fillings.as_slice();
    Call {
        line: filled(report, fillings, scene.words),
        input: told(report, fillings, lines, '<'),
        status: wanted_status(report, lines),
        out: told(report, fillings, lines, '>'),
        err: told(report, fillings, lines, '!'),
        lines,
    }
}

/// The text that the lines of this mark make.
fn told(report: &mut Report, fillings: &[Filling<'_>], lines: &[&str], mark: char) -> String {
    let mut draft = Draft::new(report.alloc);
    for line in lines {
        add_told(&mut draft, fillings, line, mark);
    }
    report.take(draft)
}

/// Adds what a line says of the text of this mark.
fn add_told(draft: &mut Draft, fillings: &[Filling<'_>], line: &str, mark: char) {
    if let Some(rest) = line.strip_prefix(mark) {
        return add_rest(draft, fillings, rest);
    }
    if mark != '>' {
        return;
    }
    if line == "..." {
        draft.add_char(GAP);
    } else if line.starts_with('|') {
        add_rest(draft, fillings, line);
    }
}

/// Adds what follows the mark of a line: a blank and a line, or `|`, a blank and a piece without a line end.
fn add_rest(draft: &mut Draft, fillings: &[Filling<'_>], rest: &str) {
    match rest.strip_prefix('|') {
        Some(piece) => add_text(draft, unblanked(piece), fillings),
        None => add_lines(draft, unblanked(rest), "\n", fillings),
    }
}

/// The text without a blank that begins it.
fn unblanked(text: &str) -> &str {
    text.strip_prefix(' ').unwrap_or(text)
}

/// Whether a line below a command line says something.
pub fn is_of_call(line: &str) -> bool {
    if line.starts_with(['<', '!', '>', '|']) || line == "..." {
        return true;
    }
    match line.split_once(' ') {
        Some(("status" | "into" | "fronts" | "files" | "out" | "err", _)) => true,
        _ => false,
    }
}

/// The status with which a call is to end.
fn wanted_status(report: &mut Report, lines: &[&str]) -> u8 {
    match said(lines, "status ").unwrap_or("0").parse::<u8>() {
        Ok(status) => status,
        Err(_) => {
            report.refuse("no status");
            0
        }
    }
}

/// What a sink has room for, and which calls of it, or of the files, fail.
#[derive(Drop)]
pub struct Limits {
    pub room: u64,
    pub most: u64,
    pub fails: Vec<u64>,
}

/// What the lines that begin so say: much room and no failure where they say nothing.
pub fn limits_of(report: &mut Report, lines: &[&str], start: &str) -> Limits {
    let mut limits = Limits {
        room: 1_000_000,
        most: 100_000,
        fails: Vec::new(report.alloc),
    };
    for line in lines {
        if let Some(words) = line.strip_prefix(start) {
            read_limits(report, &mut limits, words);
        }
    }
    limits
}

/// What a number is of.
#[derive(Clone, Copy)]
enum Meant {
    Nothing,
    Room,
    Most,
    Fails,
}

/// Words as `room 20 most 7 fail 3 4`.
fn read_limits(report: &mut Report, limits: &mut Limits, words: &str) {
    let mut meant = Meant::Nothing;
    for word in words.split_ascii_whitespace() {
        match word {
            "room" => meant = Meant::Room,
            "most" => meant = Meant::Most,
            "fail" => meant = Meant::Fails,
            _ => set_limit(report, limits, meant, word),
        }
    }
}

fn set_limit(report: &mut Report, limits: &mut Limits, meant: Meant, digits: &str) {
    match (meant, digits.parse::<u64>()) {
        (Meant::Room, Ok(number)) => limits.room = number,
        (Meant::Most, Ok(number)) => limits.most = number,
        (Meant::Fails, Ok(number)) => report.put(&mut limits.fails, number),
        _ => report.refuse("no number of a limit"),
    }
}
