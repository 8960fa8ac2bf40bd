//! Calls of the programs that a page is made of, over files in memory.

use prl_app::prelude_alone;
use prl_base::Label;
use prl_io::{MemFiles, MemSink};
use prl_picture::draw;
use prl_plot::plot;
use prl_times::tell;
use std::alloc::{AllocError, Global};

/// The most bytes that a program writes.
const MOST: u64 = 67_108_864;

/// The most bytes of its line on `err`.
const MOST_LINE: u64 = 65_536;

/// The programs that a page calls.
#[derive(Clone, Copy)]
pub(crate) enum Program {
    Prelude,
    Picture,
    Plot,
    Times,
}

impl Program {
    /// Whether it writes a picture.
    pub(crate) fn draws(self) -> bool {
        match self {
            Program::Picture | Program::Plot => true,
            Program::Prelude | Program::Times => false,
        }
    }
}

/// What came of a call.
#[derive(Drop)]
pub(crate) enum Told {
    /// What it wrote, with status 0.
    Written(Vec<u8>),
    /// The line that it told on `err`, without its end.
    Refused(Vec<u8>),
}

/// What a call writes to.
#[derive(Drop)]
struct Sinks {
    out: MemSink,
    err: MemSink,
}

/// Empty sinks.
fn empty_sinks(alloc: Global) -> Result<Sinks, AllocError> {
    let out = MemSink::new(alloc, MOST, MOST, Vec::new(alloc))?;
    let err = MemSink::new(alloc, MOST_LINE, MOST_LINE, Vec::new(alloc))?;
    Ok(Sinks { out, err })
}

/// Words as strings of their own.
fn strings(alloc: Global, words: &[&str]) -> Result<Vec<String>, AllocError> {
    let mut strings = Vec::new(alloc);
    for word in words {
        strings.push(String::from_str(alloc, *word)?)?;
    }
    Ok(strings)
}

/// Files of these names and contents.
fn files(alloc: Global, entries: &[(&str, &[u8])]) -> Result<MemFiles, AllocError> {
    let mut files = Vec::new(alloc);
    for entry in entries {
        let name = Label::new(alloc, entry.0.as_bytes())?;
        files.push((name, Vec::from_slice(alloc, entry.1)?))?;
    }
    Ok(MemFiles::new(files, Vec::new(alloc)))
}

/// Makes a call, and tells its status.
fn status(
    alloc: Global,
    program: Program,
    words: &[String],
    files: &mut MemFiles,
    sinks: &mut Sinks,
) -> u8 {
    let out = &mut sinks.out;
    let err = &mut sinks.err;
    match program {
        Program::Prelude => match prelude_alone(alloc, words, files, out, err) {
            Some(status) => status.code,
            None => 2,
        },
        Program::Picture => draw(alloc, words, files, out, err),
        Program::Plot => plot(alloc, words, files, out, err),
        Program::Times => tell(alloc, words, files, out, err),
    }
}

/// A line without its end.
fn line_of(line: &[u8]) -> &[u8] {
    match line {
        [front @ .., b'\n'] => front,
        _ => line,
    }
}

/// What comes of a call of a program, with these words after its name, where there are these files.
pub(crate) fn called(
    alloc: Global,
    program: Program,
    words: &[&str],
    entries: &[(&str, &[u8])],
) -> Result<Told, AllocError> {
    let words = strings(alloc, words)?;
    let mut files = files(alloc, entries)?;
    let mut sinks = empty_sinks(alloc)?;
    if status(alloc, program, &words, &mut files, &mut sinks) == 0 {
        Ok(Told::Written(Vec::from_slice(alloc, sinks.out.bytes())?))
    } else {
        let line = line_of(sinks.err.bytes());
        Ok(Told::Refused(Vec::from_slice(alloc, line)?))
    }
}
