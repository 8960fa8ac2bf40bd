//! Makes a call on files and sinks in memory.

use crate::calls::{Call, limits_of};
use crate::report::Report;
use prl_app::prelude_alone;
use prl_explain::explain;
use prl_frame::tell_frame;
use prl_io::{MemFiles, MemSink};
use prl_page::page;
use prl_picture::draw;
use prl_plot::plot;
use prl_times::tell;

/// What a call writes to.
#[derive(Drop)]
pub struct Sinks {
    pub out: MemSink,
    pub err: MemSink,
}

/// Empty sinks of the limits that these lines set.
pub fn sinks_of(report: &mut Report, lines: &[&str]) -> Option<Sinks> {
    let out = sink_of(report, lines, "out ")?;
    let err = sink_of(report, lines, "err ")?;
    Some(Sinks { out, err })
}

/// An empty sink of the limits that the lines with this start set.
fn sink_of(report: &mut Report, lines: &[&str], start: &str) -> Option<MemSink> {
    let limits = limits_of(report, lines, start);
    if limits.most == 0 {
        report.refuse("a sink that takes nothing");
        return None;
    }
    match MemSink::new(report.alloc, limits.room, limits.most, limits.fails) {
        Ok(sink) => Some(sink),
        Err(_) => {
            report.refuse("no memory");
            None
        }
    }
}

/// Makes a call, and tells its status.
pub fn status_of(
    report: &mut Report,
    call: &Call<'_>,
    files: &mut MemFiles,
    sinks: &mut Sinks,
) -> u8 {
    let words = words_of(report, call.line.as_str());
    status_on(report, &words, call.input.as_bytes(), files, sinks)
}

/// Calls the program that the first word names.
fn status_on(
    report: &mut Report,
    words: &[String],
    line: &[u8],
    files: &mut MemFiles,
    sinks: &mut Sinks,
) -> u8 {
    let alloc = report.alloc;
    match program(words) {
        "prelude" => prelude_status(report, words, files, sinks),
        "prelude_explain" => explain(alloc, words, line, files, &mut sinks.out, &mut sinks.err),
        "prelude_frame" => tell_frame(alloc, words, files, &mut sinks.out, &mut sinks.err),
        "prelude_page" => page(alloc, words, files, &mut sinks.out, &mut sinks.err),
        "prelude_picture" => draw(alloc, words, files, &mut sinks.out, &mut sinks.err),
        "prelude_plot" => plot(alloc, words, files, &mut sinks.out, &mut sinks.err),
        "prelude_times" => tell(alloc, words, files, &mut sinks.out, &mut sinks.err),
        _ => {
            report.refuse("no program");
            0
        }
    }
}

/// The words between blanks; `''` is the empty one.
fn words_of(report: &mut Report, line: &str) -> Vec<String> {
    let mut words = Vec::new(report.alloc);
    for word in line.split_ascii_whitespace() {
        add_word(report, &mut words, if word == "''" { "" } else { word });
    }
    words
}

/// Adds a word to others.
pub fn add_word(report: &mut Report, words: &mut Vec<String>, word: &str) {
    match String::from_str(report.alloc, word) {
        Ok(word) => report.put(words, word),
        Err(_) => report.refuse("no memory"),
    }
}

fn program(words: &[String]) -> &str {
    match words.first() {
        Some(word) => word.as_str(),
        None => "",
    }
}

/// The status with which `prelude` ends.
fn prelude_status(
    report: &mut Report,
    words: &[String],
    files: &mut MemFiles,
    sinks: &mut Sinks,
) -> u8 {
    match prelude_alone(report.alloc, words, files, &mut sinks.out, &mut sinks.err) {
        Some(status) => status.code,
        None => {
            report.refuse("a run of several workers");
            0
        }
    }
}
