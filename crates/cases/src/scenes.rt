//! What calls are made on. Names and the lines of files are parts of the text of a file of cases.

use crate::drafts::Draft;
use crate::expanding::{Filling, add_lines, add_text};
use crate::report::Report;
use prl_base::Label;
use std::alloc::Global;

/// How the lines of a file end.
#[derive(Clone, Copy)]
pub enum LineEnd {
    /// Each by a line feed.
    Feed,
    /// Each by a carriage return and a line feed.
    ReturnFeed,
    /// Each by a line feed, but for the last, which has no end.
    LastOpen,
}

/// What is in a file.
#[derive(Drop)]
pub enum Body<'a> {
    /// Lines with holes and repetitions, as they stand, with the `\` that begins some.
    Lines(&'a [&'a str], LineEnd),
    /// What a call wrote.
    Bytes(Vec<u8>),
}

/// A file of a case.
#[derive(Drop)]
pub struct CaseFile<'a> {
    pub name: &'a str,
    pub body: Body<'a>,
}

/// What the lines of a case have given so far.
#[derive(Drop)]
pub struct Scene<'a> {
    /// The files that all cases share.
    pub shared: &'a [CaseFile<'a>],
    /// The case's own, with what calls wrote, the newest last.
    pub files: Vec<CaseFile<'a>>,
    pub fillings: Vec<Filling<'a>>,
    /// The newest command line as it stands; empty before the first.
    pub words: &'a str,
}

impl<'a> Scene<'a> {
    /// Nothing but the files that are shared.
    pub fn new(alloc: Global, shared: &'a [CaseFile<'a>]) -> Scene<'a> {
        Scene {
            shared,
            files: Vec::new(alloc),
            fillings: Vec::new(alloc),
            words: "",
        }
    }
}

/// Names and bytes, of which the first of a name counts.
pub type Folder = Vec<(Label, Vec<u8>)>;

/// The files of a scene, the newest first.
pub fn folder_of(report: &mut Report, scene: &Scene<'_>) -> Folder {
    let mut folder = Vec::new(report.alloc);
    let fillings = scene.fillings.as_slice();
    add_files(report, &mut folder, scene.shared, fillings);
    add_files(report, &mut folder, scene.files.as_slice(), fillings);
    folder.reverse();
    folder
}

fn add_files(
    report: &mut Report,
    folder: &mut Folder,
    files: &[CaseFile<'_>],
    fillings: &[Filling<'_>],
) {
    for file in files {
        let bytes = match &file.body {
            Body::Bytes(bytes) => report.copy(bytes.as_slice()),
            Body::Lines(lines, end) => written(report, lines, *end, fillings),
        };
        add_entry(report, folder, file.name, bytes);
    }
}

fn add_entry(report: &mut Report, folder: &mut Folder, name: &str, bytes: Vec<u8>) {
    match Label::new(report.alloc, name.as_bytes()) {
        Ok(label) => report.put(folder, (label, bytes)),
        Err(_) => report.refuse("no memory"),
    }
}

/// The lines with these ends, each without a `\` that begins it.
fn written(report: &mut Report, lines: &[&str], end: LineEnd, fillings: &[Filling<'_>]) -> Vec<u8> {
    let mark = match end {
        LineEnd::Feed | LineEnd::LastOpen => "\n",
        LineEnd::ReturnFeed => "\r\n",
    };
    let mut draft = Draft::new(report.alloc);
    for line in lines {
        let line = line.strip_prefix('\\').unwrap_or(line);
        add_lines(&mut draft, line, mark, fillings);
    }
    if let LineEnd::LastOpen = end {
        let _ = draft.text.pop();
    }
    report.take(draft).into_bytes()
}

/// The text with its holes filled.
pub fn filled(report: &mut Report, fillings: &[Filling<'_>], text: &str) -> String {
    let mut draft = Draft::new(report.alloc);
    add_text(&mut draft, text, fillings);
    report.take(draft)
}

/// Leaves so many bytes of the first file of this name, and tells whether it had as many.
pub fn cut(folder: &mut Folder, name: &str, count: usize) -> bool {
    for (label, bytes) in folder.as_mut_slice() {
        if label.bytes() == name.as_bytes() {
            let has = count <= bytes.len();
            bytes.truncate(count);
            return has;
        }
    }
    false
}
