//! Reads the lines of a file of cases, and makes each call where it stands.

use crate::calls::is_of_call;
use crate::expanding::Filling;
use crate::lines::{behind, front, trimmed};
use crate::report::Report;
use crate::running::run_call;
use crate::scenes::{Body, CaseFile, LineEnd, Scene, filled};

/// What the line before belongs to.
#[derive(Clone, Copy)]
enum Place {
    Head,
    File,
    Call,
}

/// What a line begins.
#[derive(Clone, Copy)]
enum Kind<'a> {
    /// The case of this name.
    Case(&'a str),
    /// The file of this head.
    File(&'a str),
    /// A name and the text for its holes.
    Filling(&'a str),
    /// A call; no command line where it is the last one again.
    Call(&'a str),
    Nothing,
}

fn kind_of(line: &str) -> Kind<'_> {
    if let Some(name) = line.strip_prefix("# ") {
        return Kind::Case(name);
    }
    if let Some(rest) = line.strip_prefix("-- ") {
        return match rest.strip_suffix(" --") {
            Some(head) => Kind::File(head),
            None => Kind::Nothing,
        };
    }
    if let Some(rest) = line.strip_prefix('=') {
        return Kind::Filling(rest);
    }
    if line == "$" {
        return Kind::Call("");
    }
    match line.strip_prefix("$ ") {
        Some(words) => Kind::Call(words),
        None => Kind::Nothing,
    }
}

/// Runs the cases of the lines of this file.
pub fn run_lines<'a>(report: &mut Report, file: &str, lines: &'a [&'a str]) {
    let mut head = Scene::new(report.alloc, &[]);
    report.begin(file, "before the first case");
    take_lines(report, &mut head, case_lines(lines), 1);
    if !head.words.is_empty() {
        report.refuse("a call");
    }
    report.end(false);
    run_cases(report, file, head.files.as_slice(), lines);
}

fn run_cases<'a>(report: &mut Report, file: &str, shared: &[CaseFile<'_>], lines: &'a [&'a str]) {
    for (k, line) in lines.iter().enumerate() {
        if let Some(name) = line.strip_prefix("# ") {
            report.begin(file, name);
            run_case(report, shared, lines, k.saturating_add(1));
            if has_case(front(lines, k), name) {
                report.refuse("a second case of this name");
            }
            report.end(true);
        }
    }
}

/// Whether a case of this name begins in the lines.
fn has_case(lines: &[&str], name: &str) -> bool {
    for line in lines {
        match line.strip_prefix("# ") {
            Some(other) if other == name => return true,
            _ => {}
        }
    }
    false
}

/// Runs the case whose first line is this one.
fn run_case(report: &mut Report, shared: &[CaseFile<'_>], lines: &[&str], number: usize) {
    let mut scene = Scene::new(report.alloc, shared);
    take_lines(
        report,
        &mut scene,
        case_lines(behind(lines, number)),
        number.saturating_add(1),
    );
    report.line = number;
    if scene.words.is_empty() {
        report.refuse("no call");
    }
}

/// Takes the lines of a case, of which the first has this number.
fn take_lines<'a>(report: &mut Report, scene: &mut Scene<'a>, lines: &'a [&'a str], first: usize) {
    let mut place = Place::Head;
    for (k, line) in lines.iter().enumerate() {
        report.line = first.saturating_add(k);
        place = take_line(
            report,
            scene,
            place,
            line,
            behind(lines, k.saturating_add(1)),
        );
    }
}

/// Takes a line with those that follow, and tells what it belongs to.
fn take_line<'a>(
    report: &mut Report,
    scene: &mut Scene<'a>,
    place: Place,
    line: &'a str,
    below: &'a [&'a str],
) -> Place {
    match kind_of(line) {
        Kind::File(head) => {
            add_file(report, scene, head, block(below));
            Place::File
        }
        Kind::Filling(rest) => {
            add_filling(report, scene, rest);
            Place::Head
        }
        Kind::Call(words) => {
            run_call(report, scene, words, block(below));
            Place::Call
        }
        Kind::Nothing | Kind::Case(_) => {
            check_line(report, place, line);
            place
        }
    }
}

/// Refuses a line that says nothing where it stands; outside files comments may.
fn check_line(report: &mut Report, place: Place, line: &str) {
    match place {
        Place::File => {}
        Place::Head | Place::Call if line.is_empty() || line.starts_with("//") => {}
        Place::Head => report.refuse("no file and no call"),
        Place::Call if is_of_call(line) => {}
        Place::Call => report.refuse("no line of a call"),
    }
}

/// The file that a head begins: a name, and `crlf` or `open` behind it.
fn add_file<'a>(report: &mut Report, scene: &mut Scene<'a>, head: &'a str, lines: &'a [&'a str]) {
    let (name, kind) = head.split_once(' ').unwrap_or((head, ""));
    let end = match kind {
        "" => LineEnd::Feed,
        "crlf" => LineEnd::ReturnFeed,
        "open" => LineEnd::LastOpen,
        _ => return report.refuse("no kind of file"),
    };
    let body = Body::Lines(trimmed(lines), end);
    report.put(&mut scene.files, CaseFile { name, body });
}

/// The text for the holes of a name, from `NAME TEXT`.
fn add_filling<'a>(report: &mut Report, scene: &mut Scene<'a>, rest: &'a str) {
    let (name, raw) = rest.split_once(' ').unwrap_or((rest, ""));
    let text = filled(report, scene.fillings.as_slice(), raw);
    report.put(&mut scene.fillings, Filling { name, text });
}

/// The lines up to the next case.
fn case_lines<'a>(lines: &'a [&'a str]) -> &'a [&'a str] {
    for (k, line) in lines.iter().enumerate() {
        if line.starts_with("# ") {
            return front(lines, k);
        }
    }
    lines
}

/// The lines up to the next that begins something.
fn block<'a>(lines: &'a [&'a str]) -> &'a [&'a str] {
    for (k, line) in lines.iter().enumerate() {
        match kind_of(line) {
            Kind::Nothing => {}
            _ => return front(lines, k),
        }
    }
    lines
}
