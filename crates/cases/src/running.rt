//! Runs the calls of a case, and tells which did not tell what they are to.

use crate::calling::{Sinks, sinks_of, status_of};
use crate::calls::{Call, call_of, limits_of};
use crate::comparing::is_made_of;
use crate::drafts::Draft;
use crate::lines::said;
use crate::report::Report;
use crate::scenes::{Body, CaseFile, Folder, Scene, cut, folder_of};
use prl_io::MemFiles;

/// Makes the call of this command line, or of the last one where it is empty, with these lines below it.
pub fn run_call<'a>(
    report: &mut Report,
    scene: &mut Scene<'a>,
    words: &'a str,
    lines: &'a [&'a str],
) {
    if !words.is_empty() {
        scene.words = words;
    }
    if scene.words.is_empty() {
        return report.refuse("no command line before");
    }
    let call = call_of(report, scene, lines);
    run_read(report, scene, &call);
}

/// Makes a call once, or on fronts of a file.
fn run_read<'a>(report: &mut Report, scene: &mut Scene<'a>, call: &Call<'a>) {
    match said(call.lines, "fronts ") {
        Some(name) => run_fronts(report, scene, call, name),
        None => {
            let folder = folder_of(report, scene);
            run_on(report, scene, call, folder, call.err.as_str());
        }
    }
}

/// Makes a call for each line of `err`, on the fronts of 0, 1, 2, .. bytes of the file of this name.
fn run_fronts<'a>(report: &mut Report, scene: &mut Scene<'a>, call: &Call<'a>, name: &str) {
    if call.err.is_empty() {
        report.refuse("no line of err");
    }
    for (count, line) in call.err.as_str().split_inclusive('\n').enumerate() {
        run_front(report, scene, call, name, count, line);
    }
}

/// Makes a call on so many bytes of the file of this name, which is to tell this on `err`.
fn run_front<'a>(
    report: &mut Report,
    scene: &mut Scene<'a>,
    call: &Call<'a>,
    name: &str,
    count: usize,
    err: &str,
) {
    let mut folder = folder_of(report, scene);
    if !cut(&mut folder, name, count) {
        report.refuse("a front that the file does not have");
    }
    run_on(report, scene, call, folder, err);
}

/// Makes a call on these files, which is to tell this on `err`.
fn run_on<'a>(
    report: &mut Report,
    scene: &mut Scene<'a>,
    call: &Call<'a>,
    folder: Folder,
    err: &str,
) {
    let mut files = MemFiles::new(folder, limits_of(report, call.lines, "files ").fails);
    if let Some(mut sinks) = sinks_of(report, call.lines) {
        run_to(report, scene, call, &mut files, &mut sinks, err);
    }
}

/// Makes a call on these files and sinks, which is to tell this on `err`.
fn run_to<'a>(
    report: &mut Report,
    scene: &mut Scene<'a>,
    call: &Call<'a>,
    files: &mut MemFiles,
    sinks: &mut Sinks,
    err: &str,
) {
    let status = status_of(report, call, files, sinks);
    check(
        report,
        call,
        status,
        sinks.out.bytes(),
        sinks.err.bytes(),
        err,
    );
    keep(report, scene, call.lines, sinks.out.bytes());
}

/// Keeps what a call wrote as the file that it is to be.
fn keep<'a>(report: &mut Report, scene: &mut Scene<'a>, lines: &[&'a str], out: &[u8]) {
    if let Some(name) = said(lines, "into ") {
        let body = Body::Bytes(report.copy(out));
        report.put(&mut scene.files, CaseFile { name, body });
    }
}

/// Refuses what a call told where it is not what is wanted, with this text on `err`.
fn check(report: &mut Report, call: &Call<'_>, status: u8, out: &[u8], told: &[u8], err: &str) {
    let out = str::from_utf8(out).unwrap_or("no UTF-8");
    let told = str::from_utf8(told).unwrap_or("no UTF-8");
    let out_fits = is_made_of(report, out, call.out.as_str());
    if status == call.status && out_fits && told == err {
        return;
    }
    report.refuse("the call told something else");
    report.text.add("$ ");
    report.text.add(call.line.as_str());
    report.text.add("\nstatus ");
    report.text.add_number(status as u64);
    report.text.add("\n");
    if !out_fits {
        print_lines(&mut report.text, "> ", out);
    }
    print_lines(&mut report.text, "! ", told);
}

/// Tells the lines of a text, as a file of cases would have it.
fn print_lines(text: &mut Draft, mark: &str, lines: &str) {
    for line in lines.lines() {
        text.add(mark);
        text.add(line);
        text.add("\n");
    }
}
