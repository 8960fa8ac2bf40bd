//! Command lines of `prelude` and of the programs beside it, as files of cases: runs each case of each `.txt` file in the
//! folder that it is started in through the top calls, over files and sinks in memory, and tells which cases did not do
//! what they are to. `docs/cases.md` has the form of the files.
#![tactic(auto)]

mod calling;
mod calls;
mod comparing;
mod drafts;
mod expanding;
mod lines;
mod listing;
mod reading;
mod report;
mod running;
mod scenes;

use lines::lines_of;
use listing::case_files;
use reading::run_lines;
use report::Report;
use std::process::ExitCode;
use std::{fs, io};

/// Runs the cases of all files, and tells how many passed.
fn run_all(rt: &HostRuntime, report: &mut Report) -> io::Result<()> {
    let names = case_files(rt, report)?;
    for name in &names {
        run_file(rt, report, name.as_str())?;
    }
    report.sum_up("all", (0, 0));
    Ok(())
}

/// Runs the cases of a file.
fn run_file(rt: &HostRuntime, report: &mut Report, name: &str) -> io::Result<()> {
    let text = fs::read_to_string(rt, name)?;
    run_text(report, name, text.as_str());
    Ok(())
}

/// Runs the cases of the text of this file, and tells how many passed.
fn run_text(report: &mut Report, name: &str, text: &str) {
    let before = report.counts;
    let lines = lines_of(report, text);
    run_lines(report, name, lines.as_slice());
    report.sum_up(name, before);
}

/// Tells what is wrong with the cases, and how many passed.
fn print_report(rt: &HostRuntime, report: &Report) -> io::Result<()> {
    let text = report.text.text.as_str();
    print!(rt; "{text}")
}

fn main(rt: HostRuntime) -> io::Result<ExitCode> {
    let mut report = Report::new(rt.alloc());
    let ran = run_all(&rt, &mut report);
    // What was found up to a file that could not be read is told too.
    print_report(&rt, &report)?;
    ran?;
    if report.is_clean() {
        Ok(ExitCode::SUCCESS)
    } else {
        Ok(ExitCode::FAILURE)
    }
}
