//! The files of a command, which are read first.

ghost use Rattle.std.specs.Prelude.{◌≡◌, ◌≤◌, ◌++◌, ℕ, List, [], Ok, IfOk, IfErr, drop, is_some, length, take};
ghost use Rattle.prl_io.specs.Views.{FolderView};
ghost use Rattle.prl_stages.specs.Given.{IsContent, IsGiven, all_files, most_of, named_first};
ghost use Rattle.prl_calls.specs.Stops.{texts_give, AsksFor, AsksTo, IsRequestOf, IsFileStop, IsStopOfFiles};
ghost use Rattle.prl_calls.specs.code.Texts.{AreFirst, AreLater};

use prl_arguments::Command;
use prl_base::Label;
use prl_io::{FileFault, Files};
use prl_stages::{Fault, InputFile, MAX_BODIES, MAX_PROGRAM, Stage, Stop, most_of};
use std::alloc::{AllocError, Global};

/// The bytes of the files of a command: none where no file is named.
pub struct Texts {
    pub program: Vec<u8>,
    pub bodies: Vec<u8>,
    pub sensors: Vec<u8>,
    pub schedule: Vec<u8>,
    pub table: Vec<u8>,
    pub cores: Vec<u8>,
}

/// What the stages of a command are asked about: the texts of its files, whether one of bodies and whether a schedule is named, the
/// name of the node that is to be main, or none where it is the last one, and the date up to which it runs, in ticks.
pub struct Request {
    pub texts: Texts,
    pub named: bool,
    pub listed: bool,
    pub node: Option<Label>,
    pub until: u32,
}

/// What a file gives: nothing where none is named.
fn read_part<F: Files>(
    alloc: Global,
    files: &mut F,
    part: InputFile,
    name: &Option<Label>,
) -> Result<Vec<u8>, Stop>
    ensures content { IfOk result (λ bytes. IsContent (F.seen files.old).folder part name.now (Ok bytes.items)) }
    ensures few { IfOk result (λ bytes. length bytes.items ≤ most_of part) }
    ensures failed { IfOk result (λ _. (F.seen files.new).failed ≡ (F.seen files.old).failed) }
    ensures stop { IfErr result (IsFileStop (F.seen files.old) (F.seen files.new) part name.now) }
    ensures kept { (F.seen files.new).folder ≡ (F.seen files.old).folder }
    ensures asked { (F.seen files.new).asked ≡ (F.seen files.old).asked ++ named_first name.now [] }
{
    let Some(name) = name else {
        return Ok(Vec::new(alloc));
    };
    match files.read(alloc, name, most_of(part)) {
        Ok(bytes) => Ok(bytes),
        Err(FileFault::Absent) => Err(Stop::Refused(Stage::File(part), Fault::Absent(part))),
        Err(FileFault::TooLong) => Err(Stop::Refused(Stage::File(part), Fault::TooLong(part))),
        Err(FileFault::Failed) => Err(Stop::Unread(part)),
        Err(FileFault::Memory) => Err(Stop::Memory),
    }
}

/// The bytes of the program, of the bodies and of the rows.
fn first_texts<F: Files>(
    alloc: Global,
    files: &mut F,
    command: &Command,
) -> Result<(Vec<u8>, Vec<u8>, Vec<u8>), Stop>
    ensures given { IfOk result (λ made. AreFirst (F.seen files.old).folder command.now made.0.items made.1.items made.2.items) }
    ensures program { IfOk result (λ made. length made.0.items ≤ MAX_PROGRAM) }
    ensures bodies { IfOk result (λ made. length made.1.items ≤ MAX_BODIES) }
    ensures stop { IfErr result (IsStopOfFiles (F.seen files.old) (F.seen files.new) command.now) }
    ensures failed { IfOk result (λ _. (F.seen files.new).failed ≡ (F.seen files.old).failed) }
    ensures kept { (F.seen files.new).folder ≡ (F.seen files.old).folder }
    ensures asked { IfOk result (λ _. AsksFor (F.seen files.old) (F.seen files.new) command.now (take 3 all_files)) }
    ensures asks { IfErr result (AsksTo (F.seen files.old) (F.seen files.new) command.now) }
{
    let program = read_part(alloc, files, InputFile::Program, &command.program)?;
    let bodies = read_part(alloc, files, InputFile::Bodies, &command.bodies)?;
    let sensors = read_part(alloc, files, InputFile::Sensors, &command.sensors)?;
    Ok((program, bodies, sensors))
}

/// The bytes of the schedule, of the table and of the processors, which are read after the others.
fn later_texts<F: Files>(
    alloc: Global,
    files: &mut F,
    command: &Command,
) -> Result<(Vec<u8>, Vec<u8>, Vec<u8>), Stop>
    ensures given { IfOk result (λ made. AreLater (F.seen files.old).folder command.now made.0.items made.1.items made.2.items) }
    ensures stop { (program bodies sensors : List ℕ) → AreFirst (F.seen files.old).folder command.now program bodies sensors
        → IfErr result (IsStopOfFiles (F.seen files.old) (F.seen files.new) command.now) }
    ensures failed { IfOk result (λ _. (F.seen files.new).failed ≡ (F.seen files.old).failed) }
    ensures kept { (F.seen files.new).folder ≡ (F.seen files.old).folder }
    ensures asked { IfOk result (λ _. AsksFor (F.seen files.old) (F.seen files.new) command.now (drop 3 all_files)) }
    ensures asks { (before : FolderView) → AsksFor before (F.seen files.old) command.now (take 3 all_files) →
        IfErr result (AsksTo before (F.seen files.new) command.now) }
{
    let schedule = read_part(alloc, files, InputFile::Schedule, &command.schedule)?;
    let table = read_part(alloc, files, InputFile::Table, &command.table)?;
    let cores = read_part(alloc, files, InputFile::Cores, &command.cores)?;
    Ok((schedule, table, cores))
}

/// The bytes of the files that the command names, read in the order of `Texts`.
fn read_texts<F: Files>(alloc: Global, files: &mut F, command: &Command) -> Result<Texts, Stop>
    ensures given { IfOk result (λ texts. IsGiven (F.seen files.old).folder command.now (texts_give texts (is_some command.now.schedule) command.now.node command.now.until)) }
    ensures program { IfOk result (λ texts. length texts.program.items ≤ MAX_PROGRAM) }
    ensures bodies { IfOk result (λ texts. length texts.bodies.items ≤ MAX_BODIES) }
    ensures stop { IfErr result (IsStopOfFiles (F.seen files.old) (F.seen files.new) command.now) }
    ensures failed { IfOk result (λ _. (F.seen files.new).failed ≡ (F.seen files.old).failed) }
    ensures kept { (F.seen files.new).folder ≡ (F.seen files.old).folder }
    ensures asked { IfOk result (λ _. AsksFor (F.seen files.old) (F.seen files.new) command.now all_files) }
    ensures asks { IfErr result (AsksTo (F.seen files.old) (F.seen files.new) command.now) }
{
    let first = first_texts(alloc, files, command)?;
    match later_texts(alloc, files, command) {
        Ok(later) => Ok(Texts {
            program: first.0,
            bodies: first.1,
            sensors: first.2,
            schedule: later.0,
            table: later.1,
            cores: later.2,
        }),
        Err(stop) => {
            drop(first);
            Err(stop)
        }
    }
}

/// The name again, where there is one.
fn copied(alloc: Global, name: &Option<Label>) -> Result<Option<Label>, AllocError>
    ensures { IfOk result (λ copy. copy ≡ name.now) }
{
    match name {
        Some(label) => Ok(Some(Label::new(alloc, label.bytes())?)),
        None => Ok(None),
    }
}

/// What the stages of a command are asked about: its files are read.
pub fn read_request<F: Files>(
    alloc: Global,
    files: &mut F,
    command: &Command,
) -> Result<Request, Stop>
    ensures request { IfOk result (IsRequestOf (F.seen files.old).folder command.now) }
    ensures program { IfOk result (λ request. length request.texts.program.items ≤ MAX_PROGRAM) }
    ensures bodies { IfOk result (λ request. length request.texts.bodies.items ≤ MAX_BODIES) }
    ensures stop { IfErr result (IsStopOfFiles (F.seen files.old) (F.seen files.new) command.now) }
    ensures failed { IfOk result (λ _. (F.seen files.new).failed ≡ (F.seen files.old).failed) }
    ensures kept { (F.seen files.new).folder ≡ (F.seen files.old).folder }
    ensures asked { IfOk result (λ _. AsksFor (F.seen files.old) (F.seen files.new) command.now all_files) }
    ensures asks { IfErr result (AsksTo (F.seen files.old) (F.seen files.new) command.now) }
{
    let texts = read_texts(alloc, files, command)?;
    match copied(alloc, &command.node) {
        Ok(node) => Ok(Request {
            texts,
            named: command.bodies.is_some(),
            listed: command.schedule.is_some(),
            node,
            until: command.until,
        }),
        Err(_) => {
            drop(texts);
            Err(Stop::Memory)
        }
    }
}

impl Drop for Texts {
    fn drop(self) {
        let Texts {
            program,
            bodies,
            sensors,
            schedule,
            table,
            cores,
        } = self;
        drop(program);
        drop(bodies);
        drop(sensors);
        drop(schedule);
        drop(table);
        drop(cores);
    }
}

impl Drop for Request {
    fn drop(self) {
        let Request {
            texts,
            named: _,
            listed: _,
            node,
            until: _,
        } = self;
        drop(texts);
        drop(node);
    }
}
