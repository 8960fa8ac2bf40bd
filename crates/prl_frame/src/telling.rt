//! The frame that the words ask for, and the call that tells it.

ghost use Rattle.std.specs.Prelude.{◌≡◌, ◌≢◌, IfErr, IfOk, Ok, codes, drop, map, true};
ghost use Rattle.std.specs.Bool.{OnFalse, OnTrue};
ghost use Rattle.std.specs.String.{string_bytes};
ghost use Rattle.prl_io.specs.Pairs.{asks_help};
ghost use Rattle.prl_io.specs.Faults.{IsUnfit};
ghost use Rattle.prl_io.specs.declared.endings.Stop.TheVariants.{Memory};
ghost use Rattle.prl_io.specs.declared.faults.Fault.TheVariants as faults;
ghost use Rattle.prl_tables.specs.TableTexts.{entries_of};
ghost use Rattle.prl_tables.specs.Tables.{IsGood};
ghost use Rattle.prl_frame.specs.Answers.{Answers};
ghost use Rattle.prl_tables.specs.declared.reading.TableFault.TheVariants as causes;
ghost use Rattle.prl_frame.specs.Options.{is_command, other_words};
ghost use Rattle.prl_frame.specs.Refused.{IsBadTable, IsRefused, IsRefusedOf, IsTableRefused};
ghost use Rattle.prl_frame.specs.Told.{IsFrameText, IsTableTold, IsTold, IsToldBy, IsToldOf};

use crate::options::{FORM, HELP, asks_json, file_of, is_command, other_words};
use crate::refusing::unfit_table;
use prl_frames::frame_of;
use prl_frametext::{json_of, text_of};
use prl_io::{Fault, Files, Sink, Stop, after_name, asks_help, end, read_named, unfit_for};
use prl_plan::Plan;
use prl_plantext::{PlanFault, read_plan};
use prl_tables::{Entry, Table, TableFault, check_table, read_table};
use std::alloc::{AllocError, Global};

/// The most bytes of a plan's text.
pub const MAX_PLAN: u64 = 33_554_432;

/// The most bytes of a table.
pub const MAX_TABLE: u64 = 16_777_216;

/// Why there is nothing to tell.
const NO_PLAN: &str = "not the text of a plan";

/// Says that the file of a name is no plan.
fn no_plan(alloc: Global, name: &[u8]) -> Fault
    ensures { IsUnfit name.now (codes "not the text of a plan") result }
{
    unfit_for(alloc, name, Vec::from_slice(alloc, NO_PLAN.as_bytes()))
}

/// The frame of the entries of a good table, as lines or as JSON.
fn written(alloc: Global, plan: &Plan, entries: &[Entry], json: bool) -> Result<Vec<u8>, AllocError>
    requires { IsGood plan.now entries.now }
    ensures { IfOk result (λ text. IsFrameText plan.now entries.now json text.items) }
{
    let frame = frame_of(alloc, plan, entries)?;
    if json {
        json_of(alloc, plan, frame.slots.as_slice())
    } else {
        text_of(alloc, plan, frame.slots.as_slice())
    }
}

/// The good table of this text.
fn good_table(alloc: Global, source: &[u8], plan: &Plan) -> Result<Table, TableFault>
    ensures good { IfOk result (λ table. IsGood plan.now table.entries) }
    ensures told { IfOk result (λ table. entries_of plan.now.graph.hyper source.now ≡ Ok table.entries) }
    ensures refused { IfErr result (λ cause. cause ≢ causes.Memory → IsBadTable plan.now source.now cause) }
{
    let table = read_table(alloc, source, plan)?;
    match check_table(alloc, plan, &table) {
        Ok(_) => {}
        Err(cause) => return Err(cause),
    }
    Ok(table)
}

/// The frame of the table of this text, which stands in the file of this name.
fn told(
    alloc: Global,
    plan: &Plan,
    name: &[u8],
    source: &[u8],
    json: bool,
) -> Result<Vec<u8>, Fault>
    ensures told { IfOk result (λ text. IsToldOf plan.now source.now json text.items) }
    ensures refused { IfErr result (IsTableRefused plan.now name.now source.now) }
{
    match good_table(alloc, source, plan) {
        Ok(table) => Ok(written(alloc, plan, table.entries.as_slice(), json)?),
        Err(cause) => Err(unfit_table(alloc, plan, name, cause)),
    }
}

/// The frame of the table in the file that the words name.
fn table_told<F: Files>(
    alloc: Global,
    words: &[String],
    json: bool,
    files: &mut F,
    plan: &Plan,
) -> Result<Vec<u8>, Fault>
    requires { is_command (map string_bytes words.now) ≡ true }
    ensures told { IfOk result (λ text. IsTableTold (F.seen files.old).folder (map string_bytes words.now) plan.now json text.items) }
    ensures refused { IfErr result (IsRefusedOf (F.seen files.old) (F.seen files.new) (map string_bytes words.now) plan.now) }
{
    let name = file_of(b"--table", words);
    let source = read_named(alloc, files, name, MAX_TABLE)?;
    told(alloc, plan, name, &source, json)
}

/// The frame that the words ask for, of the plan and the table in the files that they name.
fn frame<F: Files>(
    alloc: Global,
    words: &[String],
    json: bool,
    files: &mut F,
) -> Result<Vec<u8>, Fault>
    ensures told { IfOk result (λ text. IsToldBy json (F.seen files.old).folder (map string_bytes words.now) text.items) }
    ensures refused { IfErr result (IsRefused (F.seen files.old) (F.seen files.new) (map string_bytes words.now)) }
{
    if !is_command(words) {
        return Err(Fault::Stop(Stop::Words(FORM)));
    }
    let name = file_of(b"--plan", words);
    let source = read_named(alloc, files, name, MAX_PLAN)?;
    match read_plan(alloc, &source) {
        Ok(plan) => table_told(alloc, words, json, files, &plan),
        Err(PlanFault::NotPlan) => Err(no_plan(alloc, name)),
        Err(PlanFault::Memory) => Err(Fault::Stop(Stop::Memory)),
    }
}

/// What the words ask for, as lines, or as JSON where they ask for it.
fn answer<F: Files>(alloc: Global, words: &[String], files: &mut F) -> Result<Vec<u8>, Fault>
    ensures told { IfOk result (λ text. IsTold (F.seen files.old).folder (map string_bytes words.now) text.items) }
    ensures refused { IfErr result (IsRefused (F.seen files.old) (F.seen files.new) (other_words (map string_bytes words.now))) }
{
    let others = other_words(alloc, words)?;
    frame(alloc, &others, asks_json(words), files)
}

/// What the options mean, or what the words ask for.
fn outcome<F: Files>(alloc: Global, words: &[String], files: &mut F) -> Result<Vec<u8>, Fault>
    ensures told { OnFalse (asks_help (map string_bytes words.now)) (IfOk result (λ text. IsTold (F.seen files.old).folder (map string_bytes words.now) text.items)) }
    ensures refused { OnFalse (asks_help (map string_bytes words.now)) (IfErr result (IsRefused (F.seen files.old) (F.seen files.new) (other_words (map string_bytes words.now)))) }
    ensures helped { OnTrue (asks_help (map string_bytes words.now)) (IfErr result (λ fault. fault ≡ faults.Stop Memory)) }
{
    if asks_help(words) {
        return Ok(Vec::from_slice(alloc, HELP.as_bytes())?);
    }
    answer(alloc, words, files)
}

/// Tells the frame that the words ask for: the lines, or JSON, go to `out`, and at every status but 0 one line goes to `err`. The
/// first word is the program's own name, which is passed over.
pub fn tell_frame<F: Files, S: Sink, E: Sink>(
    alloc: Global,
    words: &[String],
    files: &mut F,
    out: &mut S,
    err: &mut E,
) -> u8
    ensures { Answers (drop 1 (map string_bytes words.now)) (F.seen files.old) (F.seen files.new) (S.seen out.old) (S.seen out.new)
        (E.seen err.old) (E.seen err.new) result }
{
    let outcome = outcome(alloc, after_name(words), files);
    end(out, err, outcome)
}
