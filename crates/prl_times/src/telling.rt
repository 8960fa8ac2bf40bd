//! What is told of a plan, and the call that tells it.

ghost use Rattle.std.specs.Prelude.{◌≡◌, IfErr, IfOk, OnOk, codes, cond, drop, map};
ghost use Rattle.std.specs.Bool.{OnFalse, OnTrue};
ghost use Rattle.std.specs.String.{string_bytes};
ghost use Rattle.prl_io.specs.Faults.{IsUnfit};
ghost use Rattle.prl_io.specs.Pairs.{asks_help};
ghost use Rattle.prl_io.specs.declared.endings.Stop.TheVariants.{Memory};
ghost use Rattle.prl_io.specs.declared.faults.Fault.TheVariants as faults;
ghost use Rattle.prl_timetext.specs.Objects.{json_text};
ghost use Rattle.prl_timetext.specs.Texts.{rows_text};
ghost use Rattle.prl_times.specs.Answers.{Answers};
ghost use Rattle.prl_times.specs.Options.{asks_json, file_of, other_words, pairs_of};
ghost use Rattle.prl_times.specs.Refused.{above_line, IsRefused, IsRefusedOf};
ghost use Rattle.prl_times.specs.Told.{AreRowsAsked, AreWithin, IsTold, IsToldBy, IsToldOf};

use crate::asked::{chain_asked, rows_asked};
use crate::limits::above;
use crate::options::{
    FORM, HELP, asks_json, file_of, is_command, number_in, other_words, with_values,
};
use prl_base::{TaskNo, push_number};
use prl_io::{
    Fault, Files, Sink, Stop, after_name, asks_help, end, read_named, unfit_for, value_of,
};
use prl_plan::Plan;
use prl_plantext::{PlanFault, read_plan};
use prl_timetext::{Row, json_of, push_row, text_of};
use std::alloc::{AllocError, Global};

/// The most bytes of a plan's text.
pub const MAX_PLAN: u64 = 33_554_432;

/// Why there is nothing to tell.
const NO_PLAN: &str = "not the text of a plan";

/// Says that the file of a name is no plan.
fn no_plan(alloc: Global, name: &[u8]) -> Fault
    ensures { IsUnfit name.now (codes "not the text of a plan") result }
{
    unfit_for(alloc, name, Vec::from_slice(alloc, NO_PLAN.as_bytes()))
}

/// What is told where rows are above a limit.
fn above_line(
    alloc: Global,
    plan: &Plan,
    chain: &[TaskNo],
    limit: u64,
    rows: &[Row],
) -> Result<Vec<u8>, AllocError>
    ensures { IfOk result (λ line. line.items ≡ above_line plan.now.graph chain.now limit rows.now) }
{
    let mut line = Vec::new(alloc);
    line.extend_from_slice(b"above ")?;
    push_number(&mut line, limit)?;
    for row in rows {
        line.extend_from_slice(b": ")?;
        push_row(&mut line, plan, chain, row)?;
    }
    Ok(line)
}

/// The fault that tells the rows that are above a limit.
fn above_fault(
    alloc: Global,
    words: &[String],
    plan: &Plan,
    chain: &[TaskNo],
    limit: u64,
    above: &[Row],
) -> Fault
    ensures { IsUnfit (file_of (map string_bytes words.now)) (above_line plan.now.graph chain.now limit above.now) result }
{
    let line = above_line(alloc, plan, chain, limit, above);
    unfit_for(alloc, file_of(words), line)
}

/// Nothing, where no row is above the limit that the words name, if they name one; else a fault that tells those that are.
fn within(
    alloc: Global,
    words: &[String],
    plan: &Plan,
    chain: &[TaskNo],
    rows: &[Row],
) -> Result<(), Fault>
    requires { AreRowsAsked plan.now (map string_bytes words.now) chain.now rows.now }
    ensures told { OnOk result (AreWithin (map string_bytes words.now) rows.now) }
    ensures refused { IfErr result (IsRefusedOf plan.now (map string_bytes words.now)) }
{
    let Some(word) = value_of(b"--limit", words) else {
        return Ok(());
    };
    let Some(limit) = number_in(word, u64::MAX) else {
        return Err(Fault::Stop(Stop::Words(FORM)));
    };
    let above = above(alloc, limit, rows)?;
    if above.is_empty() {
        return Ok(());
    }
    Err(above_fault(alloc, words, plan, chain, limit, &above))
}

/// Rows as lines or as JSON.
fn written(
    alloc: Global,
    plan: &Plan,
    json: bool,
    chain: &[TaskNo],
    rows: &[Row],
) -> Result<Vec<u8>, AllocError>
    ensures { IfOk result (λ text. text.items ≡ cond json (json_text plan.now.graph rows.now) (rows_text plan.now.graph chain.now rows.now)) }
{
    if json {
        json_of(alloc, plan, rows)
    } else {
        text_of(alloc, plan, chain, rows)
    }
}

/// The rows that the words ask for, as lines or as JSON.
fn told(alloc: Global, words: &[String], json: bool, plan: &Plan) -> Result<Vec<u8>, Fault>
    ensures told { IfOk result (λ text. IsToldOf plan.now json (map string_bytes words.now) text.items) }
    ensures refused { IfErr result (IsRefusedOf plan.now (map string_bytes words.now)) }
{
    let chain = chain_asked(alloc, words, plan)?;
    let rows = rows_asked(alloc, words, plan, &chain)?;
    within(alloc, words, plan, &chain, &rows)?;
    Ok(written(alloc, plan, json, &chain, &rows)?)
}

/// What the words ask for, of the plan in the file that they name.
fn times<F: Files>(
    alloc: Global,
    words: &[String],
    json: bool,
    files: &mut F,
) -> Result<Vec<u8>, Fault>
    ensures told { IfOk result (λ text. IsToldBy json (F.seen files.old).folder (map string_bytes words.now) text.items) }
    ensures refused { IfErr result (IsRefused (F.seen files.old) (F.seen files.new) (map string_bytes words.now)) }
{
    if !is_command(words) {
        return Err(Fault::Stop(Stop::Words(FORM)));
    }
    let name = file_of(words);
    let source = read_named(alloc, files, name, MAX_PLAN)?;
    match read_plan(alloc, &source) {
        Ok(plan) => told(alloc, words, json, &plan),
        Err(PlanFault::NotPlan) => Err(no_plan(alloc, name)),
        Err(PlanFault::Memory) => Err(Fault::Stop(Stop::Memory)),
    }
}

/// What the words ask for, as lines, or as JSON where they ask for it. A word that asks for ever has a value.
fn valued_answer<F: Files>(alloc: Global, words: &[String], files: &mut F) -> Result<Vec<u8>, Fault>
    ensures told { IfOk result (λ text. IsToldBy (asks_json (map string_bytes words.now)) (F.seen files.old).folder (other_words (map string_bytes words.now)) text.items) }
    ensures refused { IfErr result (IsRefused (F.seen files.old) (F.seen files.new) (other_words (map string_bytes words.now))) }
{
    let others = other_words(alloc, words)?;
    times(alloc, &others, asks_json(words), files)
}

/// What the words ask for.
fn answer<F: Files>(alloc: Global, words: &[String], files: &mut F) -> Result<Vec<u8>, Fault>
    ensures told { IfOk result (λ text. IsTold (F.seen files.old).folder (map string_bytes words.now) text.items) }
    ensures refused { IfErr result (IsRefused (F.seen files.old) (F.seen files.new) (pairs_of (map string_bytes words.now))) }
{
    let valued = with_values(alloc, words)?;
    valued_answer(alloc, &valued, files)
}

/// What the options mean, or what the words ask for.
fn outcome<F: Files>(alloc: Global, words: &[String], files: &mut F) -> Result<Vec<u8>, Fault>
    ensures told { OnFalse (asks_help (map string_bytes words.now)) (IfOk result (λ text. IsTold (F.seen files.old).folder (map string_bytes words.now) text.items)) }
    ensures refused { OnFalse (asks_help (map string_bytes words.now)) (IfErr result (IsRefused (F.seen files.old) (F.seen files.new) (pairs_of (map string_bytes words.now)))) }
    ensures helped { OnTrue (asks_help (map string_bytes words.now)) (IfErr result (λ fault. fault ≡ faults.Stop Memory)) }
{
    if asks_help(words) {
        return Ok(Vec::from_slice(alloc, HELP.as_bytes())?);
    }
    answer(alloc, words, files)
}

/// Tells what the words ask for of a plan: the lines, or JSON, go to `out`, and at every status but 0 one line goes to `err`. The
/// first word is the program's own name, which is passed over.
pub fn tell<F: Files, S: Sink, E: Sink>(
    alloc: Global,
    words: &[String],
    files: &mut F,
    out: &mut S,
    err: &mut E,
) -> u8
    ensures { Answers (drop 1 (map string_bytes words.now)) (F.seen files.old) (F.seen files.new) (S.seen out.old) (S.seen out.new)
        (E.seen err.old) (E.seen err.new) result }
{
    let outcome = outcome(alloc, after_name(words), files);
    end(out, err, outcome)
}
