//! The plots that the words ask for, and the call that draws them.

ghost use Rattle.std.specs.Prelude.{◌≡◌, drop, map, IfOk};
ghost use Rattle.std.specs.Bool.{OnFalse};
ghost use Rattle.std.specs.String.{string_bytes};
ghost use Rattle.prl_io.specs.Pairs.{asks_help};
ghost use Rattle.prl_plot.specs.Answers.{Answers, IsInRange, IsPlotted};

use crate::asked::asked;
use crate::chosen::chosen;
use crate::words::{FORM, HELP, OPTIONS, range_of, tick_unit};
use prl_io::{Fault, Files, Sink, Stop, after_name, are_pairs, asks_help, end, value_of};
use prl_steps::{Flow, MAX_PLOTS, plots_of};
use std::alloc::Global;

/// Why there are no plots.
const TOO_MANY: &str = "more than 256 flows: choose some by --flow";

/// Whether the words have the form that is wanted: pairs of an option and its value, of which one names rows.
fn are_words(words: &[String]) -> bool {
    are_pairs(&OPTIONS, words)
        && (value_of(b"--sensors", words).is_some() || value_of(b"--actuators", words).is_some())
}

/// The plots of flows over the range that the words ask for.
fn plots(alloc: Global, words: &[String], flows: &[Flow]) -> Result<Vec<u8>, Fault>
    ensures { IfOk result (λ text. IsInRange (map string_bytes words.now) flows.now text.items) }
{
    if flows.len() > MAX_PLOTS {
        return Err(Fault::Stop(Stop::Refused(TOO_MANY)));
    }
    let (Some(scale), Some(unit)) = (range_of(words, flows), tick_unit(words)) else {
        return Err(Fault::Stop(Stop::Words(FORM)));
    };
    Ok(plots_of(alloc, flows, scale, &unit)?)
}

/// The plots that the words ask for.
fn plotted<F: Files>(alloc: Global, words: &[String], files: &mut F) -> Result<Vec<u8>, Fault>
    ensures { IfOk result (λ text. IsPlotted (F.seen files.old).folder (map string_bytes words.now) text.items) }
{
    if !are_words(words) {
        return Err(Fault::Stop(Stop::Words(FORM)));
    }
    let flows = asked(alloc, words, files)?;
    let chosen = chosen(alloc, words, flows)?;
    plots(alloc, words, &chosen)
}

/// What the words ask for: what the options mean, or plots.
fn answer<F: Files>(alloc: Global, words: &[String], files: &mut F) -> Result<Vec<u8>, Fault>
    ensures { OnFalse (asks_help (map string_bytes words.now)) (IfOk result (λ text. IsPlotted (F.seen files.old).folder (map string_bytes words.now) text.items)) }
{
    if asks_help(words) {
        return Ok(Vec::from_slice(alloc, HELP.as_bytes())?);
    }
    plotted(alloc, words, files)
}

/// Draws rows: the plots go to `out`, and at every status but 0 one line goes to `err`. The first word is the program's
/// own name, which is passed over.
pub fn plot<F: Files, S: Sink, E: Sink>(
    alloc: Global,
    words: &[String],
    files: &mut F,
    out: &mut S,
    err: &mut E,
) -> u8
    ensures { Answers (drop 1 (map string_bytes words.now)) (F.seen files.old) (S.seen out.old) (S.seen out.new)
        (E.seen err.old) (E.seen err.new) result }
{
    let outcome = answer(alloc, after_name(words), files);
    end(out, err, outcome)
}
