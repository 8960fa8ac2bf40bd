//! The line that tells what the analysis of a plan has found.

ghost use Rattle.std.specs.Prelude.{◌≡◌, ◌++◌, IfOk, OnOk};
ghost use Rattle.std.specs.Fmt.{decimal};
ghost use Rattle.prl_plan.specs.Horizons.{IsHorizon, constants_of};
ghost use Rattle.prl_overlaps.specs.Demand.{wcets_of};
ghost use Rattle.prl_edf.specs.Verdicts.{IsVerdict};
ghost use Rattle.prl_edf.specs.VerdictTexts.{run_line, overload_line, verdict_line};

use crate::analysis::Verdict;
use prl_base::push_number;
use prl_plan::{Horizon, Plan};
use std::alloc::{AllocError, Global};

/// Appends some words and a number.
fn push_field(text: &mut Vec<u8>, words: &[u8], number: u64) -> Result<(), AllocError>
    ensures { OnOk result (text.new.items ≡ text.old.items ++ words.now ++ decimal number) }
{
    text.extend_from_slice(words)?;
    push_number(text, number)
}

/// Appends the line of a run.
fn push_run(text: &mut Vec<u8>, jobs: u64, pieces: u64, ticks: u64) -> Result<(), AllocError>
    ensures { OnOk result (text.new.items ≡ text.old.items ++ run_line jobs pieces ticks) }
{
    push_field(text, b"feasible jobs ", jobs)?;
    push_field(text, b" slices ", pieces)?;
    push_field(text, b" busy ", ticks)?;
    text.push(b'\n')?;
    Ok(())
}

/// Appends the line of an overload.
fn push_overload(text: &mut Vec<u8>, from: u64, to: u64, demand: u64) -> Result<(), AllocError>
    ensures { OnOk result (text.new.items ≡ text.old.items ++ overload_line from to demand) }
{
    push_field(text, b"overload ", from)?;
    push_field(text, b" ", to)?;
    push_field(text, b" demand ", demand)?;
    push_field(text, b" has ", to.saturating_sub(from))?;
    text.push(b'\n')?;
    Ok(())
}

/// The line of what the analysis of a plan has found, with its end: how many jobs and pieces the
/// run has and for how many ticks the processor is busy, or the overloaded interval with its demand
/// and its length.
pub fn verdict_text(
    alloc: Global,
    plan: &Plan,
    horizon: Horizon,
    verdict: &Verdict,
) -> Result<Vec<u8>, AllocError>
    requires { IsVerdict (constants_of plan.now horizon) (wcets_of plan.now) verdict.now }
    ensures { IfOk result (λ text. text.items ≡ verdict_line horizon.jobs verdict.now) }
{
    let _ = plan;
    let mut text = Vec::new(alloc);
    match verdict {
        Verdict::Run(timed) => push_run(
            &mut text,
            horizon.jobs,
            timed.pieces.len() as u64,
            timed.ticks(),
        )?,
        Verdict::Overload { from, to, demand } => push_overload(&mut text, *from, *to, *demand)?,
    }
    Ok(text)
}
