//! The steps of a flow's values that a range shows.

ghost use Rattle.std.specs.Prelude.{◌≡◌, ◌<◌, ◌++◌, ◌∷◌, [], ◌^◌, IfOk, OnOk, drop};
ghost use Rattle.std.specs.List.{filter};
ghost use Rattle.prl_steps.specs.Steps.{greatest_of, is_step_seen, least_of, next_date, seen_steps};

use crate::samples::{Sample, Step};
use prl_drawing::{Scale, is_seen};
use std::alloc::{AllocError, Global};

/// The date of sample `i`; the end where there is none.
fn date_at(end: u64, samples: &[Sample], i: usize) -> u64
    ensures { result ≡ next_date end (drop i samples.now) }
{
    match samples.get(i) {
        Some(sample) => sample.date,
        None => end,
    }
}

/// Adds a step where a tick of it is drawn.
fn push_seen(steps: &mut Vec<Step>, scale: Scale, step: Step) -> Result<(), AllocError>
    requires from { scale.from < 2 ^ 32 }
    requires span { scale.span < 2 ^ 33 }
    ensures { OnOk result (steps.new.items ≡ steps.old.items ++ filter (is_step_seen scale) (step ∷ [])) }
{
    if is_seen(scale, step.from, step.until) {
        steps.push(step)?;
    }
    Ok(())
}

/// The steps of samples that a range shows, in order.
pub fn seen_steps(alloc: Global, scale: Scale, samples: &[Sample]) -> Result<Vec<Step>, AllocError>
    requires from { scale.from < 2 ^ 32 }
    requires span { scale.span < 2 ^ 33 }
    ensures { IfOk result (λ steps. steps.items ≡ seen_steps scale samples.now) }
{
    let mut steps = Vec::new(alloc);
    for (i, sample) in samples.iter().enumerate() {
        let step = Step {
            from: sample.date,
            until: date_at(scale.until, samples, i + 1),
            level: sample.level,
        };
        push_seen(&mut steps, scale, step)?;
    }
    Ok(steps)
}

/// The least and the greatest level of some steps and one more.
pub(crate) fn levels_of(first: u64, steps: &[Step]) -> (u64, u64)
    ensures { result ≡ (least_of first steps.now, greatest_of first steps.now) }
{
    let (mut least, mut greatest) = (first, first);
    for step in steps {
        least = least.min(step.level);
        greatest = greatest.max(step.level);
    }
    (least, greatest)
}
