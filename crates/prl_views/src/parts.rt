//! The rows of processors: which processors have tasks, and the parts of ticks where the marks of tasks
//! that act stand there. Where several tasks of a processor act at one tick, they share it.

ghost use Rattle.std.specs.Prelude.{◌≡◌, ◌+◌, ◌≤◌, ◌<◌, ◌==◌, ◌^◌, ◌++◌, All, IfOk, OnOk, length, map, slice_index};
ghost use Rattle.std.specs.Bool.{OnTrue};
ghost use Rattle.std.specs.List.{flat_map, position_or_len};
ghost use Rattle.prl_plan.specs.declared.limits.TheConstants.{MAX_TASKS};
ghost use Rattle.prl_views.specs.declared.parts.Part.{Part as AnyPart};
ghost use Rattle.prl_views.specs.Parts.{ArePartsOf, IsWithin, is_act_seen, part_text, processor_row, seen_one, tick_width, used_of, used_one};
ghost use Rattle.prl_drawing.specs.Scales.{IsScale};

use crate::verdicts::HIGH;
use prl_base::TaskNo;
use prl_drawing::{GAP, Scale, push_mark, row_of, x_within};
use prl_shapes::{Act, is_in};
use std::alloc::{AllocError, Global};

/// How many processors there are at most.
pub const MOST_PROCESSORS: u32 = 16;

/// A part of the tick of an act: where it begins, and how wide it is.
#[derive(Clone, Copy)]
pub struct Part {
    pub act: Act,
    pub left: u64,
    pub width: u64,
}

/// Adds a processor, where it has tasks.
fn push_used(used: &mut Vec<u32>, processors: &[u32], processor: u32) -> Result<(), AllocError>
    ensures exact { OnOk result (used.new.items ≡ used.old.items ++ used_one processors.now processor) }
    ensures few { OnOk result (length used.new.items ≤ length used.old.items + 1) }
{
    if is_in(processors, processor) {
        used.push(processor)?;
    }
    Ok(())
}

/// The processors that have tasks, in order.
pub(crate) fn used_of(alloc: Global, processors: &[u32]) -> Result<Vec<u32>, AllocError>
    ensures exact { IfOk result (λ used. used.items ≡ used_of processors.now) }
    ensures few { IfOk result (λ used. length used.items ≤ MOST_PROCESSORS) }
{
    let mut used = Vec::new(alloc);
    for processor in 0..MOST_PROCESSORS {
        push_used(&mut used, processors, processor)?;
    }
    Ok(used)
}

/// The processor of a task.
fn processor_of(processors: &[u32], task: TaskNo) -> u32
    ensures { result ≡ slice_index processors.now task.0 }
{
    match processors.get(task.0 as usize) {
        Some(processor) => *processor,
        None => 0,
    }
}

/// Where a processor stands among these.
fn place_of(used: &[u32], processor: u32) -> u32
    requires { length used.now ≤ MOST_PROCESSORS }
    ensures exact { result ≡ position_or_len (λ p. p == processor) used.now }
    ensures small { result ≤ MOST_PROCESSORS }
{
    for (i, one) in used.iter().enumerate() {
        if *one == processor {
            return i as u32;
        }
    }
    used.len() as u32
}

/// The row of a task's processor.
pub(crate) fn processor_row(rows: u32, processors: &[u32], used: &[u32], task: TaskNo) -> u32
    requires used { used.now ≡ used_of processors.now }
    requires few { length used.now ≤ MOST_PROCESSORS }
    requires rows { rows ≤ MAX_TASKS }
    ensures { result ≡ processor_row rows processors.now task.0 }
{
    rows + place_of(used, processor_of(processors, task))
}

/// How many of the first `j` acts are at the tick of this one and on its processor.
fn count_before(processors: &[u32], acts: &[Act], act: Act, j: usize) -> u64
    requires { j ≤ length acts.now }
{
    let mut count: u64 = 0;
    for k in 0..j {
        let other = acts[j - 1 - k];
        if other.tick != act.tick {
            return count;
        }
        if processor_of(processors, other.task) == processor_of(processors, act.task) {
            count = count.saturating_add(1);
        }
    }
    count
}

/// How many of the acts from number `j` on are at the tick of this one and on its processor.
fn count_from(processors: &[u32], acts: &[Act], act: Act, j: usize) -> u64
    requires { j ≤ length acts.now }
{
    let mut count: u64 = 0;
    for other in &acts[j..] {
        if other.tick != act.tick {
            return count;
        }
        if processor_of(processors, other.task) == processor_of(processors, act.task) {
            count = count.saturating_add(1);
        }
    }
    count
}

/// So many shares of a width that is shared by all.
fn share(width: u64, shares: u64, all: u64) -> u64
    ensures { result ≤ width }
{
    (width.saturating_mul(shares) / all.max(1)).min(width)
}

/// Whether the tick of an act is drawn.
fn is_act_seen(scale: Scale, act: Act) -> bool
    requires from { scale.from < 2 ^ 32 }
    requires span { scale.span < 2 ^ 33 }
    ensures seen { result ≡ is_act_seen scale act }
    ensures tick { OnTrue result (act.tick < 2 ^ 34) }
{
    scale.from <= act.tick && act.tick < scale.from + scale.span
}

/// How wide a tick is drawn in the row of a processor.
fn tick_width(scale: Scale, tick: u64) -> u64
    requires range { IsScale scale }
    requires tick { tick < 2 ^ 34 }
    ensures { result ≡ tick_width scale tick }
{
    let left = x_within(scale, tick);
    let right = x_within(scale, tick + 1);
    right.saturating_sub(left)
}

/// The part of its tick that act number `j` is drawn in.
fn part_of(scale: Scale, processors: &[u32], acts: &[Act], act: Act, j: usize) -> Part
    requires range { IsScale scale }
    requires tick { act.tick < 2 ^ 34 }
    requires act { j ≤ length acts.now }
    ensures act { result.act ≡ act }
    ensures within { IsWithin scale result }
{
    let left = x_within(scale, act.tick);
    let width = tick_width(scale, act.tick);
    let before = count_before(processors, acts, act, j);
    let all = before.saturating_add(count_from(processors, acts, act, j));
    let from = share(width, before, all);
    let to = share(width, before.saturating_add(1), all);
    Part {
        act,
        left: left.saturating_add(from),
        width: to.saturating_sub(from),
    }
}

/// Adds the part of its tick that act number `j` is drawn in, where its tick is drawn.
fn push_seen(
    parts: &mut Vec<Part>,
    scale: Scale,
    processors: &[u32],
    acts: &[Act],
    act: Act,
    j: usize,
) -> Result<(), AllocError>
    requires range { IsScale scale }
    requires act { j ≤ length acts.now }
    ensures each { OnOk result (map (λ (part : AnyPart). part.act) parts.new.items ≡ map (λ (part : AnyPart). part.act) parts.old.items ++ seen_one scale act) }
    ensures within { OnOk result (All (IsWithin scale) parts.old.items → All (IsWithin scale) parts.new.items) }
{
    if is_act_seen(scale, act) {
        parts.push(part_of(scale, processors, acts, act, j))?;
    }
    Ok(())
}

/// The parts of ticks that these acts are drawn in, each once, in order.
pub(crate) fn parts_of(
    alloc: Global,
    scale: Scale,
    processors: &[u32],
    acts: &[Act],
) -> Result<Vec<Part>, AllocError>
    requires range { IsScale scale }
    ensures { IfOk result (λ parts. ArePartsOf scale acts.now parts.items) }
{
    let mut parts = Vec::new(alloc);
    for (j, act) in acts.iter().enumerate() {
        push_seen(&mut parts, scale, processors, acts, *act, j)?;
    }
    Ok(parts)
}

/// Appends a mark where a part begins, in the row of its processor.
fn push_part(
    text: &mut Vec<u8>,
    rows: u32,
    processors: &[u32],
    used: &[u32],
    part: &Part,
) -> Result<(), AllocError>
    requires used { used.now ≡ used_of processors.now }
    requires few { length used.now ≤ MOST_PROCESSORS }
    requires rows { rows ≤ MAX_TASKS }
    ensures { OnOk result (text.new.items ≡ text.old.items ++ part_text rows processors.now part.now) }
{
    let row = processor_row(rows, processors, used, part.act.task);
    let top = row_of(row) + GAP;
    push_mark(text, part.act.task.0, part.left, top, HIGH)
}

/// The marks of the parts, each once, in the rows of their processors.
pub(crate) fn part_texts(
    alloc: Global,
    rows: u32,
    processors: &[u32],
    parts: &[Part],
) -> Result<Vec<u8>, AllocError>
    requires rows { rows ≤ MAX_TASKS }
    ensures { IfOk result (λ text. text.items ≡ flat_map (part_text rows processors.now) parts.now) }
{
    let used = used_of(alloc, processors)?;
    let mut text = Vec::new(alloc);
    for part in parts {
        push_part(&mut text, rows, processors, &used, part)?;
    }
    Ok(text)
}
