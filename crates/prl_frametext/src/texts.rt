//! The lines of a frame.

ghost use Rattle.std.specs.Prelude.{◌≡◌, ◌++◌, ◌≤◌, IfOk, OnOk, cond, codes, decimal, [], false, true};
ghost use Rattle.prl_frames.specs.Frames.{AreInOrder};
ghost use Rattle.prl_frametext.specs.Texts.{frame_text, idle_line, job_words, lines_from, mark_words, place_words, slot_line};

use crate::names::name_of;
use prl_base::push_number;
use prl_frames::Slot;
use prl_plan::Plan;
use std::alloc::{AllocError, Global};

/// Appends some words and a number.
fn push_field(text: &mut Vec<u8>, words: &[u8], number: u64) -> Result<(), AllocError>
    ensures { OnOk result (text.new.items ≡ text.old.items ++ words.now ++ decimal number) }
{
    text.extend_from_slice(words)?;
    push_number(text, number)
}

/// Appends where a slot stands.
fn push_place(text: &mut Vec<u8>, slot: Slot) -> Result<(), AllocError>
    ensures { OnOk result (text.new.items ≡ text.old.items ++ place_words slot) }
{
    push_field(text, b"at ", slot.at)?;
    push_field(text, b" units ", slot.units)?;
    Ok(())
}

/// Appends the job of a slot, and from which hyperperiod on it holds.
fn push_job(text: &mut Vec<u8>, plan: &Plan, slot: Slot) -> Result<(), AllocError>
    ensures { OnOk result (text.new.items ≡ text.old.items ++ job_words plan.now.graph slot) }
{
    push_field(text, b" task ", u64::from(slot.task.0))?;
    text.extend_from_slice(b" ")?;
    text.extend_from_slice(name_of(plan, slot.task))?;
    push_field(text, b" job ", slot.job)?;
    push_field(text, b" from ", slot.from)?;
    Ok(())
}

/// Appends a word, where it is to stand.
fn push_word(text: &mut Vec<u8>, stands: bool, word: &[u8]) -> Result<(), AllocError>
    ensures { OnOk result (text.new.items ≡ text.old.items ++ cond stands word.now []) }
{
    if stands {
        text.extend_from_slice(word)?;
    }
    Ok(())
}

/// Appends whether a slot is the first one of its job, and the last one.
fn push_marks(text: &mut Vec<u8>, slot: Slot) -> Result<(), AllocError>
    ensures { OnOk result (text.new.items ≡ text.old.items ++ mark_words slot) }
{
    push_word(text, slot.first, b" first")?;
    push_word(text, slot.last, b" last")?;
    Ok(())
}

/// Appends the line of a slot, with its end.
fn push_slot(text: &mut Vec<u8>, plan: &Plan, slot: Slot) -> Result<(), AllocError>
    ensures { OnOk result (text.new.items ≡ text.old.items ++ slot_line plan.now.graph slot) }
{
    push_place(text, slot)?;
    push_job(text, plan, slot)?;
    push_marks(text, slot)?;
    text.extend_from_slice(b"\n")
}

/// Appends the line of an idle time, with its end, where it has a tick.
fn push_idle(text: &mut Vec<u8>, from: u64, to: u64) -> Result<(), AllocError>
    ensures { OnOk result (text.new.items ≡ text.old.items ++ idle_line from to) }
{
    if from < to {
        push_field(text, b"idle ", from)?;
        push_field(text, b" units ", to - from)?;
        text.extend_from_slice(b"\n")?;
    }
    Ok(())
}

/// Appends the lines of some slots.
fn push_lines(text: &mut Vec<u8>, plan: &Plan, slots: &[Slot]) -> Result<(), AllocError>
    requires { AreInOrder plan.now.graph.hyper 0 slots.now }
    ensures { OnOk result (text.new.items ≡ text.old.items ++ lines_from plan.now.graph 0 slots.now) }
{
    let mut from = 0;
    let hyper = plan.graph().hyper;
    for slot in slots {
        push_idle(text, from, slot.at)?;
        push_slot(text, plan, *slot)?;
        from = slot.at + slot.units;
    }
    push_idle(text, from, hyper)
}

/// The text of a frame of the plan: a header, the hyperperiod, and a line for each slot and for each idle time.
pub fn text_of(alloc: Global, plan: &Plan, slots: &[Slot]) -> Result<Vec<u8>, AllocError>
    requires { AreInOrder plan.now.graph.hyper 0 slots.now }
    ensures { IfOk result (λ text. text.items ≡ frame_text plan.now.graph slots.now) }
{
    let mut text = Vec::new(alloc);
    push_field(&mut text, b"frame 1\nhyperperiod ", plan.graph().hyper)?;
    text.extend_from_slice(b"\n")?;
    push_lines(&mut text, plan, slots)?;
    Ok(text)
}
