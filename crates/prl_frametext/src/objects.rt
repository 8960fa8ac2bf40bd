//! A frame as JSON: an object with its hyperperiod and an array with an object for each slot.

ghost use Rattle.std.specs.Prelude.{◌≡◌, ◌++◌, ◌∷◌, IfOk, OnOk, codes};
ghost use Rattle.json.specs.Token.{key};
ghost use Rattle.prl_frametext.specs.Objects.{array_tokens, count, fields, flag, frame_tokens, job_tokens, json_text, mark_tokens, member_tokens, place_tokens, slot_tokens, slots_tokens, task_tokens, word};

use crate::names::text_of_name;
use json::Writer;
use prl_frames::Slot;
use prl_plan::Plan;
use std::alloc::{AllocError, Global};

/// Writes a member with a number.
fn put_count(w: &mut Writer, key: &str, number: u64) -> Result<(), AllocError>
    ensures tokens { OnOk result (w.new.tokens ≡ w.old.tokens ++ count key.now number) }
    ensures before { w.new.before ≡ w.old.before }
{
    w.key(key)?;
    w.u64(number)?;
    Ok(())
}

/// Writes a member with a text.
fn put_word(w: &mut Writer, key: &str, text: &str) -> Result<(), AllocError>
    ensures tokens { OnOk result (w.new.tokens ≡ w.old.tokens ++ word key.now text.now) }
    ensures before { w.new.before ≡ w.old.before }
{
    w.key(key)?;
    w.string(text)?;
    Ok(())
}

/// Writes a member with yes or no.
fn put_flag(w: &mut Writer, key: &str, is: bool) -> Result<(), AllocError>
    ensures tokens { OnOk result (w.new.tokens ≡ w.old.tokens ++ flag key.now is) }
    ensures before { w.new.before ≡ w.old.before }
{
    w.key(key)?;
    w.boolean(is)?;
    Ok(())
}

/// Writes where a slot stands.
fn put_place(w: &mut Writer, slot: Slot) -> Result<(), AllocError>
    ensures tokens { OnOk result (w.new.tokens ≡ w.old.tokens ++ place_tokens slot) }
    ensures before { w.new.before ≡ w.old.before }
{
    put_count(w, "at", slot.at)?;
    put_count(w, "units", slot.units)?;
    Ok(())
}

/// Writes the task of a slot.
fn put_task(w: &mut Writer, plan: &Plan, slot: Slot) -> Result<(), AllocError>
    ensures tokens { OnOk result (w.new.tokens ≡ w.old.tokens ++ task_tokens plan.now.graph slot) }
    ensures before { w.new.before ≡ w.old.before }
{
    put_count(w, "task", u64::from(slot.task.0))?;
    put_word(w, "name", text_of_name(plan, slot.task))?;
    Ok(())
}

/// Writes the job of a slot, and from which hyperperiod on it holds.
fn put_job(w: &mut Writer, slot: Slot) -> Result<(), AllocError>
    ensures tokens { OnOk result (w.new.tokens ≡ w.old.tokens ++ job_tokens slot) }
    ensures before { w.new.before ≡ w.old.before }
{
    put_count(w, "job", slot.job)?;
    put_count(w, "from", slot.from)?;
    Ok(())
}

/// Writes whether a slot is the first one of its job, and the last one.
fn put_marks(w: &mut Writer, slot: Slot) -> Result<(), AllocError>
    ensures tokens { OnOk result (w.new.tokens ≡ w.old.tokens ++ mark_tokens slot) }
    ensures before { w.new.before ≡ w.old.before }
{
    put_flag(w, "first", slot.first)?;
    put_flag(w, "last", slot.last)?;
    Ok(())
}

/// Writes where a slot stands, and its task.
fn put_front(w: &mut Writer, plan: &Plan, slot: Slot) -> Result<(), AllocError>
    ensures tokens { OnOk result (w.new.tokens ≡ w.old.tokens ++ (place_tokens slot ++ task_tokens plan.now.graph slot)) }
    ensures before { w.new.before ≡ w.old.before }
{
    put_place(w, slot)?;
    put_task(w, plan, slot)?;
    Ok(())
}

/// Writes the job of a slot, and its marks.
fn put_back(w: &mut Writer, slot: Slot) -> Result<(), AllocError>
    ensures tokens { OnOk result (w.new.tokens ≡ w.old.tokens ++ (job_tokens slot ++ mark_tokens slot)) }
    ensures before { w.new.before ≡ w.old.before }
{
    put_job(w, slot)?;
    put_marks(w, slot)?;
    Ok(())
}

/// Writes the members of a slot.
fn put_fields(w: &mut Writer, plan: &Plan, slot: Slot) -> Result<(), AllocError>
    ensures tokens { OnOk result (w.new.tokens ≡ w.old.tokens ++ fields plan.now.graph slot) }
    ensures before { w.new.before ≡ w.old.before }
{
    put_front(w, plan, slot)?;
    put_back(w, slot)?;
    Ok(())
}

/// Writes the object of a slot.
fn put_slot(w: &mut Writer, plan: &Plan, slot: Slot) -> Result<(), AllocError>
    ensures tokens { OnOk result (w.new.tokens ≡ w.old.tokens ++ slot_tokens plan.now.graph slot) }
    ensures before { w.new.before ≡ w.old.before }
{
    w.begin_object()?;
    put_fields(w, plan, slot)?;
    w.end_object()?;
    Ok(())
}

/// Writes the objects of some slots.
fn put_slots(w: &mut Writer, plan: &Plan, slots: &[Slot]) -> Result<(), AllocError>
    ensures tokens { OnOk result (w.new.tokens ≡ w.old.tokens ++ slots_tokens plan.now.graph slots.now) }
    ensures before { w.new.before ≡ w.old.before }
{
    for slot in slots {
        put_slot(w, plan, *slot)?;
    }
    Ok(())
}

/// Writes the array of some slots.
fn put_array(w: &mut Writer, plan: &Plan, slots: &[Slot]) -> Result<(), AllocError>
    ensures tokens { OnOk result (w.new.tokens ≡ w.old.tokens ++ array_tokens plan.now.graph slots.now) }
    ensures before { w.new.before ≡ w.old.before }
{
    w.begin_array()?;
    put_slots(w, plan, slots)?;
    w.end_array()?;
    Ok(())
}

/// Writes the member with the slots.
fn put_list(w: &mut Writer, plan: &Plan, slots: &[Slot]) -> Result<(), AllocError>
    ensures tokens { OnOk result (w.new.tokens ≡ w.old.tokens ++ key (codes "slots") ∷ array_tokens plan.now.graph slots.now) }
    ensures before { w.new.before ≡ w.old.before }
{
    w.key("slots")?;
    put_array(w, plan, slots)?;
    Ok(())
}

/// Writes the members of a frame.
fn put_members(w: &mut Writer, plan: &Plan, slots: &[Slot]) -> Result<(), AllocError>
    ensures tokens { OnOk result (w.new.tokens ≡ w.old.tokens ++ member_tokens plan.now.graph slots.now) }
    ensures before { w.new.before ≡ w.old.before }
{
    put_count(w, "hyperperiod", plan.graph().hyper)?;
    put_list(w, plan, slots)?;
    Ok(())
}

/// Writes the object of a frame.
fn put_frame(w: &mut Writer, plan: &Plan, slots: &[Slot]) -> Result<(), AllocError>
    ensures tokens { OnOk result (w.new.tokens ≡ w.old.tokens ++ frame_tokens plan.now.graph slots.now) }
    ensures before { w.new.before ≡ w.old.before }
{
    w.begin_object()?;
    put_members(w, plan, slots)?;
    w.end_object()?;
    Ok(())
}

/// A frame of the plan as JSON.
pub fn json_of(alloc: Global, plan: &Plan, slots: &[Slot]) -> Result<Vec<u8>, AllocError>
    ensures { IfOk result (λ text. text.items ≡ json_text plan.now.graph slots.now) }
{
    let mut writer = Writer::new(Vec::new(alloc));
    put_frame(&mut writer, plan, slots)?;
    let mut text = writer.into_inner();
    text.push(b'\n')?;
    Ok(text)
}
