//! Entries cut at the ends of hyperperiods.

ghost use Rattle.std.specs.Prelude.{◌≡◌, ◌+◌, ◌*◌, ◌/◌, ◌++◌, ◌<◌, ◌≤◌, ◌^◌, map, vec_items, IfOk, OnOk};
ghost use Rattle.prl_tables.specs.Tables.{ArePieces, IsPiece};
ghost use Rattle.prl_frames.specs.code.Making.{cut, cut_all, edge_after, slot_of, span_of, AreSpans};

use crate::slots::Slot;
use crate::spans::{Span, span_at};
use prl_plan::{Plan, plan_is_one};
use prl_tables::{Entry, pieces_are_short};
use std::alloc::{AllocError, Global};

/// The slot of an entry's ticks from one up to another.
fn slot_of(hyper: u64, span: Span, entry: Entry, from: u64, to: u64) -> Slot
    requires hyper { 1 ≤ hyper }
    requires order { from ≤ to }
    ensures { result ≡ slot_of hyper span entry from to }
{
    Slot {
        at: from % hyper,
        units: to - from,
        task: entry.task,
        job: entry.job,
        from: from / hyper,
        first: from == span.begin,
        last: to == span.end,
    }
}

/// Where the hyperperiod of a tick ends.
fn edge_after(hyper: u64, tick: u64) -> u64
    requires hyper { (1 ≤ hyper) × (hyper < 2 ^ 32) }
    requires tick { tick < 2 ^ 33 }
    ensures { result ≡ edge_after hyper tick }
{
    (tick / hyper + 1) * hyper
}

/// Appends the slots of an entry.
fn push_cut(slots: &mut Vec<Slot>, hyper: u64, span: Span, entry: Entry) -> Result<(), AllocError>
    requires hyper { (1 ≤ hyper) × (hyper < 2 ^ 32) }
    requires end { entry.at + entry.units < 2 ^ 33 }
    ensures { OnOk result (slots.new.items ≡ slots.old.items ++ cut hyper span entry) }
{
    let (edge, end) = (edge_after(hyper, entry.at), entry.at + entry.units);
    if end <= edge {
        slots.push(slot_of(hyper, span, entry, entry.at, end))?;
        return Ok(());
    }
    slots.push(slot_of(hyper, span, entry, entry.at, edge))?;
    slots.push(slot_of(hyper, span, entry, edge, end))?;
    Ok(())
}

/// The slots of the entries, in their order.
pub(crate) fn cut_all(
    alloc: Global,
    plan: &Plan,
    entries: &[Entry],
    spans: &[Vec<Span>],
) -> Result<Vec<Slot>, AllocError>
    requires pieces { ArePieces plan.now entries.now }
    requires spans { AreSpans plan.now entries.now (map vec_items spans.now) }
    ensures { IfOk result (λ slots. slots.items ≡ cut_all plan.now.graph.hyper entries.now entries.now) }
{
    plan_is_one(plan);
    pieces_are_short();
    let hyper = plan.graph().hyper;
    let mut slots = Vec::new(alloc);
    for entry in entries {
        let span = span_at(plan, entries, spans, *entry);
        push_cut(&mut slots, hyper, span, *entry)?;
    }
    Ok(slots)
}
