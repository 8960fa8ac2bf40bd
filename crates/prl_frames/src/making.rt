//! The frame of a table.

ghost use Rattle.std.specs.Prelude.{◌≡◌, IfOk};
ghost use Rattle.std.specs.List.Sorted.{IsNonDecreasingBy, IsPermutation};
ghost use Rattle.prl_tables.specs.Tables.{IsGood};
ghost use Rattle.prl_forever.specs.TableRuns.{goes_to};
ghost use Rattle.prl_frames.specs.Frames.{IsFrame};
ghost use Rattle.prl_frames.specs.declared.slots.Slot.{Slot as AnySlot};

use crate::cutting::cut_all;
use crate::joining::join;
use crate::slots::{Frame, Slot};
use crate::spans::all_spans;
use prl_base::Seq;
use prl_plan::{Plan, plan_is_one};
use prl_tables::{Entry, pieces_are_short};
use std::alloc::{AllocError, Global};

/// Puts the slots in the order of time.
fn sort(slots: &mut Vec<Slot>)
    ensures permutation { IsPermutation slots.old.items slots.new.items }
    ensures sorted { IsNonDecreasingBy (λ (slot : AnySlot). slot.at) slots.new.items }
{
    slots.sort_unstable_by_key(|slot| slot.at);
}

/// The frame of a good table of a plan. By both, each tick of each hyperperiod goes to the same job.
pub fn frame_of(alloc: Global, plan: &Plan, entries: &[Entry]) -> Result<Frame, AllocError>
    requires { IsGood plan.now entries.now }
    ensures { IfOk result (λ frame. IsFrame plan.now.graph (goes_to plan.now.graph entries.now) frame.slots) }
{
    plan_is_one(plan);
    pieces_are_short();
    let spans = all_spans(alloc, plan, entries)?;
    let mut slots = cut_all(alloc, plan, entries, &spans)?;
    sort(&mut slots);
    let list = join(alloc, plan.graph().hyper, &slots)?;
    Ok(Frame {
        slots: Seq::new(list),
    })
}
