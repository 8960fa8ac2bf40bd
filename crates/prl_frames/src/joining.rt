//! Slots joined with those that go on where they end.

ghost use Rattle.std.specs.Prelude.{◌≡◌, ◌+◌, ◌<◌, ◌^◌, All, IfOk};
ghost use Rattle.prl_frames.specs.Frames.{goes_on, AreInOrder};
ghost use Rattle.prl_frames.specs.code.Making.{join, joined};

use crate::slots::Slot;
use std::alloc::{AllocError, Global};

/// Whether the second slot goes on where the first ends, with the same job from the same hyperperiod on.
fn goes_on(one: Slot, next: Slot) -> bool
    requires { one.at + one.units < 2 ^ 64 }
    ensures { result ≡ goes_on one next }
{
    one.at + one.units == next.at
        && one.task.0 == next.task.0
        && one.job == next.job
        && one.from == next.from
}

/// Two slots as one.
fn joined(one: Slot, next: Slot) -> Slot
    requires { one.units + next.units < 2 ^ 64 }
    ensures { result ≡ joined one next }
{
    Slot {
        units: one.units + next.units,
        last: next.last,
        ..one
    }
}

/// The slots, each joined with those that go on where it ends.
pub(crate) fn join(alloc: Global, hyper: u64, slots: &[Slot]) -> Result<Vec<Slot>, AllocError>
    requires { AreInOrder hyper 0 slots.now }
    ensures { IfOk result (λ list. list.items ≡ join slots.now) }
{
    let mut list = Vec::new(alloc);
    let Some((first, rest)) = slots.split_first() else {
        return Ok(list);
    };
    let mut one = *first;
    for next in rest {
        if goes_on(one, *next) {
            one = joined(one, *next);
        } else {
            list.push(one)?;
            one = *next;
        }
    }
    list.push(one)?;
    Ok(list)
}
