//! Clocks that are equal, as chains of their places.

ghost use Rattle.std.specs.Prelude.{◌≡◌, ◌<◌, ◌^◌, length, replicate, IfOk, OnOk};
ghost use Rattle.prl_calendar.specs.Kinds.{AddsKind, AreFollowing, IsFirst, AreChained};

use prl_base::Clock;
use std::alloc::{AllocError, Global};
use std::collections::BTreeMap;

/// For each clock the place of the next one that equals it, and the number of clocks where there
/// is none.
#[derive(Drop)]
pub(crate) struct Chains {
    pub(crate) following: Vec<u32>,
    /// The places of the first clocks of each kind.
    pub(crate) firsts: Vec<u32>,
}

/// One number, `count` times.
fn repeated(alloc: Global, number: u32, count: usize) -> Result<Vec<u32>, AllocError>
    ensures { IfOk result (λ v. v.items ≡ replicate count number) }
{
    vec![in alloc; number; count]
}

/// The chains of these clocks.
pub(crate) fn chains_of(alloc: Global, clocks: &[Clock]) -> Result<Chains, AllocError>
    requires { length clocks.now < 2 ^ 32 }
    ensures { IfOk result (λ k. AreChained clocks.now (length clocks.now) k.following.items k.firsts.items) }
{
    let mut following = repeated(alloc, clocks.len() as u32, clocks.len())?;
    let mut firsts = Vec::new(alloc);
    let mut last = BTreeMap::new(alloc);
    for (place, clock) in clocks.iter().enumerate() {
        match last.insert((clock.period, clock.start), place as u32)? {
            Some(earlier) => following[earlier as usize] = place as u32,
            None => firsts.push(place as u32)?,
        }
    }
    Ok(Chains { following, firsts })
}

/// Adds the places of the clocks that equal the first one of their kind at `first`.
pub(crate) fn add_kind(
    clocks: &[Clock],
    following: &[u32],
    first: u32,
    due: &mut Vec<u32>,
) -> Result<(), AllocError>
    requires few { length clocks.now < 2 ^ 32 }
    requires chains { AreFollowing clocks.now following.now }
    requires first { IsFirst clocks.now first }
    ensures { OnOk result (AddsKind clocks.now first due.old.items due.new.items) }
{
    let mut place = first as usize;
    while place < clocks.len() {
        due.push(place as u32)?;
        place = following[place] as usize;
    }
    Ok(())
}
