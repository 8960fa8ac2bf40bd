//! Whether a flat program has a cycle, and an order of its flows where it has none.

ghost use Rattle.std.specs.Prelude.{◌≡◌, ◌<◌, ℕ, IfErr, IfNone, IfOk, IfSome, List, MatchOption, false, length, true};
ghost use Rattle.prl_flow.specs.declared.programs.Flow.{Flow};
ghost use Rattle.prl_flow.specs.Uses.{HasNoCycle, IsCyclic, IsCycleLabel, IsOnCycle, IsOrder, is_made};
ghost use Rattle.prl_causal.specs.Cycles.{IsCausalFault, IsFirst, IsFirstNamed, IsLabelOf};
ghost use Rattle.prl_base.specs.declared.numbers.FlowNo.{FlowNo as AnyFlow};
ghost use Rattle.prl_causal.specs.code.Parts.{IsWhole};
ghost use Rattle.prl_causal.specs.code.Ranks.{AreUseRanks};
ghost use Rattle.prl_causal.specs.code.Sources.{AreSources, AreUses, UsesBy};
ghost use Rattle.prl_causal.specs.code.Ways.{HasWayBack};

use crate::orders::order;
use crate::ranks::{Ranks, find_ranks};
use crate::searches::leads_back;
use crate::sources::{Source, sources};
use prl_base::{Label, Seq};
use prl_flow::{Flat, Order};
use std::alloc::{AllocError, Global};

/// Why there is no order.
#[derive(Drop)]
pub enum CausalFault {
    /// There is a cycle without a delay, or one that passes through no application: the label of the lowest flow
    /// on such a cycle that has a name, or of the lowest where none has.
    Cycle(Label),
    Memory,
}

/// A flat program, and what each of its flows uses: undelayed, and through no application.
#[derive(Clone, Copy)]
struct Uses<'a> {
    flat: &'a Flat,
    undelayed: &'a [Source],
    inside: &'a [Source],
}

/// The ranks along the uses of each kind.
#[derive(Drop)]
struct UseRanks {
    undelayed: Ranks,
    inside: Ranks,
}

/// Whether the label is a made one.
fn is_made(label: &[u8]) -> bool
    ensures { result ≡ is_made label.now }
{
    match label {
        [] => false,
        [first, ..] => *first == b'$',
    }
}

/// Whether the flow is on a cycle.
fn is_on_cycle(
    alloc: Global,
    uses: Uses<'_>,
    ranks: &UseRanks,
    flow: usize,
) -> Result<bool, AllocError>
    requires uses { AreUses uses }
    requires ranks { AreUseRanks uses ranks.now }
    requires within { flow < length uses.flat.now.flows }
    ensures on { IfOk result (λ on. on ≡ true → IsOnCycle uses.entry.flat.now flow) }
    ensures off { IfOk result (λ on. on ≡ false → IsOnCycle uses.entry.flat.now flow → ⊥) }
{
    let _flows = uses.flat.flows();
    if leads_back(alloc, uses.flat, uses.undelayed, &ranks.undelayed, flow)? {
        return Ok(true);
    }
    leads_back(alloc, uses.flat, uses.inside, &ranks.inside, flow)
}

/// The lowest flow on a cycle that has a name.
fn first_named(alloc: Global, uses: Uses<'_>, ranks: &UseRanks) -> Result<Option<usize>, AllocError>
    requires uses { AreUses uses }
    requires ranks { AreUseRanks uses ranks.now }
    ensures { IfOk result (λ found. MatchOption found ((i : ℕ) (flow : Flow) → IsCyclic uses.entry.flat.now i flow → is_made flow.label ≡ true) (IsFirstNamed uses.entry.flat.now)) }
{
    for (i, flow) in uses.flat.flows().iter().enumerate() {
        if is_made(flow.label.bytes()) {
            continue;
        }
        if is_on_cycle(alloc, uses, ranks, i)? {
            return Ok(Some(i));
        }
    }
    Ok(None)
}

/// The lowest flow on a cycle.
fn first(alloc: Global, uses: Uses<'_>, ranks: &UseRanks) -> Result<Option<usize>, AllocError>
    requires uses { AreUses uses }
    requires ranks { AreUseRanks uses ranks.now }
    ensures { IfOk result (λ found. MatchOption found ((i : ℕ) (flow : Flow) → IsCyclic uses.entry.flat.now i flow → ⊥) (IsFirst uses.entry.flat.now)) }
{
    for i in 0..uses.flat.flows().len() {
        if is_on_cycle(alloc, uses, ranks, i)? {
            return Ok(Some(i));
        }
    }
    Ok(None)
}

/// A copy of the label of the flow.
fn label_of(alloc: Global, flat: &Flat, flow: usize) -> Result<Label, AllocError>
    requires { flow < length flat.now.flows }
    ensures { IfOk result (IsLabelOf flat.now flow) }
{
    Label::new(alloc, flat.flows()[flow].label.bytes())
}

/// The ranks along the uses of each kind.
fn use_ranks(alloc: Global, uses: Uses<'_>) -> Result<UseRanks, AllocError>
    requires { AreUses uses }
    ensures { IfOk result (AreUseRanks uses.entry) }
{
    let undelayed = find_ranks(alloc, uses.flat, uses.undelayed)?;
    let inside = find_ranks(alloc, uses.flat, uses.inside)?;
    Ok(UseRanks { undelayed, inside })
}

/// The label that tells of a cycle.
fn cycle_label(alloc: Global, uses: Uses<'_>) -> Result<Label, AllocError>
    requires uses { AreUses uses }
    requires cycle { (i : ℕ) × IsOnCycle uses.flat.now i }
    ensures { IfOk result (IsCycleLabel uses.entry.flat.now) }
{
    let ranks = use_ranks(alloc, uses)?;
    match first_named(alloc, uses, &ranks)? {
        Some(flow) => label_of(alloc, uses.flat, flow),
        None => match first(alloc, uses, &ranks)? {
            Some(flow) => label_of(alloc, uses.flat, flow),
            None => unreachable!(),
        },
    }
}

/// The fault of a program that has a cycle.
fn cycle_fault(alloc: Global, uses: Uses<'_>) -> CausalFault
    requires uses { AreUses uses }
    requires cycle { (i : ℕ) × IsOnCycle uses.flat.now i }
    ensures { IsCausalFault uses.entry.flat.now result }
{
    match cycle_label(alloc, uses) {
        Ok(label) => CausalFault::Cycle(label),
        Err(_) => CausalFault::Memory,
    }
}

/// Whether there is an order of the flows along these uses.
fn has_order(alloc: Global, flat: &Flat, sources: &[Source]) -> Result<bool, AllocError>
    requires { AreSources flat.now sources.now }
    ensures yes { IfOk result (λ has. has ≡ true → (order : List AnyFlow) × IsWhole (UsesBy flat.now sources.now) (length sources.now) order) }
    ensures no { IfOk result (λ has. has ≡ false → HasWayBack (UsesBy flat.now sources.now)) }
{
    match order(alloc, flat, sources)? {
        Some(_) => Ok(true),
        None => Ok(false),
    }
}

/// An order of the flows by what they use undelayed, where there is no cycle of either kind.
fn ordered(alloc: Global, uses: Uses<'_>) -> Result<Option<Order>, AllocError>
    requires { AreUses uses }
    ensures order { IfOk result (λ found. IfSome found (λ order. IsOrder uses.entry.flat.now order.flows)) }
    ensures acyclic { IfOk result (λ found. IfSome found (λ _. HasNoCycle uses.entry.flat.now)) }
    ensures cycle { IfOk result (λ found. IfNone found ((i : ℕ) × IsOnCycle uses.entry.flat.now i)) }
{
    let _flows = uses.flat.flows();
    if !has_order(alloc, uses.flat, uses.inside)? {
        return Ok(None);
    }
    match order(alloc, uses.flat, uses.undelayed)? {
        Some(flows) => Ok(Some(Order {
            flows: Seq::new(flows),
        })),
        None => Ok(None),
    }
}

/// An order of the flows of the flat program, or the label of a flow on a cycle that has no delay or passes
/// through no application.
pub fn causal(alloc: Global, flat: &Flat) -> Result<Order, CausalFault>
    ensures order { IfOk result (λ order. IsOrder flat.now order.flows) }
    ensures acyclic { IfOk result (λ order. HasNoCycle flat.now) }
    ensures fault { IfErr result (IsCausalFault flat.now) }
{
    let Ok((undelayed, inside)) = sources(alloc, flat) else {
        return Err(CausalFault::Memory);
    };
    let uses = Uses {
        flat,
        undelayed: undelayed.as_slice(),
        inside: inside.as_slice(),
    };
    match ordered(alloc, uses) {
        Ok(Some(order)) => Ok(order),
        Ok(None) => Err(cycle_fault(alloc, uses)),
        Err(_) => Err(CausalFault::Memory),
    }
}
