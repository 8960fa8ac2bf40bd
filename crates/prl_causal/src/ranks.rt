//! Ranks of flows and of applications, by which no use leads up.
//!
//! Flows and applications that uses lead from and back to have one rank, and what they use beside these has lower ones. So a
//! flow all of whose uses lead down is on no cycle. The ranks are found in one search in depth, after Tarjan; that no use leads
//! up is then looked at once for each use, so that nothing rests on how they were found.

ghost use Rattle.std.specs.Prelude.{◌≡◌, ◌≤◌, ℕ, IfOk, Some, slice_get, true};
ghost use Rattle.prl_causal.specs.code.Ranks.{AreBelow, AreRanks, rank_at, source_rank};
ghost use Rattle.prl_causal.specs.code.Sources.{AreSources};
ghost use Rattle.prl_causal.specs.declared.sources.Source.{Source as AnySource};
ghost use Rattle.prl_flow.specs.declared.programs.App.{App as AnyApp};

use crate::sources::Source;
use crate::walks::walked;
use prl_base::Seq;
use prl_flow::{App, Arg, Flat};
use std::alloc::{AllocError, Global};

/// The ranks of the flows and of the applications of a flat program.
#[derive(Drop)]
pub struct Ranks {
    pub flows: Seq<u32>,
    pub apps: Seq<u32>,
}

/// The rank of this number; 0 where there is none.
pub fn rank_at(ranks: &[u32], i: usize) -> u32
    ensures { result ≡ rank_at ranks.now i }
{
    match ranks.get(i) {
        Some(rank) => *rank,
        None => 0,
    }
}

/// The rank of what a flow uses.
pub fn source_rank(ranks: &Ranks, source: &Source) -> u32
    ensures { result ≡ source_rank ranks.now source.now }
{
    match source {
        Source::Nothing => 0,
        Source::Flow(of) => rank_at(ranks.flows.as_slice(), of.0 as usize),
        Source::Arguments(app) => rank_at(ranks.apps.as_slice(), *app as usize),
    }
}

/// Whether nothing that a flow uses has a higher rank than the flow.
fn sources_fall(sources: &[Source], ranks: &Ranks) -> bool
    ensures { result ≡ true → (i : ℕ) (source : AnySource) → slice_get sources.now i ≡ Some source → source_rank ranks.now source ≤ rank_at ranks.now.flows i }
{
    for (i, source) in sources.iter().enumerate() {
        if source_rank(ranks, source) > rank_at(ranks.flows.as_slice(), i) {
            return false;
        }
    }
    true
}

/// Whether no argument has a higher rank than this.
fn are_below(args: &[Arg], ranks: &[u32], most: u32) -> bool
    ensures { result ≡ true → AreBelow args.now ranks.now most }
{
    for arg in args {
        if rank_at(ranks, arg.flow.0 as usize) > most {
            return false;
        }
    }
    true
}

/// Whether no argument of an application has a higher rank than the application.
fn arguments_fall(apps: &[App], ranks: &Ranks) -> bool
    ensures { result ≡ true → (k : ℕ) (app : AnyApp) → slice_get apps.now k ≡ Some app → AreBelow app.args ranks.now.flows (rank_at ranks.now.apps k) }
{
    for (k, app) in apps.iter().enumerate() {
        let most = rank_at(ranks.apps.as_slice(), k);
        if !are_below(app.args.as_slice(), ranks.flows.as_slice(), most) {
            return false;
        }
    }
    true
}

/// Whether no use leads up.
fn are_ranks(flat: &Flat, sources: &[Source], ranks: &Ranks) -> bool
    ensures { result ≡ true → AreRanks flat.now sources.now ranks.now }
{
    sources_fall(sources, ranks) && arguments_fall(flat.apps(), ranks)
}

/// Ranks by which no use leads up.
pub fn find_ranks(alloc: Global, flat: &Flat, sources: &[Source]) -> Result<Ranks, AllocError>
    ensures { IfOk result (AreRanks flat.now sources.now) }
{
    let (flows, apps) = walked(alloc, flat, sources)?;
    let ranks = Ranks {
        flows: Seq::new(flows),
        apps: Seq::new(apps),
    };
    if are_ranks(flat, sources, &ranks) {
        return Ok(ranks);
    }
    drop(ranks);
    Ok(Ranks {
        flows: Seq::new(Vec::new(alloc)),
        apps: Seq::new(Vec::new(alloc)),
    })
}
