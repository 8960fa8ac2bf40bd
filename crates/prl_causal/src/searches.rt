//! Searches along uses.

ghost use Rattle.std.specs.Prelude.{◌≡◌, ◌<◌, [], IfOk, false, length, true};
ghost use Rattle.prl_flow.specs.Uses.{IsArgument, Leads};
ghost use Rattle.prl_causal.specs.code.Ranks.{AreRanks};
ghost use Rattle.prl_causal.specs.code.Searches.{Adds, AreOpened, IsList, IsSearch};
ghost use Rattle.prl_causal.specs.code.Sources.{AreSources, AreWithin, IsAmong, IsSource, Names, UsesBy};

use crate::ranks::{Ranks, rank_at, source_rank};
use crate::sources::{Source, arguments};
use prl_base::FlowNo;
use prl_flow::{Arg, Flat};
use std::alloc::{AllocError, Global};

/// Adds the flow to those that are reached.
fn reach(flow: FlowNo, reached: &mut Vec<u32>, marks: &mut [bool]) -> Result<(), AllocError>
    requires list { IsList reached.old.items marks.old }
    requires within { flow.0 < length marks.old }
    ensures { IfOk result (λ done. Adds (λ i. flow.0 ≡ i) reached.old.items reached.new.items marks.old marks.new) }
{
    if marks[flow.0 as usize] {
        return Ok(());
    }
    reached.push(flow.0)?;
    marks[flow.0 as usize] = true;
    Ok(())
}

/// Adds the arguments to the flows that are reached.
fn reach_all(args: &[Arg], reached: &mut Vec<u32>, marks: &mut [bool]) -> Result<(), AllocError>
    requires list { IsList reached.old.items marks.old }
    requires within { AreWithin args.now (length marks.old) }
    ensures { IfOk result (λ done. Adds (IsAmong args.now) reached.old.items reached.new.items marks.old marks.new) }
{
    for arg in args {
        reach(arg.flow, reached, marks)?;
    }
    Ok(())
}

/// Adds the arguments of the application to the flows that are reached. It looks at them but once: `opened` has a mark
/// for each application whose arguments are reached.
fn reach_arguments(
    flat: &Flat,
    app: u32,
    reached: &mut Vec<u32>,
    marks: &mut [bool],
    opened: &mut [bool],
) -> Result<(), AllocError>
    requires search { IsSearch flat.now reached.old.items marks.old opened.old }
    requires within { app < length flat.now.apps }
    ensures adds { IfOk result (λ done. Adds (IsArgument flat.now app) reached.old.items reached.new.items marks.old marks.new) }
    ensures opened { IfOk result (λ done. AreOpened flat.now marks.new opened.new) }
{
    if opened[app as usize] {
        return Ok(());
    }
    reach_all(arguments(flat, app), reached, marks)?;
    opened[app as usize] = true;
    Ok(())
}

/// Adds what a flow uses to the flows that are reached.
fn reach_used(
    flat: &Flat,
    source: &Source,
    reached: &mut Vec<u32>,
    marks: &mut [bool],
    opened: &mut [bool],
) -> Result<(), AllocError>
    requires search { IsSearch flat.now reached.old.items marks.old opened.old }
    requires there { IsSource flat.now source.now }
    ensures adds { IfOk result (λ done. Adds (Names flat.now source.now) reached.old.items reached.new.items marks.old marks.new) }
    ensures opened { IfOk result (λ done. AreOpened flat.now marks.new opened.new) }
{
    match source {
        Source::Nothing => Ok(()),
        Source::Flow(of) => reach(*of, reached, marks),
        Source::Arguments(app) => reach_arguments(flat, *app, reached, marks, opened),
    }
}

/// Marks all flows to which uses lead from the flow, where none is marked; whether it is among them.
fn follow(
    alloc: Global,
    flat: &Flat,
    sources: &[Source],
    from: usize,
    marks: &mut [bool],
    opened: &mut [bool],
) -> Result<bool, AllocError>
    requires sources { AreSources flat.now sources.now }
    requires within { from < length sources.now }
    requires len { length marks.old ≡ length sources.now }
    requires unmarked { IsList [] marks.old }
    requires apps { length opened.old ≡ length flat.now.apps }
    requires opened { AreOpened flat.now marks.old opened.old }
    ensures back { IfOk result (λ back. back ≡ true → Leads (UsesBy flat.now sources.now) from from) }
    ensures none { IfOk result (λ back. back ≡ false → Leads (UsesBy flat.now sources.now) from from → ⊥) }
{
    let mut reached = Vec::new(alloc);
    reach_used(flat, &sources[from], &mut reached, marks, opened)?;
    let mut done = 0;
    while done < reached.len() {
        let next = reached[done];
        reach_used(flat, &sources[next as usize], &mut reached, marks, opened)?;
        done += 1;
    }
    Ok(marks[from])
}

/// Whether uses lead from the flow back to it. None do where it uses lower ranks alone.
pub fn leads_back(
    alloc: Global,
    flat: &Flat,
    sources: &[Source],
    ranks: &Ranks,
    from: usize,
) -> Result<bool, AllocError>
    requires sources { AreSources flat.now sources.now }
    requires ranks { AreRanks flat.now sources.now ranks.now }
    requires within { from < length sources.now }
    ensures back { IfOk result (λ back. back ≡ true → Leads (UsesBy flat.now sources.now) from from) }
    ensures none { IfOk result (λ back. back ≡ false → Leads (UsesBy flat.now sources.now) from from → ⊥) }
{
    if source_rank(ranks, &sources[from]) < rank_at(ranks.flows.as_slice(), from) {
        return Ok(false);
    }
    let mut marks = vec![in alloc; false; sources.len()]?;
    let mut opened = vec![in alloc; false; flat.apps().len()]?;
    follow(
        alloc,
        flat,
        sources,
        from,
        marks.as_mut_slice(),
        opened.as_mut_slice(),
    )
}
