//! What the values of flows are made of: undelayed, and through no application.

ghost use Rattle.std.specs.Prelude.{◌≡◌, ◌<◌, IfOk, length};
ghost use Rattle.prl_causal.specs.code.Sources.{AreArguments, AreWithin, all_inside, all_undelayed, inside_of, undelayed_of};

use prl_base::FlowNo;
use prl_flow::{Arg, Def, Flat};
use std::alloc::{AllocError, Global};

/// What a flow uses, along uses of one kind.
#[derive(Clone, Copy)]
pub enum Source {
    Nothing,
    Flow(FlowNo),
    /// The arguments of the application of this number.
    Arguments(u32),
}

/// What a definition uses undelayed.
fn undelayed_of(def: &Def) -> Source
    ensures { result ≡ undelayed_of def.now }
{
    match def {
        Def::Sensor(_) | Def::Const(_) => Source::Nothing,
        Def::Copy(of) => Source::Flow(*of),
        Def::Apply { app, .. } => Source::Arguments(*app),
        Def::Op { op, of } => {
            if op.delays() {
                Source::Nothing
            } else {
                Source::Flow(*of)
            }
        }
    }
}

/// What a definition uses, delayed or not, and not through an application.
fn inside_of(def: &Def) -> Source
    ensures { result ≡ inside_of def.now }
{
    match def {
        Def::Sensor(_) | Def::Const(_) | Def::Apply { .. } => Source::Nothing,
        Def::Copy(of) | Def::Op { of, .. } => Source::Flow(*of),
    }
}

/// What each flow uses undelayed.
fn undelayed(alloc: Global, flat: &Flat) -> Result<Vec<Source>, AllocError>
    ensures { IfOk result (λ sources. sources.items ≡ all_undelayed flat.now) }
{
    flat.flows()
        .iter()
        .map(|flow| undelayed_of(&flow.def))
        .collect(alloc)
}

/// What each flow uses: undelayed, and, delayed or not, not through an application.
pub fn sources(alloc: Global, flat: &Flat) -> Result<(Vec<Source>, Vec<Source>), AllocError>
    ensures undelayed { IfOk result (λ both. both.0.items ≡ all_undelayed flat.now) }
    ensures inside { IfOk result (λ both. both.1.items ≡ all_inside flat.now) }
{
    let undelayed = undelayed(alloc, flat)?;
    let flows = flat.flows();
    let inside = flows
        .iter()
        .map(|flow| inside_of(&flow.def))
        .collect(alloc)?;
    Ok((undelayed, inside))
}

/// The arguments of the application of this number.
pub fn arguments(flat: &Flat, app: u32) -> &[Arg]
    requires { app < length flat.now.apps }
    ensures arguments { AreArguments flat.now app result.now }
    ensures within { AreWithin result.now (length flat.now.flows) }
{
    flat.apps()[app as usize].args.as_slice()
}
