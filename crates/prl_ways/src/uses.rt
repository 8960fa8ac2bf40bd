//! Which flows of a flat program use which.

ghost use Rattle.std.specs.Bool.{OnTrue};
ghost use Rattle.prl_ways.specs.Rounds.{Names, Uses};

use prl_base::FlowNo;
use prl_flow::{Arg, Def, Flat};

/// Which uses are followed: those without a delay, or those that go through no application.
#[derive(Clone, Copy, PartialEq, Eq)]
pub enum Along {
    Undelayed,
    Inside,
}

/// Whether the definition uses the flow.
fn names(flat: &Flat, along: Along, def: &Def, flow: u32) -> bool
    ensures { OnTrue result (Names flat.now along def.now flow) }
{
    match def {
        Def::Sensor(_) => false,
        Def::Const(_) => false,
        Def::Copy(of) => of.0 == flow,
        Def::Op { op, of } => match along {
            Along::Undelayed => !op.delays() && of.0 == flow,
            Along::Inside => of.0 == flow,
        },
        Def::Apply { app, .. } => match along {
            Along::Undelayed => flat.is_argument(*app, flow),
            Along::Inside => false,
        },
    }
}

/// Whether the one flow uses the other.
pub(crate) fn uses(flat: &Flat, along: Along, user: u32, flow: u32) -> bool
    ensures { OnTrue result (Uses flat.now along user flow) }
{
    match flat.flows().get(user as usize) {
        None => false,
        Some(user) => names(flat, along, &user.def, flow),
    }
}

/// What a definition uses: one flow, or the arguments of an application.
pub(crate) fn used<'a>(flat: &'a Flat, along: Along, def: &Def) -> (Option<FlowNo>, &'a [Arg]) {
    match def {
        Def::Sensor(_) | Def::Const(_) => (None, &[]),
        Def::Copy(of) => (Some(*of), &[]),
        Def::Op { op, of } => {
            if along == Along::Undelayed && op.delays() {
                (None, &[])
            } else {
                (Some(*of), &[])
            }
        }
        Def::Apply { app, .. } => match flat.apps().get(*app as usize) {
            Some(app) if along == Along::Undelayed => (None, app.args.as_slice()),
            _ => (None, &[]),
        },
    }
}
