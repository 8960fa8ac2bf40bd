//! How many flows, applications and nodes there are so far, and the limit on flows.

ghost use Rattle.std.specs.Prelude.{◌≡◌, ◌≤◌, ◌+◌, IfErr, IfOk, OnOk};
ghost use Rattle.prl_expand.specs.code.Limits.{IsPast};
ghost use Rattle.prl_expand.specs.declared.counts.ExpandFault.TheVariants.{Memory};

use prl_base::{Limit, What};
use std::alloc::AllocError;

/// Why a program is not expanded.
#[derive(Clone, Copy)]
pub enum ExpandFault {
    /// The expansion has more than 4,096 flows. They are not counted further than 4,097.
    Limit(Limit),
    /// Memory ran out; this may come in place of the other.
    Memory,
}

impl From<AllocError> for ExpandFault {
    ghost from_gives = { λ _ e. e ≡ Memory };

    fn from(_error: AllocError) -> ExpandFault {
        ExpandFault::Memory
    }
}

/// The most flows of an expansion.
pub const MAX_FLOWS: u32 = 4096;

/// The numbers of the next flow, the next application and the next node that is entered.
#[derive(Clone, Copy)]
pub(crate) struct Next {
    pub flow: u32,
    pub app: u32,
    pub node: u32,
}

/// The first numbers.
pub(crate) const FIRST: Next = Next {
    flow: 0,
    app: 0,
    node: 0,
};

/// Takes numbers for so many flows; the first of them.
pub(crate) fn take_flows(next: &mut Next, count: usize) -> Result<u32, ExpandFault>
    requires { next.old.flow ≤ 4096 }
    ensures first { IfOk result (λ first. first ≡ next.old.flow) }
    ensures next { OnOk result (next.new ≡ record { flow = next.old.flow + count; app = next.old.app; node = next.old.node }) }
    ensures few { OnOk result (next.old.flow + count ≤ 4096) }
    ensures limit { IfErr result (IsPast (next.old.flow + count)) }
{
    let first = next.flow;
    if count > (MAX_FLOWS - first) as usize {
        return Err(ExpandFault::Limit(Limit {
            what: What::Flows,
            found: 4097,
        }));
    }
    next.flow = first + count as u32;
    Ok(first)
}

/// Takes a number for an application.
pub(crate) fn take_app(next: &mut Next) -> u32
    requires { next.old.app ≤ 4096 }
    ensures app { result ≡ next.old.app }
    ensures next { next.new ≡ record { flow = next.old.flow; app = next.old.app + 1; node = next.old.node } }
{
    let app = next.app;
    next.app = app + 1;
    app
}

/// Takes a number for a node that is entered.
pub(crate) fn take_node(next: &mut Next) -> u32
    requires { next.old.node ≤ 4096 }
    ensures node { result ≡ next.old.node }
    ensures next { next.new ≡ record { flow = next.old.flow; app = next.old.app; node = next.old.node + 1 } }
{
    let node = next.node;
    next.node = node + 1;
    node
}
