//! The flows of actuators, as they are lent to be written.

ghost use Rattle.std.specs.Prelude.{◌≡◌, IfOk};

use prl_base::{Clock, Name, Value};
use prl_flow::OutFlow;
use std::alloc::{AllocError, Global};
use std::marker::Model;

/// An actuator's flow whose name and values are lent. Contracts see the `OutFlow`.
#[derive(Drop)]
pub struct OutRows<'a> {
    pub(crate) name: &'a Name,
    pub(crate) clock: Clock,
    pub(crate) values: &'a [Value],
}

impl<'a> Model for OutRows<'a> {
    ghost use Rattle.prl_flow.specs.declared.programs.OutFlow.{OutFlow};

    ghost Value = { OutFlow };

    ghost view = { λ o. record { name = o.name.now; clock = o.clock; values = o.values.now } };
}

impl<'a> OutRows<'a> {
    /// The flow of the actuator of this name. Takes no memory.
    pub fn new(name: &'a Name, clock: Clock, values: &'a [Value]) -> OutRows<'a>
        ensures { result ≡ record { name = name.now; clock = clock; values = values.now } }
    {
        OutRows {
            name,
            clock,
            values,
        }
    }
}

/// The flows, lent.
pub(crate) fn lend(alloc: Global, outs: &[OutFlow]) -> Result<Vec<OutRows<'_>>, AllocError>
    ensures { IfOk result (λ v. v.items ≡ outs.now) }
{
    let mut lent = Vec::with_capacity(alloc, outs.len())?;
    for out in outs {
        lent.push(OutRows::new(&out.name, out.clock, out.values.as_slice()))?;
    }
    Ok(lent)
}
