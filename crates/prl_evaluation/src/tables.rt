//! The values of flows.

ghost use Rattle.std.specs.Prelude.{◌≡◌, ◌<◌, ◌≤◌, [], ◌∷◌, ◌++◌, length, take, OnOk, IfOk};
ghost use Rattle.prl_flow.specs.Solutions.{values_of};

use prl_base::{FlowNo, Value};
use std::alloc::{AllocError, Global};
use std::marker::Model;

/// The first values of a flow: its own, or lent where the same values stand elsewhere. Contracts see
/// their list.
#[derive(Drop)]
pub(crate) struct Values<'a> {
    lent: Option<&'a [Value]>,
    /// The values, where none are lent.
    own: Vec<Value>,
}

impl<'a> Model for Values<'a> {
    ghost use Rattle.std.specs.Prelude.{List};
    ghost use Rattle.prl_base.specs.declared.values.Value.{Value as OneValue};
    ghost use Rattle.prl_evaluation.specs.code.Lent.{lent_or};

    ghost Value = { List OneValue };

    ghost view = { λ v. lent_or v.lent v.own.items };
}

impl<'a> Values<'a> {
    /// No value yet, with room for `count`.
    pub(crate) fn with_capacity(alloc: Global, count: usize) -> Result<Values<'a>, AllocError>
        ensures { IfOk result (λ values. values ≡ []) }
    {
        let own = Vec::with_capacity(alloc, count)?;
        Ok(Values { lent: None, own })
    }

    /// These values, of the flow's own. Takes no memory.
    pub(crate) fn owned(values: Vec<Value>) -> Values<'a>
        ensures { result ≡ values.items }
    {
        Values {
            lent: None,
            own: values,
        }
    }

    /// These values, which are lent. Takes no memory.
    pub(crate) fn lent(alloc: Global, values: &'a [Value]) -> Values<'a>
        ensures { result ≡ values.now }
    {
        Values {
            lent: Some(values),
            own: Vec::new(alloc),
        }
    }

    /// The first `count` of them, lent where they are lent.
    pub(crate) fn front(&self, alloc: Global, count: usize) -> Result<Values<'a>, AllocError>
        requires { count ≤ length self.now }
        ensures { IfOk result (λ values. values ≡ take count self.now) }
    {
        match self.lent {
            Some(values) => Ok(Values::lent(alloc, &values[..count])),
            None => Ok(Values::owned(Vec::from_slice(alloc, &self.own[..count])?)),
        }
    }

    /// How many there are.
    pub(crate) fn len(&self) -> usize
        ensures { result ≡ length self.now }
    {
        self.as_slice().len()
    }

    /// All of them.
    pub(crate) fn as_slice(&self) -> &[Value]
        ensures { result.now ≡ self.now }
    {
        match self.lent {
            Some(values) => values,
            None => self.own.as_slice(),
        }
    }

    /// One value more.
    pub(crate) fn push(&mut self, value: Value) -> Result<(), AllocError>
        ensures { OnOk result (self.new ≡ self.old ++ value ∷ []) }
    {
        if let Some(values) = self.lent {
            self.own.clear();
            self.own.extend_from_slice(values)?;
            self.lent = None;
        }
        self.own.push(value)?;
        Ok(())
    }
}

/// How many values the flow has.
pub(crate) fn count(flows: &[Values<'_>], i: usize) -> usize
    requires { i < length flows.now }
    ensures { result ≡ length (values_of flows.now i) }
{
    flows[i].len()
}

/// The flows of a program up to a date; those that only hand rows on are lent them. Contracts see the list of the lists of their values.
pub struct FlowTable<'a> {
    flows: Vec<Values<'a>>,
}

impl<'a> Model for FlowTable<'a> {
    ghost use Rattle.prl_flow.specs.Rows.{Rows};

    ghost Value = { Rows };

    ghost view = { λ t. t.flows.items };
}

impl<'a> FlowTable<'a> {
    /// The table of these flows. Takes no memory.
    pub(crate) fn new(flows: Vec<Values<'a>>) -> FlowTable<'a>
        ensures { result ≡ flows.entry.items }
    {
        FlowTable { flows }
    }

    /// The values of the flow at its dates, in order.
    pub fn values(&self, flow: FlowNo) -> &[Value]
        requires { flow.0 < length self.now }
        ensures { result.now ≡ values_of self.now flow.0 }
    {
        self.flows[flow.0 as usize].as_slice()
    }
}

impl<'a> Drop for FlowTable<'a> {
    fn drop(self) {
        let FlowTable { flows } = self;
        drop(flows);
    }
}
