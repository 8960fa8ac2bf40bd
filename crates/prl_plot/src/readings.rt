//! How rows are read: their form, and the clock of each sensor by its name.

ghost use Rattle.std.specs.Prelude.{◌≡◌, IfOk};
ghost use Rattle.prl_plot.specs.Places.{AreClocksOf};
ghost use Rattle.prl_plot.specs.Rows.{clock_of};

use crate::forms::{Form, Input};
use prl_base::Clock;
use std::alloc::{AllocError, Global};
use std::collections::BTreeMap;
use std::marker::Model;

/// The form of rows, with a table of its sensors. Contracts see the form.
#[derive(Drop)]
pub(crate) struct Reading<'a> {
    form: &'a Form,
    clocks: BTreeMap<&'a [u8], Clock>,
}

impl<'a> Model for Reading<'a> {
    ghost use Rattle.prl_plot.specs.declared.forms.Form.{Form};
    ghost use Rattle.prl_plot.specs.Places.{AreClocksOf};

    ghost Value = { Form };

    ghost view = { λ r. r.form.now };

    ghost invariant = { λ r. AreClocksOf r.clocks r.form.now.inputs };
}

/// The clock of the first sensor of each name: the last ones are written first, and earlier ones take their place.
fn clocks_of(alloc: Global, inputs: &[Input]) -> Result<BTreeMap<&[u8], Clock>, AllocError>
    ensures { IfOk result (λ table. AreClocksOf table inputs.now) }
{
    let mut table = BTreeMap::new(alloc);
    let count = inputs.len();
    for k in 0..count {
        let input = &inputs[count - 1 - k];
        table.insert(input.name.bytes(), input.clock)?;
    }
    Ok(table)
}

impl<'a> Reading<'a> {
    pub(crate) fn new(alloc: Global, form: &'a Form) -> Result<Reading<'a>, AllocError>
        ensures { IfOk result (λ reading. reading ≡ form.now) }
    {
        let clocks = clocks_of(alloc, form.inputs.as_slice())?;
        Ok(Reading { form, clocks })
    }

    /// Whether a row has its date.
    pub(crate) fn is_dated(&self) -> bool
        ensures { result ≡ self.now.dated }
    {
        self.form.dated
    }

    /// The clock of the first sensor of this name.
    pub(crate) fn clock_of(&self, name: &[u8]) -> Option<Clock>
        ensures { result ≡ clock_of self.now.inputs name.now }
    {
        self.clocks.get(name).copied()
    }
}
