//! A flow: its name, the type of its values, and these by date.

ghost use Rattle.std.specs.Prelude.{◌≡◌, ◌++◌, ◌∷◌, [], IfOk, OnOk};
ghost use Rattle.prl_steps.specs.Flows.{FlowView};

use crate::samples::Sample;
use prl_base::{Name, Ty};
use std::alloc::{AllocError, Global};
use std::marker::Model;

/// A flow with its values by date. Contracts see a `FlowView`.
pub struct Flow {
    name: Name,
    ty: Ty,
    samples: Vec<Sample>,
}

impl Model for Flow {
    ghost use Rattle.prl_steps.specs.Flows.{FlowView};

    ghost Value = { FlowView };

    ghost view = { λ f. record { name = f.name; ty = f.ty; samples = f.samples.items } };
}

impl Flow {
    /// A flow with one value.
    pub fn new(alloc: Global, name: Name, ty: Ty, sample: Sample) -> Result<Flow, AllocError>
        ensures { IfOk result (λ flow. flow ≡ record { name = name; ty = ty; samples = sample ∷ [] }) }
    {
        let mut samples = Vec::new(alloc);
        samples.push(sample)?;
        Ok(Flow { name, ty, samples })
    }

    pub fn name(&self) -> &[u8]
        ensures { result.now ≡ self.now.name }
    {
        self.name.bytes()
    }

    pub fn ty(&self) -> Ty
        ensures { result ≡ self.now.ty }
    {
        self.ty
    }

    /// The values, by date.
    pub fn samples(&self) -> &[Sample]
        ensures { result.now ≡ self.now.samples }
    {
        self.samples.as_slice()
    }

    /// Adds a value.
    pub fn push(&mut self, sample: Sample) -> Result<(), AllocError>
        ensures name { self.new.name ≡ self.old.name }
        ensures ty { self.new.ty ≡ self.old.ty }
        ensures samples { OnOk result (self.new.samples ≡ self.old.samples ++ sample ∷ []) }
    {
        self.samples.push(sample)?;
        Ok(())
    }
}

impl Drop for Flow {
    fn drop(self) {
        let Flow {
            name,
            ty: _,
            samples,
        } = self;
        drop(name);
        drop(samples);
    }
}
