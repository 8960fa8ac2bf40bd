//! Checked bodies: what a step of an imported node computes.

use crate::codes::Code;
use prl_ast::Port;
use prl_base::{Name, Seq, Value};
use std::marker::Model;

/// A register of a checked body.
pub struct Register {
    pub name: Name,
    /// Its value before the first step.
    pub first: Value,
    /// What a step puts into it; where the body has no statement for it, the register itself.
    pub next: Code,
}

/// The parts of a checked body.
pub struct CheckedBody {
    /// The import's name.
    pub name: Name,
    /// The import's inputs, in order.
    pub ins: Seq<Port>,
    /// The import's outputs, in order.
    pub outs: Seq<Port>,
    /// In the order of the text.
    pub registers: Seq<Register>,
    /// The value of each output, in the order of the import.
    pub values: Seq<Code>,
}

/// A body that fits its import, with its names resolved. Contracts see its tree, with the names and types
/// of the import's ports.
pub struct Body {
    parts: CheckedBody,
}

impl Model for Body {
    ghost use Rattle.prl_body.specs.Bodies.{IsWellTyped};
    ghost use Rattle.prl_body.specs.declared.bodies.CheckedBody.{CheckedBody};
    ghost use Rattle.prl_body.specs.contracts.codes.Code as code;
    ghost use Rattle.std.specs.Coded.{codes};

    ghost Value = { CheckedBody };

    ghost coded = { Prim.hlevel (codes, code.the_row.coded) };

    ghost view = { λ b. b.parts };

    ghost invariant = { λ b. IsWellTyped b.parts };
}

impl Body {
    ghost use Rattle.std.specs.Prelude.{◌≡◌};
    ghost use Rattle.prl_body.specs.Bodies.{IsWellTyped};

    /// The body that these parts are.
    pub fn new(parts: CheckedBody) -> Self
        requires { IsWellTyped parts }
        ensures { result ≡ parts }
    {
        Body { parts }
    }

    /// Its parts.
    pub fn parts(&self) -> &CheckedBody
        ensures parts { result.now ≡ self.now }
        ensures well_typed { IsWellTyped self.now }
    {
        &self.parts
    }
}

impl Drop for Register {
    fn drop(self) {
        let Register {
            name,
            first: _,
            next,
        } = self;
        drop(name);
        drop(next);
    }
}

impl Drop for CheckedBody {
    fn drop(self) {
        let CheckedBody {
            name,
            ins,
            outs,
            registers,
            values,
        } = self;
        drop(name);
        drop(ins);
        drop(outs);
        drop(registers);
        drop(values);
    }
}

impl Drop for Body {
    fn drop(self) {
        let Body { parts } = self;
        drop(parts);
    }
}
