//! Declarations: imports, sensors, actuators and nodes.

use crate::expressions::Expr;
use prl_base::{Name, Ratio, Seq, Span, Ty};

/// A program: its declarations, each kind in the order of the text.
pub struct Program {
    pub imports: Seq<Import>,
    pub sensors: Seq<Device>,
    pub actuators: Seq<Device>,
    pub nodes: Seq<Node>,
}

/// An imported node.
pub struct Import {
    pub name: Name,
    pub ins: Seq<Port>,
    pub outs: Seq<Port>,
    /// Its worst-case execution time in ticks, 1 to 2^31 - 1.
    pub wcet: u32,
    /// The name.
    pub at: Span,
}

/// An input or an output of an import.
pub struct Port {
    pub name: Name,
    pub ty: Ty,
    /// The name.
    pub at: Span,
}

/// A sensor or an actuator.
pub struct Device {
    pub name: Name,
    /// Its worst-case execution time in ticks, 1 to 2^31 - 1.
    pub wcet: u32,
    /// The name.
    pub at: Span,
}

/// A node of the program.
pub struct Node {
    pub name: Name,
    pub ins: Seq<Param>,
    pub outs: Seq<Param>,
    pub locals: Seq<Param>,
    pub eqs: Seq<Equation>,
    /// The name.
    pub at: Span,
}

/// An input, an output or a local variable of a node, with what its note says.
pub struct Param {
    pub name: Name,
    pub ty: Option<Ty>,
    pub rate: Option<Rate>,
    /// A relative deadline in ticks, 0 to 2^31 - 1.
    pub due: Option<u32>,
    /// The name.
    pub at: Span,
}

/// The clock `rate (period, phase)`: its first date is `period * phase`.
#[derive(Clone, Copy)]
pub struct Rate {
    /// In ticks, 1 to 2^31 - 1.
    pub period: u32,
    /// In periods.
    pub phase: Ratio,
}

/// The flows on the left are those of the expression.
pub struct Equation {
    pub lefts: Seq<Placed>,
    pub right: Expr,
    /// The first token.
    pub at: Span,
}

/// A name where it stands in the text.
#[derive(Drop)]
pub struct Placed {
    pub name: Name,
    pub at: Span,
}

impl Drop for Program {
    fn drop(self) {
        let Program {
            imports,
            sensors,
            actuators,
            nodes,
        } = self;
        drop(imports);
        drop(sensors);
        drop(actuators);
        drop(nodes);
    }
}

impl Drop for Import {
    fn drop(self) {
        let Import {
            name,
            ins,
            outs,
            wcet: _,
            at: _,
        } = self;
        drop(name);
        drop(ins);
        drop(outs);
    }
}

impl Drop for Port {
    fn drop(self) {
        let Port { name, ty: _, at: _ } = self;
        drop(name);
    }
}

impl Drop for Device {
    fn drop(self) {
        let Device {
            name,
            wcet: _,
            at: _,
        } = self;
        drop(name);
    }
}

impl Drop for Node {
    fn drop(self) {
        let Node {
            name,
            ins,
            outs,
            locals,
            eqs,
            at: _,
        } = self;
        drop(name);
        drop(ins);
        drop(outs);
        drop(locals);
        drop(eqs);
    }
}

impl Drop for Param {
    fn drop(self) {
        let Param {
            name,
            ty: _,
            rate: _,
            due: _,
            at: _,
        } = self;
        drop(name);
    }
}

impl Drop for Equation {
    fn drop(self) {
        let Equation {
            lefts,
            right,
            at: _,
        } = self;
        drop(lefts);
        drop(right);
    }
}
