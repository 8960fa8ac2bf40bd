//! Flat programs and the clocks of their flows.

ghost use Rattle.std.specs.Prelude.{◌≡◌, ◌<◌, ◌↔◌, IsTrue, length};
ghost use Rattle.prl_flow.specs.Programs.{name_of, wcet_of, IsFlat};
ghost use Rattle.prl_flow.specs.Uses.{HasArgument, IsArgument};

use prl_ast::Rate;
use prl_base::{Clock, FlowNo, Label, Name, Op, Seq, Span, Ty, Value};
use std::marker::Model;

/// How a flow of a flat program is defined.
#[derive(Clone, Copy)]
pub enum Def {
    /// The rows of main's input of this number.
    Sensor(u32),
    /// The values of another flow.
    Copy(FlowNo),
    /// One value at each date.
    Const(Value),
    /// An output of an application.
    Apply { app: u32, out: u32 },
    /// An operator on another flow.
    Op { op: Op, of: FlowNo },
}

/// A flow of a flat program.
pub struct Flow {
    /// Its name in the program, or a made one.
    pub label: Label,
    pub ty: Ty,
    pub def: Def,
    /// The clock that it is declared with.
    pub rate: Option<Rate>,
    /// Its relative deadline in ticks, as it is declared.
    pub due: Option<u32>,
    /// Where it stands in the source text.
    pub at: Span,
}

/// An application of an imported node.
pub struct App {
    /// The node's name.
    pub name: Name,
    /// In ticks.
    pub wcet: u32,
    pub args: Seq<Arg>,
    /// The flows of its outputs, in the order of the node.
    pub outs: Seq<FlowNo>,
    /// The node's name in the source text.
    pub at: Span,
}

/// An argument of an application.
#[derive(Clone, Copy)]
pub struct Arg {
    pub flow: FlowNo,
    /// Where it stands in the source text.
    pub at: Span,
}

/// A flat program: its flows, its applications of imported nodes, and which flows are main's inputs and
/// outputs, in order. A device of an input is a sensor and one of an output an actuator: a name and a WCET
/// in ticks. Contracts see a `FlatProgram`.
pub struct Flat {
    pub flows: Seq<Flow>,
    pub apps: Seq<App>,
    pub ins: Seq<FlowNo>,
    pub outs: Seq<FlowNo>,
    in_devices: Vec<(Name, u32)>,
    out_devices: Vec<(Name, u32)>,
}

impl Model for Flat {
    ghost use Rattle.prl_flow.specs.Programs.{FlatProgram, IsFlat};

    ghost Value = { FlatProgram };

    ghost view = { λ f. record {
      flows = f.flows;
      apps = f.apps;
      ins = f.ins;
      outs = f.outs;
      in_devices = f.in_devices.items;
      out_devices = f.out_devices.items;
    } };

    ghost invariant = { λ f. IsFlat (record {
      flows = f.flows;
      apps = f.apps;
      ins = f.ins;
      outs = f.outs;
      in_devices = f.in_devices.items;
      out_devices = f.out_devices.items;
    }) };
}

impl Flat {
    /// The flat program of these lists. Takes no memory.
    pub fn new(
        flows: Seq<Flow>,
        apps: Seq<App>,
        ins: Seq<FlowNo>,
        outs: Seq<FlowNo>,
        in_devices: Vec<(Name, u32)>,
        out_devices: Vec<(Name, u32)>,
    ) -> Flat
        requires { IsFlat (record { flows = flows; apps = apps; ins = ins; outs = outs; in_devices = in_devices.items; out_devices = out_devices.items }) }
        ensures { result ≡ record { flows = flows; apps = apps; ins = ins; outs = outs; in_devices = in_devices.items; out_devices = out_devices.items } }
    {
        Flat {
            flows,
            apps,
            ins,
            outs,
            in_devices,
            out_devices,
        }
    }

    /// The flows, in order.
    pub fn flows(&self) -> &[Flow]
        ensures flows { result.now ≡ self.now.flows }
        ensures well_formed { IsFlat self.now }
    {
        self.flows.as_slice()
    }

    /// The applications of imported nodes, in order.
    pub fn apps(&self) -> &[App]
        ensures apps { result.now ≡ self.now.apps }
        ensures well_formed { IsFlat self.now }
    {
        self.apps.as_slice()
    }

    /// Whether a flow is an argument of the application of this number.
    pub fn is_argument(&self, app: u32, flow: u32) -> bool
        ensures { IsTrue result ↔ IsArgument self.now app flow }
    {
        match self.apps().get(app as usize) {
            None => false,
            Some(app) => has_argument(app.args.as_slice(), flow),
        }
    }

    /// The flows that are main's inputs, in order.
    pub fn ins(&self) -> &[FlowNo]
        ensures { result.now ≡ self.now.ins }
    {
        self.ins.as_slice()
    }

    /// The flows that are main's outputs, in order.
    pub fn outs(&self) -> &[FlowNo]
        ensures outs { result.now ≡ self.now.outs }
        ensures well_formed { IsFlat self.now }
    {
        self.outs.as_slice()
    }

    /// The name of main's input `k`.
    pub fn in_name(&self, k: u32) -> &Name
        requires { k < length self.now.ins }
        ensures { result.now ≡ name_of self.now.in_devices k }
    {
        let (name, _) = &self.in_devices[k as usize];
        name
    }

    /// The WCET of the sensor of main's input `k`, in ticks.
    pub fn in_wcet(&self, k: u32) -> u32
        requires { k < length self.now.ins }
        ensures { result ≡ wcet_of self.now.in_devices k }
    {
        self.in_devices[k as usize].1
    }

    /// The name of main's output `k`.
    pub fn out_name(&self, k: u32) -> &Name
        requires { k < length self.now.outs }
        ensures { result.now ≡ name_of self.now.out_devices k }
    {
        let (name, _) = &self.out_devices[k as usize];
        name
    }

    /// The WCET of the actuator of main's output `k`, in ticks.
    pub fn out_wcet(&self, k: u32) -> u32
        requires { k < length self.now.outs }
        ensures { result ≡ wcet_of self.now.out_devices k }
    {
        self.out_devices[k as usize].1
    }
}

/// Whether a flow is among the arguments.
pub fn has_argument(args: &[Arg], flow: u32) -> bool
    ensures { IsTrue result ↔ HasArgument args.now flow }
{
    for index in 0..args.len() {
        if args[index].flow.0 == flow {
            return true;
        }
    }
    false
}

/// The clocks of the flows of a flat program, in the order of the flows.
pub struct Clocks {
    pub of: Seq<Clock>,
}

/// An order of the flows of a flat program, each once, after those that it uses undelayed.
pub struct Order {
    pub flows: Seq<FlowNo>,
}

/// The values of an actuator's flow, one for each date of its clock, in order.
pub struct OutFlow {
    /// The actuator.
    pub name: Name,
    pub clock: Clock,
    pub values: Seq<Value>,
}

impl Drop for Flow {
    fn drop(self) {
        let Flow {
            label,
            ty: _,
            def: _,
            rate: _,
            due: _,
            at: _,
        } = self;
        drop(label);
    }
}

impl Drop for App {
    fn drop(self) {
        let App {
            name,
            wcet: _,
            args,
            outs,
            at: _,
        } = self;
        drop(name);
        drop(args);
        drop(outs);
    }
}

impl Drop for Flat {
    fn drop(self) {
        let Flat {
            flows,
            apps,
            ins,
            outs,
            in_devices,
            out_devices,
        } = self;
        drop(flows);
        drop(apps);
        drop(ins);
        drop(outs);
        drop(in_devices);
        drop(out_devices);
    }
}

impl Drop for Clocks {
    fn drop(self) {
        let Clocks { of } = self;
        drop(of);
    }
}

impl Drop for Order {
    fn drop(self) {
        let Order { flows } = self;
        drop(flows);
    }
}

impl Drop for OutFlow {
    fn drop(self) {
        let OutFlow {
            name,
            clock: _,
            values,
        } = self;
        drop(name);
        drop(values);
    }
}
