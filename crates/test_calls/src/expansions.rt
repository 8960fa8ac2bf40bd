//! Expansions: flows, labels, definitions and applications, worked out by hand from the rules.

ghost use Rattle.prl_ast.specs.Vocabulary.{IsInRange, program_tree};

use prl_ast::Program;
use prl_base::{FlowNo, Op, Value};
use prl_expand::expand;
use prl_flow::{App, Def, Flat, Flow};
use prl_print::programs_are_in_range;
use prl_syntax::parse;
use prl_types::check_names_types;
use std::alloc::{AllocError, Global};
use std::fmt::Write;
use std::test::*;

/// The expansion of the program's last node; none where its names or types are wrong.
fn expanded(alloc: Global, program: &Program) -> Option<Flat>
    requires { IsInRange (program_tree program.now) }
{
    match check_names_types(alloc, program, None) {
        Ok(typed) => expand(alloc, &typed).ok(),
        Err(_) => None,
    }
}

/// The flat program of the text.
fn flat_of(alloc: Global, text: &[u8]) -> Option<Flat> {
    if text.len() > 10_000_000 {
        return None;
    }
    match parse(alloc, text) {
        Ok(program) => {
            programs_are_in_range();
            expanded(alloc, &program)
        }
        Err(_) => None,
    }
}

/// The number of the first flow with another label, or of the first that only one of the two has.
fn other_label(flows: &[Flow], labels: &[&str]) -> Option<usize> {
    for k in 0..flows.len().max(labels.len()) {
        match (flows.get(k), labels.get(k)) {
            (Some(flow), Some(label)) if flow.label.bytes() == label.as_bytes() => {}
            _ => return Some(k),
        }
    }
    None
}

/// A definition by its letter: a number, an output, a constant and an operator, where it has them.
fn def_fields(def: &Def) -> (u8, u32, u32, Option<Value>, Option<Op>) {
    match *def {
        Def::Sensor(sensor) => (b's', sensor, 0, None, None),
        Def::Copy(of) => (b'=', of.0, 0, None, None),
        Def::Const(value) => (b'c', 0, 0, Some(value), None),
        Def::Apply { app, out } => (b'a', app, out, None, None),
        Def::Op { op, of } => (b'o', of.0, 0, None, Some(op)),
    }
}

/// The number of the first of some flows that has another definition.
fn other_def(flows: &[Flow], defs: &[(usize, Def)]) -> Option<usize> {
    for (k, def) in defs {
        match flows.get(*k) {
            Some(flow) if def_fields(&flow.def) == def_fields(def) => {}
            _ => return Some(*k),
        }
    }
    None
}

/// Whether flows have these labels, and some of them these definitions.
fn are(flows: &[Flow], labels: &[&str], defs: &[(usize, Def)]) -> bool {
    other_label(flows, labels).is_none() && other_def(flows, defs).is_none()
}

const TWICE: &[u8] = b"sensor i wcet 1;
actuator o wcet 1;
node twice (x) returns (y) let y = 0 fby (0 fby x); tel
node main (i: int rate (10, 0)) returns (o) let o = twice(i); tel
";

const LABELS_OF_TWICE: [&str; 6] = ["i", "o", "twice#0.x", "twice#0.y", "$4", "$5"];

const DELAY: Op = Op::Fby(Value::Int(0));

const DEFS_OF_TWICE: [(usize, Def); 6] = [
    (0, Def::Sensor(0)),
    (1, Def::Copy(FlowNo(3))),
    (2, Def::Copy(FlowNo(0))),
    (3, Def::Copy(FlowNo(5))),
    (
        4,
        Def::Op {
            op: DELAY,
            of: FlowNo(2),
        },
    ),
    (
        5,
        Def::Op {
            op: DELAY,
            of: FlowNo(4),
        },
    ),
];

#[test]
fn flows_of_twice(rt: HostRuntime) {
    let is_right = match flat_of(rt.alloc(), TWICE) {
        Some(flat) => are(flat.flows(), &LABELS_OF_TWICE, &DEFS_OF_TWICE),
        None => false,
    };
    assert!(rt; is_right);
}

// The node g in the argument is entered before h, which comes after the constant.
const NESTED: &[u8] = b"imported node F(a: int) returns (z, w: int) wcet 3;
sensor i wcet 1;
actuator o wcet 1;
actuator q wcet 1;
node g (x) returns (y) let y = tail x; tel
node h (x, u) returns (y) var v: rate (10, 0) due 5; let v = x *^ 2 /^ 3; y = u; tel
node main (i: int rate (10, 0)) returns (o, q) var m;
let
  (o, m) = F(h(g(i), 7));
  q = 0 fby tail (g(m));
tel
";

const LABELS_OF_NESTED: [&str; 21] = [
    "i", "o", "q", "m", "g#0.x", "g#0.y", "$6", "$7", "h#1.x", "h#1.u", "h#1.y", "h#1.v", "$12",
    "$13", "$14", "$15", "g#2.x", "g#2.y", "$18", "$19", "$20",
];

const DEFS_OF_NESTED: [(usize, Def); 5] = [
    (1, Def::Copy(FlowNo(14))),
    (3, Def::Copy(FlowNo(15))),
    (
        12,
        Def::Op {
            op: Op::Up(2),
            of: FlowNo(8),
        },
    ),
    (
        13,
        Def::Op {
            op: Op::Down(3),
            of: FlowNo(12),
        },
    ),
    (
        19,
        Def::Op {
            op: Op::Tail,
            of: FlowNo(17),
        },
    ),
];

/// Whether `h`'s variable alone is declared with a clock, and is due at 5.
fn is_declared(flows: &[Flow]) -> bool {
    match (flows.get(10), flows.get(11)) {
        (Some(output), Some(variable)) => {
            variable.due == Some(5) && variable.rate.is_some() && output.rate.is_none()
        }
        _ => false,
    }
}

/// Whether there is one application, of one argument, which is this flow.
fn is_of_one(apps: &[App], flow: FlowNo) -> bool {
    match apps {
        [app] => app.args.len() == 1 && app.args.as_slice()[0].flow == flow,
        _ => false,
    }
}

/// Whether this is the expansion of nested nodes.
fn is_nested(flat: &Flat) -> bool {
    are(flat.flows(), &LABELS_OF_NESTED, &DEFS_OF_NESTED)
        && is_declared(flat.flows())
        && is_of_one(flat.apps(), FlowNo(10))
}

#[test]
fn nested_nodes_groups_and_two_outputs(rt: HostRuntime) {
    let is_right = match flat_of(rt.alloc(), NESTED) {
        Some(flat) => is_nested(&flat),
        None => false,
    };
    assert!(rt; is_right);
}

/// 62 parentheses that begin, and 62 that end.
const BEGINS: &str = "((((((((((((((((((((((((((((((((((((((((((((((((((((((((((((((";

const ENDS: &str = "))))))))))))))))))))))))))))))))))))))))))))))))))))))))))))))";

/// Adds 255 nodes, each of which applies the one before it in 62 parentheses; main applies the last.
fn push_deepest(text: &mut String) -> Result<(), AllocError> {
    text.push_str("sensor i wcet 1; actuator o wcet 1; node n0 (x) returns (y) let y = x; tel ")?;
    for before in 0u64..254 {
        let k = before + 1;
        write!(
            text,
            "node n{k} (x) returns (y) let y = {BEGINS}n{before}(x){ENDS}; tel "
        )?;
    }
    text.push_str("node main (i: int rate (10, 0)) returns (o) let o = n254(i); tel")
}

/// The flat program of these nodes.
fn deepest(alloc: Global) -> Option<Flat> {
    let mut text = String::new(alloc);
    match push_deepest(&mut text) {
        Ok(()) => flat_of(alloc, text.as_bytes()),
        Err(_) => None,
    }
}

/// Whether there are so many flows, and the last one has this label.
fn ends_with(flows: &[Flow], count: usize, label: &str) -> bool {
    match flows.last() {
        Some(flow) => flows.len() == count && flow.label.bytes() == label.as_bytes(),
        None => false,
    }
}

#[test]
fn deepest_program_that_is_accepted(rt: HostRuntime) {
    // Of 255 nodes and main each has two flows.
    let is_right = match deepest(rt.alloc()) {
        Some(flat) => ends_with(flat.flows(), 512, "n0#254.y"),
        None => false,
    };
    assert!(rt; is_right);
}
