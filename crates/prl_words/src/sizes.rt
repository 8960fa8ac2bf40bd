//! The numbers of every graph at hand are those that its types hold. Functions that do nothing: what they are given shows the
//! fact.

ghost use Rattle.std.specs.Prelude.{◌≡◌, ◌<◌, ℕ, Some, slice_get};
ghost use Rattle.prl_base.specs.Ratios.{IsSmallFraction};
ghost use Rattle.prl_base.specs.declared.operators.Op.{Op};
ghost use Rattle.prl_plan.specs.Representable.{HasSmallOutput, HasSmallShift, IsRepresentable};

use prl_base::{Op, Ratio};
use prl_plan::{Edge, Producer, TaskGraph};

/// A ratio is reduced, and its parts are small.
fn ratio_is_small(ratio: Ratio)
    ensures { IsSmallFraction ratio }
{
    let _den = ratio.den;
}

/// A shift is a reduced ratio of small parts.
fn shift_is_small(op: Op)
    ensures { HasSmallShift op }
{
    match op {
        Op::Fby(_) | Op::Cons(_) | Op::Tail | Op::Up(_) | Op::Down(_) => {}
        Op::Shift(ratio) => ratio_is_small(ratio),
    }
}

/// An output has a number of 32 bits.
fn output_is_small(from: Producer)
    ensures { HasSmallOutput from }
{
    match from {
        Producer::Port { out, .. } => {
            let _out = out;
        }
        Producer::Constant(_) => {}
    }
}

/// All shifts of an edge are reduced.
fn shifts_are_small(ops: &[Op])
    ensures { (k : ℕ) (op : Op) → slice_get ops.now k ≡ Some op → HasSmallShift op }
{
    for op in ops {
        shift_is_small(*op);
    }
}

/// An edge has an output of 32 bits and reduced shifts.
fn edge_is_small(edge: &Edge)
    ensures output { HasSmallOutput edge.now.from }
    ensures shifts { (k : ℕ) (op : Op) → slice_get edge.now.ops k ≡ Some op → HasSmallShift op }
{
    output_is_small(edge.from);
    shifts_are_small(edge.ops.as_slice());
}

/// Each graph at hand is one of outputs of 32 bits and of reduced shifts.
pub fn graph_is_representable(graph: &TaskGraph)
    ensures { IsRepresentable graph.now }
{
    for edge in graph.edges.as_slice() {
        edge_is_small(edge);
    }
}
