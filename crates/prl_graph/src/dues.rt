//! The dues that flows note: where they may stand, their range, and the least for each application.

ghost use Rattle.std.specs.Prelude.{◌≡◌, ◌<◌, ℕ, IfErr, IfOk, List, MatchOption, false, length, true};
ghost use Rattle.prl_base.specs.declared.operators.Clock.{Clock};
ghost use Rattle.prl_flow.specs.Solutions.{AreClocks};
ghost use Rattle.prl_graph.specs.Dues.{AllowsDue, AreDuesAllowed, AreDuesInRange, CopiesOutput, IsMainInput};
ghost use Rattle.prl_graph.specs.TaskGraphs.{IsGraphFault};
ghost use Rattle.prl_graph.specs.code.Marks.{AreOutputMarks, IsLabelOf, IsMisplaced, IsPlaced, IsRanged, IsUnranged};

use crate::GraphFault;
use crate::tasks::clock_at;
use prl_base::{FlowNo, Label};
use prl_flow::{Clocks, Def, Flat};
use std::alloc::{AllocError, Global};

/// Which flows are main's outputs.
pub(crate) fn output_marks(alloc: Global, flat: &Flat) -> Result<Vec<bool>, AllocError>
    ensures { IfOk result (λ marks. AreOutputMarks flat.now marks.items) }
{
    let mut made = vec![in alloc; false; flat.flows().len()]?;
    let marks = made.as_mut_slice();
    for flow in flat.outs() {
        marks[flow.0 as usize] = true;
    }
    Ok(made)
}

/// The application of which the flow is a copy of an output.
pub(crate) fn copied_application(flat: &Flat, i: usize) -> Option<u32>
    requires { i < length flat.now.flows }
    ensures { MatchOption result ((k : ℕ) → CopiesOutput flat.now i k → ⊥) (CopiesOutput flat.now i) }
{
    let flows = flat.flows();
    match flows[i].def {
        Def::Copy(of) => match flows[of.0 as usize].def {
            Def::Apply { app, .. } => Some(app),
            _ => None,
        },
        _ => None,
    }
}

/// Whether the flow is main's input.
fn is_input(flat: &Flat, i: usize) -> bool
    requires { i < length flat.now.flows }
    ensures yes { result ≡ true → IsMainInput flat.now i }
    ensures no { result ≡ false → IsMainInput flat.now i → ⊥ }
{
    match flat.flows()[i].def {
        Def::Sensor(_) => true,
        _ => false,
    }
}

/// Whether a due may stand on the flow.
fn allows_due(flat: &Flat, outputs: &[bool], i: usize) -> bool
    requires outputs { AreOutputMarks flat.now outputs.now }
    requires within { i < length flat.now.flows }
    ensures yes { result ≡ true → AllowsDue flat.now i }
    ensures no { result ≡ false → AllowsDue flat.now i → ⊥ }
{
    if outputs[i] {
        return true;
    }
    if is_input(flat, i) {
        return true;
    }
    match copied_application(flat, i) {
        Some(_) => true,
        None => false,
    }
}

/// Whether a due stands on the flow that may not.
fn is_misplaced(flat: &Flat, outputs: &[bool], i: usize) -> bool
    requires outputs { AreOutputMarks flat.now outputs.now }
    requires within { i < length flat.now.flows }
    ensures yes { result ≡ true → IsMisplaced flat.now i }
    ensures no { result ≡ false → IsPlaced flat.now i }
{
    let flows = flat.flows();
    let flow = &flows[i];
    match flow.due {
        Some(_) => !allows_due(flat, outputs, i),
        None => false,
    }
}

/// The due on the flow, where it is not between 1 and the flow's period.
fn due_out_of_range(flat: &Flat, clocks: &Clocks, i: usize) -> Option<u32>
    requires clocks { i < length clocks.now.of }
    requires within { i < length flat.now.flows }
    ensures { MatchOption result (IsRanged flat.now clocks.now.of i) (IsUnranged flat.now clocks.now.of i) }
{
    let flows = flat.flows();
    let due = flows[i].due?;
    if due == 0 {
        return Some(due);
    }
    if u64::from(due) > clock_at(clocks, i).period {
        return Some(due);
    }
    None
}

/// A copy of the label of the flow.
fn label_of(alloc: Global, flat: &Flat, i: usize) -> Result<Label, AllocError>
    requires { i < length flat.now.flows }
    ensures { IfOk result (IsLabelOf flat.now i) }
{
    Label::new(alloc, flat.flows()[i].label.bytes())
}

/// Whether each due stands where it may.
pub(crate) fn check_places(alloc: Global, flat: &Flat, outputs: &[bool]) -> Result<(), GraphFault>
    requires { AreOutputMarks flat.now outputs.now }
    ensures allowed { IfOk result (λ done. AreDuesAllowed flat.now) }
    ensures fault { IfErr result (λ fault. (clocks : List Clock) → IsGraphFault flat.now clocks fault) }
{
    let flows = flat.flows();
    for i in 0..flows.len() {
        if is_misplaced(flat, outputs, i) {
            let label = label_of(alloc, flat, i)?;
            return Err(GraphFault::DueOnNonTask(label));
        }
    }
    Ok(())
}

/// Whether each due is between 1 and the period of its flow.
pub(crate) fn check_ranges(alloc: Global, flat: &Flat, clocks: &Clocks) -> Result<(), GraphFault>
    requires clocks { AreClocks flat.now clocks.now.of }
    requires allowed { AreDuesAllowed flat.now }
    ensures within { IfOk result (λ done. AreDuesInRange flat.now clocks.now.of) }
    ensures fault { IfErr result (IsGraphFault flat.now clocks.now.of) }
{
    let flows = flat.flows();
    for i in 0..flows.len() {
        match due_out_of_range(flat, clocks, i) {
            Some(due) => {
                let flow = label_of(alloc, flat, i)?;
                let period = clock_at(clocks, i).period;
                return Err(GraphFault::DueRange { flow, due, period });
            }
            None => {}
        }
    }
    Ok(())
}
