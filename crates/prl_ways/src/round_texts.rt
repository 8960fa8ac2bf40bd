//! Cycles of flows in words.

ghost use Rattle.std.specs.Prelude.{◌≡◌, ◌++◌, IfSome, OnOk};
ghost use Rattle.std.specs.List.{flat_map};
ghost use Rattle.prl_flow.specs.Uses.{is_made};
ghost use Rattle.prl_ways.specs.RoundTexts.{back_text, flow_label, need_text, quoted, round_text, way_text};

use crate::rounds::Round;
use prl_flow::Flat;
use std::alloc::AllocError;

/// The label of a flow; no bytes where that is not there.
fn label_of(flat: &Flat, flow: u32) -> &[u8]
    ensures { result.now ≡ flow_label flat.now flow }
{
    match flat.flows().get(flow as usize) {
        None => &[],
        Some(flow) => flow.label.bytes(),
    }
}

/// The flow of a label; None where there is none.
pub fn flow_named(flat: &Flat, label: &[u8]) -> Option<u32>
    ensures { IfSome result (λ i. flow_label flat.now i ≡ label.now) }
{
    for i in 0..flat.flows().len() as u32 {
        if label_of(flat, i) == label {
            return Some(i);
        }
    }
    None
}

/// Whether the label is that of a flow without a name.
fn is_made(label: &[u8]) -> bool
    ensures { result ≡ is_made label.now }
{
    matches!(label, [b'$', ..])
}

/// Appends words and a label.
#[tactic(auto, unfolding(crate::specs::RoundTexts::quoted))]
fn push_quoted(text: &mut Vec<u8>, front: &[u8], label: &[u8]) -> Result<(), AllocError>
    ensures { OnOk result (text.new.items ≡ text.old.items ++ quoted front.now label.now) }
{
    text.extend_from_slice(front)?;
    text.extend_from_slice(label)?;
    text.extend_from_slice(b"`")
}

/// Appends that a flow is needed, where it has a name.
#[tactic(auto, unfolding(crate::specs::RoundTexts::need_text))]
fn push_need(text: &mut Vec<u8>, flat: &Flat, flow: u32) -> Result<(), AllocError>
    ensures { OnOk result (text.new.items ≡ text.old.items ++ need_text flat.now flow) }
{
    let label = label_of(flat, flow);
    if is_made(label) {
        return Ok(());
    }
    push_quoted(text, b" needs `", label)?;
    text.extend_from_slice(b", which")
}

/// Appends which flows are needed one after another.
fn push_needs(text: &mut Vec<u8>, flat: &Flat, flows: &[u32]) -> Result<(), AllocError>
    ensures { OnOk result (text.new.items ≡ text.old.items ++ flat_map (need_text flat.now) flows.now) }
{
    for flow in flows {
        push_need(text, flat, *flow)?;
    }
    Ok(())
}

/// Appends the first flow, and those that have names after it.
#[tactic(auto, unfolding(crate::specs::RoundTexts::way_text))]
fn push_way(text: &mut Vec<u8>, flat: &Flat, round: &Round) -> Result<(), AllocError>
    ensures { OnOk result (text.new.items ≡ text.old.items ++ way_text flat.now round.now) }
{
    push_quoted(text, b"Round the cycle: `", label_of(flat, round.first))?;
    push_needs(text, flat, round.rest.as_slice())
}

/// Appends that the first flow is needed.
#[tactic(auto, unfolding(crate::specs::RoundTexts::back_text))]
fn push_back(text: &mut Vec<u8>, flat: &Flat, round: &Round) -> Result<(), AllocError>
    ensures { OnOk result (text.new.items ≡ text.old.items ++ back_text flat.now round.now) }
{
    push_quoted(text, b" needs `", label_of(flat, round.first))?;
    text.extend_from_slice(b".\n")
}

/// Appends the flows of the cycle that have names, one after another, back to the first.
pub fn push_round(text: &mut Vec<u8>, flat: &Flat, round: &Round) -> Result<(), AllocError>
    ensures { OnOk result (text.new.items ≡ text.old.items ++ round_text flat.now round.now) }
{
    push_way(text, flat, round)?;
    push_back(text, flat, round)
}
