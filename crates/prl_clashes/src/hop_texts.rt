//! The steps of a way in words: the operators and the names that are passed.

ghost use Rattle.std.specs.Prelude.{◌≡◌, ◌++◌, OnOk};
ghost use Rattle.std.specs.Option.{option_map};
ghost use Rattle.prl_clashes.specs.ClashTexts.{factor_text, flow_label, hop_text, hops_text, is_unnamed, lead_of, name_text, operator_in, operator_of_definition, operator_text, passed_text, passing_text, quoted, shift_text, user_of};

use crate::ways::Hop;
use prl_base::{Op, Ratio, push_number, push_ratio};
use prl_flow::{Def, Flat};
use std::alloc::AllocError;

/// The label of a flow; no bytes where that is not there.
pub(crate) fn label_of(flat: &Flat, flow: u32) -> &[u8]
    ensures { result.now ≡ flow_label flat.now flow }
{
    match flat.flows().get(flow as usize) {
        None => &[],
        Some(flow) => flow.label.bytes(),
    }
}

/// Whether the label is that of a flow without a name, or none.
fn is_unnamed(label: &[u8]) -> bool
    ensures { result ≡ is_unnamed label.now }
{
    match label {
        [] => true,
        [first, ..] => *first == b'$',
    }
}

/// Appends words, and a word between accents.
#[tactic(auto, unfolding(crate::specs::ClashTexts::quoted))]
pub(crate) fn push_quoted(text: &mut Vec<u8>, front: &[u8], word: &[u8]) -> Result<(), AllocError>
    ensures { OnOk result (text.new.items ≡ text.old.items ++ quoted front.now word.now) }
{
    text.extend_from_slice(front)?;
    text.extend_from_slice(word)?;
    text.extend_from_slice(b"`")
}

/// Appends words and a number.
#[tactic(auto, unfolding(crate::specs::ClashTexts::factor_text))]
pub(crate) fn push_factor(text: &mut Vec<u8>, front: &[u8], factor: u32) -> Result<(), AllocError>
    ensures { OnOk result (text.new.items ≡ text.old.items ++ factor_text front.now factor) }
{
    text.extend_from_slice(front)?;
    push_number(text, u64::from(factor))
}

/// Appends a shift.
#[tactic(auto, unfolding(crate::specs::ClashTexts::shift_text))]
fn push_shift(text: &mut Vec<u8>, by: Ratio) -> Result<(), AllocError>
    ensures { OnOk result (text.new.items ≡ text.old.items ++ shift_text by) }
{
    text.extend_from_slice(b"~> ")?;
    push_ratio(text, by)
}

/// Appends an operator as it is written.
fn push_operator(text: &mut Vec<u8>, op: &Op) -> Result<(), AllocError>
    ensures { OnOk result (text.new.items ≡ text.old.items ++ operator_text op.now) }
{
    match op {
        Op::Fby(_) => text.extend_from_slice(b"fby"),
        Op::Cons(_) => text.extend_from_slice(b"::"),
        Op::Tail => text.extend_from_slice(b"tail"),
        Op::Up(count) => push_factor(text, b"*^ ", *count),
        Op::Down(count) => push_factor(text, b"/^ ", *count),
        Op::Shift(by) => push_shift(text, *by),
    }
}

/// The operator that a definition has.
fn operator_of(def: &Def) -> Option<&Op>
    ensures { option_map (λ op. op.now) result ≡ operator_of_definition def.now }
{
    match def {
        Def::Sensor(_) | Def::Copy(_) | Def::Const(_) | Def::Apply { .. } => None,
        Def::Op { op, .. } => Some(op),
    }
}

/// The operator that a flow is made by.
fn operator_in(flat: &Flat, flow: u32) -> Option<&Op>
    ensures { option_map (λ op. op.now) result ≡ operator_in flat.now flow }
{
    match flat.flows().get(flow as usize) {
        None => None,
        Some(flow) => operator_of(&flow.def),
    }
}

/// What stands before an operator.
fn lead_of(back: bool) -> &'static [u8]
    ensures { result.now ≡ lead_of back }
{
    if back { b", back over `" } else { b", `" }
}

/// Appends an operator that is passed.
#[tactic(auto, unfolding(crate::specs::ClashTexts::passed_text))]
fn push_passed(text: &mut Vec<u8>, back: bool, op: &Op) -> Result<(), AllocError>
    ensures { OnOk result (text.new.items ≡ text.old.items ++ passed_text back op.now) }
{
    text.extend_from_slice(lead_of(back))?;
    push_operator(text, op)?;
    text.extend_from_slice(b"`")
}

/// Appends the operator that is passed, where there is one.
fn push_passing(text: &mut Vec<u8>, back: bool, op: Option<&Op>) -> Result<(), AllocError>
    ensures { OnOk result (text.new.items ≡ text.old.items ++ passing_text back (option_map (λ op. op.now) op.entry)) }
{
    match op {
        None => Ok(()),
        Some(op) => push_passed(text, back, op),
    }
}

/// Appends the name that is passed, where there is one.
fn push_name(text: &mut Vec<u8>, label: &[u8]) -> Result<(), AllocError>
    ensures { OnOk result (text.new.items ≡ text.old.items ++ name_text label.now) }
{
    if is_unnamed(label) {
        return Ok(());
    }
    push_quoted(text, b", `", label)
}

/// The flow of whose definition a step is.
fn user_of(from: u32, hop: Hop) -> u32
    ensures { result ≡ user_of from hop }
{
    if hop.back { from } else { hop.flow }
}

/// Appends a flow after another one.
#[tactic(auto, using(crate::proofs::Joins::joined), unfolding(crate::specs::ClashTexts::hop_text))]
fn push_hop(text: &mut Vec<u8>, flat: &Flat, from: u32, hop: Hop) -> Result<(), AllocError>
    ensures { OnOk result (text.new.items ≡ text.old.items ++ hop_text flat.now from hop) }
{
    push_passing(text, hop.back, operator_in(flat, user_of(from, hop)))?;
    push_name(text, label_of(flat, hop.flow))
}

/// Appends flows one after another.
#[tactic(auto, using(crate::proofs::Joins::joined))]
pub(crate) fn push_hops(
    text: &mut Vec<u8>,
    flat: &Flat,
    from: u32,
    hops: &[Hop],
) -> Result<(), AllocError>
    ensures { OnOk result (text.new.items ≡ text.old.items ++ hops_text flat.now from hops.now) }
{
    match hops {
        [] => Ok(()),
        [hop, rest @ ..] => {
            push_hop(text, flat, from, *hop)?;
            push_hops(text, flat, hop.flow, rest)
        }
    }
}
