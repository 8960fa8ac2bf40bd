//! The flows that the words choose.

ghost use Rattle.std.specs.Prelude.{◌≡◌, ◌<◌, ◌+◌, IfOk, drop, length, map};
ghost use Rattle.std.specs.List.{filter};
ghost use Rattle.std.specs.String.{string_bytes};
ghost use Rattle.prl_plot.specs.Asked.{AreChosen, is_named};
ghost use Rattle.prl_plot.specs.Places.{AreNames};

use prl_base::len_before;
use prl_io::{Fault, unfit_for, value_of};
use prl_steps::Flow;
use std::alloc::{AllocError, Global};
use std::collections::BTreeMap;

/// What stands behind the byte at a place.
fn behind(text: &[u8], at: usize) -> &[u8]
    requires { at < length text.now }
    ensures { result.now ≡ drop (at + 1) text.now }
{
    &text[at + 1..]
}

/// The names of a list with commas.
fn names_in(alloc: Global, names: &[u8]) -> Result<BTreeMap<&[u8], ()>, AllocError>
    ensures { IfOk result (AreNames names.now) }
{
    let mut table = BTreeMap::new(alloc);
    let mut rest = names;
    loop {
        let at = len_before(rest, b',');
        table.insert(&rest[..at], ())?;
        if at >= rest.len() {
            return Ok(table);
        }
        rest = behind(rest, at);
    }
}

/// The names of flows.
fn names_of(alloc: Global, flows: &[Flow]) -> Result<BTreeMap<&[u8], ()>, AllocError> {
    let mut table = BTreeMap::new(alloc);
    for flow in flows {
        table.insert(flow.name(), ())?;
    }
    Ok(table)
}

/// The first name of a list with commas that is not in the table.
fn unknown<'a>(names: &'a [u8], known: &BTreeMap<&[u8], ()>) -> Option<&'a [u8]> {
    let mut rest = names;
    loop {
        let at = len_before(rest, b',');
        let name = &rest[..at];
        if !known.contains_key(name) {
            return Some(name);
        }
        if at >= rest.len() {
            return None;
        }
        rest = behind(rest, at);
    }
}

/// Says so where a name of a list with commas is that of no flow.
fn all_known(alloc: Global, names: &[u8], flows: &[Flow]) -> Result<(), Fault> {
    let known = names_of(alloc, flows)?;
    match unknown(names, &known) {
        None => Ok(()),
        Some(name) => Err(no_row(alloc, name)),
    }
}

/// The flows of these names.
#[tactic(auto, using(crate::proofs::Parts::one_kept))]
fn kept(alloc: Global, flows: Vec<Flow>, names: &[u8]) -> Result<Vec<Flow>, AllocError>
    ensures { IfOk result (λ kept. kept.items ≡ filter (λ flow. is_named names.now flow.name) flows.items) }
{
    let named = names_in(alloc, names)?;
    let mut kept = Vec::new(alloc);
    for flow in flows {
        if named.contains_key(flow.name()) {
            kept.push(flow)?;
        }
    }
    Ok(kept)
}

/// Says that no flow of a name has a row.
fn no_row(alloc: Global, name: &[u8]) -> Fault {
    unfit_for(
        alloc,
        name,
        Vec::from_slice(alloc, b"no flow of this name has a row"),
    )
}

/// The flows that the words choose.
pub(crate) fn chosen(alloc: Global, words: &[String], flows: Vec<Flow>) -> Result<Vec<Flow>, Fault>
    ensures { IfOk result (λ chosen. AreChosen (map string_bytes words.now) flows.items chosen.items) }
{
    let Some(names) = value_of(b"--flow", words) else {
        return Ok(flows);
    };
    all_known(alloc, names, &flows)?;
    Ok(kept(alloc, flows, names)?)
}
