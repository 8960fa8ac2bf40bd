//! The flows of a text of rows.

ghost use Rattle.std.specs.Prelude.{◌≡◌, ◌<◌, ◌++◌, ◌∷◌, [], None, OnOk, length, option_copied, slice_get};
ghost use Rattle.csv.specs.Records.{fields_of};
ghost use Rattle.prl_base.specs.Reading.{GivesBut};
ghost use Rattle.prl_plot.specs.Places.{ArePlaces, IsNoted, at_name};
ghost use Rattle.prl_plot.specs.Rows.{added, added_at, begun, flows_of, is_after, is_of, with_record, with_row};

use crate::entries::{Entry, entry_of};
use crate::forms::Form;
use crate::readings::Reading;
use crate::records::is_header;
use crate::row_faults::RowFault;
use csv::ByteRecord;
use prl_base::{Name, NameFault, Ty, Value};
use prl_sensors::{read_record, reader_of};
use prl_steps::{Flow, Sample, level_of};
use std::alloc::{AllocError, Global};
use std::collections::BTreeMap;

/// Whether a value is of this type.
fn is_of(ty: Ty, value: Value) -> bool
    ensures { result ≡ is_of ty value }
{
    match (ty, value) {
        (Ty::Int, Value::Int(_)) => true,
        (Ty::Int, Value::Bool(_)) => false,
        (Ty::Bool, Value::Int(_)) => false,
        (Ty::Bool, Value::Bool(_)) => true,
    }
}

/// Whether a date is after that of a sample, where there is one.
fn is_after(last: Option<&Sample>, date: u64) -> bool
    ensures { result ≡ is_after (option_copied last.entry) date }
{
    match last {
        None => true,
        Some(sample) => sample.date < date,
    }
}

/// The flows of the rows so far, and where the one of each name stands.
#[derive(Drop)]
struct Found {
    flows: Vec<Flow>,
    places: BTreeMap<Vec<u8>, usize>,
}

/// Where the flow of a name stands, where it has a row.
fn place_in(places: &BTreeMap<Vec<u8>, usize>, name: &[u8]) -> Option<usize>
    ensures { result ≡ at_name places.now name.now }
{
    places.get(name).copied()
}

/// One more flow, with one sample.
fn push_flow(
    alloc: Global,
    flows: &mut Vec<Flow>,
    name: Name,
    ty: Ty,
    sample: Sample,
) -> Result<(), AllocError>
    ensures { OnOk result (flows.new.items ≡ flows.old.items ++ record { name = name; ty = ty; samples = sample ∷ [] } ∷ []) }
{
    flows.push(Flow::new(alloc, name, ty, sample)?)?;
    Ok(())
}

/// A flow begins with the row of an entry.
fn begin(
    alloc: Global,
    flows: &mut Vec<Flow>,
    number: u64,
    entry: Entry<'_>,
) -> Result<(), RowFault>
    ensures { GivesBut RowFault.Memory (λ _. flows.new.items) result (begun number flows.old.items (entry.entry.0.now, entry.entry.1, entry.entry.2)) }
{
    let sample = Sample {
        date: entry.1,
        level: level_of(entry.2),
    };
    match Name::new(alloc, entry.0) {
        Ok(name) => {
            push_flow(alloc, flows, name, entry.2.ty(), sample)?;
            Ok(())
        }
        Err(NameFault::Shape) => Err(RowFault::Row(number)),
        Err(NameFault::Long(_)) => Err(RowFault::Row(number)),
        Err(NameFault::Memory) => Err(RowFault::Memory),
    }
}

/// The flow at a place goes on with the row of an entry.
fn go_on(
    flows: &mut Vec<Flow>,
    k: usize,
    number: u64,
    name: &[u8],
    date: u64,
    value: Value,
) -> Result<(), RowFault>
    requires { k < length flows.old.items }
    ensures { GivesBut RowFault.Memory (λ _. flows.new.items) result
        (added_at number flows.old.items k (slice_get flows.old.items k) (name.now, date, value)) }
{
    let _ = name;
    let flow = &flows[k];
    if !is_of(flow.ty(), value) {
        return Err(RowFault::Value(number));
    }
    if !is_after(flow.samples().last(), date) {
        return Err(RowFault::Order(number));
    }
    flows[k].push(Sample {
        date,
        level: level_of(value),
    })?;
    Ok(())
}

/// Notes where the flow of a name stands.
fn note(
    alloc: Global,
    places: &mut BTreeMap<Vec<u8>, usize>,
    name: &[u8],
    place: usize,
) -> Result<(), AllocError>
    ensures { OnOk result (IsNoted places.old name.now place places.new) }
{
    places.insert(Vec::from_slice(alloc, name)?, place)?;
    Ok(())
}

/// A flow begins with the row of an entry, at a place that is noted.
fn start(alloc: Global, found: &mut Found, number: u64, entry: Entry<'_>) -> Result<(), RowFault>
    requires places { ArePlaces found.old.places found.old.flows.items }
    requires new { at_name found.old.places entry.0.now ≡ None }
    ensures exact { GivesBut RowFault.Memory (λ _. found.new.flows.items) result (begun number found.old.flows.items (entry.entry.0.now, entry.entry.1, entry.entry.2)) }
    ensures places { OnOk result (ArePlaces found.new.places found.new.flows.items) }
{
    let place = found.flows.len();
    match begin(alloc, &mut found.flows, number, entry) {
        Ok(()) => Ok(note(alloc, &mut found.places, entry.0, place)?),
        Err(fault) => Err(fault),
    }
}

/// Adds the row of an entry.
fn add(alloc: Global, found: &mut Found, number: u64, entry: Entry<'_>) -> Result<(), RowFault>
    requires { ArePlaces found.old.places found.old.flows.items }
    ensures exact { GivesBut RowFault.Memory (λ _. found.new.flows.items) result (added number found.old.flows.items (entry.entry.0.now, entry.entry.1, entry.entry.2)) }
    ensures places { OnOk result (ArePlaces found.new.places found.new.flows.items) }
{
    match place_in(&found.places, entry.0) {
        Some(k) => go_on(&mut found.flows, k, number, entry.0, entry.1, entry.2),
        None => start(alloc, found, number, entry),
    }
}

/// Adds the row that the record of this number is.
fn push_row(
    alloc: Global,
    reading: &Reading<'_>,
    number: u64,
    found: &mut Found,
    fields: &ByteRecord,
) -> Result<(), RowFault>
    requires { ArePlaces found.old.places found.old.flows.items }
    ensures exact { GivesBut RowFault.Memory (λ _. found.new.flows.items) result (with_row reading.now number found.old.flows.items (fields_of fields.now)) }
    ensures places { OnOk result (ArePlaces found.new.places found.new.flows.items) }
{
    match entry_of(reading, number, fields) {
        Ok(entry) => add(alloc, found, number, entry),
        Err(fault) => Err(fault),
    }
}

/// Adds the row that the record of this number is, unless it is the header.
#[tactic(auto, unfolding(crate::specs::Rows::with_record))]
fn push_record(
    alloc: Global,
    reading: &Reading<'_>,
    number: u64,
    found: &mut Found,
    fields: &ByteRecord,
) -> Result<(), RowFault>
    requires { ArePlaces found.old.places found.old.flows.items }
    ensures exact { GivesBut RowFault.Memory (λ _. found.new.flows.items) result (with_record reading.now number found.old.flows.items (fields_of fields.now)) }
    ensures places { OnOk result (ArePlaces found.new.places found.new.flows.items) }
{
    if number == 1 && is_header(fields) {
        return Ok(());
    }
    push_row(alloc, reading, number, found, fields)
}

/// No flows.
fn none_found(alloc: Global) -> Found
    ensures flows { result.flows.items ≡ [] }
    ensures places { ArePlaces result.places result.flows.items }
{
    Found {
        flows: Vec::new(alloc),
        places: BTreeMap::new(alloc),
    }
}

/// The flows of the rows of a text, in the order of their first rows; or the first row that is none.
pub fn read_flows(alloc: Global, form: &Form, text: &[u8]) -> Result<Vec<Flow>, RowFault>
    ensures { GivesBut RowFault.Memory (λ flows. flows.items) result (flows_of form.now text.now) }
{
    let reading = Reading::new(alloc, form)?;
    let mut found = none_found(alloc);
    let mut reader = reader_of(alloc, text);
    let mut fields = ByteRecord::new(alloc);
    for number in 1..u64::MAX {
        if !read_record(&mut reader, &mut fields)? {
            return Ok(found.flows);
        }
        push_record(alloc, &reading, number, &mut found, &fields)?;
    }
    Err(RowFault::Memory)
}
