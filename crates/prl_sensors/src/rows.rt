//! The rows of sensors.

ghost use Rattle.std.specs.Prelude.{◌≡◌, ◌<◌, ◌+◌, ◌/◌, ℕ, List, IfOk, IfSome, OnOk, bytes_eq, decimal, length, map, min};
ghost use Rattle.std.specs.Option.{option_map};
ghost use Rattle.std.specs.Vec.{vec_items};
ghost use Rattle.csv.specs.Records.{fields_of};
ghost use Rattle.prl_base.specs.Vocabulary.{integer_of, GivesBut};
ghost use Rattle.prl_base.specs.declared.values.Value.TheVariants as values;
ghost use Rattle.prl_sensors.specs.code.Left.{HasLeft};
ghost use Rattle.prl_sensors.specs.SensorRows.{is_header, no_rows, records_of, sensors_of, short_of, truth_of, unless_short, value_of, with_record, with_records, with_row, with_three, with_value};

use crate::faults::SensorFault;
use crate::finders::Finder;
use crate::plain::plain_rows;
use crate::records::{Fields, read_record, reader_of, three};
use csv::{ByteRecord, Reader};
use itoa::Buffer;
use prl_base::{Name, Seq, Ty, Value, integer_of};
use prl_flow::Sensors;
use std::alloc::{AllocError, Global};

/// The fewest bytes of a row beside its name: two commas, an instance, a value and a line end.
const LEAST_ROW: usize = 5;

/// Room for the rows that an input needs, but for no more than a text of this length can hold.
fn room_for(name: &Name, need: u64, len: usize) -> usize
    ensures { result ≡ min need (len / (length name.now + LEAST_ROW) + 1) }
{
    let most = len / (name.bytes().len() + LEAST_ROW) + 1;
    if need < most as u64 {
        need as usize
    } else {
        most
    }
}

/// No rows for any input, with room for those that it needs.
fn no_rows(
    alloc: Global,
    names: &[Name],
    needs: &[u64],
    len: usize,
) -> Result<Vec<Vec<Value>>, AllocError>
    requires { length needs.now ≡ length names.now }
    ensures { IfOk result (λ rows. map vec_items rows.items ≡ no_rows names.now) }
{
    let mut rows = Vec::with_capacity(alloc, names.len())?;
    for k in 0..names.len() {
        rows.push(Vec::with_capacity(alloc, room_for(&names[k], needs[k], len))?)?;
    }
    Ok(rows)
}

/// The truth value that a field is written as.
pub fn truth_of(text: &[u8]) -> Option<bool>
    ensures { result ≡ truth_of text.now }
{
    if text == b"true".as_slice() {
        Some(true)
    } else if text == b"false".as_slice() {
        Some(false)
    } else {
        None
    }
}

/// The integer that a field is written as, as a value.
pub fn int_of(text: &[u8]) -> Option<Value>
    ensures { result ≡ option_map values.Int (integer_of text.now) }
{
    Some(Value::Int(integer_of(text)?))
}

/// The truth value that a field is written as, as a value.
fn bool_of(text: &[u8]) -> Option<Value>
    ensures { result ≡ option_map values.Bool (truth_of text.now) }
{
    Some(Value::Bool(truth_of(text)?))
}

/// The value of the type that a field is written as.
fn value_of(ty: Ty, text: &[u8]) -> Option<Value>
    ensures { result ≡ value_of ty text.now }
{
    match ty {
        Ty::Int => int_of(text),
        Ty::Bool => bool_of(text),
    }
}

/// Whether the fields are those of a header.
fn is_header(fields: Option<Fields<'_>>) -> bool
    ensures { result ≡ is_header (option_map (λ f. (f.0.now, f.1.now, f.2.now)) fields.entry) }
{
    match fields {
        None => false,
        Some((name, instance, value)) => {
            name == b"name".as_slice()
                && instance == b"instance".as_slice()
                && value == b"value".as_slice()
        }
    }
}

/// Whether the field is the number, in decimal.
fn is_number(field: &[u8], number: usize) -> bool
    ensures { result ≡ bytes_eq field.now (decimal number) }
{
    let mut buffer = Buffer::new();
    field == buffer.format(number).as_bytes()
}

/// One more row of an input.
fn push_value(rows: &mut Vec<Vec<Value>>, k: usize, value: Value) -> Result<(), AllocError>
    requires { k < length rows.old.items }
    ensures lists { length rows.new.items ≡ length rows.old.items }
    ensures exact { OnOk result (map vec_items rows.new.items ≡ with_value (map vec_items rows.old.items) k value) }
{
    rows[k].push(value)?;
    Ok(())
}

/// The row of the input, by the record of this number.
fn push_row(
    types: &[Ty],
    number: u64,
    rows: &mut Vec<Vec<Value>>,
    input: Option<usize>,
    instance: &[u8],
    value: &[u8],
) -> Result<(), SensorFault>
    requires types { length types.now ≡ length rows.old.items }
    requires input { IfSome input (λ k. k < length rows.old.items) }
    ensures lists { length rows.new.items ≡ length rows.old.items }
    ensures exact { GivesBut SensorFault.Memory (λ _. map vec_items rows.new.items) result
        (with_row types.now number (map vec_items rows.old.items) input instance.now value.now) }
{
    let Some(k) = input else {
        return Err(SensorFault::NoSensor(number));
    };
    if !is_number(instance, rows[k].len()) {
        return Err(SensorFault::Order(number));
    }
    let Some(value) = value_of(types[k], value) else {
        return Err(SensorFault::Value(number));
    };
    push_value(rows, k, value)?;
    Ok(())
}

/// The row that these fields of the record of this number are, unless they are the header.
pub(crate) fn push_fields(
    finder: &mut Finder<'_>,
    types: &[Ty],
    number: u64,
    rows: &mut Vec<Vec<Value>>,
    row: Option<Fields<'_>>,
) -> Result<(), SensorFault>
    requires types { length types.now ≡ length rows.old.items }
    requires names { length finder.old ≡ length rows.old.items }
    ensures exact { GivesBut SensorFault.Memory (λ _. map vec_items rows.new.items) result
        (with_three (record { names = finder.old; types = types.now }) number (map vec_items rows.old.items) (option_map (λ f. (f.0.now, f.1.now, f.2.now)) row.entry)) }
    ensures lists { length rows.new.items ≡ length rows.old.items }
    ensures same { finder.new ≡ finder.old }
{
    if number == 1 && is_header(row) {
        return Ok(());
    }
    match row {
        None => Err(SensorFault::Row(number)),
        Some((name, instance, value)) => {
            push_row(types, number, rows, finder.find(name), instance, value)
        }
    }
}

/// The row that the record of this number is, unless it is the header.
#[tactic(auto, unfolding(crate::specs::SensorRows::with_record))]
fn push_record(
    finder: &mut Finder<'_>,
    types: &[Ty],
    number: u64,
    rows: &mut Vec<Vec<Value>>,
    fields: &ByteRecord,
) -> Result<(), SensorFault>
    requires types { length types.now ≡ length rows.old.items }
    requires names { length finder.old ≡ length rows.old.items }
    ensures exact { GivesBut SensorFault.Memory (λ _. map vec_items rows.new.items) result
        (with_record (record { names = finder.old; types = types.now }) number (map vec_items rows.old.items) (fields_of fields.now)) }
    ensures lists { length rows.new.items ≡ length rows.old.items }
    ensures same { finder.new ≡ finder.old }
{
    push_fields(finder, types, number, rows, three(fields))
}

/// Adds the rows of the records that are left, of which the first is the first of the text.
fn push_records(
    reader: &mut Reader<&[u8]>,
    fields: &mut ByteRecord,
    finder: &mut Finder<'_>,
    types: &[Ty],
    rows: &mut Vec<Vec<Value>>,
) -> Result<(), SensorFault>
    requires types { length types.now ≡ length rows.old.items }
    requires names { length finder.old ≡ length rows.old.items }
    ensures lists { length rows.new.items ≡ length rows.old.items }
    ensures exact { (left : List (List (List ℕ))) → HasLeft reader.old left → GivesBut SensorFault.Memory (λ _. map vec_items rows.new.items) result
        (with_records (record { names = finder.old; types = types.now }) 1 (map vec_items rows.old.items) left) }
{
    for number in 1..u64::MAX {
        if !read_record(reader, fields)? {
            return Ok(());
        }
        push_record(finder, types, number, rows, fields)?;
    }
    Err(SensorFault::Memory)
}

/// The rows of all records of a text.
fn read_rows(
    alloc: Global,
    text: &[u8],
    names: &[Name],
    types: &[Ty],
    rows: Vec<Vec<Value>>,
) -> Result<Vec<Vec<Value>>, SensorFault>
    requires types { length types.now ≡ length names.now }
    requires rows { map vec_items rows.items ≡ no_rows names.now }
    ensures lists { IfOk result (λ rows. length rows.items ≡ length names.now) }
    ensures exact { GivesBut SensorFault.Memory (λ rows. map vec_items rows.items) result
        (with_records (record { names = names.now; types = types.now }) 1 (no_rows names.now) (records_of text.now)) }
{
    let mut finder = Finder::new(alloc, names)?;
    let mut rows = rows;
    let mut reader = reader_of(alloc, text);
    let mut fields = ByteRecord::new(alloc);
    push_records(&mut reader, &mut fields, &mut finder, types, &mut rows)?;
    Ok(rows)
}

/// The rows of all records of a text. The whole text goes to `csv` where one of them is not in plain form.
fn rows_of(
    alloc: Global,
    text: &[u8],
    names: &[Name],
    types: &[Ty],
    needs: &[u64],
) -> Result<Vec<Vec<Value>>, SensorFault>
    requires types { length types.now ≡ length names.now }
    requires needs { length needs.now ≡ length names.now }
    ensures lists { IfOk result (λ rows. length rows.items ≡ length names.now) }
    ensures exact { GivesBut SensorFault.Memory (λ rows. map vec_items rows.items) result
        (with_records (record { names = names.now; types = types.now }) 1 (no_rows names.now) (records_of text.now)) }
{
    let rows = no_rows(alloc, names, needs, text.len())?;
    match plain_rows(alloc, text, names, types, rows)? {
        Some(rows) => Ok(rows),
        None => {
            let rows = no_rows(alloc, names, needs, text.len())?;
            read_rows(alloc, text, names, types, rows)
        }
    }
}

/// Whether each input has as many rows as it needs.
fn check_rows(
    alloc: Global,
    names: &[Name],
    needs: &[u64],
    rows: &[Vec<Value>],
) -> Result<(), SensorFault>
    requires needs { length needs.now ≡ length names.now }
    requires rows { length rows.now ≡ length names.now }
    ensures { GivesBut SensorFault.Memory (λ _. map vec_items rows.now) result
        (unless_short (map vec_items rows.now) (short_of names.now needs.now (map vec_items rows.now))) }
{
    for k in 0..names.len() {
        let have = rows[k].len() as u64;
        let need = needs[k];
        if have < need {
            let name = names[k].copy(alloc)?;
            return Err(SensorFault::Short { name, have, need });
        }
    }
    Ok(())
}

/// The rows as they are kept.
fn kept(alloc: Global, rows: Vec<Vec<Value>>) -> Result<Sensors, AllocError>
    ensures { IfOk result (λ sensors. sensors ≡ map vec_items rows.items) }
{
    let mut lists = Vec::with_capacity(alloc, rows.len())?;
    for values in rows {
        lists.push(Seq::new(values))?;
    }
    Ok(Sensors::new(lists))
}

/// The rows of the sensors of main's inputs, whose names, types and numbers of rows that are needed stand in the order
/// of the inputs. A text has records as `csv` reads them, with any number of fields and no header, after a byte order
/// mark. Each is a row: the name of an input, the number of its next instance in decimal, and a value of its type, where
/// an integer is digits after at most one `-`, with leading zeros or without. The first record may be
/// the header `name,instance,value`. More rows than are needed are kept. The first record that is no row is refused, by its fields, its name,
/// its instance and its value in this order; and after all records the first input with too few rows.
pub fn read_sensors(
    alloc: Global,
    text: &[u8],
    names: &[Name],
    types: &[Ty],
    needs: &[u64],
) -> Result<Sensors, SensorFault>
    requires types { length types.now ≡ length names.now }
    requires needs { length needs.now ≡ length names.now }
    ensures { GivesBut SensorFault.Memory (λ sensors. sensors) result
        (sensors_of (record { names = names.now; types = types.now }) needs.now text.now) }
{
    let rows = rows_of(alloc, text, names, types, needs)?;
    check_rows(alloc, names, needs, rows.as_slice())?;
    Ok(kept(alloc, rows)?)
}
