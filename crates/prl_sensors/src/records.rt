//! The records of a text, one after another.

ghost use Rattle.std.specs.Prelude.{◌≡◌, ◌<◌, List, ℕ, IfOk, Some, length};
ghost use Rattle.std.specs.Option.{option_map};
ghost use Rattle.csv.specs.Records.{field_at, fields_of};
ghost use Rattle.prl_sensors.specs.SensorRows.{records_of, three};
ghost use Rattle.prl_sensors.specs.code.Left.{HasLeft, Reads};

use csv::{ByteRecord, Reader, ReaderBuilder};
use std::alloc::{AllocError, Global};

/// The fields of a sensor's row: name, instance and value.
pub type Fields<'a> = (&'a [u8], &'a [u8], &'a [u8]);

/// A reader of the records of a text, which have any number of fields and no header.
pub fn reader_of(alloc: Global, text: &[u8]) -> Reader<&[u8]>
    ensures { HasLeft result (records_of text.now) }
{
    ReaderBuilder::new()
        .has_headers(false)
        .flexible(true)
        .from_reader(alloc, text)
}

/// Reads the next record, where there is one. Records of bytes that are all there, of any length, are refused for
/// want of memory alone.
pub fn read_record(reader: &mut Reader<&[u8]>, fields: &mut ByteRecord) -> Result<bool, AllocError>
    ensures found { (left : List (List (List ℕ))) → HasLeft reader.old left →
        IfOk result (λ found. Reads left found (fields_of fields.new) reader.new) }
{
    let Ok(found) = reader.read_byte_record(fields) else {
        return Err(AllocError);
    };
    Ok(found)
}

/// The field of a record at an index.
pub fn field(fields: &ByteRecord, index: usize) -> &[u8]
    requires { index < length (fields_of fields.now) }
    ensures { field_at (fields_of fields.now) index ≡ Some result.now }
{
    match fields.get(index) {
        Some(field) => field,
        None => unreachable!(),
    }
}

/// The fields of a record of three.
pub fn three(fields: &ByteRecord) -> Option<Fields<'_>>
    ensures { option_map (λ f. (f.0.now, f.1.now, f.2.now)) result ≡ three (fields_of fields.now) }
{
    if fields.len() != 3 {
        return None;
    }
    Some((field(fields, 0), field(fields, 1), field(fields, 2)))
}
