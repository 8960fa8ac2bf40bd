//! The fields of the records of actuators, and those of a header.

ghost use Rattle.std.specs.Prelude.{◌≡◌};
ghost use Rattle.std.specs.Option.{option_map};
ghost use Rattle.csv.specs.Records.{fields_of};
ghost use Rattle.prl_plot.specs.Rows.{first_two, four, is_header};

use csv::ByteRecord;
use prl_sensors::field;

/// The fields of an actuator's row: name, instance, date and value.
pub(crate) type Four<'a> = (&'a [u8], &'a [u8], &'a [u8], &'a [u8]);

/// The fields of a record of four.
pub(crate) fn four(fields: &ByteRecord) -> Option<Four<'_>>
    ensures { option_map (λ f. (f.0.now, f.1.now, f.2.now, f.3.now)) result ≡ four (fields_of fields.now) }
{
    if fields.len() != 4 {
        return None;
    }
    Some((
        field(fields, 0),
        field(fields, 1),
        field(fields, 2),
        field(fields, 3),
    ))
}

/// The first two fields of a record that has as many.
fn first_two(fields: &ByteRecord) -> Option<(&[u8], &[u8])>
    ensures { option_map (λ f. (f.0.now, f.1.now)) result ≡ first_two (fields_of fields.now) }
{
    if fields.len() < 2 {
        return None;
    }
    Some((field(fields, 0), field(fields, 1)))
}

/// Whether the fields are those of a header.
pub(crate) fn is_header(fields: &ByteRecord) -> bool
    ensures { result ≡ is_header (fields_of fields.now) }
{
    match first_two(fields) {
        None => false,
        Some((name, instance)) => {
            name == b"name".as_slice() && instance == b"instance".as_slice()
        }
    }
}
