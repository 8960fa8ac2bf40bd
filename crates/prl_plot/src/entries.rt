//! What a row says: whose value it is, at which date, and the value.

ghost use Rattle.std.specs.Prelude.{◌≡◌};
ghost use Rattle.std.specs.Option.{option_and_then, option_map};
ghost use Rattle.csv.specs.Records.{fields_of};
ghost use Rattle.prl_base.specs.Vocabulary.{GivesBut, decimal_of, integer_of};
ghost use Rattle.prl_base.specs.declared.values.Value.TheVariants as values;
ghost use Rattle.prl_plot.specs.Rows.{date_on, dated_entry, entry_of, on_clock, timed_entry, value_of, with_date};
ghost use Rattle.prl_sensors.specs.SensorRows.{truth_of};

use crate::readings::Reading;
use crate::records::{Four, four};
use crate::row_faults::RowFault;
use csv::ByteRecord;
use prl_base::{Clock, Value, decimal_of};
use prl_sensors::{Fields, int_of, three, truth_of};

/// A name, a date and a value.
pub(crate) type Entry<'a> = (&'a [u8], u64, Value);

/// The value that a field is written as.
fn value_of(text: &[u8]) -> Option<Value>
    ensures { result ≡ value_of text.now }
{
    match truth_of(text) {
        Some(truth) => Some(Value::Bool(truth)),
        None => int_of(text),
    }
}

/// The date of an instance on a clock, where it is below 2^64.
fn date_on(clock: Clock, instance: u64) -> Option<u64>
    ensures { result ≡ date_on clock instance }
{
    instance.checked_mul(clock.period)?.checked_add(clock.start)
}

/// The entry of a name at a date, with the value of a field.
fn with_date<'a>(
    number: u64,
    name: &'a [u8],
    date: Option<u64>,
    value: &[u8],
) -> Result<Entry<'a>, RowFault>
    ensures { GivesBut RowFault.Memory (λ e. (e.0.now, e.1, e.2)) result (with_date number name.now date value.now) }
{
    let Some(date) = date else {
        return Err(RowFault::Order(number));
    };
    match value_of(value) {
        None => Err(RowFault::Value(number)),
        Some(value) => Ok((name, date, value)),
    }
}

/// The date of the instance that a field is written as.
fn instance_date(clock: Clock, instance: &[u8]) -> Option<u64>
    ensures { result ≡ option_and_then (date_on clock) (decimal_of instance.now) }
{
    date_on(clock, decimal_of(instance)?)
}

/// The entry of a sensor's row.
fn timed_entry<'a>(
    reading: &Reading<'_>,
    number: u64,
    fields: Option<Fields<'a>>,
) -> Result<Entry<'a>, RowFault>
    ensures { GivesBut RowFault.Memory (λ e. (e.0.now, e.1, e.2)) result
        (timed_entry reading.now.inputs number (option_map (λ f. (f.0.now, f.1.now, f.2.now)) fields.entry)) }
{
    let Some((name, instance, value)) = fields else {
        return Err(RowFault::Row(number));
    };
    match reading.clock_of(name) {
        None => Err(RowFault::NoSensor(number)),
        Some(clock) => with_date(number, name, instance_date(clock, instance), value),
    }
}

/// The entry of an actuator's row.
fn dated_entry(number: u64, fields: Option<Four<'_>>) -> Result<Entry<'_>, RowFault>
    ensures { GivesBut RowFault.Memory (λ e. (e.0.now, e.1, e.2)) result
        (dated_entry number (option_map (λ f. (f.0.now, f.1.now, f.2.now, f.3.now)) fields.entry)) }
{
    match fields {
        None => Err(RowFault::Row(number)),
        Some((name, _, date, value)) => with_date(number, name, decimal_of(date), value),
    }
}

/// The entry of a record of this number.
pub(crate) fn entry_of<'a>(
    reading: &Reading<'_>,
    number: u64,
    fields: &'a ByteRecord,
) -> Result<Entry<'a>, RowFault>
    ensures { GivesBut RowFault.Memory (λ e. (e.0.now, e.1, e.2)) result (entry_of reading.now number (fields_of fields.now)) }
{
    if reading.is_dated() {
        dated_entry(number, four(fields))
    } else {
        timed_entry(reading, number, three(fields))
    }
}
