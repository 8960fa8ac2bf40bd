//! Rows in plain form, which are read without `csv`: no quotes around fields, and a line feed right
//! after the value.

ghost use Rattle.std.specs.Prelude.{◌≡◌, ◌++◌, ◌∷◌, [], false, IfOk, IfSome, length, map};
ghost use Rattle.std.specs.List.{position_or_len};
ghost use Rattle.std.specs.Vec.{vec_items};
ghost use Rattle.csv.specs.Reading.{default_config, records, strip_bom};
ghost use Rattle.prl_base.specs.Reading.{GivesBut};
ghost use Rattle.prl_sensors.specs.SensorRows.{no_rows, records_of, with_records};
ghost use Rattle.prl_sensors.specs.code.Plain.{GivesIf, IsPlain, is_mark};

use crate::faults::SensorFault;
use crate::finders::Finder;
use crate::records::Fields;
use crate::rows::push_fields;
use prl_base::{Name, Ty, Value};
use std::alloc::Global;

/// How many bytes there are up to a comma or a byte below it, or the end.
fn plain_len(text: &[u8]) -> usize
    ensures { result ≡ position_or_len is_mark text.now }
{
    for (i, byte) in text.iter().enumerate() {
        if *byte <= b',' {
            return i;
        }
    }
    text.len()
}

/// The plain field at the start of the text that this byte follows, and what comes after that byte.
fn cut_field(text: &[u8], mark: u8) -> Option<(&[u8], &[u8])>
    ensures plain { IfSome result (λ cut. IsPlain cut.0.now) }
    ensures cut { IfSome result (λ cut. text.now ≡ cut.0.now ++ mark ∷ cut.1.now) }
{
    let len = plain_len(text);
    if len < text.len() && text[len] == mark {
        Some((&text[..len], &text[len + 1..]))
    } else {
        None
    }
}

/// The fields of the record in plain form at the start of the text, and what comes after its line.
fn cut_row(text: &[u8]) -> Option<(Fields<'_>, &[u8])>
    ensures { IfSome result (λ cut. records default_config text.now ≡ (cut.0.0.now ∷ cut.0.1.now ∷ cut.0.2.now ∷ []) ∷ records default_config cut.1.now) }
{
    let (name, rest) = cut_field(text, b',')?;
    let (instance, rest) = cut_field(rest, b',')?;
    let (value, rest) = cut_field(rest, b'\n')?;
    Some(((name, instance, value), rest))
}

/// Whether the text may start with a byte order mark.
fn may_have_mark(text: &[u8]) -> bool
    ensures { result ≡ false → strip_bom text.now ≡ text.now }
{
    match text {
        [] => false,
        [first, ..] => *first == 0xEF,
    }
}

/// The rows of all records of a text, where each is in plain form; None where one is not.
#[tactic(auto, unfolding(crate::specs::SensorRows::with_record))]
pub(crate) fn plain_rows(
    alloc: Global,
    text: &[u8],
    names: &[Name],
    types: &[Ty],
    rows: Vec<Vec<Value>>,
) -> Result<Option<Vec<Vec<Value>>>, SensorFault>
    requires types { length types.now ≡ length names.now }
    requires rows { map vec_items rows.items ≡ no_rows names.now }
    ensures lists { IfOk result (λ found. IfSome found (λ rows. length rows.items ≡ length names.now)) }
    ensures exact { GivesIf SensorFault.Memory (λ rows. map vec_items rows.items) result
        (with_records (record { names = names.now; types = types.now }) 1 (no_rows names.now) (records_of text.now)) }
{
    if may_have_mark(text) {
        return Ok(None);
    }
    let mut finder = Finder::new(alloc, names)?;
    let mut rows = rows;
    let mut rest = text;
    for number in 1..u64::MAX {
        if rest.is_empty() {
            return Ok(Some(rows));
        }
        let Some((row, after)) = cut_row(rest) else {
            return Ok(None);
        };
        push_fields(&mut finder, types, number, &mut rows, Some(row))?;
        rest = after;
    }
    Err(SensorFault::Memory)
}
