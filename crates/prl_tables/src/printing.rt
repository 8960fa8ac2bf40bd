//! The text of a table.

ghost use Rattle.std.specs.Prelude.{◌≡◌, ◌++◌, IfOk, OnOk};
ghost use Rattle.std.specs.Fmt.{decimal};
ghost use Rattle.std.specs.List.{flat_map};
ghost use Rattle.prl_tables.specs.TableTexts.{entry_text, text_of};

use crate::tables::Table;
use prl_base::push_number;
use prl_overlaps::Entry;
use prl_plan::Plan;
use std::alloc::{AllocError, Global};

/// Appends some words and a number.
fn push_field(text: &mut Vec<u8>, words: &[u8], number: u64) -> Result<(), AllocError>
    ensures { OnOk result (text.new.items ≡ text.old.items ++ words.now ++ decimal number) }
{
    text.extend_from_slice(words)?;
    push_number(text, number)
}

/// Appends the line of an entry, with its end.
fn push_entry(text: &mut Vec<u8>, entry: &Entry) -> Result<(), AllocError>
    ensures { OnOk result (text.new.items ≡ text.old.items ++ entry_text entry.now) }
{
    push_field(text, b"at ", entry.at)?;
    push_field(text, b" task ", u64::from(entry.task.0))?;
    push_field(text, b" job ", entry.job)?;
    push_field(text, b" units ", entry.units)?;
    text.extend_from_slice(b"\n")
}

/// The text of a table of the plan: a header, the hyperperiod, and a line for each entry.
pub fn table_text(alloc: Global, plan: &Plan, table: &Table) -> Result<Vec<u8>, AllocError>
    ensures { IfOk result (λ text. text.items ≡ text_of plan.now.graph.hyper table.now.entries) }
{
    let mut text = Vec::new(alloc);
    push_field(&mut text, b"table 1\nhyperperiod ", plan.graph().hyper)?;
    text.extend_from_slice(b"\n")?;
    for entry in table.entries.as_slice() {
        push_entry(&mut text, entry)?;
    }
    Ok(text)
}
