//! Reading the text of a table.

ghost use Rattle.std.specs.Prelude.{◌≡◌, ◌≤◌, None, length};
ghost use Rattle.std.specs.List.{after_first, before_first};
ghost use Rattle.std.specs.Option.{option_map};
ghost use Rattle.std.specs.Vec.{vec_items};
ghost use Rattle.prl_base.specs.Vocabulary.{lines_of, GivesBut};
ghost use Rattle.prl_tables.specs.declared.reading.TableFault.TheVariants as faults;
ghost use Rattle.prl_tables.specs.TableTexts.{after_line, comes_after, entries_from, entries_of, entry_if, entry_of, field, is_blank, is_header, keeps_order, last_field, next_entry, number_of, or_line, tells_hyper};
ghost use Rattle.prl_tables.specs.declared.reading.TableFault.TheVariants.{Memory};

use crate::tables::Table;
use itoa::Buffer;
use prl_base::{EdgeNo, Seq, TaskNo, cut_line, decimal_of, len_before};
use prl_overlaps::Entry;
use prl_plan::Plan;
use std::alloc::{AllocError, AllocFailed, Global};

/// Why a text is no good table of a plan. Lines count from 1, and the first entry is in line 3.
#[derive(Clone, Copy)]
pub enum TableFault {
    /// The line of this number is not of the text.
    Syntax(u64),
    /// The piece on the line of this number: its task or class is unknown, it has no units, or it is not within its window.
    Piece(u64),
    /// The units of this class are not the WCET of its task.
    Units { task: TaskNo, job: u64 },
    /// These two lines overlap after a shift by hyperperiods.
    Clash { first: u64, second: u64 },
    /// On this edge, this class of the consumer is not after the job of the producer that precedes it.
    Order { edge: EdgeNo, job: u64 },
    Memory,
}

impl<T: Drop> From<AllocFailed<T>> for TableFault {
    ghost from_gives = { λ _ e. e ≡ Memory };

    fn from(_error: AllocFailed<T>) -> TableFault {
        TableFault::Memory
    }
}

impl From<AllocError> for TableFault {
    ghost from_gives = { λ _ e. e ≡ Memory };

    fn from(_error: AllocError) -> TableFault {
        TableFault::Memory
    }
}

/// The number that a word spells as it is printed.
fn number_of(word: &[u8]) -> Option<u64>
    ensures { result ≡ number_of word.now }
{
    let number = decimal_of(word)?;
    let mut buffer = Buffer::new();
    if buffer.format(number).as_bytes() == word {
        Some(number)
    } else {
        None
    }
}

/// What stands before the first blank, and after it.
fn cut_word(text: &[u8]) -> (&[u8], &[u8])
    ensures front { result.0.now ≡ before_first is_blank text.now }
    ensures rest { result.1.now ≡ after_first is_blank text.now }
{
    let at = len_before(text, b' ');
    if at < text.len() {
        (&text[..at], &text[at + 1..])
    } else {
        (text, &[])
    }
}

/// The number after these words, up to a blank, and what stands after that.
fn field<'a>(words: &[u8], text: &'a [u8]) -> Option<(u64, &'a [u8])>
    ensures { option_map (λ cut. (cut.0, cut.1.now)) result ≡ field words.now text.now }
{
    let rest = text.strip_prefix(words)?;
    let (word, after) = cut_word(rest);
    Some((number_of(word)?, after))
}

/// The number after these words, at the end of a line.
fn last_field(words: &[u8], text: &[u8]) -> Option<u64>
    ensures { result ≡ last_field words.now text.now }
{
    number_of(text.strip_prefix(words)?)
}

/// The entry of these numbers.
fn entry_if(at: u64, task: u64, job: u64, units: u64) -> Option<Entry>
    ensures { result ≡ entry_if at task job units }
{
    if task < 1 << 32 {
        Some(Entry {
            at,
            task: TaskNo(task as u32),
            job,
            units,
        })
    } else {
        None
    }
}

/// The entry that a line tells.
fn entry_of(line: &[u8]) -> Option<Entry>
    ensures { result ≡ entry_of line.now }
{
    let (at, rest) = field(b"at ", line)?;
    let (task, rest) = field(b"task ", rest)?;
    let (job, rest) = field(b"job ", rest)?;
    let units = last_field(b"units ", rest)?;
    entry_if(at, task, job, units)
}

/// Whether an entry does not come before the last one: in the order of time, of tasks and of classes.
fn comes_after(last: Entry, entry: Entry) -> bool
    ensures { result ≡ comes_after last entry }
{
    last.at < entry.at
        || (last.at == entry.at
            && (last.task.0 < entry.task.0
                || (last.task.0 == entry.task.0 && last.job <= entry.job)))
}

/// Whether an entry may come after the last one.
fn keeps_order(last: Option<Entry>, entry: Entry) -> bool
    ensures { result ≡ keeps_order last entry }
{
    match last {
        None => true,
        Some(last) => comes_after(last, entry),
    }
}

/// The entry of a line, where it does not come before the last one.
fn next_entry(last: Option<Entry>, line: &[u8]) -> Option<Entry>
    ensures { result ≡ next_entry last line.now }
{
    let entry = entry_of(line)?;
    if keeps_order(last, entry) {
        Some(entry)
    } else {
        None
    }
}

/// The entry of the line of this number.
fn entry_at(last: Option<Entry>, line: &[u8], number: u64) -> Result<Entry, TableFault>
    ensures { GivesBut faults.Memory (λ entry. entry) result (or_line number (next_entry last line.now)) }
{
    match next_entry(last, line) {
        Some(entry) => Ok(entry),
        None => Err(TableFault::Syntax(number)),
    }
}

/// The entries of the lines from the third on.
fn entries_of(alloc: Global, text: &[u8]) -> Result<Vec<Entry>, TableFault>
    ensures { GivesBut faults.Memory vec_items result (entries_from 3 None (lines_of text.now)) }
{
    let mut entries = Vec::new(alloc);
    let mut last = None;
    let mut rest = text;
    let mut number: u64 = 3;
    while let Some((line, after)) = cut_line(rest) {
        let entry = entry_at(last, line, number)?;
        entries.push(entry)?;
        last = Some(entry);
        rest = after;
        number += 1;
    }
    if rest.is_empty() {
        Ok(entries)
    } else {
        Err(TableFault::Syntax(number))
    }
}

/// Whether the line is the header.
fn is_header(line: &[u8]) -> bool
    ensures { result ≡ is_header line.now }
{
    line == b"table 1".as_slice()
}

/// What stands after the first line, which is the header.
fn after_header(text: &[u8]) -> Result<&[u8], TableFault>
    ensures { GivesBut faults.Memory (λ rest. lines_of rest.now) result (after_line 1 is_header (lines_of text.now)) }
{
    match cut_line(text) {
        None => Err(TableFault::Syntax(1)),
        Some((line, rest)) => {
            if is_header(line) {
                Ok(rest)
            } else {
                Err(TableFault::Syntax(1))
            }
        }
    }
}

/// Whether the line tells this hyperperiod.
fn tells_hyper(hyper: u64, line: &[u8]) -> bool
    ensures { result ≡ tells_hyper hyper line.now }
{
    match last_field(b"hyperperiod ", line) {
        None => false,
        Some(number) => number == hyper,
    }
}

/// What stands after the second line, which tells the hyperperiod.
fn after_hyper(text: &[u8], hyper: u64) -> Result<&[u8], TableFault>
    ensures { GivesBut faults.Memory (λ rest. lines_of rest.now) result (after_line 2 (tells_hyper hyper) (lines_of text.now)) }
{
    match cut_line(text) {
        None => Err(TableFault::Syntax(2)),
        Some((line, rest)) => {
            if tells_hyper(hyper, line) {
                Ok(rest)
            } else {
                Err(TableFault::Syntax(2))
            }
        }
    }
}

/// The table that a text tells for the plan. `Syntax` at the first line of another form than its
/// place wants, at one without a line feed, and after the last where lines are missing.
pub fn read_table(alloc: Global, text: &[u8], plan: &Plan) -> Result<Table, TableFault>
    ensures { GivesBut faults.Memory (λ table. table.entries) result (entries_of plan.now.graph.hyper text.now) }
{
    let rest = after_hyper(after_header(text)?, plan.graph().hyper)?;
    let entries = entries_of(alloc, rest)?;
    Ok(Table {
        entries: Seq::new(entries),
    })
}
