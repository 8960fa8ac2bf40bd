//! The inputs by their names.

ghost use Rattle.std.specs.Prelude.{◌≡◌, ◌<◌, ◌↔◌, IfOk, IfSome, Some, length, slice_get, true};
ghost use Rattle.prl_names.specs.Vocabulary.{index_of, AreIndices};

use prl_base::{Name, Span};
use prl_names::{Indices, Mention, found, index_has_the_name, indices};
use std::alloc::{AllocError, Global};
use std::marker::Model;

/// Finds inputs by their names. Rows of one sensor mostly stand together, so the name found last is tried first.
/// Contracts see the names.
#[derive(Drop)]
pub(crate) struct Finder<'a> {
    names: &'a [Name],
    table: Indices<'a>,
    /// The index of the name found last, at first 0.
    last: usize,
}

impl<'a> Model for Finder<'a> {
    ghost use Rattle.std.specs.Prelude.{List, ℕ};
    ghost use Rattle.prl_sensors.specs.code.Finders.{IsFinder};

    ghost Value = { List (List ℕ) };

    ghost view = { λ f. f.names.now };

    ghost invariant = { λ f. IsFinder f.names.now f.table f.last };
}

/// A table of the inputs by their names.
fn table_of(alloc: Global, names: &[Name]) -> Result<Indices<'_>, AllocError>
    ensures { IfOk result (λ table. AreIndices table names.now) }
{
    let mut mentions = Vec::with_capacity(alloc, names.len())?;
    for name in names {
        mentions.push(Mention {
            name,
            at: Span { at: 0, len: 0 },
        })?;
    }
    indices(alloc, mentions.as_slice())
}

/// Whether this name is the one at the index.
fn is_name_at(names: &[Name], index: usize, name: &[u8]) -> bool
    ensures { (result ≡ true) ↔ (slice_get names.now index ≡ Some name.now) }
{
    match names.get(index) {
        Some(held) => held.bytes() == name,
        None => false,
    }
}

impl<'a> Finder<'a> {
    pub(crate) fn new(alloc: Global, names: &'a [Name]) -> Result<Finder<'a>, AllocError>
        ensures { IfOk result (λ finder. finder ≡ names.now) }
    {
        let table = table_of(alloc, names)?;
        Ok(Finder {
            names,
            table,
            last: 0,
        })
    }

    /// The index of the first input of this name.
    pub(crate) fn find(&mut self, name: &[u8]) -> Option<usize>
        ensures found { result ≡ index_of self.old name.now }
        ensures within { IfSome result (λ k. k < length self.old) }
        ensures same { self.new ≡ self.old }
    {
        index_has_the_name();
        if is_name_at(self.names, self.last, name) {
            return Some(self.last);
        }
        let found = found(&self.table, name);
        if let Some(k) = found {
            self.last = k;
        }
        found
    }
}
