//! Files in memory.

ghost use Rattle.std.specs.Prelude.{◌≡◌, ◌≢◌, ◌++◌, ◌∷◌, [], ℕ, Err, List, Option, Some, vec_items, map};
ghost use Rattle.prl_base.specs.Reading.{Gives};
ghost use Rattle.prl_io.specs.Folders.{file_fault};
ghost use Rattle.std.specs.Option.{option_copied};
ghost use Rattle.prl_io.specs.MemFolders.{held};

use super::mentions::Mentions;
use super::numbering::Calls;
use super::reading::{FileFault, Files};
use prl_base::Label;
use std::alloc::Global;
use std::marker::Model;

/// Files in memory, whose contents are known. Of two entries with one name the first counts. The
/// calls of `read` are numbered from 0; those whose number is listed fail. Contracts
/// see a `MemFolder`.
pub struct MemFiles {
    entries: Vec<(Label, Vec<u8>)>,
    calls: Calls,
    asked: Mentions,
    failed: Mentions,
}

impl Model for MemFiles {
    ghost use Rattle.prl_io.specs.MemFolders.{MemFolder};
    ghost use Rattle.std.specs.Prelude.{map};

    ghost Value = { MemFolder };

    ghost view = { λ m. record {
      entries = map (λ entry. (entry.0, entry.1.items)) m.entries.items;
      fails = m.calls.fails.items;
      next = m.calls.next;
      asked = m.asked.all;
      failed = m.failed.all;
    } };
}

impl MemFiles {
    ghost use Rattle.prl_io.specs.MemFolders.{fresh_folder};

    /// These files, of which none was read yet. It takes no memory.
    pub fn new(entries: Vec<(Label, Vec<u8>)>, fails: Vec<u64>) -> MemFiles
        ensures { result ≡ fresh_folder (map (λ entry. (entry.0, entry.1.items)) entries.items) fails.items }
    {
        MemFiles {
            entries,
            calls: Calls::new(fails),
            asked: Mentions::new(),
            failed: Mentions::new(),
        }
    }
}

impl Files for MemFiles {
    ghost use Rattle.prl_io.specs.MemFolders.{read_in, after_read};

    ghost seen = { λ m. record { folder = Some (held m.entries); asked = m.asked; failed = m.failed } };

    fn read(&mut self, alloc: Global, name: &Label, most: u64) -> Result<Vec<u8>, FileFault>
        ensures answer { Gives vec_items file_fault result (read_in self.old name.now most) }
        ensures state { self.new ≡ after_read self.old name.now }
        ensures asked { self.new.asked ≡ self.old.asked ++ (name.now ∷ []) }
        ensures failed { result ≡ Err FileFault.Failed → self.new.failed ≡ self.old.failed ++ (name.now ∷ []) }
        ensures others { result ≢ Err FileFault.Failed → self.new.failed ≡ self.old.failed }
    {
        self.asked = Mentions::one_more(&self.asked, name.bytes());
        if self.calls.fails_now() {
            self.failed = Mentions::one_more(&self.failed, name.bytes());
            return Err(FileFault::Failed);
        }
        match find(&self.entries, name) {
            None => Err(FileFault::Absent),
            Some(bytes) if bytes.len() as u64 > most => Err(FileFault::TooLong),
            Some(bytes) => match Vec::from_slice(alloc, bytes) {
                Ok(copy) => Ok(copy),
                Err(_) => Err(FileFault::Memory),
            },
        }
    }
}

/// The bytes of the first entry of this name.
fn find<'a>(entries: &'a [(Label, Vec<u8>)], name: &Label) -> Option<&'a [u8]>
    ensures { option_copied result ≡ held (map (λ entry. (entry.0, entry.1.items)) entries.now) name.now }
{
    for entry in entries {
        if entry.0.bytes() == name.bytes() {
            return Some(entry.1.as_slice());
        }
    }
    None
}

impl Drop for MemFiles {
    fn drop(self) {
        let MemFiles {
            entries,
            calls,
            asked,
            failed,
        } = self;
        drop(entries);
        drop(calls);
        drop(asked);
        drop(failed);
    }
}
