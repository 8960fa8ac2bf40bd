//! Tables.

use prl_base::Seq;
use prl_overlaps::Entry;

/// A static cyclic table.
pub struct Table {
    pub entries: Seq<Entry>,
}

impl Drop for Table {
    fn drop(self) {
        let Table { entries } = self;
        drop(entries);
    }
}
