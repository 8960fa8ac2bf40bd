//! What the cases told.

use crate::drafts::Draft;
use std::alloc::Global;

/// How cases ended, with a text on those that did not pass. It knows which line is being read, so that whoever finds
/// something wrong need not, and goes on with what there is.
#[derive(Drop)]
pub struct Report {
    pub alloc: Global,
    pub text: Draft,
    /// The file and the case.
    place: Draft,
    /// The line that is being read.
    pub line: usize,
    passes: bool,
    /// How many cases passed, and how many did not.
    pub counts: (u64, u64),
}

impl Report {
    /// No case yet.
    pub fn new(alloc: Global) -> Report {
        Report {
            alloc,
            text: Draft::new(alloc),
            place: Draft::new(alloc),
            line: 0,
            passes: true,
            counts: (0, 0),
        }
    }

    /// A case of this file begins.
    pub fn begin(&mut self, file: &str, case: &str) {
        self.passes = true;
        self.place.text.clear();
        self.place.add(file);
        self.place.add(": ");
        self.place.add(case);
    }

    /// Counts the case that was begun last; where it is none, only if something in it is wrong.
    pub fn end(&mut self, is_case: bool) {
        if !self.passes {
            self.counts.1 = self.counts.1.saturating_add(1);
        } else if is_case {
            self.counts.0 = self.counts.0.saturating_add(1);
        }
    }

    /// Tells how many cases of this name there were behind these.
    pub fn sum_up(&mut self, name: &str, before: (u64, u64)) {
        self.text.add(name);
        self.text.add(" ");
        self.text.add_number(self.counts.0.saturating_sub(before.0));
        self.text.add(" passed, ");
        self.text.add_number(self.counts.1.saturating_sub(before.1));
        self.text.add(" failed\n");
    }

    /// Whether no case failed, and some passed. None did where memory ran out for the text.
    pub fn is_clean(&self) -> bool {
        self.counts.1 == 0 && self.counts.0 > 0 && self.text.fault.is_none()
    }

    /// Tells that something is wrong with the case: where that is, and what.
    pub fn refuse(&mut self, why: &str) {
        self.passes = false;
        self.text.add(self.place.text.as_str());
        self.text.add(": line ");
        self.text.add_number(self.line as u64);
        self.text.add(": ");
        self.text.add(why);
        self.text.add("\n");
    }

    /// The text, of which what is wrong is told.
    pub fn take(&mut self, draft: Draft) -> String {
        if let Some(why) = draft.fault {
            self.refuse(why);
        }
        draft.text
    }

    /// Adds an item to the others.
    pub fn put<T: Drop>(&mut self, items: &mut Vec<T>, item: T) {
        if items.push(item).is_err() {
            self.refuse("no memory");
        }
    }

    /// The same bytes once more.
    pub fn copy(&mut self, bytes: &[u8]) -> Vec<u8> {
        match Vec::from_slice(self.alloc, bytes) {
            Ok(copy) => copy,
            Err(_) => {
                self.refuse("no memory");
                Vec::new(self.alloc)
            }
        }
    }
}
