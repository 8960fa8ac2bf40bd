//! Texts in the making.

use std::alloc::Global;
use std::fmt::Write;

/// A text that grows. What was wrong first stays with it, so that nothing has to look after each piece.
#[derive(Drop)]
pub struct Draft {
    pub text: String,
    pub fault: Option<&'static str>,
}

impl Draft {
    /// An empty text.
    pub fn new(alloc: Global) -> Draft {
        Draft {
            text: String::new(alloc),
            fault: None,
        }
    }

    /// Keeps what is wrong, where nothing was before.
    pub fn refuse(&mut self, why: &'static str) {
        if self.fault.is_none() {
            self.fault = Some(why);
        }
    }

    /// Adds a piece.
    pub fn add(&mut self, piece: &str) {
        if self.text.push_str(piece).is_err() {
            self.refuse("no memory");
        }
    }

    /// Adds a character.
    pub fn add_char(&mut self, letter: char) {
        if self.text.push(letter).is_err() {
            self.refuse("no memory");
        }
    }

    /// Adds a number.
    pub fn add_number(&mut self, number: u64) {
        if write!(self.text, "{number}").is_err() {
            self.refuse("no memory");
        }
    }
}
