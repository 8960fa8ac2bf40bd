//! The words that a process was started with.

use std::{env, io};

/// The status that a process ends with where it has no memory for what it reads before its call.
pub const NO_MEMORY: u8 = 6;

/// The status that a process ends with where it cannot read its own words.
pub const NO_WORDS: u8 = 11;

/// The status of an error: that of want of memory, or else the other one.
pub fn status_of(error: &io::Error, other: u8) -> u8 {
    if error.kind() == io::ErrorKind::OutOfMemory {
        NO_MEMORY
    } else {
        other
    }
}

/// All words, the name of the program first.
fn all_words(rt: &HostRuntime) -> io::Result<Vec<String>> {
    Ok(env::args(rt)?.collect(rt.alloc())?)
}

/// The words of the process, the name of the program first; or the status that it ends with where they cannot be read.
pub fn words_of(rt: &HostRuntime) -> Result<Vec<String>, u8> {
    match all_words(rt) {
        Ok(words) => Ok(words),
        Err(error) => Err(status_of(&error, NO_WORDS)),
    }
}
