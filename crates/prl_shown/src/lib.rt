//! Bytes as a terminal may show them, where they come from a file or a command line: characters in UTF-8 as they are, all else
//! escaped.
#![tactic(auto)]

mod bytes;

pub use bytes::{push_shown, shown};
