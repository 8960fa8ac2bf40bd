//! The hints at a line, by what it begins with.

use crate::body_table::body_rows;
use crate::input_table::input_rows;
use crate::program_table::{name_rows, program_rows};

/// The rows of the hints at the lines that begin so. A row has how the word stands, the word, and what is said.
pub(crate) fn rows_of(front: &str) -> &'static [&'static str] {
    match front {
        "1 bad token at " | "2 unexpected at " | "3 number range at " => program_rows(),
        "10 unknown " => name_rows(),
        "23 body syntax at " | "24 body name at " => body_rows(),
        "80 row " | "81 no sensor " | "82 order " | "83 value " => input_rows(),
        "70 schedule syntax line " | "93 table syntax line " | "98 core syntax line " => {
            input_rows()
        }
        _ => &[],
    }
}
