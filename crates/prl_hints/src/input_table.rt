//! Hints at places of rows, schedules, tables and texts of processors.

/// The rows.
static ROWS: [&str; 9] = [
    "over \u{feff} The file begins with a mark of byte order, which is no part of a row. \
        Save it as UTF-8 without one.",
    "over # There are no comments in this file.",
    "over // There are no comments in this file.",
    "over -- There are no comments in this file.",
    "here imported This is how a program begins: that is the file of `--program`.",
    "here sensor This is how a program begins: that is the file of `--program`.",
    "here body This is how a text of bodies begins: that is the file of `--bodies`.",
    "here node This is how a program begins: that is the file of `--program`.",
    "here plan This is how the text of a plan begins.",
];

/// The rows.
pub(crate) fn input_rows() -> &'static [&'static str] {
    &ROWS
}
