//! Static cyclic tables: made of a plan, read from their text, and run.

pub use prl_table::{
    Checked, Entry, MakeFault, Table, TableFault, TableRun, check_table, drive, make, read_table,
    table_text,
};
