//! Static cyclic tables: which tables are good, the list of events that a good one stands for, with
//! the law that it is gated and complete, the text of a table, and the check of a table. It stands
//! on plans, on overlaps of entries, and on one law of feasibility: that a job's acts end once.
#![tactic(auto)]

mod checking;
mod clashes;
mod laws;
mod orders;
mod pieces;
mod printing;
mod reading;
mod sums;
mod tables;

pub use checking::{Checked, check_table};
pub use laws::{
    checks_end_one_way, class_has_end, classes_are_early, good_table_is_placing, pieces_are_short,
    placed_list_is_gated, table_texts_are_read_back, tables_are_decided, unrolled_table_is_gated,
};
pub use pieces::classes;
pub use printing::table_text;
pub use prl_overlaps::{Entry, four_tests_tell_clashes};
pub use reading::{TableFault, read_table};
pub use tables::Table;
