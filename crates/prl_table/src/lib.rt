//! Static cyclic tables, made and driven: the table that is made of the plain run by earliest
//! deadline first, and the run of a good table, in which one thread does its unrolled list on a board
//! whose clock waits for what is due. It stands on feasibility, and on the executive's calls of one
//! thread; what tables are it hands on from the crate below.
#![tactic(auto)]

mod driving;
mod laws;
mod making;
mod noted;
mod ticks;

pub use driving::drive;
pub use laws::{
    cut_of_steady_run_is_good, edf_run_is_run, made_table_is_good, made_tables_are_one,
    makes_end_one_way, makes_or_faults_exist,
};
pub use making::{MakeFault, make};
pub use noted::TableRun;
pub use prl_tables::{
    Checked, Entry, Table, TableFault, check_table, checks_end_one_way, class_has_end, classes,
    classes_are_early, four_tests_tell_clashes, good_table_is_placing, pieces_are_short,
    placed_list_is_gated, read_table, table_text, table_texts_are_read_back, tables_are_decided,
    unrolled_table_is_gated,
};
