//! What the plan's words, windows, cells and hyperperiod are made of: readers behind operators, least common multiples, least counts
//! of cells, and the shortest lists that repeat. It stands on `prl_plan`.
#![tactic(auto)]

mod counts;
mod multiples;
mod readers;
mod repeats;

pub use counts::least_count;
pub use multiples::least_multiple;
pub use readers::reader_before;
pub use repeats::shortest_repeat;
