//! Places in the texts that a line of `prelude` speaks of: lines and columns, where a name stands in a program, the byte that a line
//! tells; and what the text of a program tells there: where a name stands twice, what might stand where something else has to, and how
//! many inputs and outputs a node declares that is named there.
//! It stands on tokens, on the parser, and on `prl_sentences` for how a line tells its place.
#![tactic(auto)]

mod counted;
mod counts;
mod names;
mod places;
mod spots;
mod twice;
mod unexpected;

pub use counted::counts_told;
pub use counts::Counts;
pub use places::{Place, line_front, line_rest, line_start, place_of, push_lead};
pub use spots::spot_of;
pub use twice::twice_told;
pub use unexpected::{Trial, here_of, unexpected_told};
