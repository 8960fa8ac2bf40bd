//! What the jobs of a plan ask of one processor: the demand of intervals, and of the overloaded ones that end at a tick
//! the one that begins last. And entries of static cyclic tables, and which of them overlap after shifts by hyperperiods:
//! the first two, told by one sort of their places. It stands on plans, and on lists with a place set of tracks.
#![tactic(auto)]

mod clashes;
mod entries;
mod intervals;
mod laws;

pub use clashes::first_clash;
pub use entries::Entry;
pub use intervals::{last_overload, wcet_of};
pub use laws::four_tests_tell_clashes;
