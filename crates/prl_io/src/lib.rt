//! What comes from outside: files that are read by name, sinks that texts are written to, and probes
//! that look on. Each is a trait whose contract says what its answers mean, with an implementation
//! in memory, which is exact, and one over the host, which tells no contents; and the words of a
//! process. And what the programs beside `prelude` have in common: their words, which are pairs of an
//! option and its value, the files that these name, and how a call ends. It stands on `prl_base` and `prl_shown`.
#![tactic(auto)]

mod endings;
mod faults;
mod host_files;
mod host_sink;
mod host_words;
mod mem_files;
mod mem_sink;
mod mentions;
mod named_files;
mod numbering;
mod probing;
mod reading;
mod words;
mod writing;

pub use endings::{Stop, finish};
pub use faults::{Fault, Piece, end, unfit, unfit_for, why_of, why_with};
pub use host_files::HostFiles;
pub use host_sink::HostSink;
pub use host_words::{NO_MEMORY, NO_WORDS, status_of, words_of};
pub use mem_files::MemFiles;
pub use mem_sink::MemSink;
pub use named_files::read_named;
pub use probing::{NoProbe, Probe};
pub use reading::{FileFault, Files};
pub use words::{after_name, are_pairs, asks_help, number_up_to, value_of};
pub use writing::{Failed, Sink, law_of_fronts, write_all, write_pieces};
