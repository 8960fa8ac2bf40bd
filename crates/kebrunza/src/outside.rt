//! Files and streams, those of the process and such in memory, and how a program ends.

pub use prl_io::{
    Fault, FileFault, Files, HostFiles, HostSink, MemFiles, MemSink, NoProbe, Probe, Sink, Stop,
    after_name, end, read_named, unfit_for, words_of, write_all,
};
