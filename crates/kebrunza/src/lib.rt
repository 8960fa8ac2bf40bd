//! The calls of a plan and of its runs under one name, for a program of one's own that would else name twenty crates. Each module
//! hands on what its crates have, with their contracts; `specs/Vocabulary.antt` hands on the definitions that these contracts name.
#![tactic(auto)]

pub mod boards;
pub mod commands;
pub mod outside;
pub mod plans;
pub mod runs;
pub mod tables;
pub mod values;
