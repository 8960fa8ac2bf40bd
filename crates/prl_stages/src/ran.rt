//! What a command has run.

use prl_board::Closed;
use prl_exec::Stopped;
use prl_table::TableRun;

/// What a command has run on a board of its plan.
#[derive(Drop)]
pub enum Ran {
    /// Nothing.
    Not,
    /// All jobs of the horizon: the board, which is closed.
    Ended(Closed),
    /// All jobs of the horizon, by a table: the board, which is closed, and at which tick each job was done.
    Driven(TableRun),
    /// Some of them, until one was to read what was overwritten: where that was, with the board, which is closed.
    Stopped(Stopped),
}
