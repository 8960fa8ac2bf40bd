//! The forms of rows.

use prl_base::{Clock, Label, Seq};

/// A sensor of a program: the name of main's input, and its clock.
pub struct Input {
    pub name: Label,
    pub clock: Clock,
}

/// How rows are read.
pub struct Form {
    /// Whether a row has its date, as those of actuators do.
    pub dated: bool,
    /// The sensors of which the rows are, where they have no dates.
    pub inputs: Seq<Input>,
}

impl Drop for Input {
    fn drop(self) {
        let Input { name, clock: _ } = self;
        drop(name);
    }
}

impl Drop for Form {
    fn drop(self) {
        let Form { dated: _, inputs } = self;
        drop(inputs);
    }
}
