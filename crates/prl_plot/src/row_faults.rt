//! Why rows are no flows.

ghost use Rattle.std.specs.Prelude.{◌≡◌};
ghost use Rattle.prl_plot.specs.declared.row_faults.RowFault.TheVariants.{Memory};

use std::alloc::AllocError;

/// Why a text is no rows of flows. A record's number counts the records before it, from 1; a header counts, and empty
/// lines do not.
#[derive(Clone, Copy)]
pub enum RowFault {
    /// The record of this number has not as many fields as a row, or no name of a flow.
    Row(u64),
    /// The record of this number names no sensor of the program.
    NoSensor(u64),
    /// The record of this number has no instance or date below 2^64, or its date is not after the one before of its flow.
    Order(u64),
    /// The value of the record of this number is none, or not of the type of its flow.
    Value(u64),
    Memory,
}

impl From<AllocError> for RowFault {
    ghost from_gives = { λ _ e. e ≡ Memory };

    fn from(_error: AllocError) -> RowFault {
        RowFault::Memory
    }
}
