//! How rows that are none of flows are told.

use crate::row_faults::RowFault;
use prl_io::{Fault, Stop, unfit};
use std::alloc::Global;

/// The rows in the file of this name are none of flows: the line that `prelude` would tell of them.
pub(crate) fn bad_rows(alloc: Global, name: &[u8], fault: RowFault) -> Fault {
    let (front, number) = match fault {
        RowFault::Row(number) => ("80 row ", number),
        RowFault::NoSensor(number) => ("81 no sensor ", number),
        RowFault::Order(number) => ("82 order ", number),
        RowFault::Value(number) => ("83 value ", number),
        RowFault::Memory => return Fault::Stop(Stop::Memory),
    };
    unfit(alloc, name, front, number)
}
