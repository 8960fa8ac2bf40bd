//! Why a text has no rows for a program.

ghost use Rattle.std.specs.Prelude.{◌≡◌};
ghost use Rattle.prl_sensors.specs.declared.faults.SensorFault.TheVariants.{Memory};

use prl_base::Name;
use std::alloc::AllocError;

/// Why a text gives an input of main no row, or too few. A record's number counts the records before it, from 1; a
/// header counts, and empty lines do not.
#[derive(Drop)]
pub enum SensorFault {
    /// The record of this number has not three fields.
    Row(u64),
    /// The record of this number names no input of main.
    NoSensor(u64),
    /// The instance of the record of this number is not the next one of its sensor.
    Order(u64),
    /// The value of the record of this number is none of its sensor's type.
    Value(u64),
    /// The input has fewer rows than it needs, and those before it have enough.
    Short { name: Name, have: u64, need: u64 },
    Memory,
}

impl From<AllocError> for SensorFault {
    ghost from_gives = { λ _ e. e ≡ Memory };

    fn from(_error: AllocError) -> SensorFault {
        SensorFault::Memory
    }
}
