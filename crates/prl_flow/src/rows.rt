//! The rows of the sensors.

ghost use Rattle.std.specs.Prelude.{◌≡◌, ◌<◌, length, slice_get, Some};
ghost use Rattle.prl_flow.specs.Rows.{Rows, rows_of};

use prl_base::{Seq, Value};
use std::marker::Model;

/// The rows of main's inputs: list `k` has the values of input `k` in order of their instance, from
/// instance 0 on. Contracts see the list of these lists.
pub struct Sensors {
    rows: Vec<Seq<Value>>,
}

impl Model for Sensors {
    ghost Value = { Rows };

    ghost view = { λ s. s.rows.items };
}

impl Sensors {
    /// These rows. Takes no memory.
    pub fn new(rows: Vec<Seq<Value>>) -> Sensors
        ensures { result ≡ rows.items }
    {
        Sensors { rows }
    }

    /// How many rows the sensor has.
    pub fn len(&self, sensor: u32) -> u64
        requires { sensor < length self.now }
        ensures { result ≡ length (rows_of self.now sensor) }
    {
        self.rows[sensor as usize].len() as u64
    }

    /// All rows of the sensor, in order of their instance.
    pub fn rows(&self, sensor: u32) -> &[Value]
        requires { sensor < length self.now }
        ensures { result.now ≡ rows_of self.now sensor }
    {
        self.rows[sensor as usize].as_slice()
    }

    /// The value of the sensor's instance `m`.
    pub fn value(&self, sensor: u32, m: u64) -> Value
        requires sensor { sensor < length self.now }
        requires instance { m < length (rows_of self.now sensor) }
        ensures { slice_get (rows_of self.now sensor) m ≡ Some result }
    {
        self.rows[sensor as usize].as_slice()[m as usize]
    }
}

impl Drop for Sensors {
    fn drop(self) {
        let Sensors { rows } = self;
        drop(rows);
    }
}
