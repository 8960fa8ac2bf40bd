//! What comes of a text of rows, as a function that does nothing: its contract is the law, over the definitions alone.

ghost use Rattle.std.specs.Prelude.{◌≢◌, ℕ, List, Err};
ghost use Rattle.prl_sensors.specs.SensorRows.{Inputs as AnyInputs, sensors_of};
ghost use Rattle.prl_sensors.specs.declared.faults.SensorFault.TheVariants.{Memory};

/// Each text has rows for the inputs, or a fault of its own; want of memory is none.
pub fn each_text_has_rows_or_a_fault()
    ensures { (inputs : AnyInputs) (needs text : List ℕ) → sensors_of inputs needs text ≢ Err Memory }
{}
