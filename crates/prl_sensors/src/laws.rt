//! What holds of the rows of a text, as a function that does nothing: its contract is the law, over the definitions alone.

ghost use Rattle.std.specs.Prelude.{◌≡◌, ℕ, List, Ok, length};
ghost use Rattle.prl_flow.specs.Rows.{Rows};
ghost use Rattle.prl_sensors.specs.Facts.{AreRowsFor};
ghost use Rattle.prl_sensors.specs.SensorRows.{Inputs as AnyInputs, sensors_of};

use prl_names::index_has_the_name;

/// The rows of a text are a list for each input, of values of its type, and as many as it needs or more.
pub fn rows_are_typed_and_enough()
    ensures { (inputs : AnyInputs) (needs text : List ℕ) (rows : Rows) → length needs ≡ length inputs.names →
        sensors_of inputs needs text ≡ Ok rows → AreRowsFor inputs needs rows }
{
    index_has_the_name();
}
