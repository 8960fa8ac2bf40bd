//! The rows of one actuator, whose dates need no calendar.

ghost use Rattle.std.specs.Prelude.{◌-◌, ◌^◌, ◌≡◌, ◌++◌, ◌∷◌, ℕ, [], IfOk, OnOk};
ghost use Rattle.prl_flow.specs.Actuators.{AreUpTo, actuator_text};
ghost use Rattle.prl_sensors.specs.Ends.{EndsBefore};

use crate::actuators::push_row;
use crate::outputs::OutRows;
use crate::room::room_of;
use std::alloc::{AllocError, Global};

/// Appends all rows of the actuator.
pub(crate) fn push_rows_of(text: &mut Vec<u8>, out: &OutRows<'_>) -> Result<(), AllocError>
    requires { EndsBefore (2 ^ 64 - 1) out.now }
    ensures { (until : ℕ) → AreUpTo until (out.now ∷ []) → OnOk result (text.new.items ≡ text.old.items ++ actuator_text until (out.now ∷ [])) }
{
    for (n, value) in out.values.iter().enumerate() {
        let date = out.clock.start + n as u64 * out.clock.period;
        push_row(text, out, n as u64, date, *value)?;
    }
    Ok(())
}

/// The text of the rows of the actuator.
pub(crate) fn text_of_one(alloc: Global, out: &OutRows<'_>) -> Result<Vec<u8>, AllocError>
    requires { EndsBefore (2 ^ 64 - 1) out.now }
    ensures { (until : ℕ) → AreUpTo until (out.now ∷ []) → IfOk result (λ text. text.items ≡ actuator_text until (out.now ∷ [])) }
{
    let mut text = Vec::with_capacity(alloc, room_of(out))?;
    push_rows_of(&mut text, out)?;
    Ok(text)
}
