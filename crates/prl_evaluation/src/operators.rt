//! One value of a flow, by its instance.

ghost use Rattle.std.specs.Prelude.{◌≡◌, ◌<◌, List, length};
ghost use Rattle.prl_body.specs.declared.bodies.CheckedBody.{CheckedBody};
ghost use Rattle.prl_flow.specs.Vocabulary.{FlatProgram, rows_of, values_of};
ghost use Rattle.prl_causal.specs.Tables.{table_of, value_of};
ghost use Rattle.prl_evaluation.specs.code.Fronts.{IsPlain, IsThere};

use crate::tables::Values;
use prl_base::{FlowNo, Value};
use prl_flow::{Def, Sensors, instance_of_operator};

/// The value of the flow's instance `n`.
pub(crate) fn value_in(flows: &[Values<'_>], flow: FlowNo, n: usize) -> Value
    requires flow { flow.0 < length flows.now }
    requires instance { n < length (values_of flows.now flow.0) }
    ensures { result ≡ table_of flows.now flow.0 n }
{
    flows[flow.0 as usize].as_slice()[n]
}

/// The value of instance `n` of a flow of this definition, which is no output of an application.
pub(crate) fn plain_value(def: Def, sensors: &Sensors, flows: &[Values<'_>], n: usize) -> Value
    requires plain { IsPlain def }
    requires there { IsThere sensors.now flows.now def n }
    ensures { (p : FlatProgram) (bodies : List CheckedBody) → result ≡ value_of p bodies sensors.now (table_of flows.now) def n }
{
    match def {
        Def::Sensor(sensor) => sensors.rows(sensor)[n],
        Def::Copy(of) => value_in(flows, of, n),
        Def::Const(value) => value,
        Def::Apply { .. } => unreachable!(),
        Def::Op { op, of } => instance_of_operator(op, flows[of.0 as usize].as_slice(), n),
    }
}
