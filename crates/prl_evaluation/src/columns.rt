//! All values of a flow at once, where all that its definition reads is there.

ghost use Rattle.std.specs.Prelude.{◌≡◌, ◌<◌, ℕ, List, IfOk, length, slice_index_or};
ghost use Rattle.prl_base.specs.Operators.{origin_of};
ghost use Rattle.prl_body.specs.declared.bodies.CheckedBody.{CheckedBody};
ghost use Rattle.prl_flow.specs.Vocabulary.{FlatProgram, HasInstance};
ghost use Rattle.prl_causal.specs.Tables.{nothing, table_of, taken, value_of};
ghost use Rattle.prl_evaluation.specs.code.Fronts.{IsPlain, IsThere};

use crate::settings::Setting;
use crate::tables::Values;
use prl_base::{Op, Value};
use prl_flow::{Def, instance_of_operator};
use std::alloc::{AllocError, Global};

/// The first `number` values that the operator makes of the flow that it stands on.
fn operator_values(
    alloc: Global,
    op: &Op,
    of: &[Value],
    number: usize,
) -> Result<Vec<Value>, AllocError>
    requires { (n : ℕ) → n < number → HasInstance op.now (length of.now) n }
    ensures count { IfOk result (λ v. length v.items ≡ number) }
    ensures each { IfOk result (λ v. (n : ℕ) → n < number → slice_index_or v.items n nothing ≡ taken (λ m. slice_index_or of.now m nothing) (origin_of op.now n)) }
{
    let mut values = Vec::with_capacity(alloc, number)?;
    for n in 0..number {
        values.push(instance_of_operator(*op, of, n))?;
    }
    Ok(values)
}

/// The first `number` values of a flow of this definition, which is no output of an application.
pub(crate) fn plain_values<'a>(
    alloc: Global,
    setting: &Setting<'a>,
    def: Def,
    number: usize,
    flows: &[Values<'a>],
) -> Result<Values<'a>, AllocError>
    requires plain { IsPlain def }
    requires some { 0 < number }
    requires there { (n : ℕ) → n < number → IsThere setting.now.sensors.now flows.now def n }
    ensures count { IfOk result (λ v. length v ≡ number) }
    ensures each { IfOk result (λ v. (p : FlatProgram) (bodies : List CheckedBody) (n : ℕ) → n < number → slice_index_or v n nothing ≡ value_of p bodies setting.now.sensors.now (table_of flows.now) def n) }
{
    match def {
        Def::Sensor(sensor) => Ok(Values::lent(alloc, &setting.sensors.rows(sensor)[..number])),
        Def::Copy(of) => flows[of.0 as usize].front(alloc, number),
        Def::Const(value) => Ok(Values::owned(vec![in alloc; value; number]?)),
        Def::Apply { .. } => unreachable!(),
        Def::Op { op, of } => {
            let of = flows[of.0 as usize].as_slice();
            Ok(Values::owned(operator_values(alloc, &op, of, number)?))
        }
    }
}
