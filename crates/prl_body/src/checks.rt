//! Bodies, checked against their imports.

ghost use Rattle.std.specs.Prelude.{◌≡◌, map, IfOk};
ghost use Rattle.prl_base.specs.Vocabulary.{GivesBut, type_of};
ghost use Rattle.prl_names.specs.Tables.{AreIndices};
ghost use Rattle.prl_body.specs.Checks.{body_tree, register_tree, typed_as, left_type, typed_statement, typed_statements, statement_named, output_value, output_values, next_value, resolved_registers, checked_text, checked_code, checked_body};
ghost use Rattle.prl_body.specs.Codes.{expression_of};
ghost use Rattle.prl_body.specs.Scopes.{left_names};
ghost use Rattle.prl_body.specs.Texts.{statement_tree, text_tree};

use crate::bodies::{Body, CheckedBody, Register};
use crate::codes::{Code, Variable};
use crate::faults::BodyFault;
use crate::names::name_fault;
use crate::scopes::{Scope, left_indices, statement_named};
use crate::texts::{BodyText, RegisterText, Statement};
use crate::types::typed;
use prl_ast::{Import, Port};
use prl_base::{Name, Seq, Ty, is_same_type};
use prl_names::Indices;
use std::alloc::{AllocError, Global};

/// The right side of a statement whose left name has this type.
fn typed_as(
    alloc: Global,
    scope: &Scope<'_>,
    ty: Ty,
    statement: &Statement,
) -> Result<Code, BodyFault>
    ensures { GivesBut BodyFault.Memory expression_of result (typed_as scope.now.ins scope.now.registers ty (statement_tree statement.now)) }
{
    let (code, found) = typed(alloc, scope, &statement.right)?;
    if !is_same_type(found, ty) {
        return Err(BodyFault::BodyType(statement.at.at));
    }
    Ok(code)
}

/// Checks the types of a statement.
fn check_statement(
    alloc: Global,
    scope: &Scope<'_>,
    statement: &Statement,
) -> Result<Code, BodyFault>
    ensures { GivesBut BodyFault.Memory expression_of result (typed_statement scope.now.ins scope.now.registers (left_type scope.now.outs scope.now.registers statement.now.left) (statement_tree statement.now)) }
{
    match scope.left_type(&statement.left) {
        None => Err(BodyFault::BodyName(statement.at.at)),
        Some(ty) => typed_as(alloc, scope, ty, statement),
    }
}

/// Checks the types of the statements in the order of the text.
fn check_statements(
    alloc: Global,
    scope: &Scope<'_>,
    statements: &[Statement],
) -> Result<(), BodyFault>
    ensures { GivesBut BodyFault.Memory (λ x. x) result (typed_statements scope.now.ins scope.now.outs scope.now.registers (map statement_tree statements.now)) }
{
    for statement in statements {
        let _code = check_statement(alloc, scope, statement)?;
    }
    Ok(())
}

/// The value of an output of this name and type, for a body whose name stands at this byte.
fn output_value(
    alloc: Global,
    scope: &Scope<'_>,
    at: u32,
    statements: &[Statement],
    lefts: &Indices<'_>,
    port: &Port,
) -> Result<Code, BodyFault>
    requires { AreIndices lefts.now (left_names statements.now) }
    ensures { GivesBut BodyFault.Memory expression_of result (output_value scope.now.ins scope.now.registers at port.now.ty (statement_named (map statement_tree statements.now) port.now.name)) }
{
    match statement_named(statements, lefts, &port.name) {
        None => Err(BodyFault::BodyArity(at)),
        Some(statement) => typed_as(alloc, scope, port.ty, statement),
    }
}

/// The value of each output.
fn output_values(
    alloc: Global,
    scope: &Scope<'_>,
    at: u32,
    statements: &[Statement],
    lefts: &Indices<'_>,
    outs: &[Port],
) -> Result<Vec<Code>, BodyFault>
    requires { AreIndices lefts.now (left_names statements.now) }
    ensures { GivesBut BodyFault.Memory (λ v. map expression_of v.items) result (output_values scope.now.ins scope.now.registers at (map statement_tree statements.now) outs.now) }
{
    let mut values = Vec::new(alloc);
    for port in outs {
        let value = output_value(alloc, scope, at, statements, lefts, port)?;
        values.push(value)?;
    }
    Ok(values)
}

/// The next value of the register `k`.
fn next_value(
    alloc: Global,
    scope: &Scope<'_>,
    statements: &[Statement],
    lefts: &Indices<'_>,
    k: usize,
    register: &RegisterText,
) -> Result<Code, BodyFault>
    requires { AreIndices lefts.now (left_names statements.now) }
    ensures { GivesBut BodyFault.Memory expression_of result (let s = statement_named (map statement_tree statements.now) register.now.name in next_value scope.now.ins scope.now.registers k (type_of register.now.first) s) }
{
    match statement_named(statements, lefts, &register.name) {
        None => Ok(Code::Name(Variable::Register(k))),
        Some(statement) => typed_as(alloc, scope, register.first.ty(), statement),
    }
}

/// The registers with their next values.
fn resolved_registers(
    alloc: Global,
    scope: &Scope<'_>,
    statements: &[Statement],
    lefts: &Indices<'_>,
) -> Result<Vec<Register>, BodyFault>
    requires { AreIndices lefts.now (left_names statements.now) }
    ensures { GivesBut BodyFault.Memory (λ v. map register_tree v.items) result (resolved_registers scope.now.ins scope.now.registers (map statement_tree statements.now) 0 scope.now.registers) }
{
    let mut resolved = Vec::new(alloc);
    for (k, register) in scope.registers().iter().enumerate() {
        let next = next_value(alloc, scope, statements, lefts, k, register)?;
        let name = register.name.copy(alloc)?;
        resolved.push(Register {
            name,
            first: register.first,
            next,
        })?;
    }
    Ok(resolved)
}

/// The same ports once more.
fn copied(alloc: Global, ports: &[Port]) -> Result<Vec<Port>, AllocError>
    ensures { IfOk result (λ v. v.items ≡ ports.now) }
{
    let mut copies = Vec::with_capacity(alloc, ports.len())?;
    for port in ports {
        let name = port.name.copy(alloc)?;
        copies.push(Port {
            name,
            ty: port.ty,
            at: port.at,
        })?;
    }
    Ok(copies)
}

/// Checks the names of a body, and then its types.
fn check_text(
    alloc: Global,
    scope: &Scope<'_>,
    statements: &[Statement],
    lefts: &Indices<'_>,
) -> Result<(), BodyFault>
    requires { AreIndices lefts.now (left_names statements.now) }
    ensures { GivesBut BodyFault.Memory (λ x. x) result (checked_text scope.now.ins scope.now.outs scope.now.registers (map statement_tree statements.now)) }
{
    match name_fault(scope, statements, lefts) {
        Some(at) => Err(BodyFault::BodyName(at)),
        None => check_statements(alloc, scope, statements),
    }
}

/// The value of each output, and the registers, of a body whose name stands at this byte.
fn checked_code(
    alloc: Global,
    scope: &Scope<'_>,
    at: u32,
    statements: &[Statement],
    outs: &[Port],
) -> Result<(Vec<Code>, Vec<Register>), BodyFault>
    requires { outs.now ≡ scope.now.outs }
    ensures { GivesBut BodyFault.Memory (λ x. (map expression_of x.0.items, map register_tree x.1.items)) result
        (checked_code scope.now.ins scope.now.outs scope.now.registers at (map statement_tree statements.now)) }
{
    let lefts = left_indices(alloc, statements)?;
    check_text(alloc, scope, statements, &lefts)?;
    let values = output_values(alloc, scope, at, statements, &lefts, outs)?;
    let registers = resolved_registers(alloc, scope, statements, &lefts)?;
    Ok((values, registers))
}

/// The code of a body, whose scope it makes.
fn code_of(
    alloc: Global,
    import: &Import,
    body: &BodyText,
) -> Result<(Vec<Code>, Vec<Register>), BodyFault>
    ensures { GivesBut BodyFault.Memory (λ x. (map expression_of x.0.items, map register_tree x.1.items)) result
        (checked_code import.now.ins import.now.outs body.now.registers body.now.at.at (map statement_tree body.now.statements)) }
{
    let outs = import.outs.as_slice();
    let scope = Scope::new(
        alloc,
        import.ins.as_slice(),
        outs,
        body.registers.as_slice(),
    )?;
    checked_code(alloc, &scope, body.at.at, body.statements.as_slice(), outs)
}

/// The name once more, and the ports of the import.
fn named_ports(
    alloc: Global,
    name: &Name,
    import: &Import,
) -> Result<(Name, Vec<Port>, Vec<Port>), AllocError>
    ensures { IfOk result (λ x. (x.0 ≡ name.now) × (x.1.items ≡ import.now.ins) × (x.2.items ≡ import.now.outs)) }
{
    let copy = name.copy(alloc)?;
    let ins = copied(alloc, import.ins.as_slice())?;
    let outs = copied(alloc, import.outs.as_slice())?;
    Ok((copy, ins, outs))
}

/// The parts of the checked body.
#[tactic(auto, using(crate::proofs::Parts::body_of_code))]
fn checked_parts(alloc: Global, import: &Import, body: &BodyText) -> Result<CheckedBody, BodyFault>
    ensures { GivesBut BodyFault.Memory body_tree result (checked_body import.now (text_tree body.now)) }
{
    let (values, registers) = code_of(alloc, import, body)?;
    let (name, ins, outs) = named_ports(alloc, &body.name, import)?;
    Ok(CheckedBody {
        name,
        ins: Seq::new(ins),
        outs: Seq::new(outs),
        registers: Seq::new(registers),
        values: Seq::new(values),
    })
}

/// The body, checked against its import: its names first, then its types, then that each output has a
/// statement.
pub fn checked_body(alloc: Global, import: &Import, body: &BodyText) -> Result<Body, BodyFault>
    ensures { GivesBut BodyFault.Memory body_tree result (checked_body import.now (text_tree body.now)) }
{
    let parts = checked_parts(alloc, import, body)?;
    Ok(Body::new(parts))
}
