//! The first name of a body that it may not have there.

ghost use Rattle.std.specs.Prelude.{◌≡◌, [], map};
ghost use Rattle.prl_names.specs.Tables.{AreIndices};
ghost use Rattle.prl_body.specs.NameChecks.{either_fault, register_fault, unknown_name, statement_fault};
ghost use Rattle.prl_body.specs.Scopes.{left_names};
ghost use Rattle.prl_body.specs.Texts.{tree_of, statement_tree};

use crate::scopes::{Scope, has_statement};
use crate::texts::{Expr, Statement};
use prl_names::Indices;

/// Where the first register stands whose name a port or a register before it has.
fn register_fault(scope: &Scope<'_>) -> Option<u32>
    ensures { result ≡ register_fault scope.now.ins scope.now.outs [] scope.now.registers }
{
    let registers = scope.registers();
    for (k, register) in registers.iter().enumerate() {
        let name = &register.name;
        if scope.has_input(name) || scope.has_output(name) || scope.has_earlier_register(name, k) {
            return Some(register.at.at);
        }
    }
    None
}

/// Where the first name stands that is no input or register.
fn unknown_name(scope: &Scope<'_>, expr: &Expr) -> Option<u32>
    ensures { result ≡ unknown_name scope.now.ins scope.now.registers (tree_of expr.now) }
{
    match expr {
        Expr::Const(_) => None,
        Expr::Name { name, at } => {
            if scope.has_input(name) || scope.has_register(name) {
                None
            } else {
                Some(at.at)
            }
        }
        Expr::Run { of, .. } => unknown_name(scope, of),
        Expr::Series { first, rights } => {
            if let Some(at) = unknown_name(scope, first) {
                return Some(at);
            }
            for pair in rights {
                if let Some(at) = unknown_name(scope, &pair.right) {
                    return Some(at);
                }
            }
            None
        }
        Expr::If {
            test,
            chosen,
            other,
            ..
        } => {
            if let Some(at) = unknown_name(scope, test) {
                return Some(at);
            }
            if let Some(at) = unknown_name(scope, chosen) {
                return Some(at);
            }
            unknown_name(scope, other)
        }
    }
}

/// Where the first name stands that is wrong in a statement: a left one that may not be defined, or not once more, or a
/// right one that stands for nothing.
fn statement_fault(scope: &Scope<'_>, statements: &[Statement], lefts: &Indices<'_>) -> Option<u32>
    requires { AreIndices lefts.now (left_names statements.now) }
    ensures { result ≡ statement_fault scope.now.ins scope.now.outs scope.now.registers [] (map statement_tree statements.now) }
{
    for (k, statement) in statements.iter().enumerate() {
        let left = &statement.left;
        let known = scope.has_output(left) || scope.has_register(left);
        if !known || has_statement(statements, lefts, left, k) {
            return Some(statement.at.at);
        }
        if let Some(at) = unknown_name(scope, &statement.right) {
            return Some(at);
        }
    }
    None
}

/// Where the first name stands that the body may not have there.
pub fn name_fault(scope: &Scope<'_>, statements: &[Statement], lefts: &Indices<'_>) -> Option<u32>
    requires { AreIndices lefts.now (left_names statements.now) }
    ensures { result ≡ either_fault (register_fault scope.now.ins scope.now.outs [] scope.now.registers)
        (statement_fault scope.now.ins scope.now.outs scope.now.registers [] (map statement_tree statements.now)) }
{
    if let Some(at) = register_fault(scope) {
        return Some(at);
    }
    statement_fault(scope, statements, lefts)
}
