//! Expressions as they are printed. Each function appends to the text.

ghost use Rattle.std.specs.Prelude.{◌≡◌, ◌++◌, OnOk, codes, map};
ghost use Rattle.prl_ast.specs.Trees.{root_of, tree_of};
ghost use Rattle.prl_syntax.specs.Trees.{trees_from};
ghost use Rattle.prl_print.specs.Printing.{comma_before, printed_operator, printed_operators, printed_root, printed_tree, printed_trees};

use prl_ast::{Base, Expr, PlacedOp};
use prl_base::{Op, push_number, push_ratio, push_value};
use std::alloc::AllocError;

fn push_operator(text: &mut Vec<u8>, op: Op) -> Result<(), AllocError>
    ensures { OnOk result (text.new.items ≡ text.old.items ++ printed_operator op) }
{
    match op {
        Op::Fby(value) => {
            push_value(text, value)?;
            text.extend_from_slice(b" fby ")
        }
        Op::Cons(value) => {
            push_value(text, value)?;
            text.extend_from_slice(b" :: ")
        }
        Op::Tail => text.extend_from_slice(b"tail "),
        Op::Up(factor) => {
            text.extend_from_slice(b" *^ ")?;
            push_number(text, u64::from(factor))
        }
        Op::Down(factor) => {
            text.extend_from_slice(b" /^ ")?;
            push_number(text, u64::from(factor))
        }
        Op::Shift(ratio) => {
            text.extend_from_slice(b" ~> ")?;
            push_ratio(text, ratio)
        }
    }
}

fn push_operators(text: &mut Vec<u8>, operators: &[PlacedOp]) -> Result<(), AllocError>
    ensures { OnOk result (text.new.items ≡ text.old.items ++ printed_operators operators.now) }
{
    for operator in operators {
        push_operator(text, operator.op)?;
    }
    Ok(())
}

/// The comma before an expression that is not the first.
fn push_comma(text: &mut Vec<u8>, index: usize) -> Result<(), AllocError>
    ensures { OnOk result (text.new.items ≡ text.old.items ++ comma_before index) }
{
    if index == 0 {
        return Ok(());
    }
    text.extend_from_slice(b", ")
}

/// The expressions, with commas between and in parentheses.
#[cycle(expression)]
fn push_enclosed(text: &mut Vec<u8>, parts: &[Expr]) -> Result<(), AllocError>
    ensures { OnOk result (text.new.items ≡ text.old.items ++ (codes "(" ++ printed_trees (trees_from (map tree_of parts.now)) ++ codes ")")) }
{
    text.push(b'(')?;
    for (index, part) in parts.iter().enumerate() {
        push_comma(text, index)?;
        push_expr(text, part)?;
    }
    text.push(b')')?;
    Ok(())
}

#[cycle(expression)]
fn push_base(text: &mut Vec<u8>, base: &Base) -> Result<(), AllocError>
    ensures { OnOk result (text.new.items ≡ text.old.items ++ printed_root (root_of base.now)) }
{
    match base {
        Base::Const(value) => push_value(text, *value),
        Base::Var(name) => text.extend_from_slice(name.bytes()),
        Base::Apply { name, args, .. } => {
            text.extend_from_slice(name.bytes())?;
            push_enclosed(text, args.as_slice())
        }
        Base::Group(parts) => push_enclosed(text, parts.as_slice()),
    }
}

#[cycle(expression)]
pub fn push_expr(text: &mut Vec<u8>, expr: &Expr) -> Result<(), AllocError>
    ensures { OnOk result (text.new.items ≡ text.old.items ++ printed_tree (tree_of expr.now)) }
{
    push_operators(text, expr.pre.as_slice())?;
    push_base(text, &expr.base)?;
    push_operators(text, expr.post.as_slice())
}
