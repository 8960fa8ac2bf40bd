//! Declarations as they are printed, each on lines of its own. Each function appends to the text.

ghost use Rattle.std.specs.Prelude.{◌≡◌, ◌++◌, OnOk, map};
ghost use Rattle.std.specs.List.{flat_map};
ghost use Rattle.prl_ast.specs.Trees.{equation_tree, node_tree};
ghost use Rattle.prl_print.specs.Printing.{printed_device, printed_equation, printed_head, printed_lefts, printed_signature, printed_wcet};

use crate::expressions::push_expr;
use crate::notes::push_locals;
use crate::parts::{Part, push_each, push_separated};
use prl_ast::{Device, Equation, Import, Node, Placed, Port};
use prl_base::{Name, push_number, push_type};
use std::alloc::AllocError;

impl Part for Port {
    ghost use Rattle.prl_print.specs.Printing.{printed_port};

    ghost printed = { printed_port };

    fn push(&self, text: &mut Vec<u8>) -> Result<(), AllocError> {
        text.extend_from_slice(self.name.bytes())?;
        text.extend_from_slice(b": ")?;
        push_type(text, self.ty)
    }
}

fn push_wcet(text: &mut Vec<u8>, wcet: u32) -> Result<(), AllocError>
    ensures { OnOk result (text.new.items ≡ text.old.items ++ printed_wcet wcet) }
{
    text.extend_from_slice(b" wcet ")?;
    push_number(text, u64::from(wcet))?;
    text.extend_from_slice(b";\n")
}

/// A keyword with a blank after it, the name of a node, and its inputs and outputs.
fn push_signature<T: Part>(
    text: &mut Vec<u8>,
    keyword: &[u8],
    name: &Name,
    ins: &[T],
    outs: &[T],
) -> Result<(), AllocError>
    ensures { OnOk result (text.new.items ≡ text.old.items ++ printed_signature keyword.now name.now (map T.printed ins.now) (map T.printed outs.now)) }
{
    text.extend_from_slice(keyword)?;
    text.extend_from_slice(name.bytes())?;
    text.push(b'(')?;
    push_separated(text, b"; ", ins)?;
    text.extend_from_slice(b") returns (")?;
    push_separated(text, b"; ", outs)?;
    text.push(b')')?;
    Ok(())
}

impl Part for Import {
    ghost use Rattle.prl_print.specs.Printing.{printed_import};

    ghost printed = { printed_import };

    fn push(&self, text: &mut Vec<u8>) -> Result<(), AllocError> {
        let (ins, outs) = (self.ins.as_slice(), self.outs.as_slice());
        push_signature(text, b"imported node ", &self.name, ins, outs)?;
        push_wcet(text, self.wcet)
    }
}

/// A sensor or an actuator, with its keyword and a blank before it.
pub fn push_device(text: &mut Vec<u8>, keyword: &[u8], device: &Device) -> Result<(), AllocError>
    ensures { OnOk result (text.new.items ≡ text.old.items ++ printed_device keyword.now device.now) }
{
    text.extend_from_slice(keyword)?;
    text.extend_from_slice(device.name.bytes())?;
    push_wcet(text, device.wcet)
}

impl Part for Placed {
    ghost use Rattle.prl_print.specs.Printing.{name_of};

    ghost printed = { name_of };

    fn push(&self, text: &mut Vec<u8>) -> Result<(), AllocError> {
        text.extend_from_slice(self.name.bytes())
    }
}

/// The left side of an equation.
fn push_lefts(text: &mut Vec<u8>, lefts: &[Placed]) -> Result<(), AllocError>
    ensures { OnOk result (text.new.items ≡ text.old.items ++ printed_lefts lefts.now) }
{
    match lefts {
        [] => text.extend_from_slice(b"()"),
        [only] => text.extend_from_slice(only.name.bytes()),
        [_, _, ..] => {
            text.push(b'(')?;
            push_separated(text, b", ", lefts)?;
            text.extend_from_slice(b")")
        }
    }
}

impl Part for Equation {
    ghost use Rattle.prl_ast.specs.Trees.{equation_tree};
    ghost use Rattle.prl_print.specs.Printing.{printed_equation};

    ghost printed = { λ e. printed_equation (equation_tree e) };

    fn push(&self, text: &mut Vec<u8>) -> Result<(), AllocError> {
        text.extend_from_slice(b"  ")?;
        push_lefts(text, self.lefts.as_slice())?;
        text.extend_from_slice(b" = ")?;
        push_expr(text, &self.right)?;
        text.extend_from_slice(b";\n")
    }
}

#[tactic(auto, using(crate::proofs::Shown::trees_printed))]
fn push_equations(text: &mut Vec<u8>, equations: &[Equation]) -> Result<(), AllocError>
    ensures { OnOk result (text.new.items ≡ text.old.items ++ flat_map printed_equation (map equation_tree equations.now)) }
{
    push_each(text, equations)
}

/// The lines of a node up to its equations.
fn push_head(text: &mut Vec<u8>, node: &Node) -> Result<(), AllocError>
    ensures { OnOk result (text.new.items ≡ text.old.items ++ printed_head (node_tree node.now)) }
{
    let (ins, outs) = (node.ins.as_slice(), node.outs.as_slice());
    push_signature(text, b"node ", &node.name, ins, outs)?;
    text.push(b'\n')?;
    push_locals(text, node.locals.as_slice())
}

impl Part for Node {
    ghost use Rattle.prl_ast.specs.Trees.{node_tree};
    ghost use Rattle.prl_print.specs.Printing.{printed_node};

    ghost printed = { λ n. printed_node (node_tree n) };

    fn push(&self, text: &mut Vec<u8>) -> Result<(), AllocError> {
        push_head(text, self)?;
        text.extend_from_slice(b"let\n")?;
        push_equations(text, self.eqs.as_slice())?;
        text.extend_from_slice(b"tel\n")
    }
}
