//! How many inputs and outputs imports and nodes declare.

ghost use Rattle.std.specs.Prelude.{◌≡◌, IfSome, length};
ghost use Rattle.prl_spots.specs.Counted.{Declares, IsOfImport, IsOfNode};

use prl_ast::{Import, Node, Program};

/// How many inputs and outputs.
#[derive(Clone, Copy)]
pub struct Counts {
    pub ins: usize,
    pub outs: usize,
}

/// Those of an import.
fn import_counts(import: &Import) -> Counts
    ensures ins { result.ins ≡ length import.now.ins }
    ensures outs { result.outs ≡ length import.now.outs }
{
    Counts {
        ins: import.ins.len(),
        outs: import.outs.len(),
    }
}

/// Those of a node.
fn node_counts(node: &Node) -> Counts
    ensures ins { result.ins ≡ length node.now.ins }
    ensures outs { result.outs ≡ length node.now.outs }
{
    Counts {
        ins: node.ins.len(),
        outs: node.outs.len(),
    }
}

/// Those of the import of a name.
fn of_import(imports: &[Import], name: &[u8]) -> Option<Counts>
    ensures { IfSome result (IsOfImport imports.now name.now) }
{
    for import in imports {
        if import.name.bytes() == name {
            return Some(import_counts(import));
        }
    }
    None
}

/// Those of the node of a name.
fn of_node(nodes: &[Node], name: &[u8]) -> Option<Counts>
    ensures { IfSome result (IsOfNode nodes.now name.now) }
{
    for node in nodes {
        if node.name.bytes() == name {
            return Some(node_counts(node));
        }
    }
    None
}

/// Those of the import or the node of a name.
#[tactic(auto, using(crate::proofs::Named::by_import, crate::proofs::Named::by_node))]
pub(crate) fn declared(program: &Program, name: &[u8]) -> Option<Counts>
    ensures { IfSome result (Declares program.now name.now) }
{
    match of_import(program.imports.as_slice(), name) {
        Some(counts) => Some(counts),
        None => of_node(program.nodes.as_slice(), name),
    }
}
