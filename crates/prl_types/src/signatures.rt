//! What imports and nodes take and give, by their types: each listed once, so that an application looks it up.

ghost use Rattle.std.specs.Prelude.{◌≡◌, map, length, slice_get, IfOk, Some};
ghost use Rattle.std.specs.Option.{option_copied};
ghost use Rattle.std.specs.List.{range_with_len};
ghost use Rattle.prl_ast.specs.Trees.{program_tree};
ghost use Rattle.prl_names.specs.Lookups.{callee_of};
ghost use Rattle.prl_types.specs.Flows.{inputs_of, outputs_of};
ghost use Rattle.prl_types.specs.Parameters.{named};
ghost use Rattle.prl_types.specs.code.Signatures.{callee_at, signature_of, taken, given, Signs};

use crate::contexts::Context;
use prl_base::Seq;
use prl_names::Callee;
use prl_terms::Term;
use std::alloc::{AllocError, Global};
use std::marker::Model;

/// The types of what an import or a node takes, and of what it gives.
#[derive(Drop)]
pub(crate) struct Signature {
    pub ins: Seq<Term>,
    pub outs: Seq<Term>,
}

/// The parameters of a program, and the signatures of its imports and nodes. Contracts see the program.
#[derive(Drop)]
pub(crate) struct Signatures<'c, 'n, 'a> {
    context: &'c Context<'n, 'a>,
    imports: Vec<Signature>,
    nodes: Vec<Signature>,
}

impl<'c, 'n, 'a> Model for Signatures<'c, 'n, 'a> {
    ghost use Rattle.std.specs.Coded.{codes};
    ghost use Rattle.prl_ast.specs.Trees.{program_tree};
    ghost use Rattle.prl_ast.specs.contracts.expressions.Base as base;
    ghost use Rattle.prl_ast.specs.declared.declarations.Program.{Program};
    ghost use Rattle.prl_types.specs.code.Signatures.{AreSignatures};

    ghost Value = { Program };

    ghost coded = { Prim.hlevel (codes, base.the_row.coded) };

    ghost view = { λ s. s.context.now };

    ghost invariant = { λ s. AreSignatures (program_tree s.context.now) s.imports.items s.nodes.items };
}

/// What this takes and gives.
fn made_signature(
    alloc: Global,
    context: &Context<'_, '_>,
    of: Callee,
) -> Result<Signature, AllocError>
    ensures ins { IfOk result (λ s. s.ins ≡ inputs_of (program_tree context.now) (Some of)) }
    ensures outs { IfOk result (λ s. s.outs ≡ outputs_of (program_tree context.now) (Some of)) }
{
    let (ins, outs) = context.flows(alloc, of)?;
    Ok(Signature {
        ins: Seq::new(ins),
        outs: Seq::new(outs),
    })
}

/// The node of an index, or the import.
fn callee_at(is_node: bool, k: usize) -> Callee
    ensures { result ≡ callee_at is_node k }
{
    if is_node {
        Callee::Node(k)
    } else {
        Callee::Import(k)
    }
}

/// The signatures of so many nodes, or of so many imports.
fn made_signatures(
    alloc: Global,
    context: &Context<'_, '_>,
    are_nodes: bool,
    count: usize,
) -> Result<Vec<Signature>, AllocError>
    ensures { IfOk result (λ list. list.items ≡ map (λ k. signature_of (program_tree context.now) (callee_at are_nodes k)) (range_with_len 0 count)) }
{
    let mut list = Vec::with_capacity(alloc, count)?;
    for k in 0..count {
        let signature = made_signature(alloc, context, callee_at(are_nodes, k))?;
        list.push(signature)?;
    }
    Ok(list)
}

/// The signature of this index.
#[tactic(auto, using(std::proofs::lemmas::Option::slice_get_read, std::proofs::lemmas::Option::slice_get_past))]
fn signature_at(list: &[Signature], k: usize) -> Option<&Signature>
    ensures { option_copied result ≡ slice_get list.now k }
{
    if k < list.len() { Some(&list[k]) } else { None }
}

impl<'c, 'n, 'a> Signatures<'c, 'n, 'a> {
    /// Those of the program whose parameters these are.
    pub fn new(alloc: Global, context: &'c Context<'n, 'a>) -> Result<Self, AllocError>
        ensures { IfOk result (λ s. s ≡ context.now) }
    {
        let program = context.program();
        let imports = made_signatures(alloc, context, false, program.imports.len())?;
        let nodes = made_signatures(alloc, context, true, program.nodes.len())?;
        Ok(Signatures {
            context,
            imports,
            nodes,
        })
    }

    /// The type of the parameter of this name of the node.
    pub fn named(&self, node: usize, name: &[u8]) -> Term
        ensures { result ≡ named (program_tree self.now) node name.now }
    {
        self.context.named(node, name)
    }

    /// What an application of the name applies.
    pub fn callee(&self, name: &[u8]) -> Option<Callee>
        ensures { result ≡ callee_of (program_tree self.now) name.now }
    {
        self.context.callee(name)
    }

    /// The signature of this.
    fn signature_of(&self, of: Callee) -> Option<&Signature>
        ensures { Signs (program_tree self.now) (option_copied result) of }
    {
        match of {
            Callee::Import(k) => signature_at(&self.imports, k),
            Callee::Node(k) => signature_at(&self.nodes, k),
        }
    }

    /// The signature of what is applied.
    fn signature(&self, callee: Option<Callee>) -> Option<&Signature>
        ensures taken { taken (option_copied result) ≡ inputs_of (program_tree self.now) callee }
        ensures given { given (option_copied result) ≡ outputs_of (program_tree self.now) callee }
    {
        match callee {
            Some(callee) => self.signature_of(callee),
            None => None,
        }
    }

    /// The types of the inputs of what is applied.
    pub fn inputs(&self, callee: Option<Callee>) -> &[Term]
        ensures { result.now ≡ inputs_of (program_tree self.now) callee }
    {
        match self.signature(callee) {
            Some(signature) => signature.ins.as_slice(),
            None => &[],
        }
    }

    /// The types of the outputs of what is applied.
    pub fn outputs(&self, callee: Option<Callee>) -> &[Term]
        ensures { result.now ≡ outputs_of (program_tree self.now) callee }
    {
        match self.signature(callee) {
            Some(signature) => signature.outs.as_slice(),
            None => &[],
        }
    }
}
