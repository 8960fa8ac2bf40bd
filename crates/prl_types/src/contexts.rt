//! The parameters of a program and what its names stand for, by their types.

ghost use Rattle.std.specs.Prelude.{◌≡◌, ◌<◌, ◌+◌, ◌^◌, ◌++◌, map, length, slice_get, IfOk, IfSome, IfNone, OnOk, Some};
ghost use Rattle.std.specs.Coded.{codes};
ghost use Rattle.std.specs.Option.{option_copied};
ghost use Rattle.prl_ast.specs.Trees.{program_tree, node_tree};
ghost use Rattle.prl_ast.specs.contracts.expressions.Base as base;
ghost use Rattle.prl_ast.specs.declared.declarations.Program.{Program as AnyProgram};
ghost use Rattle.prl_names.specs.Lookups.{callee_of};
ghost use Rattle.prl_types.specs.code.Contexts.{owned_of, AreFirsts, AreParameters};
ghost use Rattle.prl_types.specs.Flows.{inputs_of, outputs_of, import_inputs, import_outputs, node_inputs, node_outputs, parameters_from, port_types};
ghost use Rattle.prl_types.specs.Parameters.{owned, owned_by, parameters_of, first_of, named};

use prl_ast::{Import, Node, Param, Port, Program};
use prl_base::{Name, Ty};
use prl_names::{Callee, Names};
use prl_terms::Term;
use std::alloc::{AllocError, Global};
use std::marker::Model;

/// A parameter and the name of its node.
#[derive(Clone, Copy)]
pub(crate) struct Parameter<'a> {
    pub node: &'a Name,
    pub param: &'a Param,
}

/// The names of a program and the parameters of its nodes, counted in the order of their declaration. Contracts see the
/// program.
#[derive(Drop)]
pub(crate) struct Context<'n, 'a> {
    names: &'n Names<'a>,
    parameters: Vec<Parameter<'a>>,
    /// The number of the first parameter of each node.
    firsts: Vec<usize>,
}

impl<'n, 'a> Model for Context<'n, 'a> {
    ghost Value = { AnyProgram };

    ghost coded = { Prim.hlevel (codes, base.the_row.coded) };

    ghost view = { λ c. c.names.now };

    ghost invariant = { λ c. AreParameters c.parameters.items c.firsts.items (program_tree c.names.now) };
}

fn add_params<'a>(
    parameters: &mut Vec<Parameter<'a>>,
    node: &'a Name,
    params: &'a [Param],
) -> Result<(), AllocError>
    ensures { OnOk result (map owned_of parameters.new.items ≡ map owned_of parameters.old.items ++ map (owned node.now) params.now) }
{
    for param in params {
        parameters.push(Parameter { node, param })?;
    }
    Ok(())
}

fn add_node<'a>(parameters: &mut Vec<Parameter<'a>>, node: &'a Node) -> Result<(), AllocError>
    ensures { OnOk result (map owned_of parameters.new.items ≡ map owned_of parameters.old.items ++ owned_by (node_tree node.now)) }
{
    add_params(parameters, &node.name, node.ins.as_slice())?;
    add_params(parameters, &node.name, node.outs.as_slice())?;
    add_params(parameters, &node.name, node.locals.as_slice())
}

/// Adds the types of the ports.
fn add_ports(terms: &mut Vec<Term>, ports: &[Port]) -> Result<(), AllocError>
    ensures { OnOk result (terms.new.items ≡ terms.old.items ++ port_types ports.now) }
{
    for port in ports {
        terms.push(Term::Known(port.ty))?;
    }
    Ok(())
}

/// Adds so many parameters, from the first on.
fn add_parameters(terms: &mut Vec<Term>, first: usize, count: usize) -> Result<(), AllocError>
    requires { first + count < 2 ^ 64 }
    ensures { OnOk result (terms.new.items ≡ terms.old.items ++ parameters_from first count) }
{
    for k in 0..count {
        terms.push(Term::Parameter(first + k))?;
    }
    Ok(())
}

impl<'n, 'a> Context<'n, 'a> {
    /// The parameters of the program whose names these are.
    pub fn new(alloc: Global, names: &'n Names<'a>) -> Result<Context<'n, 'a>, AllocError>
        ensures { IfOk result (λ c. c ≡ names.now) }
    {
        let mut parameters = Vec::new(alloc);
        let mut firsts = Vec::new(alloc);
        for node in names.program().nodes.as_slice() {
            firsts.push(parameters.len())?;
            add_node(&mut parameters, node)?;
        }
        Ok(Context {
            names,
            parameters,
            firsts,
        })
    }

    /// The program.
    pub fn program(&self) -> &'a Program
        ensures { result.now ≡ self.now }
    {
        self.names.program()
    }

    /// The parameters of all nodes.
    pub fn parameters(&self) -> &[Parameter<'a>]
        ensures { map owned_of result.now ≡ parameters_of (program_tree self.now) }
    {
        self.parameters.as_slice()
    }

    /// The number of the first parameter of each node. Takes no memory.
    pub fn into_firsts(self) -> Vec<usize>
        ensures { AreFirsts result.items (program_tree self.entry) }
    {
        let Context { firsts, .. } = self;
        firsts
    }

    /// The type of the parameter of this name of the node.
    pub fn named(&self, node: usize, name: &[u8]) -> Term
        ensures { result ≡ named (program_tree self.now) node name.now }
    {
        match self.names.param(node, name) {
            Some(k) => Term::Parameter(self.firsts[node] + k),
            None => Term::Known(Ty::Int),
        }
    }

    /// The node of this index in the list of nodes, and the number of its first parameter.
    fn node(&self, node: usize) -> Option<(&'a Node, usize)>
        ensures none { IfNone result (slice_get (program_tree self.now).nodes node ≡ None) }
        ensures node { IfSome result (λ r. slice_get (program_tree self.now).nodes node ≡ Some (node_tree r.0.now)) }
        ensures first { IfSome result (λ r. r.1 ≡ first_of (program_tree self.now) node) }
        ensures room { IfSome result (λ r. r.1 + length r.0.now.ins + length r.0.now.outs < 2 ^ 64) }
    {
        let nodes = self.names.program().nodes.as_slice();
        if node < nodes.len() {
            Some((&nodes[node], self.firsts[node]))
        } else {
            None
        }
    }

    /// The import of this index in the list of imports.
    #[tactic(auto, using(std::proofs::lemmas::Option::slice_get_read, std::proofs::lemmas::Option::slice_get_past))]
    fn import(&self, import: usize) -> Option<&'a Import>
        ensures { option_copied result ≡ slice_get (program_tree self.now).imports import }
    {
        let imports = self.names.program().imports.as_slice();
        if import < imports.len() {
            Some(&imports[import])
        } else {
            None
        }
    }

    /// Adds the types of the inputs of an import, and those of its outputs.
    fn add_import_flows(
        &self,
        import: usize,
        ins: &mut Vec<Term>,
        outs: &mut Vec<Term>,
    ) -> Result<(), AllocError>
        ensures ins { OnOk result (ins.new.items ≡ ins.old.items ++ import_inputs (slice_get (program_tree self.now).imports import)) }
        ensures outs { OnOk result (outs.new.items ≡ outs.old.items ++ import_outputs (slice_get (program_tree self.now).imports import)) }
    {
        match self.import(import) {
            Some(import) => {
                add_ports(ins, import.ins.as_slice())?;
                add_ports(outs, import.outs.as_slice())
            }
            None => Ok(()),
        }
    }

    /// Adds the types of the inputs of a node, and those of its outputs.
    fn add_node_flows(
        &self,
        node: usize,
        ins: &mut Vec<Term>,
        outs: &mut Vec<Term>,
    ) -> Result<(), AllocError>
        ensures ins { OnOk result (ins.new.items ≡ ins.old.items ++ node_inputs (first_of (program_tree self.now) node) (slice_get (program_tree self.now).nodes node)) }
        ensures outs { OnOk result (outs.new.items ≡ outs.old.items ++ node_outputs (first_of (program_tree self.now) node) (slice_get (program_tree self.now).nodes node)) }
    {
        match self.node(node) {
            Some((callee, first)) => {
                add_parameters(ins, first, callee.ins.len())?;
                add_parameters(outs, first + callee.ins.len(), callee.outs.len())
            }
            None => Ok(()),
        }
    }

    /// The types of what this takes, and of what it gives.
    pub fn flows(&self, alloc: Global, of: Callee) -> Result<(Vec<Term>, Vec<Term>), AllocError>
        ensures ins { IfOk result (λ flows. flows.0.items ≡ inputs_of (program_tree self.now) (Some of)) }
        ensures outs { IfOk result (λ flows. flows.1.items ≡ outputs_of (program_tree self.now) (Some of)) }
    {
        let mut ins = Vec::new(alloc);
        let mut outs = Vec::new(alloc);
        match of {
            Callee::Import(k) => self.add_import_flows(k, &mut ins, &mut outs)?,
            Callee::Node(k) => self.add_node_flows(k, &mut ins, &mut outs)?,
        }
        Ok((ins, outs))
    }

    /// How many flows what is applied takes, and how many it gives.
    #[tactic(auto, using(crate::proofs::Declared::port_count, crate::proofs::Declared::parameter_count))]
    pub fn counts(&self, callee: Option<Callee>) -> (usize, usize)
        ensures takes { result.0 ≡ length (inputs_of (program_tree self.now) callee) }
        ensures gives { result.1 ≡ length (outputs_of (program_tree self.now) callee) }
    {
        match callee {
            Some(Callee::Import(k)) => match self.import(k) {
                Some(import) => (import.ins.len(), import.outs.len()),
                None => (0, 0),
            },
            Some(Callee::Node(k)) => match self.node(k) {
                Some((node, _)) => (node.ins.len(), node.outs.len()),
                None => (0, 0),
            },
            None => (0, 0),
        }
    }

    /// What an application of the name applies.
    pub fn callee(&self, name: &[u8]) -> Option<Callee>
        ensures { result ≡ callee_of (program_tree self.now) name.now }
    {
        self.names.callee(name)
    }
}
