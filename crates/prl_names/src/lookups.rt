//! What a name of a program stands for.

ghost use Rattle.std.specs.Prelude.{◌≡◌, IfOk};
ghost use Rattle.prl_ast.specs.Trees.{program_tree};
ghost use Rattle.prl_names.specs.Lookups.{param_at, callee_of};

use crate::tables::{Indices, all_params, found, indices_of, param_in};
use prl_ast::Program;
use std::alloc::{AllocError, Global};
use std::marker::Model;

/// What an application applies: a node or an import, by its index in the list of these, from 0.
#[derive(Clone, Copy)]
pub enum Callee {
    Node(usize),
    Import(usize),
}

/// The names of a program, which it borrows. Contracts see that program.
pub struct Names<'a> {
    program: &'a Program,
    nodes: Indices<'a>,
    imports: Indices<'a>,
    params: Vec<Indices<'a>>,
}

impl<'a> Model for Names<'a> {
    ghost use Rattle.std.specs.Coded.{codes};
    ghost use Rattle.prl_ast.specs.Trees.{program_tree};
    ghost use Rattle.prl_ast.specs.contracts.expressions.Base as base;
    ghost use Rattle.prl_ast.specs.declared.declarations.Program.{Program};
    ghost use Rattle.prl_names.specs.Tables.{AreTables};

    ghost Value = { Program };

    ghost coded = { Prim.hlevel (codes, base.the_row.coded) };

    ghost view = { λ n. n.program.now };

    ghost invariant = { λ n. AreTables n.nodes n.imports n.params.items (program_tree n.program.now) };
}

impl<'a> Names<'a> {
    /// The names of the program.
    pub fn new(alloc: Global, program: &'a Program) -> Result<Names<'a>, AllocError>
        ensures { IfOk result (λ names. names ≡ program.now) }
    {
        let params = all_params(alloc, program.nodes.as_slice())?;
        let nodes = indices_of(alloc, program.nodes.as_slice())?;
        let imports = indices_of(alloc, program.imports.as_slice())?;
        Ok(Names {
            program,
            nodes,
            imports,
            params,
        })
    }

    /// The program.
    pub fn program(&self) -> &'a Program
        ensures { result.now ≡ self.now }
    {
        self.program
    }

    /// The index of the parameter of this name of the node at this index in the list of nodes: inputs, outputs
    /// and locals are counted from 0, one after the other. None where there is no such node or parameter;
    /// where several have the name, the first. Takes no memory.
    pub fn param(&self, node: usize, name: &[u8]) -> Option<usize>
        ensures { result ≡ param_at (program_tree self.now) node name.now }
    {
        param_in(self.params.as_slice(), node, name)
    }

    /// The node of this name, or where there is none the import; where several have the name, the first. Takes
    /// no memory.
    pub fn callee(&self, name: &[u8]) -> Option<Callee>
        ensures { result ≡ callee_of (program_tree self.now) name.now }
    {
        match found(&self.nodes, name) {
            Some(node) => Some(Callee::Node(node)),
            None => match found(&self.imports, name) {
                Some(import) => Some(Callee::Import(import)),
                None => None,
            },
        }
    }
}

impl<'a> Drop for Names<'a> {
    fn drop(self) {
        let Names {
            program: _,
            nodes,
            imports,
            params,
        } = self;
        drop(nodes);
        drop(imports);
        drop(params);
    }
}
