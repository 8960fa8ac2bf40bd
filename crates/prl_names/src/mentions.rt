//! Names where they are declared or defined.

ghost use Rattle.std.specs.Prelude.{◌≡◌, ◌++◌, IfOk, OnOk, map};
ghost use Rattle.std.specs.List.{flat_map};
ghost use Rattle.prl_names.specs.Mentions.{all_placed};

use prl_ast::{Device, Import, Node, Param, Placed, Port};
use prl_base::{Name, Span};
use std::alloc::{AllocError, Global};

/// A name, and where it stands.
#[derive(Clone, Copy)]
pub struct Mention<'a> {
    pub name: &'a Name,
    pub at: Span,
}

/// What has a name and stands at a place of the text.
pub trait Mentioned {
    ghost use Rattle.std.specs.Prelude.{◌≡◌};
    ghost use Rattle.prl_ast.specs.declared.declarations.Placed.{Placed};
    ghost use Rattle.prl_names.specs.Mentions.{placed_of};

    ghost placed: { Self → Placed };

    /// Its name, and where it stands.
    fn mention(&self) -> Mention<'_>
        ensures { placed_of result ≡ placed self.now };
}

impl Mentioned for Placed {
    ghost placed = { λ p. p };

    fn mention(&self) -> Mention<'_> {
        Mention {
            name: &self.name,
            at: self.at,
        }
    }
}

impl Mentioned for Param {
    ghost use Rattle.prl_names.specs.Mentions.{placed_param};

    ghost placed = { placed_param };

    fn mention(&self) -> Mention<'_> {
        Mention {
            name: &self.name,
            at: self.at,
        }
    }
}

impl Mentioned for Port {
    ghost use Rattle.prl_names.specs.Mentions.{placed_port};

    ghost placed = { placed_port };

    fn mention(&self) -> Mention<'_> {
        Mention {
            name: &self.name,
            at: self.at,
        }
    }
}

impl Mentioned for Device {
    ghost use Rattle.prl_names.specs.Mentions.{placed_device};

    ghost placed = { placed_device };

    fn mention(&self) -> Mention<'_> {
        Mention {
            name: &self.name,
            at: self.at,
        }
    }
}

impl Mentioned for Import {
    ghost use Rattle.prl_names.specs.Mentions.{placed_import};

    ghost placed = { placed_import };

    fn mention(&self) -> Mention<'_> {
        Mention {
            name: &self.name,
            at: self.at,
        }
    }
}

impl Mentioned for Node {
    ghost use Rattle.prl_ast.specs.Trees.{node_tree};
    ghost use Rattle.prl_names.specs.Mentions.{placed_node};

    ghost placed = { λ n. placed_node (node_tree n) };

    fn mention(&self) -> Mention<'_> {
        Mention {
            name: &self.name,
            at: self.at,
        }
    }
}

/// Appends the mentions of these.
pub fn push_all<'a, T: Mentioned>(
    list: &mut Vec<Mention<'a>>,
    all: &'a [T],
) -> Result<(), AllocError>
    ensures { OnOk result (all_placed list.new.items ≡ all_placed list.old.items ++ map T.placed all.now) }
{
    for one in all {
        list.push(one.mention())?;
    }
    Ok(())
}

/// The mentions of several lists, one after another.
fn listed<'a, T: Mentioned>(
    alloc: Global,
    lists: &[&'a [T]],
) -> Result<Vec<Mention<'a>>, AllocError>
    ensures { IfOk result (λ list. all_placed list.items ≡ flat_map (λ all. map T.placed all.now) lists.now) }
{
    let mut list = Vec::new(alloc);
    for all in lists {
        push_all(&mut list, all)?;
    }
    Ok(list)
}

/// The mentions of these.
pub fn mentions<T: Mentioned>(alloc: Global, all: &[T]) -> Result<Vec<Mention<'_>>, AllocError>
    ensures { IfOk result (λ list. all_placed list.items ≡ map T.placed all.now) }
{
    listed(alloc, &[all])
}

/// What has names that share one space.
pub(crate) trait Spaced {
    ghost use Rattle.std.specs.Prelude.{◌≡◌, IfOk, List};
    ghost use Rattle.prl_ast.specs.declared.declarations.Placed.{Placed};
    ghost use Rattle.prl_names.specs.Mentions.{all_placed};

    ghost space: { Self → List Placed };

    /// The names of the space, in order.
    fn space(&self, alloc: Global) -> Result<Vec<Mention<'_>>, AllocError>
        ensures { IfOk result (λ list. all_placed list.items ≡ space self.now) };
}

impl Spaced for Node {
    ghost use Rattle.prl_ast.specs.Trees.{node_tree};
    ghost use Rattle.prl_names.specs.Repeats.{flow_space};

    ghost space = { λ n. flow_space (node_tree n) };

    /// The parameters: inputs, then outputs, then locals.
    fn space(&self, alloc: Global) -> Result<Vec<Mention<'_>>, AllocError> {
        let lists = [
            self.ins.as_slice(),
            self.outs.as_slice(),
            self.locals.as_slice(),
        ];
        listed(alloc, &lists)
    }
}

impl Spaced for Import {
    ghost use Rattle.prl_names.specs.Repeats.{port_space};

    ghost space = { port_space };

    /// The ports: inputs, then outputs.
    fn space(&self, alloc: Global) -> Result<Vec<Mention<'_>>, AllocError> {
        listed(alloc, &[self.ins.as_slice(), self.outs.as_slice()])
    }
}
