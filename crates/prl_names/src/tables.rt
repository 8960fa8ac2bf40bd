//! Tables of the indices of names.

ghost use Rattle.std.specs.Prelude.{◌≡◌, IfOk, map, slice_get};
ghost use Rattle.std.specs.Option.{option_and_then};
ghost use Rattle.prl_ast.specs.Trees.{node_tree};
ghost use Rattle.prl_names.specs.Mentions.{names_in};
ghost use Rattle.prl_names.specs.Tables.{found, AreIndices, AreParams};

use crate::mentions::{Mention, Mentioned, Spaced, mentions};
use prl_ast::Node;
use std::alloc::{AllocError, Global};
use std::collections::BTreeMap;

/// The index of the first of each name of a list.
pub type Indices<'a> = BTreeMap<&'a [u8], usize>;

/// The index of the first of each of the names.
pub fn indices<'a>(alloc: Global, mentions: &[Mention<'a>]) -> Result<Indices<'a>, AllocError>
    ensures { IfOk result (λ table. AreIndices table (names_in mentions.now)) }
{
    let mut table = BTreeMap::new(alloc);
    for (k, mention) in mentions.iter().enumerate() {
        let bytes = mention.name.bytes();
        if !table.contains_key(bytes) {
            table.insert(bytes, k)?;
        }
    }
    Ok(table)
}

/// The index of the first of each name of these.
pub fn indices_of<T: Mentioned>(alloc: Global, all: &[T]) -> Result<Indices<'_>, AllocError>
    ensures { IfOk result (λ table. AreIndices table (map (λ x. (T.placed x).name) all.now)) }
{
    let list = mentions(alloc, all)?;
    indices(alloc, list.as_slice())
}

/// The index of the name.
pub fn found(table: &Indices<'_>, name: &[u8]) -> Option<usize>
    ensures { result ≡ found table.now name.now }
{
    table.get(name).copied()
}

/// The indices of the parameters of each node.
pub fn all_params(alloc: Global, nodes: &[Node]) -> Result<Vec<Indices<'_>>, AllocError>
    ensures { IfOk result (λ tables. AreParams tables.items (map node_tree nodes.now)) }
{
    let mut tables = Vec::new(alloc);
    for node in nodes {
        let list = node.space(alloc)?;
        tables.push(indices(alloc, list.as_slice())?)?;
    }
    Ok(tables)
}

/// The index of the name in the table at this index.
#[tactic(auto, using(std::proofs::lemmas::Option::slice_get_read, std::proofs::lemmas::Option::slice_get_past))]
pub fn param_in(tables: &[Indices<'_>], node: usize, name: &[u8]) -> Option<usize>
    ensures { result ≡ option_and_then (λ table. found table name.now) (slice_get tables.now node) }
{
    if node < tables.len() {
        found(&tables[node], name)
    } else {
        None
    }
}
