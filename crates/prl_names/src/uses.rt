//! The imports that the expansion of a node applies.

ghost use Rattle.std.specs.Prelude.{◌≡◌, ◌<◌, ◌++◌, IfOk, OnOk, length};
ghost use Rattle.std.specs.Vec.{vec_items};
ghost use Rattle.prl_ast.specs.Trees.{tree_of, node_tree, program_tree};
ghost use Rattle.prl_names.specs.ExprLists.{all_trees};
ghost use Rattle.prl_names.specs.Marks.{IsRow};
ghost use Rattle.prl_names.specs.Mentions.{names_in};
ghost use Rattle.prl_names.specs.Uses.{applied_names, all_applied, node_applied, expanded_names, used_among, used_imports};

use crate::applications::closed_rows;
use crate::lookups::Names;
use crate::mentions::Mention;
use crate::tables::{found, indices};
use prl_ast::{Base, Expr, Import, Node};
use prl_base::Name;
use std::alloc::{AllocError, Global};

/// Appends the names that the expression applies.
#[cycle(push_applied)]
fn push_applied<'a>(list: &mut Vec<Mention<'a>>, expr: &'a Expr) -> Result<(), AllocError>
    ensures { OnOk result (names_in list.new.items ≡ names_in list.old.items ++ applied_names (tree_of expr.now)) }
{
    match &expr.base {
        Base::Const(_) => Ok(()),
        Base::Var(_) => Ok(()),
        Base::Apply { name, at, args } => {
            list.push(Mention { name, at: *at })?;
            push_all_applied(list, args)
        }
        Base::Group(parts) => push_all_applied(list, parts),
    }
}

/// Appends the names that several expressions apply.
#[cycle(push_applied)]
fn push_all_applied<'a>(list: &mut Vec<Mention<'a>>, exprs: &'a [Expr]) -> Result<(), AllocError>
    ensures { OnOk result (names_in list.new.items ≡ names_in list.old.items ++ all_applied (all_trees exprs.now)) }
{
    for expr in exprs {
        push_applied(list, expr)?;
    }
    Ok(())
}

/// Appends the names that the node applies.
fn push_node<'a>(list: &mut Vec<Mention<'a>>, node: &'a Node) -> Result<(), AllocError>
    ensures { OnOk result (names_in list.new.items ≡ names_in list.old.items ++ node_applied (node_tree node.now)) }
{
    for equation in node.eqs.as_slice() {
        push_applied(list, &equation.right)?;
    }
    Ok(())
}

/// The names that main and the nodes of its row of marks apply.
fn expanded<'a>(
    alloc: Global,
    names: &Names<'a>,
    main: usize,
    row: &[bool],
) -> Result<Vec<Mention<'a>>, AllocError>
    requires { IsRow (program_tree names.now) (length names.now.nodes) main row.now }
    ensures { IfOk result (λ list. names_in list.items ≡ expanded_names (program_tree names.now) main) }
{
    let mut list = Vec::new(alloc);
    for (k, node) in names.program().nodes.as_slice().iter().enumerate() {
        if k == main || row[k] {
            push_node(&mut list, node)?;
        }
    }
    Ok(list)
}

/// The names of those imports that are among the applied names.
fn used_among(
    alloc: Global,
    applied: &[Mention<'_>],
    imports: &[Import],
) -> Result<Vec<Name>, AllocError>
    ensures { IfOk result (λ used. vec_items used ≡ used_among (names_in applied.now) imports.now) }
{
    let table = indices(alloc, applied)?;
    let mut used = Vec::new(alloc);
    for import in imports {
        if found(&table, import.name.bytes()).is_some() {
            used.push(import.name.copy(alloc)?)?;
        }
    }
    Ok(used)
}

/// The names of the imports that the expansion of the node at the index `main` applies, in the order of their
/// declarations: those that `main` or a node that it reaches applies.
pub fn used_imports(alloc: Global, names: &Names<'_>, main: usize) -> Result<Vec<Name>, AllocError>
    requires { main < length names.now.nodes }
    ensures { IfOk result (λ used. vec_items used ≡ used_imports (program_tree names.now) main) }
{
    let rows = closed_rows(alloc, names)?;
    let applied = expanded(alloc, names, main, rows[main].as_slice())?;
    used_among(
        alloc,
        applied.as_slice(),
        names.program().imports.as_slice(),
    )
}
