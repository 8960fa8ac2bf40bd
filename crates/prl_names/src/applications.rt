//! Which node applies which, and the first that applies itself in the end.

ghost use Rattle.std.specs.Prelude.{◌≡◌, ◌||◌, ◌<◌, All, IfOk, Some, length, map, slice_get};
ghost use Rattle.std.specs.Option.{option_copied};
ghost use Rattle.prl_ast.specs.Trees.{tree_of, equation_tree, node_tree, program_tree};
ghost use Rattle.prl_names.specs.Applications.{is_node, applied_in, applied_trees, applied_equations, recursive_of};
ghost use Rattle.prl_names.specs.ExprLists.{all_trees};
ghost use Rattle.prl_names.specs.Lookups.{callee_of};
ghost use Rattle.prl_names.specs.Marks.{Adds, IsRow, AreRows, or_marks, led_through, all_led_through};

use crate::lookups::{Callee, Names};
use prl_ast::{Base, Equation, Expr, Node};
use prl_base::{Name, Seq};
use std::alloc::{AllocError, Global};

/// Marks the nodes that the expression applies.
#[cycle(mark)]
fn mark(names: &Names<'_>, row: &mut [bool], expr: &Expr)
    requires { length row.old ≡ length names.now.nodes }
    ensures { Adds (λ j. applied_in (program_tree names.now) j (tree_of expr.now)) row.old row.new }
{
    match &expr.base {
        Base::Const(_) => {}
        Base::Var(_) => {}
        Base::Apply { name, args, .. } => {
            mark_callee(names, row, name);
            mark_all(names, row, args);
        }
        Base::Group(parts) => mark_all(names, row, parts),
    }
}

/// Marks the nodes that several expressions apply.
#[cycle(mark)]
fn mark_all(names: &Names<'_>, row: &mut [bool], exprs: &[Expr])
    requires { length row.old ≡ length names.now.nodes }
    ensures { Adds (λ j. applied_trees (program_tree names.now) j (all_trees exprs.now)) row.old row.new }
{
    for expr in exprs {
        mark(names, row, expr);
    }
}

/// Marks the node of this name, if it is one.
fn mark_callee(names: &Names<'_>, row: &mut [bool], name: &Name)
    requires { length row.old ≡ length names.now.nodes }
    ensures { Adds (λ j. is_node j (callee_of (program_tree names.now) name.now)) row.old row.new }
{
    match names.callee(name.bytes()) {
        Some(Callee::Node(k)) => row[k] = true,
        Some(Callee::Import(_)) => {}
        None => {}
    }
}

/// Marks the nodes that the equations apply.
fn mark_equations(names: &Names<'_>, row: &mut [bool], equations: &[Equation])
    requires { length row.old ≡ length names.now.nodes }
    ensures { Adds (λ j. applied_equations (program_tree names.now) j (map equation_tree equations.now)) row.old row.new }
{
    for equation in equations {
        mark(names, row, &equation.right);
    }
}

/// Which nodes the node at this index applies.
fn row_of(alloc: Global, names: &Names<'_>, by: usize, node: &Node) -> Result<Vec<bool>, AllocError>
    requires { slice_get (program_tree names.now).nodes by ≡ Some (node_tree node.now) }
    ensures { IfOk result (λ row. IsRow (program_tree names.now) 0 by row.items) }
{
    let mut row = vec![in alloc; false; names.program().nodes.len()]?;
    mark_equations(names, &mut row, node.eqs.as_slice());
    Ok(row)
}

/// Which node applies which: a row for each node.
fn rows(alloc: Global, names: &Names<'_>) -> Result<Vec<Seq<bool>>, AllocError>
    ensures rows { IfOk result (λ rows. AreRows (program_tree names.now) 0 0 rows.items) }
    ensures len { IfOk result (λ rows. length rows.items ≡ length names.now.nodes) }
{
    let mut rows = Vec::new(alloc);
    for (k, node) in names.program().nodes.as_slice().iter().enumerate() {
        let row = row_of(alloc, names, k, node)?;
        rows.push(Seq::new(row))?;
    }
    Ok(rows)
}

fn either(a: bool, b: bool) -> bool
    ensures { result ≡ (a || b) }
{
    a || b
}

/// The marks of both rows. Takes no memory.
fn or_marks(row: Seq<bool>, others: &[bool]) -> Seq<bool>
    requires { length row ≡ length others.now }
    ensures { result ≡ or_marks row others.now }
{
    let mut marks = row.into_vec();
    for k in 0..marks.len() {
        marks[k] = either(marks[k], others[k]);
    }
    Seq::new(marks)
}

/// The row with the marks of the other if it has the mark `k`. Takes no memory.
fn led_through(k: usize, others: &[bool], row: Seq<bool>) -> Seq<bool>
    requires same { length row ≡ length others.now }
    requires within { k < length row }
    ensures { result ≡ led_through k others.now row }
{
    if row.as_slice()[k] {
        or_marks(row, others)
    } else {
        row
    }
}

/// Each row that has the mark `k` with the marks of the row `k`.
fn all_led_through(
    alloc: Global,
    k: usize,
    rows: Vec<Seq<bool>>,
) -> Result<Vec<Seq<bool>>, AllocError>
    requires within { k < length rows.items }
    requires square { All (λ row. length row ≡ length rows.items) rows.items }
    ensures { IfOk result (λ led. led.items ≡ all_led_through k rows.items) }
{
    let others = Vec::from_slice(alloc, rows[k].as_slice())?;
    let mut led = Vec::with_capacity(alloc, rows.len())?;
    for row in rows {
        led.push(led_through(k, &others, row))?;
    }
    Ok(led)
}

/// Which node reaches which: a row for each node.
pub fn closed_rows(alloc: Global, names: &Names<'_>) -> Result<Vec<Seq<bool>>, AllocError>
    ensures rows { IfOk result (λ rows. AreRows (program_tree names.now) (length names.now.nodes) 0 rows.items) }
    ensures len { IfOk result (λ rows. length rows.items ≡ length names.now.nodes) }
{
    let mut rows = rows(alloc, names)?;
    for k in 0..names.program().nodes.len() {
        rows = all_led_through(alloc, k, rows)?;
    }
    Ok(rows)
}

/// The first node that applies itself through a cycle of applications.
#[tactic(auto, unfolding(crate::specs::Applications::recursive_of))]
pub fn recursive<'n>(alloc: Global, names: &'n Names<'_>) -> Result<Option<&'n Name>, AllocError>
    ensures { IfOk result (λ name. option_copied name ≡ recursive_of (program_tree names.now)) }
{
    let rows = closed_rows(alloc, names)?;
    for (k, node) in names.program().nodes.as_slice().iter().enumerate() {
        if rows[k].as_slice()[k] {
            return Ok(Some(&node.name));
        }
    }
    Ok(None)
}
