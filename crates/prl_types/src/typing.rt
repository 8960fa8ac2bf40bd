//! The check of names, arity and types.

ghost use Rattle.std.specs.Prelude.{◌≡◌, ◌<◌, ◌≤◌, ℕ, List, [], length, IfOk, IfErr, MatchResult, Option};
ghost use Rattle.std.specs.Option.{option_copied};
ghost use Rattle.prl_ast.specs.Vocabulary.{IsInRange, program_tree};
ghost use Rattle.prl_types.specs.Parameters.{count_of};
ghost use Rattle.prl_types.specs.Rules.{rules_of};
ghost use Rattle.prl_types.specs.Arity.{arity_faults};
ghost use Rattle.prl_terms.specs.Solutions.{AreTypes, Explains};
ghost use Rattle.prl_names.specs.Checks.{names_of};
ghost use Rattle.prl_types.specs.Typing.{IsTyped, IsRight, FailsWith, HasParameter, IsTypeOf};
ghost use Rattle.prl_types.specs.declared.faults.TypeFault.TheVariants.{TypeFree};
ghost use Rattle.std.specs.Prelude.{Ok};

use crate::arities::arity_fault;
use crate::contexts::{Context, Parameter};
use crate::faults::TypeFault;
use crate::rules::rules;
use prl_ast::Program;
use prl_base::{Label, Ty};
use prl_names::{Names, check_names, right_names_stand_for_something};
use prl_terms::Unsolved;
use std::alloc::{AllocError, Global};
use std::marker::Model;

/// A program within the ranges and limits of the language whose names, arity and types are right. It borrows the program. Contracts see the program, the index of its
/// main node, and the types of the parameters of all nodes in the order of their declaration.
pub struct Typed<'a> {
    program: &'a Program,
    main: u32,
    types: Vec<Ty>,
    /// The number of the first parameter of each node.
    firsts: Vec<usize>,
}

impl<'a> Model for Typed<'a> {
    ghost use Rattle.std.specs.Prelude.{◌≡◌, length};
    ghost use Rattle.std.specs.Coded.{codes};
    ghost use Rattle.prl_ast.specs.InRange.{IsInRange};
    ghost use Rattle.prl_ast.specs.Trees.{program_tree};
    ghost use Rattle.prl_ast.specs.contracts.expressions.Base as base;
    ghost use Rattle.prl_types.specs.code.Contexts.{AreFirsts};
    ghost use Rattle.prl_types.specs.Parameters.{count_of};
    ghost use Rattle.prl_types.specs.Typing.{IsRight};
    ghost use Rattle.prl_types.specs.Typings.{Typing};

    ghost Value = { Typing };

    ghost coded = { Prim.hlevel (codes, base.the_row.coded) };

    ghost view = { λ t. record { program = t.program.now; main = t.main; types = t.types.items } };

    ghost invariant = { λ t. AreFirsts t.firsts.items (program_tree t.program.now) × (length t.types.items ≡ count_of (program_tree t.program.now)) × IsRight (program_tree t.program.now) t.main t.types.items × IsInRange (program_tree t.program.now) };
}

impl<'a> Typed<'a> {
    /// The program.
    pub fn program(&self) -> &'a Program
        ensures { result.now ≡ self.now.program }
    {
        self.program
    }

    /// The index of the main node in the list of nodes, counted from 0.
    pub fn main(&self) -> u32
        ensures main { result ≡ self.now.main }
        // Nothing is wrong with the program, and these are the only types that its rules leave.
        ensures right { IsRight (program_tree self.now.program) self.now.main self.now.types }
        ensures range { IsInRange (program_tree self.now.program) }
    {
        self.main
    }

    /// The type of a parameter of the node of this index in the list of nodes. Its inputs, outputs and locals are
    /// counted from 0, one after the other.
    pub fn ty(&self, node: u32, param: u32) -> Ty
        requires { HasParameter (program_tree self.now.program) node param }
        ensures { IsTypeOf (program_tree self.now.program) self.now.types node param result }
    {
        self.types[self.firsts[node as usize] + param as usize]
    }
}

/// The types of the parameters of all nodes.
fn types(alloc: Global, context: &Context<'_, '_>) -> Result<Vec<Ty>, Unsolved>
    ensures { MatchResult result (λ types. AreTypes (rules_of (program_tree context.now)) (count_of (program_tree context.now)) types.items)
        (Explains (rules_of (program_tree context.now)) (count_of (program_tree context.now))) }
{
    match rules(alloc, context) {
        Ok(met) => met.types(),
        Err(_) => Err(Unsolved::Memory),
    }
}

/// The fault that a parameter's type is open.
fn type_free(alloc: Global, parameter: Parameter<'_>) -> Result<TypeFault, AllocError>
    ensures { IfOk result (λ fault. fault ≡ TypeFree parameter.entry.node.now parameter.entry.param.now.name) }
{
    Ok(TypeFault::TypeFree {
        node: parameter.node.copy(alloc)?,
        name: parameter.param.name.copy(alloc)?,
    })
}

/// The fault of a program whose names and arity are right.
fn of_types(alloc: Global, context: &Context<'_, '_>, fault: Unsolved) -> TypeFault
    requires arity { arity_faults (program_tree context.now) ≡ [] }
    requires fault { Explains (rules_of (program_tree context.now)) (count_of (program_tree context.now)) fault }
    ensures { (main : Option (List ℕ)) (node : ℕ) → names_of (program_tree context.now) main ≡ Ok node
        → FailsWith (program_tree context.now) main result }
{
    match fault {
        Unsolved::Mismatch { at, wanted, found } => TypeFault::Mismatch { at, wanted, found },
        Unsolved::Free(k) => match type_free(alloc, context.parameters()[k]) {
            Ok(fault) => fault,
            Err(_) => TypeFault::Memory,
        },
        Unsolved::Memory => TypeFault::Memory,
    }
}

/// The types of the parameters of all nodes of a program whose names are right.
fn solved(alloc: Global, context: &Context<'_, '_>) -> Result<Vec<Ty>, TypeFault>
    ensures arity { IfOk result (λ types. arity_faults (program_tree context.now) ≡ []) }
    ensures types { IfOk result (λ types. AreTypes (rules_of (program_tree context.now)) (count_of (program_tree context.now)) types.items) }
    ensures fault { IfErr result (λ fault. (main : Option (List ℕ)) (node : ℕ) → names_of (program_tree context.now) main ≡ Ok node
        → FailsWith (program_tree context.now) main fault) }
{
    if let Some(at) = arity_fault(context) {
        return Err(TypeFault::Arity(at));
    }
    match types(alloc, context) {
        Ok(types) => Ok(types),
        Err(fault) => Err(of_types(alloc, context, fault)),
    }
}

/// The types of a program whose names these are.
#[tactic(auto, using(crate::proofs::Opening::names_fault))]
fn check<'a>(
    alloc: Global,
    program: &'a Program,
    names: &Names<'_>,
    main: Option<&Label>,
) -> Result<Typed<'a>, TypeFault>
    requires names { names.now ≡ program.now }
    requires range { IsInRange (program_tree program.now) }
    ensures program { IfOk result (λ t. t.program ≡ program.now) }
    ensures typed { IfOk result (λ t. IsTyped (program_tree program.now) (option_copied main.entry) t.main t.types) }
    ensures fault { IfErr result (FailsWith (program_tree program.now) (option_copied main.entry)) }
{
    let node = check_names(alloc, names, main)?;
    right_names_stand_for_something();
    let context = Context::new(alloc, names)?;
    match solved(alloc, &context) {
        Ok(types) => Ok(Typed {
            program,
            main: node as u32,
            types,
            firsts: context.into_firsts(),
        }),
        Err(fault) => Err(fault),
    }
}

/// The types of the program's parameters. Its main node is the one of the name `main`, or where no name is given the
/// last one.
///
/// Else the first fault in this order. All nodes are looked at, also such as main does not apply.
///
/// - `Twice`, `Unknown`, `Undefined`, `Recursive`, `NoMain`: what `check_names` of `prl_names` refuses.
/// - `Arity`: an operator has not exactly one flow (at the operator), an application has another number
///   of argument flows than its callee has inputs (at the name), or an equation has another number of flows on its
///   right than names on its left (at its first token): the first in the order of the text.
/// - `Mismatch`: the first type rule that no choice of types meets together with all earlier ones, and the types that
///   these give what is wanted and what is found. The declared types are the first rules. Then come the equations, node by
///   node: in an expression the parts before the whole, the innermost operator first, all rules inside the arguments
///   before the application's own. A constant has the type of its operator's operand (at the operator), an argument that
///   of its parameter (at the first token of its expression), and last each flow on the right that of its left name (at
///   that name).
/// - `TypeFree`: the first flow, in the order of declaration, whose type the rules leave open.
/// - `Memory`: memory ran out; this may come in place of each of the others.
pub fn check_names_types<'a>(
    alloc: Global,
    program: &'a Program,
    main: Option<&Label>,
) -> Result<Typed<'a>, TypeFault>
    // As the program of each text is.
    requires { IsInRange (program_tree program.now) }
    ensures program { IfOk result (λ t. t.program ≡ program.now) }
    ensures typed { IfOk result (λ t. IsTyped (program_tree program.now) (option_copied main.entry) t.main t.types) }
    ensures fault { IfErr result (FailsWith (program_tree program.now) (option_copied main.entry)) }
{
    let names = Names::new(alloc, program)?;
    check(alloc, program, &names, main)
}

impl<'a> Drop for Typed<'a> {
    fn drop(self) {
        let Typed {
            program: _,
            main: _,
            types,
            firsts,
        } = self;
        drop(types);
        drop(firsts);
    }
}
