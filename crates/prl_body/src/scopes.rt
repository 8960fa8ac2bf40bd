//! The names of a body, looked up in ordered maps.

ghost use Rattle.std.specs.Prelude.{◌≡◌, IfOk, map, take};
ghost use Rattle.std.specs.Option.{option_map};
ghost use Rattle.prl_names.specs.Tables.{AreIndices, found};
ghost use Rattle.prl_body.specs.Checks.{left_type, port_type, register_type, statement_named};
ghost use Rattle.prl_body.specs.NameChecks.{has_port, has_register, has_statement};
ghost use Rattle.prl_body.specs.Scopes.{first_named, is_before, left_names};
ghost use Rattle.prl_body.specs.Texts.{statement_tree};
ghost use Rattle.prl_body.specs.TypeChecks.{input_named, named, register_named};

use crate::codes::Variable;
use crate::texts::{RegisterText, Statement};
use prl_ast::Port;
use prl_base::{Name, Ty};
use prl_names::{Indices, Mention, Mentioned, found, indices_of};
use std::alloc::{AllocError, Global};
use std::marker::Model;

/// The inputs, outputs and registers of a body, with the index of the first of each name. Contracts see the
/// three lists.
#[derive(Drop)]
pub struct Scope<'a> {
    ins: &'a [Port],
    outs: &'a [Port],
    registers: &'a [RegisterText],
    of_inputs: Indices<'a>,
    of_outputs: Indices<'a>,
    of_registers: Indices<'a>,
}

impl<'a> Model for Scope<'a> {
    ghost use Rattle.prl_names.specs.Tables.{AreIndices};
    ghost use Rattle.prl_body.specs.Scopes.{ScopeView, port_names, register_names};

    ghost Value = { ScopeView };

    ghost view = { λ s. record { ins = s.ins.now; outs = s.outs.now; registers = s.registers.now } };

    ghost invariant = { λ s. AreIndices s.of_inputs (port_names s.ins.now) × AreIndices s.of_outputs (port_names s.outs.now) × AreIndices s.of_registers (register_names s.registers.now) };
}

impl Mentioned for RegisterText {
    ghost placed = { λ r. record { name = r.name; at = r.at } };

    fn mention(&self) -> Mention<'_> {
        Mention {
            name: &self.name,
            at: self.at,
        }
    }
}

impl Mentioned for Statement {
    ghost placed = { λ s. record { name = s.left; at = s.at } };

    fn mention(&self) -> Mention<'_> {
        Mention {
            name: &self.left,
            at: self.at,
        }
    }
}

/// The index of the first statement of each left name.
pub fn left_indices<'a>(
    alloc: Global,
    statements: &'a [Statement],
) -> Result<Indices<'a>, AllocError>
    ensures { IfOk result (λ table. AreIndices table (left_names statements.now)) }
{
    indices_of(alloc, statements)
}

/// Whether the name stands in the table with an index below `k`.
pub fn is_before(table: &Indices<'_>, name: &Name, k: usize) -> bool
    ensures { result ≡ is_before k (found table.now name.now) }
{
    match found(table, name.bytes()) {
        Some(index) => index < k,
        None => false,
    }
}

/// Whether one of the first `k` statements has the name on its left.
#[tactic(auto, using(crate::proofs::Lookups::statement_is_earlier))]
pub fn has_statement(statements: &[Statement], lefts: &Indices<'_>, name: &Name, k: usize) -> bool
    requires { AreIndices lefts.now (left_names statements.now) }
    ensures { result ≡ has_statement (map statement_tree (take k statements.now)) name.now }
{
    is_before(lefts, name, k)
}

/// The first of these with the name, and its index.
pub fn first_named<'a, T: Mentioned>(
    table: &Indices<'_>,
    all: &'a [T],
    name: &Name,
) -> Option<(usize, &'a T)>
    requires { AreIndices table.now (map (λ x. (T.placed x).name) all.now) }
    ensures { option_map (λ x. (x.0, x.1.now)) result ≡ first_named (λ x. (T.placed x).name) name.now all.now }
{
    let k = found(table, name.bytes())?;
    let one = all.get(k)?;
    Some((k, one))
}

/// The first statement with this left name.
#[tactic(auto, using(crate::proofs::Lookups::statement_found))]
pub fn statement_named<'a>(
    statements: &'a [Statement],
    lefts: &Indices<'_>,
    name: &Name,
) -> Option<&'a Statement>
    requires { AreIndices lefts.now (left_names statements.now) }
    ensures { option_map (λ s. statement_tree s.now) result ≡ statement_named (map statement_tree statements.now) name.now }
{
    match first_named(lefts, statements, name) {
        Some((_, statement)) => Some(statement),
        None => None,
    }
}

impl<'a> Scope<'a> {
    /// The names of these.
    pub fn new(
        alloc: Global,
        ins: &'a [Port],
        outs: &'a [Port],
        registers: &'a [RegisterText],
    ) -> Result<Scope<'a>, AllocError>
        ensures { IfOk result (λ s. s ≡ record { ins = ins.now; outs = outs.now; registers = registers.now }) }
    {
        let of_inputs = indices_of(alloc, ins)?;
        let of_outputs = indices_of(alloc, outs)?;
        let of_registers = indices_of(alloc, registers)?;
        Ok(Scope {
            ins,
            outs,
            registers,
            of_inputs,
            of_outputs,
            of_registers,
        })
    }

    /// The registers.
    pub fn registers(&self) -> &'a [RegisterText]
        ensures { result.now ≡ self.now.registers }
    {
        self.registers
    }

    /// The input of this name, and its type.
    fn input(&self, name: &Name) -> Option<(Variable, Ty)>
        ensures { result ≡ input_named 0 self.now.ins name.now }
    {
        match first_named(&self.of_inputs, self.ins, name) {
            Some((k, port)) => Some((Variable::Input(k), port.ty)),
            None => None,
        }
    }

    /// The register of this name, and its type.
    fn register(&self, name: &Name) -> Option<(Variable, Ty)>
        ensures { result ≡ register_named 0 self.now.registers name.now }
    {
        match first_named(&self.of_registers, self.registers, name) {
            Some((k, register)) => Some((Variable::Register(k), register.first.ty())),
            None => None,
        }
    }

    /// What a name of an expression stands for.
    pub fn named(&self, name: &Name) -> Option<(Variable, Ty)>
        ensures { result ≡ named self.now.ins self.now.registers name.now }
    {
        match self.input(name) {
            Some(variable) => Some(variable),
            None => self.register(name),
        }
    }

    /// The type of the output of this name.
    fn output_type(&self, name: &Name) -> Option<Ty>
        ensures { result ≡ port_type self.now.outs name.now }
    {
        match first_named(&self.of_outputs, self.outs, name) {
            Some((_, port)) => Some(port.ty),
            None => None,
        }
    }

    /// The type of the register of this name.
    fn register_type(&self, name: &Name) -> Option<Ty>
        ensures { result ≡ register_type self.now.registers name.now }
    {
        match first_named(&self.of_registers, self.registers, name) {
            Some((_, register)) => Some(register.first.ty()),
            None => None,
        }
    }

    /// The type of the output or the register of this name.
    pub fn left_type(&self, name: &Name) -> Option<Ty>
        ensures { result ≡ left_type self.now.outs self.now.registers name.now }
    {
        match self.output_type(name) {
            Some(ty) => Some(ty),
            None => self.register_type(name),
        }
    }

    /// Whether an input has the name.
    #[tactic(auto, using(crate::proofs::Lookups::port_is_there))]
    pub fn has_input(&self, name: &Name) -> bool
        ensures { result ≡ has_port self.now.ins name.now }
    {
        found(&self.of_inputs, name.bytes()).is_some()
    }

    /// Whether an output has the name.
    #[tactic(auto, using(crate::proofs::Lookups::port_is_there))]
    pub fn has_output(&self, name: &Name) -> bool
        ensures { result ≡ has_port self.now.outs name.now }
    {
        found(&self.of_outputs, name.bytes()).is_some()
    }

    /// Whether a register has the name.
    #[tactic(auto, using(crate::proofs::Lookups::register_is_there))]
    pub fn has_register(&self, name: &Name) -> bool
        ensures { result ≡ has_register self.now.registers name.now }
    {
        found(&self.of_registers, name.bytes()).is_some()
    }

    /// Whether one of the first `k` registers has the name.
    #[tactic(auto, using(crate::proofs::Lookups::register_is_earlier))]
    pub fn has_earlier_register(&self, name: &Name, k: usize) -> bool
        ensures { result ≡ has_register (take k self.now.registers) name.now }
    {
        is_before(&self.of_registers, name, k)
    }
}
