//! Imports, sensors and actuators.

ghost use Rattle.std.specs.Prelude.{◌≡◌, ◌∷◌, [], map, IfOk};
ghost use Rattle.prl_base.specs.Reading.{Gives};
ghost use Rattle.prl_lex.specs.Vocabulary.{◌&◌, ◌⊳◌, stop_of, inner_of, read_at, either, many};
ghost use Rattle.prl_lex.specs.Vocabulary.{shape, next_in};
ghost use Rattle.prl_syntax.specs.code.Loops.{with_joined};
ghost use Rattle.prl_syntax.specs.Grammar as grammar;
ghost use Rattle.prl_syntax.specs.code.Parses.{Parses};
ghost use Rattle.prl_syntax.specs.Trees.{port_of};
ghost use Rattle.prl_syntax.specs.declared.words.Fixed.TheVariants as kinds;

use crate::parser::Parser;
use crate::values::small;
use crate::words::Fixed;
use prl_ast::{Device, Import, Placed, Port};
use prl_base::{Seq, Span, Ty};
use prl_lex::Stop;
use std::alloc::{AllocError, Global};

/// Ports of the names and the type.
fn ports_of(alloc: Global, names: Vec<Placed>, ty: Ty) -> Result<Vec<Port>, AllocError>
    ensures { IfOk result (λ ports. ports.items ≡ map (port_of ty) names.items) }
{
    names
        .into_iter()
        .map(|Placed { name, at }| Port { name, ty, at })
        .collect(alloc)
}

impl<'a> Parser<'a> {
    /// Takes names and their type.
    #[tactic(auto, unfolding(crate::specs::Grammar::PortGroup))]
    fn port_group(&mut self) -> Result<Vec<Port>, Stop>
        ensures { Parses (λ x. x.items) grammar.PortGroup result self.entry.now self.exit.now }
    {
        let names = self.names()?;
        self.expect(Fixed::Colon)?;
        let ty = self.ty()?;
        Ok(ports_of(self.alloc, names, ty)?)
    }

    fn comma_or_semicolon(&mut self) -> Result<Span, Stop>
        ensures { Parses (λ x. x) (either (grammar.the kinds.Comma) (grammar.the kinds.Semicolon)) result self.entry.now self.exit.now }
    {
        if self.next_is(Fixed::Comma) {
            return self.expect(Fixed::Comma);
        }
        self.expect(Fixed::Semicolon)
    }

    #[tactic(auto, unfolding(crate::specs::Grammar::NextGroup))]
    fn next_group(&mut self) -> Result<Vec<Port>, Stop>
        ensures { Parses (λ x. x.items) grammar.NextGroup result self.entry.now self.exit.now }
    {
        let _ = self.comma_or_semicolon()?;
        self.port_group()
    }

    #[tactic(auto, unfolding(crate::specs::Grammar::NextGroup))]
    fn begins_group(&self) -> bool
        ensures { result ≡ next_in (shape (inner_of grammar.programs) grammar.NextGroup).first self.now }
    {
        self.next_is(Fixed::Comma) || self.next_is(Fixed::Semicolon)
    }

    /// Takes groups after the first ones.
    #[tactic(auto, using(crate::proofs::Loops::joined_loops, crate::proofs::Right::next_group_steps))]
    fn more_groups(&mut self, front: Vec<Port>) -> Result<Vec<Port>, Stop>
        ensures { Gives (λ x. (x.items, self.exit.now)) stop_of result (with_joined front.items (read_at grammar.programs (many grammar.NextGroup) self.entry.now)) }
    {
        let mut ports = front;
        'more: while self.begins_group() {
            let mut next = self.next_group()?;
            ports.append(&mut next)?;
        }
        Ok(ports)
    }

    #[tactic(auto, unfolding(crate::specs::Grammar::Ports))]
    fn ports(&mut self) -> Result<Vec<Port>, Stop>
        ensures { Parses (λ x. x.items) grammar.Ports result self.entry.now self.exit.now }
    {
        let first = self.port_group()?;
        self.more_groups(first)
    }

    fn closed_ports(&mut self) -> Result<Vec<Port>, Stop>
        ensures { Parses (λ x. x.items) (grammar.closed grammar.Ports) result self.entry.now self.exit.now }
    {
        let ports = self.ports()?;
        self.expect(Fixed::Close)?;
        Ok(ports)
    }

    fn maybe_ports(&mut self) -> Result<Vec<Port>, Stop>
        ensures { Parses (λ x. x.items) (grammar.maybe_in_parens [] grammar.Ports) result self.entry.now self.exit.now }
    {
        self.expect(Fixed::Open)?;
        if self.next_is(Fixed::Close) {
            self.expect(Fixed::Close)?;
            return Ok(Vec::new(self.alloc));
        }
        self.closed_ports()
    }

    #[tactic(auto, unfolding(crate::specs::Grammar::Wcet))]
    fn wcet(&mut self) -> Result<u32, Stop>
        ensures { Parses (λ x. x) grammar.Wcet result self.entry.now self.exit.now }
    {
        let wcet = self.number_after(Fixed::Wcet)?;
        self.expect(Fixed::Semicolon)?;
        Ok(small(wcet))
    }

    /// Takes the outputs of an imported node, and what it takes at most.
    fn outs_and_wcet(&mut self) -> Result<(Vec<Port>, u32), Stop>
        ensures { Parses (λ x. (x.0.items, x.1)) (grammar.the kinds.Returns ⊳ grammar.in_parens grammar.Ports & grammar.Wcet) result self.entry.now self.exit.now }
    {
        self.expect(Fixed::Returns)?;
        self.expect(Fixed::Open)?;
        let outs = self.closed_ports()?;
        let wcet = self.wcet()?;
        Ok((outs, wcet))
    }

    /// Takes an imported node.
    #[tactic(auto, unfolding(crate::specs::Grammar::Import))]
    pub fn read_import(&mut self) -> Result<Import, Stop>
        ensures { Parses (λ x. x) grammar.Import result self.entry.now self.exit.now }
    {
        self.expect(Fixed::Imported)?;
        self.expect(Fixed::Node)?;
        let (name, at) = self.name()?;
        let ins = self.maybe_ports()?;
        let (outs, wcet) = self.outs_and_wcet()?;
        Ok(Import {
            name,
            ins: Seq::new(ins),
            outs: Seq::new(outs),
            wcet,
            at,
        })
    }

    /// Takes a sensor or an actuator, whichever its keyword says.
    #[tactic(auto, unfolding(crate::specs::Grammar::Device))]
    pub fn read_device(&mut self, keyword: Fixed) -> Result<Device, Stop>
        ensures { Parses (λ x. x) (grammar.Device keyword) result self.entry.now self.exit.now }
    {
        self.expect(keyword)?;
        let (name, at) = self.name()?;
        let wcet = self.wcet()?;
        Ok(Device { name, wcet, at })
    }
}
