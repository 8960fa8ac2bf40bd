//! Names, types, rates and dues, and the parameters and local variables that they note. Names that share a note
//! all have it.

ghost use Rattle.std.specs.Prelude.{◌≡◌, ◌∷◌, [], ◌++◌, reverse, None, IfOk};
ghost use Rattle.prl_base.specs.Reading.{Gives};
ghost use Rattle.prl_lex.specs.Vocabulary.{stop_of, with_front, ◌⊳◌, read_at, many};
ghost use Rattle.prl_lex.specs.Combinators as combinators;
ghost use Rattle.prl_syntax.specs.code.Loops.{with_joined};
ghost use Rattle.prl_syntax.specs.Grammar as grammar;
ghost use Rattle.prl_syntax.specs.code.Parses.{Parses};
ghost use Rattle.prl_syntax.specs.Trees.{note_or, param_of, params_of};
ghost use Rattle.prl_syntax.specs.declared.words.Fixed.TheVariants as kinds;

use crate::parser::Parser;
use crate::values::small;
use crate::words::Fixed;
use prl_ast::{Param, Placed, Rate};
use prl_base::Ty;
use prl_lex::Stop;
use std::alloc::{AllocError, Global};

/// What a note says of a name.
#[derive(Clone, Copy)]
pub struct Note {
    pub ty: Option<Ty>,
    pub rate: Option<Rate>,
    pub due: Option<u32>,
}

impl<'a> Parser<'a> {
    /// Takes a name.
    #[tactic(auto, unfolding(crate::specs::Grammar::Name))]
    pub fn placed(&mut self) -> Result<Placed, Stop>
        ensures { Parses (λ x. x) grammar.Name result self.entry.now self.exit.now }
    {
        let (name, at) = self.name()?;
        Ok(Placed { name, at })
    }

    /// Takes a comma and a name.
    fn comma_name(&mut self) -> Result<Placed, Stop>
        ensures { Parses (λ x. x) (grammar.the kinds.Comma ⊳ grammar.Name) result self.entry.now self.exit.now }
    {
        self.expect(Fixed::Comma)?;
        self.placed()
    }

    /// Takes names after the first ones, each with a comma before it.
    #[tactic(auto, using(prl_lex::proofs::Loops::loops, crate::proofs::Right::comma_name_steps))]
    fn more_names(&mut self, front: Vec<Placed>) -> Result<Vec<Placed>, Stop>
        ensures { Gives (λ x. (x.items, self.exit.now)) stop_of result (with_front front.items (read_at grammar.programs (many (grammar.the kinds.Comma ⊳ grammar.Name)) self.entry.now)) }
    {
        let mut names = front;
        'more: while self.next_is(Fixed::Comma) {
            names.push(self.comma_name()?)?;
        }
        Ok(names)
    }

    /// Takes one or more names, with commas between.
    #[tactic(auto, unfolding(crate::specs::Grammar::Names))]
    pub fn names(&mut self) -> Result<Vec<Placed>, Stop>
        ensures { Parses (λ x. x.items) grammar.Names result self.entry.now self.exit.now }
    {
        let first = self.placed()?;
        let mut front = Vec::new(self.alloc);
        front.push(first)?;
        self.more_names(front)
    }

    /// Takes a type.
    #[tactic(auto, unfolding(crate::specs::Grammar::TypeName))]
    pub fn ty(&mut self) -> Result<Ty, Stop>
        ensures { Parses (λ x. x) grammar.TypeName result self.entry.now self.exit.now }
    {
        if self.next_is(Fixed::Int) {
            self.expect(Fixed::Int)?;
            return Ok(Ty::Int);
        }
        self.expect(Fixed::Bool)?;
        Ok(Ty::Bool)
    }

    /// Takes a rate: a period and a phase.
    #[tactic(auto, unfolding(crate::specs::Grammar::Rate))]
    fn rate(&mut self) -> Result<Rate, Stop>
        ensures { Parses (λ x. x) grammar.Rate result self.entry.now self.exit.now }
    {
        self.expect(Fixed::Rate)?;
        self.expect(Fixed::Open)?;
        let period = self.number()?;
        self.expect(Fixed::Comma)?;
        let phase = self.ratio()?;
        self.expect(Fixed::Close)?;
        Ok(Rate {
            period: small(period),
            phase,
        })
    }

    #[tactic(auto, unfolding(crate::specs::Grammar::Rate))]
    fn maybe_rate(&mut self) -> Result<Option<Rate>, Stop>
        ensures { Parses (λ x. x) (combinators.maybe grammar.Rate) result self.entry.now self.exit.now }
    {
        if self.next_is(Fixed::Rate) {
            return Ok(Some(self.rate()?));
        }
        Ok(None)
    }

    /// Takes a due.
    #[tactic(auto, unfolding(crate::specs::Grammar::Due))]
    fn due(&mut self) -> Result<u32, Stop>
        ensures { Parses (λ x. x) grammar.Due result self.entry.now self.exit.now }
    {
        Ok(small(self.number_after(Fixed::Due)?))
    }

    #[tactic(auto, unfolding(crate::specs::Grammar::Due))]
    fn maybe_due(&mut self) -> Result<Option<u32>, Stop>
        ensures { Parses (λ x. x) (combinators.maybe grammar.Due) result self.entry.now self.exit.now }
    {
        if self.next_is(Fixed::Due) {
            return Ok(Some(self.due()?));
        }
        Ok(None)
    }

    /// Takes a note: a type, a rate and a due, of which two may be left out.
    #[tactic(auto, unfolding(crate::specs::Grammar::Note, crate::specs::Grammar::Due, crate::specs::Grammar::Rate))]
    pub fn read_note(&mut self) -> Result<Note, Stop>
        ensures { Parses (λ x. x) grammar.Note result self.entry.now self.exit.now }
    {
        if self.next_is(Fixed::Due) {
            let due = self.due()?;
            return Ok(Note {
                ty: None,
                rate: None,
                due: Some(due),
            });
        }
        if self.next_is(Fixed::Rate) {
            let rate = self.rate()?;
            let due = self.maybe_due()?;
            return Ok(Note {
                ty: None,
                rate: Some(rate),
                due,
            });
        }
        let ty = self.ty()?;
        let rate = self.maybe_rate()?;
        let due = self.maybe_due()?;
        Ok(Note {
            ty: Some(ty),
            rate,
            due,
        })
    }

    fn maybe_note(&mut self) -> Result<Option<Note>, Stop>
        ensures { Parses (λ x. x) (combinators.maybe (grammar.the kinds.Colon ⊳ grammar.Note)) result self.entry.now self.exit.now }
    {
        if self.next_is(Fixed::Colon) {
            self.expect(Fixed::Colon)?;
            return Ok(Some(self.read_note()?));
        }
        Ok(None)
    }

    #[tactic(auto, unfolding(crate::specs::Grammar::Item))]
    fn read_item(&mut self) -> Result<Item, Stop>
        ensures { Parses (λ x. x) grammar.Item result self.entry.now self.exit.now }
    {
        let name = self.placed()?;
        let note = self.maybe_note()?;
        Ok(Item { name, note })
    }

    fn comma_item(&mut self) -> Result<Item, Stop>
        ensures { Parses (λ x. x) (grammar.the kinds.Comma ⊳ grammar.Item) result self.entry.now self.exit.now }
    {
        self.expect(Fixed::Comma)?;
        self.read_item()
    }

    /// Takes items after the first ones, each with a comma before it.
    #[tactic(auto, using(prl_lex::proofs::Loops::loops, crate::proofs::Right::comma_item_steps))]
    fn more_items(&mut self, front: Vec<Item>) -> Result<Vec<Item>, Stop>
        ensures { Gives (λ x. (x.items, self.exit.now)) stop_of result (with_front front.items (read_at grammar.programs (many (grammar.the kinds.Comma ⊳ grammar.Item)) self.entry.now)) }
    {
        let mut items = front;
        'more: while self.next_is(Fixed::Comma) {
            items.push(self.comma_item()?)?;
        }
        Ok(items)
    }

    /// Takes names with their notes, with commas between.
    fn items(&mut self) -> Result<Vec<Item>, Stop>
        ensures { Parses (λ x. x.items) (combinators.list_of (grammar.the kinds.Comma) grammar.Item) result self.entry.now self.exit.now }
    {
        let first = self.read_item()?;
        let mut front = Vec::new(self.alloc);
        front.push(first)?;
        self.more_items(front)
    }
}

/// A name, with the note that stands after it.
#[derive(Drop)]
pub struct Item {
    pub name: Placed,
    pub note: Option<Note>,
}

fn param(name: Placed, note: &Option<Note>) -> Param
    ensures { result ≡ param_of name note.now }
{
    let Placed { name, at } = name;
    let (ty, rate, due) = match note {
        Some(note) => (note.ty, note.rate, note.due),
        None => (None, None, None),
    };
    Param {
        name,
        ty,
        rate,
        due,
        at,
    }
}

/// The note, or the later one where there is none.
fn note_or(note: Option<Note>, later: Option<Note>) -> Option<Note>
    ensures { result ≡ note_or note later }
{
    match note {
        Some(note) => Some(note),
        None => later,
    }
}

/// The items as parameters: one without a note has the note of the next one that has one.
fn params_of(alloc: Global, items: Vec<Item>) -> Result<Vec<Param>, AllocError>
    ensures { IfOk result (λ params. params.items ≡ params_of items.items) }
{
    let mut before = items;
    let mut note = None;
    let mut params = Vec::new(alloc);
    'each: while let Some(item) = before.pop() {
        note = note_or(item.note, note);
        params.push(param(item.name, &note))?;
    }
    params.reverse();
    Ok(params)
}

impl<'a> Parser<'a> {
    /// Takes names with notes, with commas between.
    #[tactic(auto, unfolding(crate::specs::Grammar::Run))]
    fn run(&mut self) -> Result<Vec<Param>, Stop>
        ensures { Parses (λ x. x.items) grammar.Run result self.entry.now self.exit.now }
    {
        let items = self.items()?;
        Ok(params_of(self.alloc, items)?)
    }

    fn semicolon_run(&mut self) -> Result<Vec<Param>, Stop>
        ensures { Parses (λ x. x.items) (grammar.the kinds.Semicolon ⊳ grammar.Run) result self.entry.now self.exit.now }
    {
        self.expect(Fixed::Semicolon)?;
        self.run()
    }

    /// Takes runs after the first ones, each with a semicolon before it.
    #[tactic(auto, using(crate::proofs::Loops::joined_loops, crate::proofs::Right::semicolon_run_steps))]
    fn more_runs(&mut self, front: Vec<Param>) -> Result<Vec<Param>, Stop>
        ensures { Gives (λ x. (x.items, self.exit.now)) stop_of result (with_joined front.items (read_at grammar.programs (many (grammar.the kinds.Semicolon ⊳ grammar.Run)) self.entry.now)) }
    {
        let mut params = front;
        'more: while self.next_is(Fixed::Semicolon) {
            let mut next = self.semicolon_run()?;
            params.append(&mut next)?;
        }
        Ok(params)
    }

    /// Takes parameters: runs with semicolons between.
    #[tactic(auto, unfolding(crate::specs::Grammar::Params))]
    fn params(&mut self) -> Result<Vec<Param>, Stop>
        ensures { Parses (λ x. x.items) grammar.Params result self.entry.now self.exit.now }
    {
        let first = self.run()?;
        self.more_runs(first)
    }

    fn closed_params(&mut self) -> Result<Vec<Param>, Stop>
        ensures { Parses (λ x. x.items) (grammar.closed grammar.Params) result self.entry.now self.exit.now }
    {
        let params = self.params()?;
        self.expect(Fixed::Close)?;
        Ok(params)
    }

    /// Takes parameters in parentheses.
    pub fn enclosed_params(&mut self) -> Result<Vec<Param>, Stop>
        ensures { Parses (λ x. x.items) (grammar.in_parens grammar.Params) result self.entry.now self.exit.now }
    {
        self.expect(Fixed::Open)?;
        self.closed_params()
    }

    /// Takes parameters in parentheses, or parentheses alone.
    pub fn maybe_params(&mut self) -> Result<Vec<Param>, Stop>
        ensures { Parses (λ x. x.items) (grammar.maybe_in_parens [] grammar.Params) result self.entry.now self.exit.now }
    {
        self.expect(Fixed::Open)?;
        if self.next_is(Fixed::Close) {
            self.expect(Fixed::Close)?;
            return Ok(Vec::new(self.alloc));
        }
        self.closed_params()
    }

    /// Takes a run and its semicolon.
    #[tactic(auto, unfolding(crate::specs::Grammar::EndedRun))]
    fn ended_run(&mut self) -> Result<Vec<Param>, Stop>
        ensures { Parses (λ x. x.items) grammar.EndedRun result self.entry.now self.exit.now }
    {
        let params = self.run()?;
        self.expect(Fixed::Semicolon)?;
        Ok(params)
    }

    /// Takes runs after the first ones, each with a semicolon after it.
    #[tactic(auto, using(crate::proofs::Loops::joined_loops, crate::proofs::Right::ended_run_steps), unfolding(crate::specs::Grammar::EndedRun, crate::specs::Grammar::Run, crate::specs::Grammar::Item, crate::specs::Grammar::Name))]
    fn more_ended_runs(&mut self, front: Vec<Param>) -> Result<Vec<Param>, Stop>
        ensures { Gives (λ x. (x.items, self.exit.now)) stop_of result (with_joined front.items (read_at grammar.programs (many grammar.EndedRun) self.entry.now)) }
    {
        let mut params = front;
        'more: while self.next_is_name() {
            let mut next = self.ended_run()?;
            params.append(&mut next)?;
        }
        Ok(params)
    }

    /// Takes the local variables, if there are any.
    #[tactic(auto, unfolding(crate::specs::Grammar::Locals))]
    pub fn maybe_locals(&mut self) -> Result<Vec<Param>, Stop>
        ensures { Parses (λ x. x.items) grammar.Locals result self.entry.now self.exit.now }
    {
        if self.next_is(Fixed::Var) {
            self.expect(Fixed::Var)?;
            let first = self.ended_run()?;
            return self.more_ended_runs(first);
        }
        Ok(Vec::new(self.alloc))
    }
}
