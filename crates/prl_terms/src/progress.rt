//! The rules met one by one, as they are made.

ghost use Rattle.std.specs.Prelude.{◌≡◌, ◌↔◌, true, ◌++◌, ◌∷◌, [], IsTrue, IfOk, OnOk, MatchResult};
ghost use Rattle.prl_terms.specs.Choices.{FitsTerm, FitsRule, FitRules};
ghost use Rattle.prl_terms.specs.Solutions.{AreTypes, Explains};
ghost use Rattle.prl_terms.specs.code.States.{IsOpen, HasState};

use crate::met_rules::MetRules;
use crate::solving::{Marks, Unsolved};
use crate::terms::{Rule, Term};
use prl_base::Ty;
use std::alloc::{AllocError, Global};
use std::marker::Model;

/// What came of the rules so far.
#[derive(Clone, Copy)]
pub(crate) enum State {
    /// The marks say what they leave.
    Open,
    /// The first rule that contradicts the earlier ones, which give its two sides these types.
    Refused { at: u32, wanted: Ty, found: Ty },
    /// Memory ran out.
    Lost,
}

/// The rules that were met, and what is known of so many parameters. Contracts see their number and the rules.
#[derive(Drop)]
pub struct Met {
    alloc: Global,
    count: usize,
    marks: Marks,
    state: State,
    rules: MetRules,
}

impl Model for Met {
    ghost use Rattle.prl_terms.specs.MetViews.{MetView};
    ghost use Rattle.prl_terms.specs.code.States.{HasState};

    ghost Value = { MetView };

    ghost view = { λ m. record { count = m.count; rules = m.rules.list } };

    ghost invariant = { λ m. HasState m.count m.rules.list m.marks m.state };
}

/// Whether the term speaks of one of so many parameters, or of none.
fn fits(term: Term, count: usize) -> bool
    ensures { IsTrue result ↔ FitsTerm count term }
{
    match term {
        Term::Known(_) => true,
        Term::Parameter(k) => k < count,
    }
}

/// Whether both sides of the rule do.
fn fits_rule(rule: Rule, count: usize) -> bool
    ensures { IsTrue result ↔ FitsRule count rule }
{
    fits(rule.wanted, count) && fits(rule.found, count)
}

/// Whether the two terms are the same.
fn is_same(a: Term, b: Term) -> bool
    ensures { result ≡ true → a ≡ b }
{
    a == b
}

/// What comes of one more rule, where the marks solve those before it.
fn meet(alloc: Global, marks: &mut Marks, count: usize, rules: &MetRules, rule: Rule) -> State
    requires { IsOpen count rules.now.list marks.old }
    ensures { HasState count (rules.now.list ++ rule ∷ []) marks.new result }
{
    if fits_rule(rule, count) {
        match marks.meet(alloc, rule) {
            Ok(()) => State::Open,
            Err(Unsolved::Mismatch { at, wanted, found }) => State::Refused { at, wanted, found },
            Err(Unsolved::Free(_)) => State::Lost,
            Err(Unsolved::Memory) => State::Lost,
        }
    } else {
        State::Open
    }
}

impl State {
    /// Whether the rules that came to this already give both sides of one more the same type.
    #[inline(always)]
    fn follows(self, marks: &Marks, count: usize, rules: &MetRules, rule: Rule) -> bool
        requires { HasState count rules.now.list marks.now self }
        ensures { result ≡ true → HasState count (rules.now.list ++ rule ∷ []) marks.now self }
    {
        if is_same(rule.wanted, rule.found) {
            return true;
        }
        match self {
            State::Open => {
                fits_rule(rule, count) && is_same(marks.mark(rule.wanted), marks.mark(rule.found))
            }
            State::Refused { .. } | State::Lost => false,
        }
    }

    /// What comes of one more rule after those that came to this.
    fn next(
        self,
        alloc: Global,
        marks: &mut Marks,
        count: usize,
        rules: &MetRules,
        rule: Rule,
    ) -> State
        requires { HasState count rules.now.list marks.old self }
        ensures { HasState count (rules.now.list ++ rule ∷ []) marks.new result }
    {
        match self {
            State::Open => meet(alloc, marks, count, rules, rule),
            State::Refused { at, wanted, found } => State::Refused { at, wanted, found },
            State::Lost => State::Lost,
        }
    }
}

impl Met {
    /// Of so many parameters, before any rule.
    pub fn new(alloc: Global, count: usize) -> Result<Met, AllocError>
        ensures count { IfOk result (λ m. m.count ≡ count) }
        ensures rules { IfOk result (λ m. m.rules ≡ []) }
    {
        Ok(Met {
            alloc,
            count,
            marks: Marks::new(alloc, count)?,
            state: State::Open,
            rules: MetRules::new(),
        })
    }

    /// Meets one more rule. One that follows from those before it says nothing.
    #[inline(always)]
    pub fn add(&mut self, rule: Rule) -> Result<(), AllocError>
        ensures count { OnOk result (self.new.count ≡ self.old.count) }
        ensures rules { OnOk result (self.new.rules ≡ self.old.rules ++ rule ∷ []) }
    {
        if self
            .state
            .follows(&self.marks, self.count, &self.rules, rule)
        {
            self.rules = MetRules::one_more(&self.rules, &rule);
            Ok(())
        } else {
            self.learn(rule)
        }
    }

    /// Meets one more rule, which may say something.
    #[inline(never)]
    fn learn(&mut self, rule: Rule) -> Result<(), AllocError>
        ensures count { OnOk result (self.new.count ≡ self.old.count) }
        ensures rules { OnOk result (self.new.rules ≡ self.old.rules ++ rule ∷ []) }
    {
        let state = self
            .state
            .next(self.alloc, &mut self.marks, self.count, &self.rules, rule);
        self.state = state;
        self.rules = MetRules::one_more(&self.rules, &rule);
        match state {
            State::Open | State::Refused { .. } => Ok(()),
            State::Lost => Err(AllocError),
        }
    }

    /// The types of the parameters that the rules leave.
    pub fn types(self) -> Result<Vec<Ty>, Unsolved>
        requires { FitRules self.count self.rules }
        ensures { MatchResult result (λ types. AreTypes self.rules self.count types.items) (Explains self.rules self.count) }
    {
        let Met {
            alloc,
            marks,
            state,
            ..
        } = self;
        match state {
            State::Open => marks.types(alloc),
            State::Refused { at, wanted, found } => Err(Unsolved::Mismatch { at, wanted, found }),
            State::Lost => Err(Unsolved::Memory),
        }
    }
}
