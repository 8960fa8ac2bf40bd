//! The types that rules leave to parameters.

ghost use Rattle.std.specs.Prelude.{◌≡◌, ◌≢◌, ◌<◌, ℕ, ◌++◌, ◌∷◌, [], length, map, slice_index_or, IfOk, IfErr, MatchResult, List};
ghost use Rattle.prl_terms.specs.declared.terms.Rule.{Rule as RuleOf};
ghost use Rattle.prl_terms.specs.declared.terms.Term.TheVariants as terms;
ghost use Rattle.prl_terms.specs.Choices.{FitsTerm, FitsRule};
ghost use Rattle.prl_terms.specs.Solutions.{AreTypes, Explains};
ghost use Rattle.prl_terms.specs.code.Marks.{mark_of, resolved, added, IsKept, IsReplaced, IsApart, AreApart, AreJoined, Solves, Refuses};
ghost use Rattle.prl_terms.specs.declared.solving.Unsolved.TheVariants as unsolved;

use crate::terms::{Rule, Term};
use prl_base::Ty;
use std::alloc::{AllocError, Global};
use std::mem;

/// Why rules leave no types.
#[derive(Clone, Copy)]
pub enum Unsolved {
    /// The rule contradicts the earlier ones, which give its two sides these types.
    Mismatch { at: u32, wanted: Ty, found: Ty },
    /// The rules leave the type of this parameter open.
    Free(usize),
    Memory,
}

/// What the rules so far say. Each parameter is marked with its type or with the one parameter that stands for all
/// whose type is the same.
#[derive(Drop)]
pub(crate) struct Marks {
    marks: Vec<Term>,
    /// The parameters with this mark.
    members: Vec<Vec<usize>>,
}

/// Marks the members.
fn relabel(marks: &mut Vec<Term>, members: &[usize], by: Term)
    requires { (i : ℕ) → i < length members.now → slice_index_or members.now i 0 < length marks.old.items }
    ensures count { length marks.new.items ≡ length marks.old.items }
    ensures members { (i : ℕ) → i < length members.now → mark_of marks.new.items (slice_index_or members.now i 0) ≡ by }
    ensures others { (k : ℕ) → ((i : ℕ) → i < length members.now → slice_index_or members.now i 0 ≢ k) → mark_of marks.new.items k ≡ mark_of marks.old.items k }
{
    for k in members {
        marks[*k] = by;
    }
}

/// Adds the members to the class that the term names, if it names one.
fn add_members(members: &mut Vec<Vec<usize>>, to: Term, moved: &[usize]) -> Result<(), AllocError>
    requires { FitsTerm (length members.old.items) to }
    ensures { IfOk result (λ _. map (λ c. c.items) members.new.items ≡ added to moved.now (map (λ c. c.items) members.old.items)) }
{
    if let Term::Parameter(b) = to {
        members[b].extend_from_slice(moved)?;
    }
    Ok(())
}

impl Marks {
    /// Each parameter stands for itself.
    pub(crate) fn new(alloc: Global, count: usize) -> Result<Marks, AllocError>
        ensures count { IfOk result (λ m. length m.marks.items ≡ count) }
        ensures kept { IfOk result (λ m. IsKept m) }
        ensures solves { IfOk result (λ m. Solves [] m.marks.items) }
    {
        let mut marks = Vec::new(alloc);
        let mut members = Vec::new(alloc);
        for k in 0..count {
            marks.push(Term::Parameter(k))?;
            members.push(Vec::from_slice(alloc, &[k])?)?;
        }
        Ok(Marks { marks, members })
    }

    /// What the rules say of the term.
    #[inline(always)]
    pub(crate) fn mark(&self, term: Term) -> Term
        requires { FitsTerm (length self.now.marks.items) term }
        ensures { result ≡ resolved self.now.marks.items term }
    {
        match term {
            Term::Known(ty) => Term::Known(ty),
            Term::Parameter(k) => self.marks[k],
        }
    }

    /// Puts the term in place of the parameter `a`, for which the rules leave any type, in all marks.
    fn join(&mut self, alloc: Global, a: usize, by: Term) -> Result<(), Unsolved>
        requires kept { IsKept self.old }
        requires apart { IsApart a by self.old.marks.items }
        ensures kept { IfOk result (λ _. IsKept self.new) }
        ensures replaced { IfOk result (λ _. IsReplaced a by self.old.marks.items self.new.marks.items) }
        ensures memory { IfErr result (λ e. e ≡ unsolved.Memory) }
    {
        let members = mem::replace(&mut self.members[a], Vec::new(alloc));
        relabel(&mut self.marks, members.as_slice(), by);
        match add_members(&mut self.members, by, members.as_slice()) {
            Ok(()) => Ok(()),
            Err(_) => Err(Unsolved::Memory),
        }
    }
}

/// The two types are to be equal.
fn equal(at: u32, wanted: Ty, found: Ty) -> Result<(), Unsolved>
    ensures same { IfOk result (λ _. wanted ≡ found) }
    ensures other { IfErr result (λ e. (wanted ≢ found) × (e ≡ unsolved.Mismatch at wanted found)) }
{
    if wanted == found {
        Ok(())
    } else {
        Err(Unsolved::Mismatch { at, wanted, found })
    }
}

impl Marks {
    /// Makes one class of the two, which differ. The smaller one is marked anew, so that no parameter is marked
    /// more often than the number of all parameters can be halved.
    fn join_classes(&mut self, alloc: Global, a: usize, b: usize) -> Result<(), Unsolved>
        requires kept { IsKept self.old }
        requires apart { AreApart a b self.old.marks.items }
        ensures kept { IfOk result (λ _. IsKept self.new) }
        ensures joined { IfOk result (λ _. AreJoined a b self.old.marks.items self.new.marks.items) }
        ensures memory { IfErr result (λ e. e ≡ unsolved.Memory) }
    {
        if self.members[a].len() < self.members[b].len() {
            self.join(alloc, a, Term::Parameter(b))
        } else {
            self.join(alloc, b, Term::Parameter(a))
        }
    }

    /// Takes one more rule.
    pub(crate) fn meet(&mut self, alloc: Global, rule: Rule) -> Result<(), Unsolved>
        requires kept { IsKept self.old }
        requires fits { FitsRule (length self.old.marks.items) rule }
        ensures count { IfOk result (λ _. length self.new.marks.items ≡ length self.old.marks.items) }
        ensures kept { IfOk result (λ _. IsKept self.new) }
        ensures meets { (rules : List RuleOf) → Solves rules self.old.marks.items
            → MatchResult result (λ _. Solves (rules ++ rule ∷ []) self.new.marks.items) (Refuses rules rule) }
    {
        match (self.mark(rule.wanted), self.mark(rule.found)) {
            (Term::Known(wanted), Term::Known(found)) => equal(rule.at, wanted, found),
            (Term::Known(ty), Term::Parameter(a)) => self.join(alloc, a, Term::Known(ty)),
            (Term::Parameter(a), Term::Known(ty)) => self.join(alloc, a, Term::Known(ty)),
            (Term::Parameter(a), Term::Parameter(b)) => {
                if a == b {
                    Ok(())
                } else {
                    self.join_classes(alloc, a, b)
                }
            }
        }
    }
}

impl Marks {
    /// The types of all parameters, if none is open.
    pub(crate) fn types(&self, alloc: Global) -> Result<Vec<Ty>, Unsolved>
        requires { IsKept self.now }
        ensures { (rules : List RuleOf) → Solves rules self.now.marks.items
            → MatchResult result (λ types. AreTypes rules (length self.now.marks.items) types.items) (Explains rules (length self.now.marks.items)) }
    {
        let mut types = Vec::new(alloc);
        for (k, mark) in self.marks.iter().enumerate() {
            match mark {
                Term::Known(ty) => {
                    if types.push(*ty).is_err() {
                        return Err(Unsolved::Memory);
                    }
                }
                Term::Parameter(_) => return Err(Unsolved::Free(k)),
            }
        }
        Ok(types)
    }
}
