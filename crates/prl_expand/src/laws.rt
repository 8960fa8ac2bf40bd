//! Laws of expansions and of what programs mean, as functions that do nothing: the contract of each is the law, over the
//! definitions alone.

ghost use Rattle.std.specs.Prelude.{◌≡◌, ◌≤◌, ℕ, false, List, Option, length};
ghost use Rattle.prl_ast.specs.Vocabulary.{IsInRange, ProgramTree};
ghost use Rattle.prl_base.specs.declared.numbers.FlowNo.{FlowNo};
ghost use Rattle.prl_base.specs.declared.operators.Clock.{Clock};
ghost use Rattle.prl_base.specs.declared.values.Ty.{Ty};
ghost use Rattle.prl_causal.specs.Vocabulary.{flows_in, Satisfies, state_in};
ghost use Rattle.prl_body.specs.Used.{HaveBodiesOf};
ghost use Rattle.prl_body.specs.declared.bodies.CheckedBody.{CheckedBody};
ghost use Rattle.prl_expand.specs.Clocks.{AreOnlyClocks};
ghost use Rattle.prl_expand.specs.Correspondence.{IsOneToOne};
ghost use Rattle.prl_expand.specs.Cycles.{PassesName};
ghost use Rattle.prl_expand.specs.Expansions.{Expansion, IsExpansion};
ghost use Rattle.prl_expand.specs.Flats.{flat_of};
ghost use Rattle.prl_flow.specs.Vocabulary.{HaveBodies, IsFlat, FlatProgram, Rows, AreClocks};
ghost use Rattle.prl_flow.specs.Vocabulary.{HasRows, IsSolution, IsCycleLabel, IsOrder, Leads};
ghost use Rattle.prl_flow.specs.Vocabulary.{UsesInside, UsesNow, is_made};
ghost use Rattle.prl_names.specs.Uses.{used_imports};
ghost use Rattle.prl_causal.specs.Vocabulary.{HaveTypedBodies, ExactlyOne};
ghost use Rattle.prl_types.specs.Typing.{IsTyped};

use prl_causal::{programs_have_one_solution, solutions_are_of_their_clocks};

/// The behaviours of a program are the solutions of the flat program of its expansion, for all bodies, sensor rows and dates.
pub fn behaviours_are_solutions()
    ensures { (p : ProgramTree) (asked : Option (List ℕ)) (main : ℕ) (types : List Ty) (e : Expansion) → IsTyped p asked main types → IsExpansion p main e
        → (bodies : List CheckedBody) (rows : Rows) (until : ℕ)
        → IsOneToOne (Satisfies p main bodies rows until) (IsSolution (flat_of p types main e) bodies rows until) state_in }
{}

/// A program whose names and types are right has an expansion.
pub fn programs_have_expansions()
    ensures { (p : ProgramTree) (asked : Option (List ℕ)) (main : ℕ) (types : List Ty) → IsTyped p asked main types → (e : Expansion) × IsExpansion p main e }
{}

/// And no other one.
pub fn expansions_are_unique()
    ensures { (p : ProgramTree) (main : ℕ) (one other : Expansion) → IsExpansion p main one → IsExpansion p main other → one ≡ other }
{}

/// The flat program of an expansion is well formed, where the program is in range and has at most 4,096 flows.
pub fn flats_are_well_formed()
    ensures { (p : ProgramTree) (asked : Option (List ℕ)) (main : ℕ) (types : List Ty) (e : Expansion) → IsInRange p → IsTyped p asked main types
        → IsExpansion p main e → length (flows_in e) ≤ 4096 → IsFlat (flat_of p types main e) }
{}

/// Each cycle of its flows passes through a flow with a name of the program, so the label that tells of a cycle is a name.
pub fn cycles_have_names()
    ensures now { (p : ProgramTree) (asked : Option (List ℕ)) (main : ℕ) (types : List Ty) (e : Expansion) → IsInRange p → IsTyped p asked main types
        → IsExpansion p main e → (i : ℕ) (way : Leads (UsesNow (flat_of p types main e)) i i) → PassesName (flat_of p types main e) way }
    ensures inside { (p : ProgramTree) (asked : Option (List ℕ)) (main : ℕ) (types : List Ty) (e : Expansion) → IsInRange p → IsTyped p asked main types
        → IsExpansion p main e → (i : ℕ) (way : Leads (UsesInside (flat_of p types main e)) i i) → PassesName (flat_of p types main e) way }
    ensures label { (p : ProgramTree) (asked : Option (List ℕ)) (main : ℕ) (types : List Ty) (e : Expansion) → IsInRange p → IsTyped p asked main types
        → IsExpansion p main e → (label : List ℕ) → IsCycleLabel (flat_of p types main e) label → is_made label ≡ false }
{}

/// Over bodies of the imports that main's expansion applies, each application of the flat program has a body that fits.
pub fn expansions_have_bodies()
    ensures { (p : ProgramTree) (asked : Option (List ℕ)) (main : ℕ) (types : List Ty) (e : Expansion) → IsInRange p → IsTyped p asked main types
        → IsExpansion p main e → (bodies : List CheckedBody) → HaveBodiesOf p.imports (used_imports p main) bodies → HaveBodies (flat_of p types main e) bodies }
{}

/// Exactly one behaviour satisfies a program up to each date, where its expansion has only these
/// clocks and an order of causality, the applications have bodies that fit, and the sensors have
/// a row for each date.
pub fn programs_have_one_behaviour()
    ensures { (p : ProgramTree) (asked : Option (List ℕ)) (main : ℕ) (types : List Ty) (e : Expansion) → IsTyped p asked main types → IsExpansion p main e
        → (clocks : List Clock) (order : List FlowNo) (bodies : List CheckedBody) (rows : Rows) (until : ℕ)
        → IsFlat (flat_of p types main e) → AreOnlyClocks (flat_of p types main e) clocks → IsOrder (flat_of p types main e) order
        → HaveBodies (flat_of p types main e) bodies → HaveTypedBodies (flat_of p types main e) bodies → HasRows (flat_of p types main e) clocks rows until
        → ExactlyOne (Satisfies p main bodies rows until) }
{
    behaviours_are_solutions();
    programs_have_one_solution();
}

/// The only clocks that meet a program's rules are those of all its solutions.
pub fn clocks_of_solutions_are_the_only()
    ensures { (p : FlatProgram) (clocks : List Clock) → IsFlat p → AreClocks p clocks → ((other : List Clock) → AreClocks p other → other ≡ clocks)
        → AreOnlyClocks p clocks }
{
    solutions_are_of_their_clocks();
}
