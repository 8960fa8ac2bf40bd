//! Laws of the clock calculus, as functions that do nothing: the contract of each is the law, over
//! the definitions alone.

ghost use Rattle.std.specs.Prelude.{◌≡◌, ◌≤◌, ◌↔◌, ℕ, List, Result, length, map};
ghost use Rattle.prl_base.specs.declared.operators.Clock.{Clock};
ghost use Rattle.prl_body.specs.declared.bodies.CheckedBody.{CheckedBody};
ghost use Rattle.prl_flow.specs.Vocabulary.{FlatProgram, IsFlat, Rows, AreClocks, IsSolution};
ghost use Rattle.prl_flow.specs.Vocabulary.{State, Timed};
ghost use Rattle.prl_clock.specs.Assignments.{MeetsAll};
ghost use Rattle.prl_clock.specs.Constraints.{constraints_of};
ghost use Rattle.prl_clock.specs.Outcomes.{AreOnlyClocks, IsOutcome};
ghost use Rattle.prl_clock.specs.declared.calculus.ClockFault.{ClockFault};
ghost use Rattle.prl_clock.specs.Whole.{ArePeriods, whole_assignment};

/// Whole clocks meet the constraints of a flat program exactly where they are clocks of its flows.
pub fn clocks_meet_constraints()
    ensures { (p : FlatProgram) → IsFlat p → (clocks : List Clock) (periods : ArePeriods clocks) → length clocks ≡ length p.flows
        → MeetsAll (whole_assignment clocks periods) (constraints_of p) ↔ AreClocks p clocks }
{}

/// The flows of each solution of a flat program have clocks of the program.
pub fn solutions_have_clocks()
    ensures { (p : FlatProgram) (bodies : List CheckedBody) (rows : Rows) (until : ℕ) (s : State) → IsSolution p bodies rows until s
        → AreClocks p (map (λ (f : Timed). f.clock) s.flows) }
{}

/// Where the constraints leave only one list of clocks, there are no others, and the flows of each
/// solution have these.
pub fn clocks_are_unique()
    ensures others { (p : FlatProgram) → IsFlat p → (clocks others : List Clock) → AreOnlyClocks p clocks → AreClocks p others → others ≡ clocks }
    ensures solutions { (p : FlatProgram) → IsFlat p → (clocks : List Clock) → AreOnlyClocks p clocks
        → (bodies : List CheckedBody) (rows : Rows) (until : ℕ) (s : State) → IsSolution p bodies rows until s
        → map (λ (f : Timed). f.clock) s.flows ≡ clocks }
{}

/// A flat program has its clocks or one fault, and no more than one of these.
pub fn outcomes_are_unique()
    ensures { (p : FlatProgram) → IsFlat p → (one other : Result (List Clock) ClockFault) → IsOutcome p one → IsOutcome p other → one ≡ other }
{}

/// And it has one of these.
pub fn programs_have_outcomes()
    ensures { (p : FlatProgram) → IsFlat p → (one : Result (List Clock) ClockFault) × IsOutcome p one }
{}
