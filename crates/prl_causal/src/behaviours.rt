//! Laws of annotated texts and of solutions, as functions that do nothing: the contract of each is the law, over the
//! definitions alone.

ghost use Rattle.std.specs.Prelude.{◌≡◌, ℕ, List, length, map};
ghost use Rattle.std.specs.List.{AllByRecursion, range_with_len};
ghost use Rattle.prl_base.specs.declared.numbers.FlowNo.{FlowNo};
ghost use Rattle.prl_base.specs.declared.operators.Clock.{Clock};
ghost use Rattle.prl_base.specs.declared.values.Value.{Value};
ghost use Rattle.prl_ast.specs.Trees.{ProgramTree};
ghost use Rattle.prl_body.specs.Bodies.{IsWellTyped};
ghost use Rattle.prl_body.specs.declared.bodies.CheckedBody.{CheckedBody};
ghost use Rattle.prl_flow.specs.Vocabulary.{HaveBodies, FlatProgram, IsFlat, Rows, mark_rule};
ghost use Rattle.prl_flow.specs.Vocabulary.{AreClocks, Solves, IsSolution, State, Timed, flow_at};
ghost use Rattle.prl_flow.specs.Vocabulary.{HasRows, IsOrder, registers_at};
ghost use Rattle.prl_causal.specs.Annotations.{Entered, flows_in, imports_in};
ghost use Rattle.prl_causal.specs.Asked.{program_rules};
ghost use Rattle.prl_causal.specs.Behaviours.{Behaviour, behaviour_of, state_in};
ghost use Rattle.prl_causal.specs.Texts.{IsText};
ghost use Rattle.prl_causal.specs.Conditions.{AreTyped, AreTypedRows, HaveTypedBodies, clocks_in, values_in};
ghost use Rattle.prl_causal.specs.Uniqueness.{ExactlyOne};

/// What a text asks for follows what stands at its places: with other things there, the same rules are asked of these.
pub fn rules_follow_marks()
    ensures { (s : State) (p : ProgramTree) (main : ℕ) (e : Entered ℕ ℕ ℕ)
        → program_rules p main (behaviour_of s e) ≡ map (mark_rule (flow_at s) (registers_at s)) (program_rules p main e) }
{}

/// A text has one shape: two behaviours of a node's text that have the same flows and registers, in order, are one.
pub fn texts_have_one_shape()
    ensures { (p : ProgramTree) (k : ℕ) (b c : Behaviour) → IsText p k b → IsText p k c
        → flows_in b ≡ flows_in c → imports_in b ≡ imports_in c → b ≡ c }
{}

/// A behaviour of a text is that text with the behaviour's own flows and registers at its places.
pub fn behaviours_are_of_their_states()
    ensures { (p : ProgramTree) (k : ℕ) (e : Entered ℕ ℕ ℕ) (b : Behaviour) → IsText p k e → IsText p k b
        → flows_in e ≡ range_with_len 0 (length (flows_in e)) → imports_in e ≡ range_with_len 0 (length (imports_in e)) → behaviour_of (state_in b) e ≡ b }
{}

/// And that text with flows and registers of any state at its places is one of the text, with these.
pub fn states_make_behaviours()
    ensures { (p : ProgramTree) (k : ℕ) (e : Entered ℕ ℕ ℕ) (s : State) → IsText p k e → flows_in e ≡ range_with_len 0 (length s.flows)
        → imports_in e ≡ range_with_len 0 (length s.registers) → IsText p k (behaviour_of s e) × (state_in (behaviour_of s e) ≡ s) }
{}

/// The clocks of a solution agree as a flat program asks of clocks, and its values are a solution over these clocks.
pub fn solutions_are_of_their_clocks()
    ensures { (p : FlatProgram) (bodies : List CheckedBody) (rows : Rows) (until : ℕ) (s : State) → IsFlat p → IsSolution p bodies rows until s
        → AreClocks p (map (λ (f : Timed). f.clock) s.flows)
        × Solves p (map (λ (f : Timed). f.clock) s.flows) bodies rows until (map (λ (f : Timed). f.values) s.flows) }
{}

/// And clocks that agree, with a solution over them for bodies that fit, are those of a solution whole.
pub fn solutions_over_clocks_are_whole()
    ensures { (p : FlatProgram) (clocks : List Clock) (bodies : List CheckedBody) (rows : Rows) (until : ℕ) (flows : List (List Value))
        → IsFlat p → AreClocks p clocks → HaveBodies p bodies → AllByRecursion IsWellTyped bodies → Solves p clocks bodies rows until flows
        → (s : State) × IsSolution p bodies rows until s × (map (λ (f : Timed). f.clock) s.flows ≡ clocks) × (map (λ (f : Timed). f.values) s.flows ≡ flows) }
{}

/// A program has exactly one solution over its clocks up to each date, where its flows have an
/// order of causality, its applications have bodies that fit, and its sensors have a row for each
/// date.
pub fn programs_have_one_solution()
    ensures { (p : FlatProgram) (clocks : List Clock) (order : List FlowNo) (bodies : List CheckedBody) (rows : Rows) (until : ℕ)
        → IsFlat p → AreClocks p clocks → IsOrder p order → HaveBodies p bodies → HaveTypedBodies p bodies → HasRows p clocks rows until
        → ExactlyOne (λ (s : State). IsSolution p bodies rows until s × (clocks_in s ≡ clocks)) }
{
    solutions_are_of_their_clocks();
    solutions_over_clocks_are_whole();
}

/// And where the rows of the sensors have the types of their flows, all values of a solution have
/// the types of theirs.
pub fn solutions_are_typed()
    ensures { (p : FlatProgram) (order : List FlowNo) (bodies : List CheckedBody) (rows : Rows) (until : ℕ) (s : State)
        → IsFlat p → IsOrder p order → HaveBodies p bodies → HaveTypedBodies p bodies → AreTypedRows p rows
        → IsSolution p bodies rows until s → AreTyped p (values_in s) }
{
    solutions_are_of_their_clocks();
}
