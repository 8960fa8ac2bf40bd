//! What each kind of step does to words, views and the list of events, as functions that do
//! nothing: the contract of each is the law. Before its step, a task's seat may have read constants,
//! each of which is an act of the task.

ghost use Rattle.std.specs.Prelude.{◌≡◌, ◌≢◌, ◌==◌, if◌then◌else◌, ◌+◌, ◌/◌, ◌%◌, ◌^◌, ◌<◌, ◌≤◌, ◌⊎◌, ℕ, List, [], ◌∷◌, ◌++◌, length, replicate, slice_index, slice_set, Bool, false, true, Some};
ghost use mathlib.Core.Option.{some};
ghost use lib.ListN.{get_elem?};
ghost use Rattle.prl_base.specs.Values.{FitsValue};
ghost use Rattle.prl_base.specs.declared.numbers.EdgeNo.{EdgeNo};
ghost use Rattle.prl_plan.specs.declared.events.Action.TheVariants as actions;
ghost use Rattle.prl_plan.specs.Vocabulary.{HasPlanFacts, IsJob, ReadsAt, WritesAt, IsHorizon};
ghost use Rattle.prl_plan.specs.Vocabulary.{IsWriter, last_tag, IsPlan, RunConstants};
ghost use Rattle.prl_plan.specs.declared.events.Event.{Event};
ghost use Rattle.prl_plan.specs.declared.events.Event.TheVariants as events;
ghost use Rattle.prl_rule.specs.declared.views.Constants.{Constants};
ghost use Rattle.prl_rule.specs.declared.views.Gate.TheVariants as gates;
ghost use Rattle.prl_rule.specs.declared.views.ClockPart.{ClockPart};
ghost use Rattle.prl_rule.specs.declared.views.TaskPart.{TaskPart};
ghost use Rattle.prl_rule.specs.declared.views.View.{View};
ghost use Rattle.prl_rule.specs.Halves.{value_of_halves};
ghost use Rattle.prl_rule.specs.RunValues.{RunValues, HasValueFacts, half_of, word_of};
ghost use Rattle.prl_rule.specs.Agreement.{now_word, done_word, slot_word, stop_word, word_count, AgreesClock, AgreesTask, IsOverrun, Witness};
ghost use Rattle.prl_rule.specs.Known.{run_of, values_of};
ghost use Rattle.prl_rule.specs.Rule.{Agreed, AgreesWith, HasClock, HasPart, StandsAt, all_parts, first_view, first_witness, reached};
ghost use Rattle.prl_rule.specs.Told.{IsReadBy};
ghost use Rattle.prl_rule.specs.Steps.{HasRead, acts, bare, caught_up, clock_stop_loaded, done_counted, given_to, half_loaded, half_stored, joined, looked, now_loaded, only_part, part_raised, raised_by, spent, stop_loaded, taken_in, ticked, with_clock, with_part, without_part};

use crate::laws::plan_laws;

/// At the opening every word is 0, and the one seat has all parts.
pub fn rule_holds_at_the_opening()
    ensures agrees { (k : Constants) (c : RunConstants) (v : RunValues) → HasPlanFacts c →
        HasValueFacts c v → (words : List ℕ) → words ≡ replicate (word_count c) 0 →
        AgreesWith k c v first_witness [] words (first_view k c v ∷ []) }
    ensures board { (k : Constants) → HasPlanFacts (run_of k) → HasValueFacts (run_of k) (values_of k) →
        (words : List ℕ) → words ≡ replicate (word_count (run_of k)) 0 →
        Agreed k (record { words = words; homes = []; views = all_parts k ∷ [] }) }
{}

/// A load of `now` by a seat whose task has no open job is no event. The next job opens where it is
/// one of the horizon and the loaded `now` has reached its release. What is loaded is no less than
/// what was loaded before and at most the end, and is the clock's `now` where the view has that too.
pub fn load_of_now_opens_a_job()
    ensures keeps { (k : Constants) (c : RunConstants) (v : RunValues) (w : Witness) (es : List Event)
        (words : List ℕ) (views : List View) (id i : ℕ) (view : View) (p : TaskPart) →
        AgreesWith k c v w es words views → HasPart views id i view p → p.stand.is_open ≡ false →
        AgreesWith k c v w es words
        (slice_set views id (with_part i (now_loaded c i (slice_index words now_word) p) view)) }
    ensures rises { (k : Constants) (c : RunConstants) (v : RunValues) (w : Witness) (es : List Event)
        (words : List ℕ) (views : List View) (id i : ℕ) (view : View) (p : TaskPart) →
        AgreesWith k c v w es words views → HasPart views id i view p →
        p.stand.now ≤ slice_index words now_word }
    ensures within { (k : Constants) (c : RunConstants) (v : RunValues) (w : Witness) (es : List Event)
        (words : List ℕ) (views : List View) → AgreesWith k c v w es words views →
        slice_index words now_word ≤ c.end }
    ensures own { (k : Constants) (c : RunConstants) (v : RunValues) (w : Witness) (es : List Event)
        (words : List ℕ) (views : List View) (id : ℕ) (view : View) (r : ClockPart) →
        AgreesWith k c v w es words views → HasClock views id view r →
        slice_index words now_word ≡ r.now }
{}

/// A load of a half is the read of this half where it finds the wanted tag, and else no event. What
/// it finds has a tag of an instance that a horizon job writes there, with this half of its value; a
/// high half with the wanted tag completes the value of exactly the wanted instance.
pub fn load_of_half_is_a_read()
    ensures keeps { (k : Constants) (c : RunConstants) (v : RunValues) (w : Witness) (es : List Event)
        (words : List ℕ) (views : List View) (id i count port : ℕ) (e : EdgeNo) (m h : ℕ) (view : View) (p : TaskPart) →
        AgreesWith k c v w es words views → HasPart views id i view p → HasRead c i p count →
        StandsAt c i (caught_up c v i count p).stand (actions.Read port e m (record { 0 = h })) →
        AgreesWith k c v w (es ++ (acts i count ++ (if slice_index words (slot_word c h) / 2 ^ 32 == m + 1 then acts i 1 else []))) words
        (slice_set views id (with_part i (half_loaded c v i h (m + 1) (slice_index words (slot_word c h)) (caught_up c v i count p)) view)) }
    ensures found { (k : Constants) (c : RunConstants) (v : RunValues) (w : Witness) (es : List Event)
        (words : List ℕ) (views : List View) (h : ℕ) → AgreesWith k c v w es words views → h < c.slots →
        slice_index words (slot_word c h) ≡ word_of v h (slice_index words (slot_word c h) / 2 ^ 32) }
    ensures half { (k : Constants) (c : RunConstants) (v : RunValues) (w : Witness) (es : List Event)
        (words : List ℕ) (views : List View) (h m : ℕ) → AgreesWith k c v w es words views → h < c.slots →
        slice_index words (slot_word c h) / 2 ^ 32 ≡ m + 1 →
        (slice_index words (slot_word c h) % 2 ^ 32 ≡ half_of v h m) × FitsValue (v.stored (h / 2) m) }
    ensures value { (k : Constants) (c : RunConstants) (v : RunValues) (w : Witness) (es : List Event)
        (words : List ℕ) (views : List View) (id i count port : ℕ) (e : EdgeNo) (m h : ℕ) (view : View) (p : TaskPart) →
        AgreesWith k c v w es words views → HasPart views id i view p → HasRead c i p count →
        StandsAt c i (caught_up c v i count p).stand (actions.Read port e m (record { 0 = h })) →
        slice_index words (slot_word c h) / 2 ^ 32 ≡ m + 1 → h % 2 ≡ 1 →
        value_of_halves (v.types e.0) p.kept.low (slice_index words (slot_word c h) % 2 ^ 32) ≡ v.stored (h / 2) m }
    ensures written { (k : Constants) (c : RunConstants) (v : RunValues) (w : Witness) (es : List Event)
        (words : List ℕ) (views : List View) (h m : ℕ) → AgreesWith k c v w es words views → h < c.slots →
        slice_index words (slot_word c h) / 2 ^ 32 ≡ m + 1 →
        (i : ℕ) × (n : ℕ) × (place : ℕ) × WritesAt c i n place m h }
    ensures own { (k : Constants) (c : RunConstants) (v : RunValues) (w : Witness) (es : List Event)
        (words : List ℕ) (views : List View) (id i h : ℕ) (view : View) (p : TaskPart) →
        AgreesWith k c v w es words views → HasPart views id i view p → IsWriter c i h → h < c.slots →
        slice_index words (slot_word c h) ≡ word_of v h (last_tag c i h p.stand.ended p.stand.place) }
{
    plan_laws();
}

/// On a gated board no load of a half finds a later tag than the wanted one.
pub fn gated_read_is_never_overrun()
    ensures { (k : Constants) (c : RunConstants) (v : RunValues) (w : Witness) (es : List Event)
        (words : List ℕ) (views : List View) (id i count port : ℕ) (e : EdgeNo) (m h : ℕ) (view : View) (p : TaskPart) →
        AgreesWith k c v w es words views → k.gate ≡ gates.Gated → HasPart views id i view p → HasRead c i p count →
        StandsAt c i (caught_up c v i count p).stand (actions.Read port e m (record { 0 = h })) →
        slice_index words (slot_word c h) / 2 ^ 32 ≤ m + 1 }
{
    plan_laws();
}

/// A store of a half, of an instance of 64 bits, is the write of this half. It replaces nothing, or
/// an instance whose readers, of the horizon or not, are all due by the `now` that the seat has
/// loaded; `replaces` says so of horizon readers over any constants.
pub fn store_of_half_is_a_write()
    ensures keeps { (k : Constants) (c : RunConstants) (v : RunValues) (w : Witness) (es : List Event)
        (words : List ℕ) (views : List View) (id i count : ℕ) (e : EdgeNo) (m h : ℕ) (view : View) (p : TaskPart) →
        AgreesWith k c v w es words views → HasPart views id i view p → HasRead c i p count →
        StandsAt c i (caught_up c v i count p).stand (actions.Write e m (record { 0 = h })) →
        FitsValue (v.stored (h / 2) m) →
        AgreesWith k c v w (es ++ (acts i count ++ acts i 1)) (slice_set words (slot_word c h) (word_of v h (m + 1)))
        (slice_set views id (with_part i (half_stored c v i (caught_up c v i count p)) view)) }
    ensures replaces { (k : Constants) (c : RunConstants) (v : RunValues) (w : Witness) (es : List Event)
        (words : List ℕ) (views : List View) (id i count : ℕ) (e : EdgeNo) (m h : ℕ) (view : View) (p : TaskPart) →
        AgreesWith k c v w es words views → HasPart views id i view p → HasRead c i p count →
        StandsAt c i (caught_up c v i count p).stand (actions.Write e m (record { 0 = h })) →
        (j n place l : ℕ) → ReadsAt c j n place l h → slice_index words (slot_word c h) / 2 ^ 32 ≡ l + 1 →
        c.deadline j n ≤ p.stand.now }
    ensures over { (k : Constants) (v : RunValues) (w : Witness) (es : List Event)
        (words : List ℕ) (views : List View) (id i count : ℕ) (e : EdgeNo) (m h : ℕ) (view : View) (p : TaskPart) →
        IsPlan k.plan → IsHorizon k.plan k.horizon →
        AgreesWith k (run_of k) v w es words views → HasPart views id i view p → HasRead (run_of k) i p count →
        StandsAt (run_of k) i (caught_up (run_of k) v i count p).stand (actions.Write e m (record { 0 = h })) →
        (l : ℕ) → slice_index words (slot_word (run_of k) h) / 2 ^ 32 ≡ l + 1 → IsReadBy k.plan e.0 l p.stand.now }
{
    plan_laws();
}

/// A store of a done word is the end of the open job.
pub fn store_of_done_is_an_end()
    ensures { (k : Constants) (c : RunConstants) (v : RunValues) (w : Witness) (es : List Event)
        (words : List ℕ) (views : List View) (id i count : ℕ) (view : View) (p : TaskPart) →
        AgreesWith k c v w es words views → HasPart views id i view p → HasRead c i p count →
        StandsAt c i (caught_up c v i count p).stand actions.End →
        AgreesWith k c v w (es ++ (acts i count ++ acts i 1)) (slice_set words (done_word i) (p.stand.ended + 1))
        (slice_set views id (with_part i (done_counted v i (caught_up c v i count p)) view)) }
{
    plan_laws();
}

/// A store of `now` is a tick: before the end, and on a gated board where each horizon job that is
/// due by it has a number below the kept look of its task.
pub fn store_of_now_is_a_tick()
    ensures { (k : Constants) (c : RunConstants) (v : RunValues) (w : Witness) (es : List Event)
        (words : List ℕ) (views : List View) (id : ℕ) (view : View) (r : ClockPart) →
        AgreesWith k c v w es words views → HasClock views id view r → r.now < c.end →
        (k.gate ≡ gates.Gated → (i n : ℕ) → IsJob c i n → c.deadline i n ≤ r.now + 1 → n < slice_index r.looks i) →
        AgreesWith k c v w (es ++ events.Tick ∷ []) (slice_set words now_word (r.now + 1))
        (slice_set views id (with_clock (ticked r) view)) }
{
    plan_laws();
}

/// A load of a done word is no event. What it finds is the number of the task's ended jobs, where
/// the view has that part too.
pub fn load_of_done_is_kept()
    ensures keeps { (k : Constants) (c : RunConstants) (v : RunValues) (w : Witness) (es : List Event)
        (words : List ℕ) (views : List View) (id i : ℕ) (view : View) (r : ClockPart) →
        AgreesWith k c v w es words views → HasClock views id view r → i < c.tasks →
        AgreesWith k c v w es words
        (slice_set views id (with_clock (looked i (slice_index words (done_word i)) r) view)) }
    ensures own { (k : Constants) (c : RunConstants) (v : RunValues) (w : Witness) (es : List Event)
        (words : List ℕ) (views : List View) (id i : ℕ) (view : View) (p : TaskPart) →
        AgreesWith k c v w es words views → HasPart views id i view p →
        slice_index words (done_word i) ≡ p.stand.ended }
{}

/// A raise is no event. It comes from a seat that wants to read a half and has loaded a tag of it
/// past the one that it wants; on a gated board no seat ever does.
pub fn raise_is_no_event()
    ensures keeps { (k : Constants) (c : RunConstants) (v : RunValues) (w : Witness) (es : List Event)
        (words : List ℕ) (views : List View) (id i count : ℕ) (view : View) (p : TaskPart) →
        AgreesWith k c v w es words views → HasPart views id i view p → HasRead c i p count →
        IsOverrun c i (caught_up c v i count p).stand p.kept →
        AgreesWith k c v (raised_by i w) (es ++ acts i count) (slice_set words (stop_word c) (i + 1))
        (slice_set views id (with_part i (part_raised (caught_up c v i count p)) view)) }
    ensures gated { (k : Constants) (c : RunConstants) (v : RunValues) (w : Witness) (es : List Event)
        (words : List ℕ) (views : List View) (id i count : ℕ) (view : View) (p : TaskPart) →
        AgreesWith k c v w es words views → k.gate ≡ gates.Gated → HasPart views id i view p →
        HasRead c i p count → IsOverrun c i (caught_up c v i count p).stand p.kept → ⊥ }
{
    plan_laws();
}

/// A load of the stop word is no event. It finds 0 on a gated board, never 0 where the view has a
/// part that has raised, and else the number after that of a task that has raised.
pub fn load_of_stop_is_kept()
    ensures keeps { (k : Constants) (c : RunConstants) (v : RunValues) (w : Witness) (es : List Event)
        (words : List ℕ) (views : List View) (id i count : ℕ) (view : View) (p : TaskPart) →
        AgreesWith k c v w es words views → HasPart views id i view p → HasRead c i p count →
        AgreesWith k c v w (es ++ acts i count) words
        (slice_set views id (with_part i (stop_loaded (slice_index words (stop_word c)) (caught_up c v i count p)) view)) }
    ensures clock { (k : Constants) (c : RunConstants) (v : RunValues) (w : Witness) (es : List Event)
        (words : List ℕ) (views : List View) (id : ℕ) (view : View) (r : ClockPart) →
        AgreesWith k c v w es words views → HasClock views id view r →
        AgreesWith k c v w es words
        (slice_set views id (with_clock (clock_stop_loaded (slice_index words (stop_word c)) r) view)) }
    ensures own { (k : Constants) (c : RunConstants) (v : RunValues) (w : Witness) (es : List Event)
        (words : List ℕ) (views : List View) (id i : ℕ) (view : View) (p : TaskPart) →
        AgreesWith k c v w es words views → HasPart views id i view p → p.stop.raised ≡ true →
        slice_index words (stop_word c) ≢ 0 }
    ensures gated { (k : Constants) (c : RunConstants) (v : RunValues) (w : Witness) (es : List Event)
        (words : List ℕ) (views : List View) → AgreesWith k c v w es words views → k.gate ≡ gates.Gated →
        slice_index words (stop_word c) ≡ 0 }
    ensures named { (k : Constants) (c : RunConstants) (v : RunValues) (w : Witness) (es : List Event)
        (words : List ℕ) (views : List View) → AgreesWith k c v w es words views →
        slice_index words (stop_word c) ≢ 0 →
        (j : ℕ) × (j < c.tasks) × (slice_index words (stop_word c) ≡ j + 1) × (w.raised j ≡ true) }
{
    plan_laws();
}

/// A split is no event: the part of a task goes to a new seat.
pub fn split_gives_one_part()
    ensures { (k : Constants) (c : RunConstants) (v : RunValues) (w : Witness) (es : List Event)
        (words : List ℕ) (views : List View) (id i : ℕ) (view : View) (p : TaskPart) →
        AgreesWith k c v w es words views → HasPart views id i view p →
        AgreesWith k c v (given_to i (length views) w) es words
        (slice_set views id (without_part i view) ++ only_part i view ∷ []) }
{}

/// A join is no event: a seat that is not spent takes in all parts of another, which is spent then.
/// No part is lost, since no part stands in two views.
pub fn join_takes_all_parts()
    ensures keeps { (k : Constants) (c : RunConstants) (v : RunValues) (w : Witness) (es : List Event)
        (words : List ℕ) (views : List View) (id other : ℕ) (view theirs : View) →
        AgreesWith k c v w es words views → get_elem? views id ≡ some view → (other ≡ id → ⊥) →
        get_elem? views other ≡ some theirs → view.constants ≡ Some k →
        AgreesWith k c v (taken_in id other w) es words
        (slice_set (slice_set views id (joined view theirs)) other spent) }
    ensures tasks { (k : Constants) (c : RunConstants) (v : RunValues) (w : Witness) (es : List Event)
        (words : List ℕ) (views : List View) (id other i : ℕ) (view theirs : View) (p : TaskPart) →
        AgreesWith k c v w es words views → get_elem? views id ≡ some view → (other ≡ id → ⊥) →
        get_elem? views other ≡ some theirs →
        (get_elem? view.tasks i ≡ some (Some p)) ⊎ (get_elem? theirs.tasks i ≡ some (Some p)) →
        get_elem? (joined view theirs).tasks i ≡ some (Some p) }
    ensures clock { (k : Constants) (c : RunConstants) (v : RunValues) (w : Witness) (es : List Event)
        (words : List ℕ) (views : List View) (id other : ℕ) (view theirs : View) (r : ClockPart) →
        AgreesWith k c v w es words views → get_elem? views id ≡ some view → (other ≡ id → ⊥) →
        get_elem? views other ≡ some theirs → (view.clock ≡ Some r) ⊎ (theirs.clock ≡ Some r) →
        (joined view theirs).clock ≡ Some r }
{}

/// A spent seat enters by a load, which is no event.
pub fn spent_seat_may_enter()
    ensures { (k : Constants) (c : RunConstants) (v : RunValues) (w : Witness) (es : List Event)
        (words : List ℕ) (views : List View) → AgreesWith k c v w es words views →
        AgreesWith k c v w es words (views ++ spent ∷ []) }
{}

/// A seat that has the constants of the run and no part enters by a load, which is no event.
pub fn bare_seat_may_enter()
    ensures { (k : Constants) (c : RunConstants) (v : RunValues) (w : Witness) (es : List Event)
        (words : List ℕ) (views : List View) → AgreesWith k c v w es words views →
        AgreesWith k c v w es words (views ++ bare k ∷ []) }
{}

/// Words, views and the state of the list of events agree: no part stands in two views, each view
/// that is not spent has the constants of the run, each part says how its task or the clock stands,
/// and no task has more ended jobs than jobs of the horizon. On a gated board each horizon job that is due
/// has ended.
pub fn parts_agree_with_one_state()
    ensures tasks { (k : Constants) (c : RunConstants) (v : RunValues) (w : Witness) (es : List Event)
        (words : List ℕ) (views : List View) (id i : ℕ) (view : View) (p : TaskPart) →
        AgreesWith k c v w es words views → HasPart views id i view p →
        AgreesTask c v w.raised (reached c es) i p × (slice_index words (done_word i) ≡ p.stand.ended) }
    ensures clock { (k : Constants) (c : RunConstants) (v : RunValues) (w : Witness) (es : List Event)
        (words : List ℕ) (views : List View) (id : ℕ) (view : View) (r : ClockPart) →
        AgreesWith k c v w es words views → HasClock views id view r →
        AgreesClock c w.raised (reached c es) r }
    ensures tasks_apart { (k : Constants) (c : RunConstants) (v : RunValues) (w : Witness) (es : List Event)
        (words : List ℕ) (views : List View) (id other i : ℕ) (view theirs : View) (p q : TaskPart) →
        AgreesWith k c v w es words views → HasPart views id i view p → HasPart views other i theirs q → id ≡ other }
    ensures clocks_apart { (k : Constants) (c : RunConstants) (v : RunValues) (w : Witness) (es : List Event)
        (words : List ℕ) (views : List View) (id other : ℕ) (view theirs : View) (r q : ClockPart) →
        AgreesWith k c v w es words views → HasClock views id view r → HasClock views other theirs q → id ≡ other }
    ensures known { (k : Constants) (c : RunConstants) (v : RunValues) (w : Witness) (es : List Event)
        (words : List ℕ) (views : List View) (id : ℕ) (view : View) (other : Constants) →
        AgreesWith k c v w es words views → get_elem? views id ≡ some view →
        view.constants ≡ Some other → other ≡ k }
    ensures counted { (k : Constants) (c : RunConstants) (v : RunValues) (w : Witness) (es : List Event)
        (words : List ℕ) (views : List View) (i : ℕ) → AgreesWith k c v w es words views → i < c.tasks →
        slice_index words (done_word i) ≤ c.jobs i }
    ensures due { (k : Constants) (c : RunConstants) (v : RunValues) (w : Witness) (es : List Event)
        (words : List ℕ) (views : List View) (i n : ℕ) → AgreesWith k c v w es words views →
        k.gate ≡ gates.Gated → IsJob c i n → c.deadline i n ≤ slice_index words now_word →
        n < slice_index words (done_word i) }
{
    plan_laws();
}
