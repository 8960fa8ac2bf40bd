//! Laws of states, of events and of lists of events, as functions that do nothing: the contract of each is the law, over the
//! definitions alone.

ghost use Rattle.std.specs.Prelude.{◌≡◌, ◌+◌, ◌<◌, ◌≤◌, ◌⊎◌, ◌^◌, ◌++◌, ◌↔◌, ℕ, List, length, slice_index};
ghost use Rattle.prl_base.specs.declared.limits.Limit.{Limit};
ghost use Rattle.prl_base.specs.declared.numbers.EdgeNo.{EdgeNo};
ghost use Rattle.prl_base.specs.declared.numbers.TaskNo.{TaskNo};
ghost use Rattle.prl_plan.specs.declared.events.Action.{Action};
ghost use Rattle.prl_plan.specs.declared.events.Action.TheVariants as actions;
ghost use Rattle.prl_plan.specs.declared.events.Event.{Event};
ghost use Rattle.prl_plan.specs.declared.events.Event.TheVariants as events;
ghost use Rattle.prl_plan.specs.declared.events.Rule.{Rule};
ghost use Rattle.prl_plan.specs.declared.horizons.Horizon.{Horizon};
ghost use Rattle.prl_plan.specs.declared.walks.Operand.TheVariants as operands;
ghost use Rattle.prl_plan.specs.Operands.{operand_of};
ghost use Rattle.prl_plan.specs.Plans.{PlanView, IsPlan, edge_at, release_at, deadline_at, low, high};
ghost use Rattle.prl_plan.specs.Horizons.{IsHorizon, IsPastLimit, Placement, constants_of, constants_on};
ghost use Rattle.prl_plan.specs.Runs.{RunConstants, ExecState, opening, action_at, next_action, after_action, after_event, after_events};
ghost use Rattle.prl_plan.specs.Rules.{IsLegal, IsGated, IsFree, IsUnfinished, HasJob, ActsReleased, FindsTag, first_unfinished, KeepsLegal, KeepsGated, KeepsFree, IsComplete, FirstBroken, IsFirstUnfinished};
ghost use Rattle.prl_plan.specs.Facts.{HasPlanFacts, IsJob, ReadsAt, WritesAt};
ghost use Rattle.prl_plan.specs.States.{IsDone, IsTagged, IsSound, IsLeastReleased};
ghost use Rattle.prl_plan.specs.LastTags.{IsLeft};

/// A run of two lists of events is a run of the first, and then one of the second from where the first ends.
pub fn run_of_two_lists()
    ensures state { (c : RunConstants) (s : ExecState) (first second : List Event) →
        after_events c s (first ++ second) ≡ after_events c (after_events c s first) second }
    ensures legal { (c : RunConstants) (s : ExecState) (first second : List Event) →
        IsLegal c s (first ++ second) ↔ (IsLegal c s first × IsLegal c (after_events c s first) second) }
    ensures gated { (c : RunConstants) (s : ExecState) (first second : List Event) →
        IsGated c s (first ++ second) ↔ (IsGated c s first × IsGated c (after_events c s first) second) }
    ensures free { (c : RunConstants) (s : ExecState) (first second : List Event) →
        IsFree c s (first ++ second) ↔ (IsFree c s first × IsFree c (after_events c s first) second) }
{}

/// Legal lists from the opening are gated: each read of a half finds its instance there.
pub fn legal_list_is_gated()
    ensures { (c : RunConstants) → HasPlanFacts c → (events : List Event) →
        IsLegal c (opening c) events → IsGated c (opening c) events }
{}

/// After a gated list from the opening, at most the horizon jobs of each task have ended, those whose encoded deadline
/// has come among them, and no half is ahead of an operand that a job which has not ended reads from it.
pub fn gated_list_keeps_halves()
    ensures counted { (c : RunConstants) → HasPlanFacts c → (events : List Event) → IsGated c (opening c) events →
        (i : ℕ) → i < c.tasks → slice_index (after_events c (opening c) events).ended i ≤ c.jobs i }
    ensures kept { (c : RunConstants) → HasPlanFacts c → (events : List Event) → IsGated c (opening c) events →
        (i n : ℕ) → IsUnfinished c (after_events c (opening c) events) i n →
        (after_events c (opening c) events).now < c.deadline i n }
    ensures halves { (c : RunConstants) → HasPlanFacts c → (events : List Event) → IsGated c (opening c) events →
        (i n place m slot : ℕ) → ReadsAt c i n place m slot →
        IsUnfinished c (after_events c (opening c) events) i n →
        slice_index (after_events c (opening c) events).tags slot ≤ m + 1 }
{}

/// Where a gated list from the opening may go on by a write, the half is empty or holds an instance whose horizon
/// readers have all ended.
pub fn gated_list_finds_halves_free()
    ensures { (c : RunConstants) → HasPlanFacts c → (events : List Event) → IsGated c (opening c) events →
        (i : ℕ) (edge : EdgeNo) (m slot : ℕ) → HasJob c (after_events c (opening c) events) i →
        ActsReleased c (after_events c (opening c) events) i →
        next_action c (after_events c (opening c) events) i ≡ actions.Write edge m (record { 0 = slot }) →
        (j n place l : ℕ) → ReadsAt c j n place l slot →
        slice_index (after_events c (opening c) events).tags slot ≡ l + 1 →
        n < slice_index (after_events c (opening c) events).ended j }
{}

/// The opening state is sound, an event that a gated list allows leads from a sound state to a sound one, and in a sound
/// state an event that a legal list allows is one that a gated list allows.
pub fn gated_events_keep_sound()
    ensures opening { (c : RunConstants) → HasPlanFacts c → IsSound c (opening c) }
    ensures each { (c : RunConstants) → HasPlanFacts c → (s : ExecState) → IsSound c s → (event : Event) → KeepsGated c s event →
        IsSound c (after_event c s event) }
    ensures legal { (c : RunConstants) → HasPlanFacts c → (s : ExecState) → IsSound c s → (event : Event) → KeepsLegal c s event →
        KeepsGated c s event }
{}

/// In a sound state a legal read of a half finds its instance there.
pub fn legal_read_finds_its_tag()
    ensures { (c : RunConstants) → HasPlanFacts c → (s : ExecState) → IsSound c s → (task : TaskNo) → KeepsLegal c s (events.Act task) →
        FindsTag s (next_action c s task.0) }
{}

/// In a sound state what a write replaces is nothing, or an instance that no horizon reader still has to read.
pub fn write_finds_half_free()
    ensures { (c : RunConstants) → HasPlanFacts c → (s : ExecState) → IsSound c s → (i : ℕ) (edge : EdgeNo) (m slot : ℕ) → HasJob c s i →
        ActsReleased c s i → next_action c s i ≡ actions.Write edge m (record { 0 = slot }) →
        (j n place l : ℕ) → ReadsAt c j n place l slot → slice_index s.tags slot ≡ l + 1 → n < slice_index s.ended j }
{}

/// In a sound state each task has ended at most its horizon jobs, what is due has ended, and a half holds no later instance
/// than one that an unfinished reader has to read.
pub fn sound_state_keeps_halves()
    ensures counted { (c : RunConstants) (s : ExecState) → IsSound c s → (i : ℕ) → i < c.tasks → slice_index s.ended i ≤ c.jobs i }
    ensures kept { (c : RunConstants) (s : ExecState) → IsSound c s → (i n : ℕ) → IsJob c i n → c.deadline i n ≤ s.now → n < slice_index s.ended i }
    ensures halves { (c : RunConstants) (s : ExecState) → IsSound c s → (i n place m slot : ℕ) → ReadsAt c i n place m slot → IsUnfinished c s i n →
        slice_index s.tags slot ≤ m + 1 }
{}

/// An act does the next action of its task, and no other.
pub fn act_does_one_action()
    ensures { (c : RunConstants) → HasPlanFacts c → (s : ExecState) → IsTagged c s → (i : ℕ) → HasJob c s i → (action : Action) → next_action c s i ≡ action →
        (j n place : ℕ) → IsDone (after_action s i action) j n place →
        IsDone s j n place ⊎ ((j ≡ i) × (n ≡ first_unfinished s i) × (action_at c j n place ≡ action)) }
{}

/// In a sound state in which a job has not ended, of the released unfinished jobs one with the least release may act, or
/// where there is none the clock may go on.
pub fn sound_state_goes_on()
    ensures { (c : RunConstants) → HasPlanFacts c → (s : ExecState) → IsSound c s → (j n : ℕ) → IsUnfinished c s j n →
        ((i : ℕ) × IsLeastReleased c s i × KeepsGated c s (events.Act (record { 0 = i })))
        ⊎ (((i : ℕ) → HasJob c s i → ActsReleased c s i → ⊥) × KeepsGated c s events.Tick) }
{}

/// An event that a free list allows keeps the tags: a half holds what was written to it last. A high half holds no later
/// instance than the low half of its cell.
pub fn free_events_keep_tags()
    ensures opening { (c : RunConstants) → HasPlanFacts c → IsTagged c (opening c) }
    ensures each { (c : RunConstants) → HasPlanFacts c → (s : ExecState) → IsTagged c s → (event : Event) → KeepsFree c s event →
        IsTagged c (after_event c s event) }
    ensures list { (c : RunConstants) → HasPlanFacts c → (events : List Event) → IsFree c (opening c) events →
        IsTagged c (after_events c (opening c) events) }
    ensures gated { (c : RunConstants) (s : ExecState) (event : Event) → KeepsGated c s event → KeepsFree c s event }
    ensures halves { (c : RunConstants) → HasPlanFacts c → (s : ExecState) → IsTagged c s → (cell : ℕ) →
        slice_index s.tags (high cell) ≤ slice_index s.tags (low cell) }
{}

/// Where the tags are kept, each belongs to the instance that was written last to its half; one without a write is 0.
pub fn tag_is_of_the_latest_instance()
    ensures empty { (c : RunConstants) (s : ExecState) → IsTagged c s → (slot : ℕ) → slice_index s.tags slot ≡ 0 →
        (i n place m : ℕ) → WritesAt c i n place m slot → IsDone s i n place → ⊥ }
    ensures written { (c : RunConstants) (s : ExecState) → IsTagged c s → (slot m : ℕ) → slice_index s.tags slot ≡ m + 1 →
        (i : ℕ) × (n : ℕ) × (place : ℕ) × WritesAt c i n place m slot × IsDone s i n place }
    ensures latest { (c : RunConstants) (s : ExecState) → IsTagged c s → (slot m : ℕ) → slice_index s.tags slot ≡ m + 1 →
        (i n place l : ℕ) → WritesAt c i n place l slot → IsDone s i n place → l ≤ m }
{}

/// In each state that a free list reaches from the opening, a half holds what its writer left there.
pub fn free_list_leaves_tags()
    ensures { (c : RunConstants) → HasPlanFacts c → (events : List Event) → IsFree c (opening c) events → IsLeft c (after_events c (opening c) events) }
{}

/// A free list from the opening has at most as many events as the horizon counts, on any processors.
pub fn free_list_is_short()
    ensures { (plan : PlanView) (placement : Placement) (h : Horizon) → IsHorizon plan h → (list : List Event) →
        IsFree (constants_on plan placement h) (opening (constants_on plan placement h)) list → length list ≤ h.events }
{}

/// A gated list is a free one. Where a gated list from the opening has left a horizon job, a round of polls does an event: of the
/// released unfinished jobs one with the least release may act, or where there is none the clock may go on.
pub fn gated_list_goes_on()
    ensures free { (c : RunConstants) (s : ExecState) (list : List Event) → IsGated c s list → IsFree c s list }
    ensures round { (c : RunConstants) → HasPlanFacts c → (list : List Event) → IsGated c (opening c) list →
        (IsComplete c (after_events c (opening c) list) → ⊥) →
        ((i : ℕ) × IsLeastReleased c (after_events c (opening c) list) i
        × KeepsGated c (after_events c (opening c) list) (events.Act (record { 0 = i })))
        ⊎ (((i : ℕ) → HasJob c (after_events c (opening c) list) i → ActsReleased c (after_events c (opening c) list) i → ⊥)
        × KeepsGated c (after_events c (opening c) list) events.Tick) }
{}

/// Where a state of a free list may go on by a write over another instance, no job that reads this instance, of the
/// horizon or not, is due after the release of the writer.
pub fn replaced_instance_is_over()
    ensures { (plan : PlanView) → IsPlan plan → (h : Horizon) → IsHorizon plan h → (s : ExecState) → IsTagged (constants_of plan h) s →
        (i e n slot l k : ℕ) → HasJob (constants_of plan h) s i →
        next_action (constants_of plan h) s i ≡ actions.Write (record { 0 = e }) n (record { 0 = slot }) → slice_index s.tags slot ≡ l + 1 →
        operand_of (edge_at plan.graph e) k ≡ operands.From l → deadline_at plan (edge_at plan.graph e).to.0 k ≤ release_at plan i n }
{}

/// In each state, each event keeps the rules of legal lists or there is a first rule that it breaks; and every horizon job has
/// ended or one is the first unfinished one of the lowest task that has one.
pub fn events_are_decided()
    ensures rules { (c : RunConstants) (s : ExecState) (event : Event) →
        KeepsLegal c s event ⊎ ((rule : Rule) × FirstBroken c s event rule) }
    ensures complete { (c : RunConstants) (s : ExecState) →
        IsComplete c s ⊎ ((i : ℕ) × (n : ℕ) × IsFirstUnfinished c s i n) }
{}

/// A plan has one horizon up to a date, or passes one limit.
pub fn horizons_end_one_way()
    ensures end { (plan : PlanView) → IsPlan plan → (until : ℕ) → until < 2 ^ 32 →
        ((horizon : Horizon) × IsHorizon plan horizon × (horizon.until ≡ until))
        ⊎ ((limit : Limit) × IsPastLimit plan until limit) }
    ensures one_horizon { (plan : PlanView) (until : ℕ) (a b : Horizon) → IsHorizon plan a → IsHorizon plan b →
        a.until ≡ until → b.until ≡ until → a ≡ b }
    ensures not_both { (plan : PlanView) (until : ℕ) (horizon : Horizon) (limit : Limit) →
        IsHorizon plan horizon → horizon.until ≡ until → IsPastLimit plan until limit → ⊥ }
    ensures one_limit { (plan : PlanView) (until : ℕ) (a b : Limit) →
        IsPastLimit plan until a → IsPastLimit plan until b → a ≡ b }
{}
