//! Laws of tracks, as functions that do nothing: the contract of each is the law, over the definitions alone.

ghost use Rattle.std.specs.Prelude.{◌<◌, Some};
ghost use Rattle.prl_plan.specs.Vocabulary.{HasPlanFacts, KeepsLegal, RunConstants, ExecState};
ghost use Rattle.prl_plan.specs.Vocabulary.{after_event, IsTagged};
ghost use Rattle.prl_plan.specs.declared.events.Event.{Event};
ghost use Rattle.prl_track.specs.Lefts.{left_in};
ghost use Rattle.prl_track.specs.Tracks.{IsNext};

/// The event that comes next is legal.
pub fn next_event_is_legal()
    ensures { (c : RunConstants) → HasPlanFacts c → (s : ExecState) → (event : Event) → IsNext c s (Some event) → KeepsLegal c s event }
{}

/// Each legal event leaves less of a run, so a list of legal events comes to an end.
pub fn legal_event_leaves_less()
    ensures { (c : RunConstants) → HasPlanFacts c → (s : ExecState) → IsTagged c s → (event : Event) → KeepsLegal c s event →
        left_in c (after_event c s event) < left_in c s }
{}
