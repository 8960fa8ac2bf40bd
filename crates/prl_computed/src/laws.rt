//! The law of what jobs compute, as a function that does nothing: its contract is the law.

ghost use Rattle.prl_stages.specs.Given.{Given};
ghost use Rattle.prl_stages.specs.Replayed.{Execution};
ghost use Rattle.prl_computed.specs.Computed.{Computes};

use prl_body::used_imports_have_bodies;
use prl_causal::solutions_are_of_their_clocks;
use prl_clock::clocks_are_unique;
use prl_expand::{
    behaviours_are_solutions, expansions_are_unique, expansions_have_bodies, flats_are_well_formed,
};
use prl_graph::solutions_give_job_values;
use prl_print::programs_are_in_range;
use prl_syntax::each_text_has_one_outcome;
use prl_types::outcome_is_unique;
use prl_values::{job_values_are_one, job_values_exist};

/// Of each command that executes a plan, whatever tasks preempt each other and wherever they run: what a job reads at each port, what
/// it gives at each output, and the registers that its body finds are those that the one behaviour of the command's texts has at the
/// job's date.
pub fn jobs_compute_the_behaviour()
    ensures { (g : Given) (e : Execution g) → Computes g e }
{
    each_text_has_one_outcome();
    outcome_is_unique();
    programs_are_in_range();
    expansions_are_unique();
    flats_are_well_formed();
    used_imports_have_bodies();
    expansions_have_bodies();
    behaviours_are_solutions();
    clocks_are_unique();
    solutions_are_of_their_clocks();
    solutions_give_job_values();
    job_values_exist();
    job_values_are_one();
}
