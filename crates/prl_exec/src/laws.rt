//! The laws of plans on which a run of a board rests, as a function that does nothing: its contract is the law.

ghost use Rattle.prl_rule.specs.Known.{run_of};
ghost use Rattle.prl_exec.specs.Standing.{RunLaws};

use prl_board::Board;
use prl_plan::{
    free_events_keep_tags, free_list_leaves_tags, gated_events_keep_sound, run_of_two_lists,
    sound_state_goes_on,
};

/// The laws of plans on which a run rests, for the run of a board.
pub fn run_laws(board: &Board)
    ensures { RunLaws (run_of board.now.known) }
{
    board.keeps_facts();
    gated_events_keep_sound();
    free_events_keep_tags();
    run_of_two_lists();
    free_list_leaves_tags();
    sound_state_goes_on();
}
