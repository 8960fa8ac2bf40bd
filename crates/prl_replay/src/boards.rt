//! Laws of what closed boards show, as functions that do nothing: the contract of each is the law, over the definitions
//! alone.

ghost use Rattle.std.specs.Prelude.{◌≡◌, List, Some, length};
ghost use Rattle.prl_board.specs.Closings.{ClosedView, IsClosed, IsLastState};
ghost use Rattle.prl_flow.specs.Actuators.{AreUpTo};
ghost use Rattle.prl_flow.specs.declared.programs.OutFlow.{OutFlow};
ghost use Rattle.prl_plan.specs.Vocabulary.{IsHorizon, IsPlan, IsComplete, ExecState};
ghost use Rattle.prl_replay.specs.Replays.{AreFlowsBelow};
ghost use Rattle.prl_replay.specs.Shown.{AreShown, core_in};
ghost use Rattle.prl_rule.specs.Known.{run_of};
ghost use Rattle.prl_rule.specs.declared.views.Constants.{Constants};
ghost use Rattle.prl_values.specs.Fitting.{HaveTaskBodies, HaveTypedRows};

use prl_plan::horizon_jobs_are_counted;
use prl_values::{job_values_are_typed, job_values_exist};

/// What a closed board shows of the actuators is what the machine of its plan has in the state that the board's run has come
/// to; and where every horizon job has ended there, it is up to the horizon's date.
pub fn ended_boards_show_flows()
    ensures flows { (k : Constants) (closed : ClosedView) (s : ExecState) (outs : List OutFlow) → closed.constants ≡ Some k → IsPlan k.plan →
        IsHorizon k.plan k.horizon → HaveTaskBodies k.plan.graph k.bodies → HaveTypedRows k.plan.graph k.horizon.until k.sensors →
        IsClosed k closed.words closed.seats → IsLastState k closed.words closed.seats s → AreShown closed k.plan.graph outs →
        AreFlowsBelow (core_in k s) (length k.plan.graph.tasks) outs }
    ensures up_to { (k : Constants) (closed : ClosedView) (s : ExecState) (outs : List OutFlow) → closed.constants ≡ Some k → IsPlan k.plan →
        IsHorizon k.plan k.horizon → HaveTaskBodies k.plan.graph k.bodies → HaveTypedRows k.plan.graph k.horizon.until k.sensors →
        IsClosed k closed.words closed.seats → IsLastState k closed.words closed.seats s → AreShown closed k.plan.graph outs →
        IsComplete (run_of k) s → AreUpTo k.horizon.until outs }
{
    horizon_jobs_are_counted();
    job_values_exist();
    job_values_are_typed();
}
