//! How a call of the command ends, and its status.

ghost use Rattle.std.specs.Prelude.{◌≡◌};
ghost use Rattle.prl_endings.specs.Statuses.{ran_of, status_of, status_of_stage};

use prl_exec::Stopped;
use prl_plan::Plan;
use prl_stages::{Ran, Stage, Stop};

/// How a call of the command ends.
#[derive(Drop)]
pub enum Ending {
    /// All is done, and all is written; and what was run.
    Done(Ran),
    /// The words are no command.
    Words,
    /// There is no text.
    Stopped(Stop),
    /// The text was not written whole; and what was run.
    Unwritten(Ran),
    /// A read was overrun: the plan, and where that was.
    Overrun(Plan, Stopped),
}

/// How a call of the command ended, as its process tells it.
#[derive(Drop)]
pub struct Status {
    /// 0: all done and all written. 1: the program or its bodies are refused. 2: the words are no command. 3: a
    /// reading failed. 4: a writing failed. 5: a run with free clock and several workers was overrun. 6: memory
    /// ran out. 7: a file is absent or too long. 8: the schedule is refused. 9: the sensor rows are refused.
    /// 10: no table is made of the plan, or the text of a table or of processors is refused.
    pub code: u8,
    /// What was run on a board: the board, closed, at 0 and 4 where the mode runs the tasks, and at 5; and by a table the tick at which
    /// each job was done.
    pub ran: Ran,
}

fn status_of_stage(stage: Stage) -> u8
    ensures { result ≡ status_of_stage stage }
{
    match stage {
        Stage::File(_) => 7,
        Stage::Grammar | Stage::Types | Stage::Bodies => 1,
        Stage::Expansion | Stage::Causality | Stage::Clocks => 1,
        Stage::Graph | Stage::Words | Stage::Dates | Stage::Cells => 1,
        Stage::Horizon => 1,
        Stage::Rows => 9,
        Stage::Schedule | Stage::Placed => 8,
        Stage::Made | Stage::Table | Stage::Cores => 10,
        Stage::Values => 1,
    }
}

/// The code of the status that tells an ending.
fn code_of(ending: &Ending) -> u8
    ensures { result ≡ status_of ending.now }
{
    match ending {
        Ending::Done(_) => 0,
        Ending::Words => 2,
        Ending::Unwritten(_) => 4,
        Ending::Overrun(_, _) => 5,
        Ending::Stopped(Stop::Unread(_)) => 3,
        Ending::Stopped(Stop::Refused(stage, _)) => status_of_stage(*stage),
        Ending::Stopped(Stop::Memory) => 6,
    }
}

/// The status that tells an ending, with what was run.
pub fn status_of(ending: Ending) -> Status
    ensures code { result.code ≡ status_of ending }
    ensures ran { result.ran ≡ ran_of ending }
{
    let code = code_of(&ending);
    let ran = match ending {
        Ending::Done(ran) | Ending::Unwritten(ran) => ran,
        Ending::Overrun(plan, stopped) => {
            drop(plan);
            Ran::Stopped(stopped)
        }
        Ending::Words => Ran::Not,
        Ending::Stopped(stop) => {
            drop(stop);
            Ran::Not
        }
    };
    Status { code, ran }
}
