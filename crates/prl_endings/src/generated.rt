//! Mode `generate`: a program is made from a number and a size; the dispatched list of its plan is replayed, its tasks run on a
//! board, and a line sums up both.

ghost use Rattle.std.specs.Prelude.{◌≡◌, Option, IfOk, IfErr};
ghost use Rattle.prl_arguments.specs.Arguments.{AreInRange};
ghost use Rattle.prl_io.specs.Views.{FolderView};
ghost use Rattle.prl_stages.specs.Vocabulary.{Folder};
ghost use Rattle.prl_endings.specs.Answers.{IsAnswer, IsAnswerStop};

use prl_arguments::{Command, Mode};
use prl_executions::{generated_request, make_ready, summary_of};
use prl_stages::{Ran, Stop};
use std::alloc::Global;

/// Mode `generate`. No file is read.
pub(crate) fn generated_text(alloc: Global, command: &Command) -> Result<(Vec<u8>, Ran), Stop>
    requires mode { command.now.mode ≡ Mode.Generate }
    requires range { AreInRange command.now.mode command.now.until command.now.workers command.now.size }
    ensures text { IfOk result (λ made. (told : Option Folder) → IsAnswer told command.now made.0.items made.1) }
    ensures stop { IfErr result (λ stop. (old : FolderView) → IsAnswerStop old old command.now stop) }
{
    let request = generated_request(alloc, command.seed, command.size)?;
    let ready = make_ready(alloc, &request)?;
    Ok(summary_of(alloc, &request, &ready, command.seed, command.size)?)
}
