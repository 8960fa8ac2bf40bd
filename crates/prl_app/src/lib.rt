//! The command `prelude`: its top calls `prelude` and `prelude_alone`. It stands on what a command comes to and how its call ends
//! (`prl_endings`) and on the words of `prl_arguments`, and hands on what these say to callers.
#![tactic(auto)]

mod top;

pub use prl_arguments::{Command, Gate, Mode, Setting, WordsFault, read_words};
pub use prl_calls::plan_of;
pub use prl_endings::{Ending, Status};
pub use prl_stages::{Fault, InputFile, MAX_PROGRAM, Ran, Stage, Stop};
pub use top::{prelude, prelude_alone};
