//! The command: its words, the texts that it names, what a run needs of them, and the whole of it in one call.

pub use prl_app::{plan_of, prelude, prelude_alone};
pub use prl_arguments::{Command, Mode, Setting, WordsFault, read_words};
pub use prl_calls::{Request, Texts, read_request};
pub use prl_endings::{Ending, Status, status_of, tell};
pub use prl_executions::{Ready, make_ready};
pub use prl_sensors::{SensorFault, actuator_text, read_sensors};
pub use prl_stages::{Fault, InputFile, MAX_BODIES, MAX_PROGRAM, Ran, Stage, Stop};
