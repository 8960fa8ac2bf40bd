//! The most bytes that the files of a command may have.

ghost use Rattle.std.specs.Prelude.{◌≡◌};
ghost use Rattle.prl_stages.specs.Given.{most_of};

use crate::faults::InputFile;

/// The most bytes that a program may have.
pub const MAX_PROGRAM: u64 = 1_048_576;

/// The most bytes that a text of bodies may have.
pub const MAX_BODIES: u64 = 1_048_576;

/// The most bytes that sensor rows may have.
pub const MAX_SENSORS: u64 = 33_554_432;

/// The most bytes that a schedule may have.
pub const MAX_SCHEDULE: u64 = 83_886_080;

/// The most bytes that the text of a table may have.
pub const MAX_TABLE: u64 = 16_777_216;

/// The most bytes that a text of processors may have.
pub const MAX_CORES: u64 = 65_536;

/// The most bytes that the file may have.
pub fn most_of(file: InputFile) -> u64
    ensures { result ≡ most_of file }
{
    match file {
        InputFile::Program => MAX_PROGRAM,
        InputFile::Bodies => MAX_BODIES,
        InputFile::Sensors => MAX_SENSORS,
        InputFile::Schedule => MAX_SCHEDULE,
        InputFile::Table => MAX_TABLE,
        InputFile::Cores => MAX_CORES,
    }
}
