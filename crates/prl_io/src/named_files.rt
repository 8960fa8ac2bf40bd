//! The files that the words name.

ghost use Rattle.std.specs.Prelude.{◌≡◌, ◌≤◌, ◌++◌, ◌∷◌, [], IfOk, IfErr, IfSome, Some, length};
ghost use Rattle.prl_io.specs.Files.{IsFileStop};
ghost use Rattle.prl_io.specs.declared.endings.Stop.TheVariants.{Memory};

use crate::endings::Stop;
use crate::faults::shown_label;
use crate::reading::{FileFault, Files};
use prl_base::Label;
use std::alloc::{AllocError, Global};

impl From<AllocError> for Stop {
    ghost from_gives = { λ _ stop. stop ≡ Memory };

    fn from(_error: AllocError) -> Stop {
        Stop::Memory
    }
}

/// The bytes of the file of this name, of which there are at most so many.
pub fn read_named<F: Files>(
    alloc: Global,
    files: &mut F,
    name: &[u8],
    most: u64,
) -> Result<Vec<u8>, Stop>
    ensures content { IfOk result (λ bytes. IfSome (F.seen files.old).folder (λ folder. folder name.now ≡ Some bytes.items)) }
    ensures few { IfOk result (λ bytes. length bytes.items ≤ most) }
    ensures failed { IfOk result (λ _. (F.seen files.new).failed ≡ (F.seen files.old).failed) }
    ensures stop { IfErr result (IsFileStop (F.seen files.old) (F.seen files.new) name.now most) }
    ensures asked { IfOk result (λ _. (F.seen files.new).asked ≡ (F.seen files.old).asked ++ (name.now ∷ [])) }
    ensures kept { (F.seen files.new).folder ≡ (F.seen files.old).folder }
{
    let label = Label::new(alloc, name)?;
    let told = shown_label(alloc, name)?;
    match files.read(alloc, &label, most) {
        Ok(bytes) => Ok(bytes),
        Err(FileFault::Absent) => Err(Stop::Absent(told)),
        Err(FileFault::TooLong) => Err(Stop::TooLong(told)),
        Err(FileFault::Failed) => Err(Stop::Unread(told)),
        Err(FileFault::Memory) => Err(Stop::Memory),
    }
}
