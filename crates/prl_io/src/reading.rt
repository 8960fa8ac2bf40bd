//! Files that are read by their names.

ghost use Rattle.std.specs.Prelude.{◌≡◌, ◌≢◌, ◌≤◌, ◌++◌, ◌∷◌, [], Err, IfOk, IfSome, vec_len, vec_items};
ghost use Rattle.prl_base.specs.Reading.{Gives};
ghost use Rattle.prl_io.specs.Folders.{reading_of, told_fault};
ghost use Rattle.prl_io.specs.Views.{FolderView};

use prl_base::Label;
use std::alloc::Global;

/// Why a file was not read.
#[derive(Clone, Copy, PartialEq, Eq)]
pub enum FileFault {
    /// There is no file of this name.
    Absent,
    /// The file has more bytes than may be read.
    TooLong,
    /// The reading failed, and its name is one more of those that did.
    Failed,
    /// Memory ran out.
    Memory,
}

/// A folder of files that no reading changes.
pub trait Files {
    /// The bytes of the file of each name, where this is known; the names of all readings, in order;
    /// and the names of those that failed.
    ghost seen: { Self → FolderView };

    /// The bytes of the file of this name, if they are at most `most`.
    fn read(&mut self, alloc: Global, name: &Label, most: u64) -> Result<Vec<u8>, FileFault>
        ensures most { IfOk result (λ bytes. vec_len bytes ≤ most) }
        ensures answer { IfSome (seen self.old).folder
            (λ folder. Gives vec_items told_fault result (reading_of (folder name.now) most)) }
        ensures kept { (seen self.new).folder ≡ (seen self.old).folder }
        ensures asked { (seen self.new).asked ≡ (seen self.old).asked ++ (name.now ∷ []) }
        ensures failed { result ≡ Err FileFault.Failed →
            (seen self.new).failed ≡ (seen self.old).failed ++ (name.now ∷ []) }
        ensures others { result ≢ Err FileFault.Failed → (seen self.new).failed ≡ (seen self.old).failed };
}
