//! Files of the host.

ghost use Rattle.std.specs.Prelude.{◌≡◌, ◌≤◌, [], IfOk, None, vec_len};

use super::mentions::Mentions;
use super::reading::{FileFault, Files};
use prl_base::Label;
use std::alloc::Global;
use std::fs::File;
use std::io;
use std::io::{ErrorKind, Read};
use std::rt::Runtime;

/// The files of the host, by their paths. Their contents are not known. A file that is not there and want of memory
/// have answers of their own; any other error is a failed reading, and so is a name that is not UTF-8.
#[derive(Drop)]
pub struct HostFiles<'a, R: Runtime> {
    rt: &'a R,
    asked: Mentions,
    failed: Mentions,
}

impl<'a, R: Runtime> HostFiles<'a, R> {
    /// The files that this runtime reaches. It takes no memory.
    pub fn new(rt: &'a R) -> HostFiles<'a, R>
        ensures asked { (⟦<HostFiles<'a, R> as Files>⟧.seen result).asked ≡ [] }
        ensures failed { (⟦<HostFiles<'a, R> as Files>⟧.seen result).failed ≡ [] }
    {
        HostFiles {
            rt,
            asked: Mentions::new(),
            failed: Mentions::new(),
        }
    }
}

/// The bytes of the file, up to one more than `most`.
fn bytes_of<F: Read + Drop>(alloc: Global, file: F, most: u64) -> io::Result<Vec<u8>> {
    let mut bytes = Vec::new(alloc);
    file.take(most.saturating_add(1)).read_to_end(&mut bytes)?;
    Ok(bytes)
}

/// The bytes of the file at the path that the name is, if they are at most `most`.
fn read_at<R: Runtime>(alloc: Global, rt: &R, name: &Label, most: u64) -> Result<Vec<u8>, FileFault>
    ensures { IfOk result (λ bytes. vec_len bytes ≤ most) }
{
    let Ok(path) = str::from_utf8(name.bytes()) else {
        return Err(FileFault::Failed);
    };
    let file = match File::open(rt, path) {
        Ok(file) => file,
        Err(error) if error.kind() == ErrorKind::NotFound => return Err(FileFault::Absent),
        Err(_) => return Err(FileFault::Failed),
    };
    match bytes_of(alloc, file, most) {
        Ok(bytes) if bytes.len() as u64 > most => Err(FileFault::TooLong),
        Ok(bytes) => Ok(bytes),
        Err(error) if error.kind() == ErrorKind::OutOfMemory => Err(FileFault::Memory),
        Err(_) => Err(FileFault::Failed),
    }
}

impl<R: Runtime> Files for HostFiles<'_, R> {
    ghost seen = { λ f. record { folder = None; asked = f.asked.all; failed = f.failed.all } };

    fn read(&mut self, alloc: Global, name: &Label, most: u64) -> Result<Vec<u8>, FileFault> {
        self.asked = Mentions::one_more(&self.asked, name.bytes());
        let answer = read_at(alloc, self.rt, name, most);
        if answer == Err(FileFault::Failed) {
            self.failed = Mentions::one_more(&self.failed, name.bytes());
        }
        answer
    }
}
