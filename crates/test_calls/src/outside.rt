//! What no clause says: what the host does, and each call that takes memory where it has enough.

use crate::folder;
use prl_base::{Label, TaskNo};
use prl_io::{
    Failed, FileFault, Files, HostFiles, HostSink, MemFiles, MemSink, NoProbe, Probe, Sink,
    write_all, write_pieces,
};
use std::alloc::{AllocError, Global};
use std::io::{ErrorKind, Write};
use std::test::Fail;
use std::{fs, io};

/// A file's name, how many bytes it may have, and its bytes or how its reading fails.
type Reading = (&'static [u8], u64, Result<&'static str, FileFault>);

/// Whether a reading gave these bytes, or failed so.
fn is_told(read: &Result<Vec<u8>, FileFault>, wanted: Result<&str, FileFault>) -> bool {
    match (read, wanted) {
        (Ok(bytes), Ok(text)) => bytes.as_slice() == text.as_bytes(),
        (Err(fault), Err(other)) => *fault == other,
        _ => false,
    }
}

/// Whether a reading of a file of either kind, through the trait, gives these bytes, or fails so.
fn gives<F: Files>(files: &mut F, alloc: Global, reading: Reading) -> Result<bool, AllocError> {
    let name = Label::new(alloc, reading.0)?;
    let read = files.read(alloc, &name, reading.1);
    Ok(is_told(&read, reading.2))
}

/// The number of the first of these readings, one after another, that gives something else.
fn other_reading<F: Files>(
    files: &mut F,
    alloc: Global,
    readings: &[Reading],
) -> Result<Option<usize>, AllocError> {
    for (k, reading) in readings.iter().enumerate() {
        if !gives(files, alloc, *reading)? {
            return Ok(Some(k));
        }
    }
    Ok(None)
}

/// Two files of one name, of which the fourth reading fails.
fn two_files(alloc: Global) -> Result<MemFiles, AllocError> {
    let files = folder(alloc, &[("a", b"one"), ("a", b"two")])?;
    Ok(MemFiles::new(files, vec![in alloc; 3]?))
}

/// What five readings of two files in memory give.
const IN_MEMORY: [Reading; 5] = [
    (b"a", 3, Ok("one")),
    (b"a", 2, Err(FileFault::TooLong)),
    (b"b", 3, Err(FileFault::Absent)),
    (b"a", 3, Err(FileFault::Failed)),
    (b"a", 3, Ok("one")),
];

/// The number of the first of the five readings that gives something else.
fn other_of_two(alloc: Global) -> Result<Option<usize>, AllocError> {
    let mut files = two_files(alloc)?;
    other_reading(&mut files, alloc, &IN_MEMORY)
}

/// Whether a sink whose third write fails, and that takes four bytes at most, has what was written up to then, and later.
fn fails_at_the_third_write(sink: &mut MemSink) -> bool {
    let first = write_all(sink, b"o,0,0,1\no,1,10,2\n");
    let has_first = sink.bytes() == b"o,0,0,1\n".as_slice();
    let later = write_pieces(sink, &[b"o,".as_slice(), b"1".as_slice()]);
    let is_written = first == Err(Failed) && has_first && later == Ok(());
    is_written && sink.bytes() == b"o,0,0,1\no,1".as_slice()
}

/// Whether a sink with room for five bytes takes those and no more.
fn takes_five(sink: &mut MemSink) -> bool {
    let first = sink.write(b"1234567");
    let later = sink.write(b"67");
    first == Ok(5) && later == Err(Failed) && sink.bytes() == b"12345".as_slice()
}

/// Whether sinks in memory fail so.
fn are_sinks(alloc: Global) -> Result<bool, AllocError> {
    let mut sink = MemSink::new(alloc, 1000, 4, vec![in alloc; 2]?)?;
    let fails = fails_at_the_third_write(&mut sink);
    drop(sink);
    let mut full = MemSink::new(alloc, 5, 100, Vec::new(alloc))?;
    Ok(fails && takes_five(&mut full))
}

#[test]
fn files_and_sinks_in_memory(rt: HostRuntime) -> Result<(), Fail> {
    assert!(rt; other_of_two(rt.alloc())? == None);
    assert!(rt; are_sinks(rt.alloc())?);
    Ok(())
}

/// What readings of files of the host give, where there is the first. The last name is no text.
const OF_THE_HOST: [Reading; 5] = [
    (b"prl_io_files.txt", 5, Ok("five!")),
    (b"prl_io_files.txt", 4, Err(FileFault::TooLong)),
    (b"prl_io_nothing.txt", 5, Err(FileFault::Absent)),
    (b"/", 5, Err(FileFault::Failed)),
    (b"\xff", 5, Err(FileFault::Failed)),
];

/// The number of the first of these readings that gives something else.
fn other_of_the_host(rt: &HostRuntime) -> Result<Option<usize>, AllocError> {
    other_reading(&mut HostFiles::new(rt), rt.alloc(), &OF_THE_HOST)
}

#[test]
fn files_of_the_host(rt: HostRuntime) -> Result<(), Fail> {
    fs::write(&rt, "prl_io_files.txt", "five!")?;
    assert!(rt; other_of_the_host(&rt)? == None);
    fs::remove_file(&rt, "prl_io_files.txt")?;
    Ok(())
}

/// A writer that refuses writes or flushes.
#[derive(Drop)]
struct Broken {
    takes: usize,
    flushes: bool,
}

impl Write for Broken {
    fn write(&mut self, buf: &[u8]) -> io::Result<usize> {
        if self.takes > buf.len() {
            Err(io::Error::from(ErrorKind::BrokenPipe))
        } else {
            Ok(self.takes)
        }
    }

    fn flush(&mut self) -> io::Result<()> {
        if self.flushes {
            Ok(())
        } else {
            Err(io::Error::from(ErrorKind::BrokenPipe))
        }
    }
}

/// What a sink of such a writer says to three bytes, and then to these.
fn written(
    takes: usize,
    flushes: bool,
    next: &[u8],
) -> (Result<usize, Failed>, Result<usize, Failed>) {
    let mut sink = HostSink::new(Broken { takes, flushes });
    let first = sink.write(b"abc");
    (first, sink.write(next))
}

/// Whether a sink fails where its writer refuses a write or a flush, and where it takes nothing of several bytes.
fn are_refused() -> bool {
    written(2, true, b"a") == (Ok(2), Err(Failed))
        && written(2, false, b"abc") == (Err(Failed), Err(Failed))
        && written(0, true, b"") == (Err(Failed), Ok(0))
}

/// Whether a sink over a vector writes to it.
fn are_kept(alloc: Global) -> bool {
    let mut kept = Vec::new(alloc);
    let all = HostSink::new(&mut kept).write(b"abc");
    all == Ok(3) && kept.as_slice() == b"abc".as_slice()
}

/// And what does nothing is called.
#[test]
fn sink_of_the_host(rt: HostRuntime) -> Result<(), Fail> {
    assert!(rt; are_kept(rt.alloc()) && are_refused());
    NoProbe.before(TaskNo(0), 0);
    Ok(())
}
