//! Runs of several workers through the top call, with probes that hold jobs until other ones have begun.

use crate::holders::{A_FAR_READER, A_READER, Holder, TWO_LANES};
use prl_app::{Ran, Status, prelude, prelude_alone};
use prl_io::{MemFiles, MemSink, NoProbe, Probe};
use std::alloc::{AllocError, Global};
use std::sync::Wait;
use std::test::Fail;
use std::thread::Threads;
use test_calls::folder;

/// A sensor that is handed on.
const COPY: &[u8] = b"sensor i wcet 1;
actuator o wcet 1;
node main (i: int rate (10, 0)) returns (o)
let
  o = i;
tel
";

/// Two sensors, each handed on.
const LANES: &[u8] = b"sensor i wcet 1;
sensor j wcet 1;
actuator o wcet 1;
actuator p wcet 1;
node main (i, j: int rate (10, 0)) returns (o, p)
let
  o = i;
  p = j;
tel
";

/// Two sensors, of which the first is shown a thousand periods later.
const FAR: &[u8] = b"sensor a wcet 1;
sensor i wcet 1;
actuator b wcet 1;
actuator o wcet 1;
node main (a, i: int rate (10, 0)) returns (b, o)
let
  b = a ~> 1000;
  o = i;
tel
";

const SAMPLING: &[u8] = b"imported node F(i, j: int) returns (o, p: int) wcet 2;
imported node S(i: int) returns (o: int) wcet 10;
sensor i wcet 1;
actuator o wcet 1;
node sampling (i: rate (10, 0)) returns (o)
  var vf, vs;
let
  (o, vf) = F(i, (0 fby vs) *^ 3);
  vs = S(vf /^ 3);
tel
";

const BODIES: &[u8] = b"body F { o = i + j; p = i; }\nbody S { o = 2 * i; }\n";

/// A call: its command line, its program and its rows; what it writes on `out`, and on `err` this line or the other one.
#[derive(Clone, Copy)]
struct Call {
    line: &'static str,
    program: &'static [u8],
    rows: &'static [u8],
    out: &'static [u8],
    err: &'static [u8],
    other_err: &'static [u8],
}

/// How a call ended: its status, whether its run has ended, and whether that was stopped.
type End = (u8, bool, bool);

const ENDED: End = (0, true, false);

const STOPPED: End = (5, false, true);

fn end_of(status: &Status) -> End {
    match &status.ran {
        Ran::Ended(closed) => (status.code, closed.ended(), false),
        Ran::Driven(run) => (status.code, run.closed().ended(), false),
        Ran::Not => (status.code, false, false),
        Ran::Stopped(_) => (status.code, false, true),
    }
}

/// The program and the rows of a call, and the bodies.
fn files_of(alloc: Global, call: &Call) -> Result<MemFiles, AllocError> {
    let files = [
        ("p.prl", call.program),
        ("p.bod", BODIES),
        ("p.csv", call.rows),
    ];
    Ok(MemFiles::new(folder(alloc, files.as_slice())?, Vec::new(alloc)))
}

fn words_of(alloc: Global, line: &str) -> Result<Vec<String>, AllocError> {
    let mut words = Vec::new(alloc);
    for word in line.split(' ') {
        words.push(String::from_str(alloc, word)?)?;
    }
    Ok(words)
}

/// Sinks for `out` and `err`.
fn sinks(alloc: Global) -> Result<(MemSink, MemSink), AllocError> {
    let out = MemSink::new(alloc, 1000, 1000, Vec::new(alloc))?;
    Ok((out, MemSink::new(alloc, 1000, 1000, Vec::new(alloc))?))
}

/// The end of a call that has written what it is to.
fn end_with(call: &Call, end: End, out: &[u8], err: &[u8]) -> Option<End> {
    if out == call.out && (err == call.err || err == call.other_err) {
        Some(end)
    } else {
        None
    }
}

/// How a call of these words on these files ends, if it writes what it is to.
fn end_on<R: Threads + Wait + Sync, P: Probe>(
    rt: &R,
    alloc: Global,
    call: &Call,
    words: &[String],
    files: &mut MemFiles,
    probe: &P,
) -> Result<Option<End>, AllocError> {
    let (mut out, mut err) = sinks(alloc)?;
    let end = end_of(&prelude(rt, alloc, words, files, &mut out, &mut err, probe));
    Ok(end_with(call, end, out.bytes(), err.bytes()))
}

/// How a call ends, if it writes what it is to.
fn told<R: Threads + Wait + Sync, P: Probe>(
    rt: &R,
    alloc: Global,
    call: &Call,
    probe: &P,
) -> Result<Option<End>, AllocError> {
    let words = words_of(alloc, call.line)?;
    let mut files = files_of(alloc, call)?;
    end_on(rt, alloc, call, words.as_slice(), &mut files, probe)
}

const SAMPLED: Call = Call {
    line: "prelude run --program p.prl --bodies p.bod --sensors p.csv --until 60 --workers 4",
    program: SAMPLING,
    rows: b"i,0,1\ni,1,2\ni,2,3\ni,3,4\ni,4,5\ni,5,6\n",
    out: b"o,0,0,1\no,1,10,2\no,2,20,3\no,3,30,6\no,4,40,7\no,5,50,8\n",
    err: b"",
    other_err: b"",
};

#[test]
fn several_workers_write_the_flows(rt: HostRuntime) -> Result<(), Fail> {
    assert!(rt; told(&rt, rt.alloc(), &SAMPLED, &NoProbe)? == Some(ENDED));
    Ok(())
}

const SAMPLED_FREELY: Call = Call {
    line: "prelude run --program p.prl --bodies p.bod --sensors p.csv --until 60 --workers 4 --clock free",
    program: SAMPLING,
    rows: b"i,0,1\ni,1,2\ni,2,3\ni,3,4\ni,4,5\ni,5,6\n",
    out: b"o,0,0,1\no,1,10,2\no,2,20,3\no,3,30,6\no,4,40,7\no,5,50,8\n",
    err: b"",
    other_err: b"",
};

/// How many calls of this kind are made.
const CALLS: u32 = 200;

/// How many of them may end otherwise. Nothing is held, so it takes a worker that gets no processor for long.
const SELDOM: u32 = 4;

/// How many of the calls do not end with all that they are to write.
fn stopped_of<R: Threads + Wait + Sync>(
    rt: &R,
    alloc: Global,
    call: &Call,
) -> Result<u32, AllocError> {
    let mut stopped: u32 = 0;
    for _ in 0..CALLS {
        if told(rt, alloc, call, &NoProbe)? != Some(ENDED) {
            stopped = stopped.saturating_add(1);
        }
    }
    Ok(stopped)
}

#[test]
fn runs_with_a_free_clock_seldom_stop(rt: HostRuntime) -> Result<(), Fail> {
    assert!(rt; stopped_of(&rt, rt.alloc(), &SAMPLED_FREELY)? <= SELDOM);
    Ok(())
}

const AT_ONCE: Call = Call {
    line: "prelude run --program p.prl --sensors p.csv --until 20 --workers 2",
    program: LANES,
    rows: b"i,0,1\ni,1,2\nj,0,3\nj,1,4\n",
    out: b"o,0,0,1\np,0,0,3\no,1,10,2\np,1,10,4\n",
    err: b"",
    other_err: b"",
};

#[test]
fn two_workers_run_at_once(rt: HostRuntime) -> Result<(), Fail> {
    let holder = Holder::new(TWO_LANES);
    assert!(rt; told(&rt, rt.alloc(), &AT_ONCE, &holder)? == Some(ENDED));
    assert!(rt; holder.calls() == 8 && !holder.in_vain());
    Ok(())
}

/// The actuator's first job is overrun by the sensor's second or third one.
const OVERRUN: Call = Call {
    line: "prelude run --program p.prl --sensors p.csv --until 30 --workers 2 --clock free",
    program: COPY,
    rows: b"i,0,1\ni,1,2\ni,2,3\n",
    out: b"",
    err: b"overrun o 0 port 0 cell 0 wanted 1 found 2\n",
    other_err: b"overrun o 0 port 0 cell 0 wanted 1 found 3\n",
};

#[test]
fn a_reader_that_is_held_is_overrun(rt: HostRuntime) -> Result<(), Fail> {
    let holder = Holder::new(A_READER);
    assert!(rt; told(&rt, rt.alloc(), &OVERRUN, &holder)? == Some(STOPPED));
    assert!(rt; !holder.in_vain());
    Ok(())
}

const IN_TIME: Call = Call {
    line: "prelude run --program p.prl --sensors p.csv --until 30 --workers 4 --clock free",
    program: FAR,
    rows: b"a,0,1\na,1,2\na,2,3\ni,0,1\ni,1,2\ni,2,3\n",
    out: b"o,0,0,1\no,1,10,2\no,2,20,3\n",
    err: b"",
    other_err: b"",
};

#[test]
fn four_workers_with_a_free_clock_end(rt: HostRuntime) -> Result<(), Fail> {
    let holder = Holder::new(A_FAR_READER);
    assert!(rt; told(&rt, rt.alloc(), &IN_TIME, &holder)? == Some(ENDED));
    assert!(rt; !holder.in_vain());
    Ok(())
}

/// Whether a call that has no runtime has no status, and writes nothing on `err`.
fn is_not_made(alloc: Global, call: &Call) -> Result<bool, AllocError> {
    let words = words_of(alloc, call.line)?;
    let mut files = files_of(alloc, call)?;
    let (mut out, mut err) = sinks(alloc)?;
    let status = prelude_alone(alloc, words.as_slice(), &mut files, &mut out, &mut err);
    Ok(status.is_none() && err.bytes().is_empty())
}

/// One worker runs where no thread can be had; several are not asked for.
#[test]
fn no_runtime_is_needed_for_one_worker(rt: HostRuntime) -> Result<(), Fail> {
    assert!(rt; is_not_made(rt.alloc(), &AT_ONCE)?);
    Ok(())
}
