// Programs that are run: answers, refusals, and stores that fail.
use crate::calling::{Ended, ample, called_over, one_file, text_of};
use mig_base::{Bytes, Seq};
use mig_io::{MemFiles, MemSink};
use mig_storage::{FaultStore, VecStore};
use std::alloc::{AllocError, Global};
use std::test::Fail;

pub(crate) const CALLS: &str = "add,7,Ann\nadd,7,Bob\nadd,7,Ann\nget,7\nget,8\n";

pub(crate) const ANSWERS: &str = "3,get,3\nAnn\nAnn\nBob\n4,get,0\n";

/// How many calls of the store this run makes: one for the tables, and three for each call.
pub(crate) const STORE_CALLS: u64 = 16;

const LINE: &str = "|run|job|calls";

/// Files in memory that fail at the listed calls and hold a job and its calls.
fn both(alloc: Global, fails: &[u64], parts: &str, calls: Bytes) -> Result<MemFiles, AllocError> {
    let mut files = one_file(alloc, fails, text_of(alloc, parts)?)?;
    files.hold(Seq::from_slice(alloc, b"calls")?, calls)?;
    Ok(files)
}

/// The run of calls over a store in memory, with ample sinks.
fn ran(alloc: Global, files: MemFiles) -> Result<Ended, AllocError> {
    let out = ample(alloc)?;
    let err = ample(alloc)?;
    called_over(alloc, LINE, files, out, err, VecStore::new(alloc))
}

/// Jobs in parts, calls, the status, and the texts on `out` and on `err`.
const RUNS: [(&str, &str, u8, &str, &str); 13] = [
    ("OLD|NEW|GETTING", CALLS, 0, ANSWERS, ""),
    ("OLD|NEW|GETTING", "", 0, "", ""),
    (
        "OLD|NEW|GETTING",
        "add,7,\"a, b\"\r\n\r\nget,007",
        0,
        "1,get,1\n\"a, b\"\n",
        "",
    ),
    (
        "OLD|NEW|GETTING",
        "add,7\n",
        11,
        "",
        "calls: record 1: arity\n",
    ),
    (
        "OLD|NEW|GETTING",
        "put,1\n",
        11,
        "",
        "calls: record 1: unknown\n",
    ),
    (
        "OLD|NEW|GETTING",
        "get,x\n",
        11,
        "",
        "calls: record 1: value 1\n",
    ),
    (
        "OLD|NEW|GETTING",
        "get,7\n\nadd,7,Ann\nadd,x,Ann\nput\n",
        11,
        "",
        "calls: record 3: value 1\n",
    ),
    (
        "OLD|NEW|GETTING",
        "get,7\nadd,#7,Ann,Bob\n",
        11,
        "",
        "calls: record 2: arity\n",
    ),
    (
        "CUTTING",
        "addA,1,5\naddB,1,6\naddB,1,7\naddB,2,8\ncut,1\ngetA\ngetB\n",
        0,
        "5,getA,0\n6,getB,1\n8\n",
        "",
    ),
    // Jobs are refused before calls.
    ("OLD", "put\n", 2, "", "job:3:1: not expected\n"),
    ("OLD|OLD|GETTING", "put\n", 2, "", "job:3:1: not expected\n"),
    (
        "OLD|NEW|program\nquery get() { select user.x from user; }\n",
        "put\n",
        2,
        "",
        "job: UnknownColumn at 0 0\n",
    ),
    (
        "OLD|NEW|GETTING|hints\nhint user.uid -> person.id 101;\n",
        "put\n",
        10,
        "",
        "job:13: limit hint\n",
    ),
];

fn ends(
    alloc: Global,
    parts: &str,
    calls: &str,
    status: u8,
    out: &str,
    err: &str,
) -> Result<bool, AllocError> {
    let calls = Seq::from_slice(alloc, calls.as_bytes())?;
    let files = both(alloc, &[], parts, calls)?;
    Ok(ran(alloc, files)?.is(status, out.as_bytes(), err))
}

#[test]
fn runs_end_with_their_texts(rt: HostRuntime) -> Result<(), Fail> {
    for (parts, calls, status, out, err) in RUNS {
        let right = ends(rt.alloc(), parts, calls, status, out, err)?;
        assert!(rt; right, "{parts} and {calls}");
    }
    Ok(())
}

/// A file of calls of so many records without arguments.
fn many_calls(alloc: Global, count: u32) -> Result<Bytes, AllocError> {
    let mut text = Seq::new(alloc);
    for _ in 0..count {
        text.extend_from_slice(b"getA\n")?;
    }
    Ok(text)
}

/// A file of 8,388,609 bytes: one byte twice as often, 23 times, and one more.
fn long_calls(alloc: Global) -> Result<Bytes, AllocError> {
    let mut text = Seq::from_slice(alloc, b"x")?;
    for _ in 0..23 {
        let half = Seq::from_slice(alloc, text.as_slice())?;
        text.extend_from_slice(half.as_slice())?;
    }
    text.push(b'x')?;
    Ok(text)
}

fn is_too_much(alloc: Global, calls: Bytes, err: &str) -> Result<bool, AllocError> {
    let files = both(alloc, &[], "CUTTING", calls)?;
    Ok(ran(alloc, files)?.is(10, b"", err))
}

#[test]
fn too_much_is_refused(rt: HostRuntime) -> Result<(), Fail> {
    let many = many_calls(rt.alloc(), 100_001)?;
    assert!(rt; is_too_much(rt.alloc(), many, "calls:0: limit calls\n")?);
    let long = long_calls(rt.alloc())?;
    let line = "calls: longer than 8388608 bytes\n";
    assert!(rt; is_too_much(rt.alloc(), long, line)?);
    Ok(())
}

/// Whether a file that fails is told so.
fn fails_at(alloc: Global, listed: u64, err: &str) -> Result<bool, AllocError> {
    let calls = text_of(alloc, CALLS)?;
    let files = both(alloc, &[listed], "OLD|NEW|GETTING", calls)?;
    Ok(ran(alloc, files)?.is(6, b"", err))
}

#[test]
fn files_that_fail_are_told(rt: HostRuntime) -> Result<(), Fail> {
    for (listed, err) in [(1u64, "job: cannot read\n"), (2, "calls: cannot read\n")] {
        let right = fails_at(rt.alloc(), listed, err)?;
        assert!(rt; right, "call {listed}");
    }
    Ok(())
}

/// The run over a store that fails at its call of this number.
fn over_faults(alloc: Global, listed: u64) -> Result<Ended, AllocError> {
    let calls = text_of(alloc, CALLS)?;
    let files = both(alloc, &[], "OLD|NEW|GETTING", calls)?;
    let fails = Seq::from_slice(alloc, &[listed])?;
    let out = ample(alloc)?;
    let err = ample(alloc)?;
    let store = FaultStore::new(VecStore::new(alloc), fails);
    called_over(alloc, LINE, files, out, err, store)
}

#[test]
fn a_store_that_fails_is_told(rt: HostRuntime) -> Result<(), Fail> {
    for n in 1u64..30 {
        let ended = over_faults(rt.alloc(), n)?;
        let right = if n <= STORE_CALLS {
            ended.is(9, b"", "store failed\n")
        } else {
            ended.is(0, ANSWERS.as_bytes(), "")
        };
        assert!(rt; right, "call {n}");
    }
    Ok(())
}

/// The run into a sink that takes 16 bytes at a time and fails at its put of this number.
fn into_faults(alloc: Global, listed: u64) -> Result<Ended, AllocError> {
    let calls = text_of(alloc, CALLS)?;
    let files = both(alloc, &[], "OLD|NEW|GETTING", calls)?;
    let out = MemSink::new(alloc, 4096, 16, Seq::from_slice(alloc, &[listed])?)?;
    let err = ample(alloc)?;
    called_over(alloc, LINE, files, out, err, VecStore::new(alloc))
}

/// The put that fails, the status, and what the sink has then.
const CUT: [(u64, u8, &str); 3] = [(1, 7, ""), (2, 7, "3,get,3\nAnn\nAnn\n"), (3, 0, ANSWERS)];

#[test]
fn answers_are_cut_where_a_sink_fails(rt: HostRuntime) -> Result<(), Fail> {
    for (n, status, out) in CUT {
        let ended = into_faults(rt.alloc(), n)?;
        assert!(rt; ended.is(status, out.as_bytes(), ""), "put {n}");
    }
    Ok(())
}
