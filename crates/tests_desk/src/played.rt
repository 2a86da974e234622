// Runs of the program of an answer: what its queries answer, and each refusal, in the order of the files.
use crate::calling::{Ended, ample, called_over, text_of};
use crate::checked::{ANSWER, JOB, both, changed};
use crate::runs::{ANSWERS, CALLS, STORE_CALLS};
use mig_base::{Bytes, Seq};
use mig_io::MemFiles;
use mig_storage::{FaultStore, VecStore};
use std::alloc::{AllocError, Global};
use std::test::Fail;

const LINE: &str = "|run|job|calls|ans";

/// Files in memory that fail at the listed calls and hold a job, calls and an answer.
fn three(
    alloc: Global,
    fails: &[u64],
    parts: &str,
    calls: &str,
    answer: Bytes,
) -> Result<MemFiles, AllocError> {
    let mut files = both(alloc, fails, parts, answer)?;
    let calls = Seq::from_slice(alloc, calls.as_bytes())?;
    files.hold(Seq::from_slice(alloc, b"calls")?, calls)?;
    Ok(files)
}

/// The run of calls with an answer over a store in memory, with ample sinks.
fn ran(alloc: Global, files: MemFiles) -> Result<Ended, AllocError> {
    let out = ample(alloc)?;
    let err = ample(alloc)?;
    called_over(alloc, LINE, files, out, err, VecStore::new(alloc))
}

fn ends(
    alloc: Global,
    parts: &str,
    calls: &str,
    answer: Bytes,
    status: u8,
    out: &str,
    err: &str,
) -> Result<bool, AllocError> {
    let files = three(alloc, &[], parts, calls, answer)?;
    Ok(ran(alloc, files)?.is(status, out.as_bytes(), err))
}

/// The calls; what is changed in the answer, and by what; the status, and the texts on `out` and on `err`.
const RUNS: [(&str, &str, &str, u8, &str, &str); 11] = [
    (CALLS, "end\n", "end\n", 0, ANSWERS, ""),
    ("", "end\n", "end\n", 0, "", ""),
    (
        "add,7,\"a, b\"\nget,007\nadd,7,c\nget,7\n",
        "end\n",
        "end\n",
        0,
        "1,get,1\n\"a, b\"\n3,get,2\n\"a, b\"\nc\n",
        "",
    ),
    (
        "add,7\n",
        "end\n",
        "end\n",
        11,
        "",
        "calls: record 1: arity\n",
    ),
    // Calls are refused before the answer is read.
    ("put,1\n", "end\n", "", 11, "", "calls: record 1: unknown\n"),
    (
        "get,x\n",
        "stage 0 - 0\nfold 0",
        "stage 0 - 0\nfold 1",
        11,
        "",
        "calls: record 1: value 1\n",
    ),
    (CALLS, "end\n", "", 2, "", "ans:24:1: not expected\n"),
    (
        CALLS,
        "where person.id",
        "where person.zip",
        2,
        "",
        "ans: UnknownColumn at 1 0\n",
    ),
    (
        CALLS,
        "pair add",
        "pair a_name_of_33_bytes_is_one_too_lon",
        10,
        "",
        "ans:12: limit name\n",
    ),
    (
        CALLS,
        "stage 0 - 0\nfold 0",
        "stage 0 - 0\nfold 1",
        5,
        "",
        "rejected: pair 0 obligation 0 step 1: no follow\n",
    ),
    // Calls are those of the job's program, also where the answer names its functions otherwise.
    (
        "put,7,Ann\n",
        "update add",
        "update put",
        11,
        "",
        "calls: record 1: unknown\n",
    ),
];

#[test]
fn answers_are_run_or_told_why_not(rt: HostRuntime) -> Result<(), Fail> {
    for (calls, old, new, status, out, err) in RUNS {
        let answer = changed(rt.alloc(), old, new)?;
        let right = ends(rt.alloc(), JOB, calls, answer, status, out, err)?;
        assert!(rt; right, "{new} for {old}, and {calls}");
    }
    Ok(())
}

/// Jobs that are refused before the calls and the answer, which are none; the status, and the line on `err`.
const JOBS: [(&str, u8, &str); 2] = [
    ("OLD", 2, "job:3:1: not expected\n"),
    (
        "OLD|NEW|GETTING|hints\nhint user.uid -> person.id 101;\n",
        10,
        "job:13: limit hint\n",
    ),
];

#[test]
fn jobs_are_refused_first(rt: HostRuntime) -> Result<(), Fail> {
    for (parts, status, err) in JOBS {
        let answer = text_of(rt.alloc(), "")?;
        let right = ends(rt.alloc(), parts, "put\n", answer, status, "", err)?;
        assert!(rt; right, "{parts}");
    }
    Ok(())
}

/// The call of the files that fails, and its line.
const FAILS: [(u64, &str); 3] = [
    (1, "job: cannot read\n"),
    (2, "calls: cannot read\n"),
    (3, "ans: cannot read\n"),
];

/// Whether a file that fails is told so.
fn fails_at(alloc: Global, listed: u64, err: &str) -> Result<bool, AllocError> {
    let answer = text_of(alloc, ANSWER)?;
    let files = three(alloc, &[listed], JOB, CALLS, answer)?;
    Ok(ran(alloc, files)?.is(6, b"", err))
}

#[test]
fn files_that_fail_are_told(rt: HostRuntime) -> Result<(), Fail> {
    for (listed, err) in FAILS {
        let right = fails_at(rt.alloc(), listed, err)?;
        assert!(rt; right, "call {listed}");
    }
    Ok(())
}

/// The run over a store that fails at its call of this number.
fn over_faults(alloc: Global, listed: u64) -> Result<Ended, AllocError> {
    let answer = text_of(alloc, ANSWER)?;
    let files = three(alloc, &[], JOB, CALLS, answer)?;
    let fails = Seq::from_slice(alloc, &[listed])?;
    let out = ample(alloc)?;
    let err = ample(alloc)?;
    let store = FaultStore::new(VecStore::new(alloc), fails);
    called_over(alloc, LINE, files, out, err, store)
}

#[test]
fn a_store_that_fails_is_told(rt: HostRuntime) -> Result<(), Fail> {
    for n in 1u64..20 {
        let ended = over_faults(rt.alloc(), n)?;
        let right = if n <= STORE_CALLS {
            ended.is(9, b"", "store failed\n")
        } else {
            ended.is(0, ANSWERS.as_bytes(), "")
        };
        assert!(rt; right, "call {n}");
    }
    Ok(())
}
