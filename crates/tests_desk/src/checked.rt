// Answers that are checked: verdicts, refusals, and files that fail.
use crate::calling::{Ended, ample, called_over, one_file, text_of};
use mig_base::{Bytes, Seq};
use mig_io::MemFiles;
use mig_storage::VecStore;
use std::alloc::{AllocError, Global};
use std::test::Fail;

/// The job to which the answer is one.
pub(crate) const JOB: &str = "OLD|NEW|GETTING";

pub(crate) const ANSWER: &str =
    "answer 1\nprogram\nupdate add(id: int, nick: text) {\n  insert into person { person.id = id, person.nick = nick };\n}\nquery get(id: int) {\n  select person.nick from person where person.id = id;\n}\ninvariants\nview user { user.uid, user.nick } is person { person.id, person.nick };\ncertificate\npair add\nholds 0\nold\nstage 0 - 0\nfold 0 - 0 0\nnew\nstage 0 - 0\npair get\nanswers\nold\nfold 0 - 0 0\nnew\nend\n";

/// The entry of the first pair of functions.
const ENTRY: &str = "holds 0\nold\nstage 0 - 0\nfold 0 - 0 0\nnew\nstage 0 - 0\n";

/// Files in memory that fail at the listed calls and hold a job and an answer.
pub(crate) fn both(
    alloc: Global,
    fails: &[u64],
    parts: &str,
    answer: Bytes,
) -> Result<MemFiles, AllocError> {
    let mut files = one_file(alloc, fails, text_of(alloc, parts)?)?;
    files.hold(Seq::from_slice(alloc, b"ans")?, answer)?;
    Ok(files)
}

/// The check of an answer, with ample sinks.
pub(crate) fn checked(alloc: Global, files: MemFiles) -> Result<Ended, AllocError> {
    let out = ample(alloc)?;
    let err = ample(alloc)?;
    let store = VecStore::new(alloc);
    called_over(alloc, "|check|job|ans", files, out, err, store)
}

/// The answer with another text in the place of one that stands there, and nothing where it stands nowhere.
pub(crate) fn changed(alloc: Global, old: &str, new: &str) -> Result<Bytes, AllocError> {
    let mut text = Seq::new(alloc);
    if let Some((front, rest)) = ANSWER.split_once(old) {
        text.extend_from_slice(front.as_bytes())?;
        text.extend_from_slice(new.as_bytes())?;
        text.extend_from_slice(rest.as_bytes())?;
    }
    Ok(text)
}

/// Whether the check of an answer to a job ends so; only where the status is 0 the answer is accepted.
pub(crate) fn ends(
    alloc: Global,
    parts: &str,
    answer: Bytes,
    status: u8,
    err: &str,
) -> Result<bool, AllocError> {
    let files = both(alloc, &[], parts, answer)?;
    let out = if status == 0 { "accepted\n" } else { "" };
    Ok(checked(alloc, files)?.is(status, out.as_bytes(), err))
}

/// What is changed in the answer, and by what; the status, and the line on `err`.
const CHANGES: [(&str, &str, u8, &str); 15] = [
    ("end\n", "end\n", 0, ""),
    (
        "stage 0 - 0\nfold 0",
        "stage 0 - 0\nfold 1",
        5,
        "rejected: pair 0 obligation 0 step 1: no follow\n",
    ),
    (
        "answers\nold\nfold 0 - 0 0\n",
        "answers\nold\n",
        5,
        "rejected: pair 1 obligation 0 step 0: ends differ\n",
    ),
    (
        ENTRY,
        "",
        5,
        "rejected: pair 0 obligation 0 step 0: missing\n",
    ),
    (
        "holds 0\nold\nstage 0 - 0\nfold 0 - 0 0\nnew\nstage 0 - 0\n",
        "holds 0\nold\nstage 0 - 0\nfold 0 - 0 0\nnew\nstage 0 - 0\nholds 0\nold\nstage 0 - 0\nfold 0 - 0 0\nnew\nstage 0 - 0\n",
        5,
        "rejected: pair 0 obligation 1 step 0: extra\n",
    ),
    (
        "update add",
        "update put",
        5,
        "rejected: pair 0 obligation 0 step 0: shape\n",
    ),
    ("end\n", "en", 2, "ans:24:1: not expected\n"),
    ("end\n", "", 2, "ans:24:1: not expected\n"),
    (
        "old\nstage 0 - 0",
        "old\nstage 0 - 4294967295",
        5,
        "rejected: pair 0 obligation 0 step 0: no follow\n",
    ),
    (
        "old\nstage 0 - 0",
        "old\nstage 0 - 4294967296",
        2,
        "ans:15:11: not expected\n",
    ),
    (
        "{ user.uid, user.nick } is person { person.id, person.nick }",
        "{ user.uid } is person { person.nick }",
        5,
        "rejected: pair 2 obligation 0 step 0: shape\n",
    ),
    (
        "certificate\npair add",
        "unique new person.zip;\ncertificate\npair add",
        5,
        "rejected: pair 2 obligation 1 step 0: shape\n",
    ),
    (
        "where person.id",
        "where person.zip",
        2,
        "ans: UnknownColumn at 1 0\n",
    ),
    ("holds 0", "holds  0", 2, "ans:13:8: not expected\n"),
    (
        "pair add",
        "pair a_name_of_33_bytes_is_one_too_lon",
        10,
        "ans:12: limit name\n",
    ),
];

#[test]
fn answers_are_accepted_or_told_why_not(rt: HostRuntime) -> Result<(), Fail> {
    for (old, new, status, err) in CHANGES {
        let answer = changed(rt.alloc(), old, new)?;
        let right = ends(rt.alloc(), JOB, answer, status, err)?;
        assert!(rt; right, "{new} for {old}");
    }
    Ok(())
}

/// Jobs that are refused before the answer, or of which it is no answer; the status, and the line on `err`.
const JOBS: [(&str, u8, &str); 4] = [
    ("OLD", 2, "job:3:1: not expected\n"),
    ("OLD|OLD|GETTING", 2, "job:3:1: not expected\n"),
    (
        "OLD|NEW|GETTING|hints\nhint user.uid -> person.id 101;\n",
        10,
        "job:13: limit hint\n",
    ),
    (
        "OLD|NEW|PROGRAM",
        5,
        "rejected: pair 1 obligation 0 step 0: shape\n",
    ),
];

#[test]
fn an_answer_is_one_to_its_job_alone(rt: HostRuntime) -> Result<(), Fail> {
    for (parts, status, err) in JOBS {
        let answer = text_of(rt.alloc(), ANSWER)?;
        let right = ends(rt.alloc(), parts, answer, status, err)?;
        assert!(rt; right, "{parts}");
    }
    Ok(())
}

/// Whether a file that fails is told so.
fn fails_at(alloc: Global, listed: u64, err: &str) -> Result<bool, AllocError> {
    let files = both(alloc, &[listed], JOB, text_of(alloc, ANSWER)?)?;
    Ok(checked(alloc, files)?.is(6, b"", err))
}

#[test]
fn files_that_fail_are_told(rt: HostRuntime) -> Result<(), Fail> {
    for (listed, err) in [(1u64, "job: cannot read\n"), (2, "ans: cannot read\n")] {
        let right = fails_at(rt.alloc(), listed, err)?;
        assert!(rt; right, "call {listed}");
    }
    Ok(())
}
