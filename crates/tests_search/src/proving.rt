// What the prover makes of small programs, worked out by hand.
use crate::jobs::{job, program};
use mig_checker::{Verdict, check};
use mig_corresp::Ranker;
use mig_invariant::candidates;
use mig_prover::{Proof, prove_from};
use mig_schema::{Job, Program};
use std::alloc::{AllocError, Global};
use std::test::Fail;

/// A table gets another name.
const RENAMED: &str =
    "old table old_t { id: int, name: text } new table new_t { id: int, name: text } program update add(id: int, name: text) { insert into old_t { old_t.id = id, old_t.name = name }; } query get(id: int) { select old_t.name from old_t where old_t.id = id; }";

/// Two tables that a query joins, and no update.
const ASKED: &str =
    "old table A { id: int, n: text } table B { id: int, m: text } new table A { id: int, n: text } table B { id: int, m: text } link A.id = B.id; program query get(n: text) { select B.m from A join B on A.id = B.id where A.n = n; }";

/// A name; a job; a program over its new schema; and what is made of it under the first correspondence. With the one view of the renamed
/// table both functions are shown: rows before the insert are those of the new table, and the row that is new is the same on both sides.
const MADE: [(&str, &str, &str, &str); 4] = [
    (
        "a table with another name",
        RENAMED,
        "update add(id: int, name: text) { insert into new_t { new_t.id = id, new_t.name = name }; } query get(id: int) { select new_t.name from new_t where new_t.id = id; }",
        "closed, 1 kept, accepted",
    ),
    (
        "the query asks for another row, the view is kept",
        RENAMED,
        "update add(id: int, name: text) { insert into new_t { new_t.id = id, new_t.name = name }; } query get(id: int) { select new_t.name from new_t where new_t.id = 0; }",
        "stuck at 1, 0 dropped",
    ),
    (
        "the update writes another name, the view goes",
        RENAMED,
        "update add(id: int, name: text) { insert into new_t { new_t.id = id, new_t.name = \"x\" }; } query get(id: int) { select new_t.name from new_t where new_t.id = id; }",
        "stuck at 1, 1 dropped",
    ),
    (
        "without updates all nine candidates are kept",
        ASKED,
        "query get(n: text) { select B.m from A join B on A.id = B.id where B.m = n; }",
        "stuck at 0, 0 dropped",
    ),
];

/// The digit of a number below ten.
fn digit(number: usize) -> u8 {
    match u8::try_from(number) {
        Ok(n) => b'0'.saturating_add(n),
        Err(_) => b'?',
    }
}

/// Whether the checker accepts it, in a word.
fn accepted(verdict: Verdict) -> &'static str {
    if verdict == Verdict::Accepted {
        "accepted"
    } else {
        "rejected"
    }
}

/// What is made of a program, as the rows tell it.
fn told(alloc: Global, job: &Job, program: &Program, proof: Proof) -> Result<Vec<u8>, AllocError> {
    let mut text = Vec::new(alloc);
    match proof {
        Proof::Closed(certificate) => {
            text.extend_from_slice(b"closed, ")?;
            text.push(digit(certificate.invariants.list.len()))?;
            text.extend_from_slice(b" kept, ")?;
            let verdict = check(alloc, job, program, &certificate)?;
            text.extend_from_slice(accepted(verdict).as_bytes())?;
        }
        Proof::Stuck { query, dropped } => {
            text.extend_from_slice(b"stuck at ")?;
            text.push(digit(query as usize))?;
            text.extend_from_slice(b", ")?;
            text.push(digit(dropped.list.len()))?;
            text.extend_from_slice(b" dropped")?;
        }
    }
    Ok(text)
}

/// What is made of the program with the candidates under the first correspondence of the job.
fn made(alloc: Global, text: &str, moved: &str) -> Result<Vec<u8>, AllocError> {
    let job = job(alloc, text)?;
    let program = program(alloc, &job, moved)?;
    let Some(corr) = Ranker::new(alloc, &job)?.next()? else {
        return Err(AllocError);
    };
    let list = candidates(alloc, &job, &corr, &program)?;
    if job.program.functions.len() != program.functions.len() {
        return Err(AllocError);
    }
    let proof = prove_from(alloc, &job, &program, &list)?;
    told(alloc, &job, &program, proof)
}

#[test]
fn programs_are_closed_or_stuck(rt: HostRuntime) -> Result<(), Fail> {
    for (name, text, moved, wanted) in &MADE {
        let found = made(rt.alloc(), text, moved)?;
        let same = found.as_slice() == wanted.as_bytes();
        assert!(rt; same, "{name}");
    }
    Ok(())
}
