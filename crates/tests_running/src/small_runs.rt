// Runs of one program by the definitions, with the answers worked out by hand.
use crate::texts::job;
use mig_base::{Seq, Txt};
use mig_meaning::{Calls, Keys, Outcome, Reply, Row, State, run_small};
use mig_schema::{Job, Schema};
use mig_store::{read_calls, value_text};
use std::alloc::{AllocError, Global};
use std::test::Fail;

const JOB: &str = "old
table A { id: int, x: int }
table B { id: int, y: int }
table C { y: int, z: int }
table K { k: key, l: key }
new
program
update addA(i: int, x: int) { insert into A { A.id = i, A.x = x }; }
update addB(i: int, y: int) { insert into B { B.id = i, B.y = y }; }
update addC(y: int, z: int) { insert into C { C.y = y, C.z = z }; }
update pair() {
  insert into K { K.k = fresh 0, K.l = fresh 1 };
  insert into K { K.k = fresh 1, K.l = fresh 0 };
}
update cut(i: int) { delete A, B from A join B on A.id = B.id where A.id = i; }
update move(i: int) { set B.id = i in A join B on A.id = B.id; }
query getA() { select A.id, A.x from A; }
query getB() { select B.id, B.y from B; }
query getK() { select K.k, K.l from K; }
query some() { select A.id from A where A.x = 5 or A.x >= 7 and A.id = 3; }
query three() { select A.x, C.z from A join B on A.id = B.id join C on B.y = C.y; }
";

/// What runs are called, their calls, and the answers of their queries: each behind a `|`, each row with a `;` behind it.
const RUNS: [(&str, &str, &str); 6] = [
    (
        "a delete from two tables",
        "addA,1,5\naddB,1,6\naddB,1,7\naddB,2,8\ncut,1\ngetA\ngetB\n",
        "| | 2 8 ; ",
    ),
    (
        "two rows that are alike",
        "addA,1,5\naddA,1,5\ngetA\n",
        "| 1 5 ; 1 5 ; ",
    ),
    (
        "a set through a join",
        "addA,1,5\naddB,1,6\naddB,2,7\nmove,9\ngetB\n",
        "| 9 6 ; 2 7 ; ",
    ),
    (
        "fresh keys",
        "pair\npair\ngetK\n",
        "| #0 #1 ; #1 #0 ; #16 #17 ; #17 #16 ; ",
    ),
    (
        "a condition of two cases",
        "addA,1,5\naddA,2,7\naddA,3,7\naddA,4,6\nsome\n",
        "| 1 ; 3 ; ",
    ),
    (
        "a join of three tables",
        "addA,1,5\naddA,2,6\naddB,1,10\naddB,1,11\naddB,2,10\naddC,10,100\naddC,11,101\naddC,10,102\nthree\n",
        "| 5 100 ; 5 102 ; 5 101 ; 6 100 ; 6 102 ; ",
    ),
];

/// The state of empty tables.
fn empty_state(alloc: Global, schema: &Schema) -> Result<State, AllocError> {
    let mut tables = Seq::new(alloc);
    for _table in schema.tables.as_slice() {
        tables.push(Seq::new(alloc))?;
    }
    Ok(State { tables, next: 0 })
}

/// Keys for 20 calls.
fn supply(alloc: Global) -> Result<Keys, AllocError> {
    let mut keys = Seq::new(alloc);
    for key in 0..320 {
        keys.push(key)?;
    }
    Ok(Keys { keys })
}

/// What each of the calls leaves and answers, by the definitions, from empty tables.
pub(crate) fn outcomes(
    alloc: Global,
    job: &Job,
    calls: &Calls,
) -> Result<Seq<Outcome>, AllocError> {
    let start = empty_state(alloc, &job.source)?;
    let keys = supply(alloc)?;
    run_small(alloc, &job.source, &job.program, &start, calls, &keys)
}

fn push_row(alloc: Global, text: &mut Txt, row: &Row) -> Result<(), AllocError> {
    for value in row.values.as_slice() {
        text.extend_from_slice(value_text(alloc, value)?.as_slice())?;
        text.extend_from_slice(b" ")?;
    }
    text.extend_from_slice(b"; ")
}

fn push_rows(alloc: Global, text: &mut Txt, rows: &[Row]) -> Result<(), AllocError> {
    text.extend_from_slice(b"| ")?;
    for row in rows {
        push_row(alloc, text, row)?;
    }
    Ok(())
}

/// The answers of the queries, rows in the order of the definitions.
fn shown(alloc: Global, outcomes: &[Outcome]) -> Result<Txt, AllocError> {
    let mut text = Seq::new(alloc);
    for outcome in outcomes {
        if let Reply::Rows(answer) = &outcome.reply {
            push_rows(alloc, &mut text, answer.rows.as_slice())?;
        }
    }
    Ok(text)
}

/// Whether these calls of the program answer so.
fn answers(alloc: Global, job: &Job, calls: &str, want: &str) -> Result<bool, Fail> {
    let calls = read_calls(alloc, &job.program, calls.as_bytes())?;
    let outcomes = outcomes(alloc, job, &calls)?;
    let text = shown(alloc, outcomes.as_slice())?;
    Ok(text.as_slice() == want.as_bytes())
}

#[test]
fn runs_are_as_worked_out(rt: HostRuntime) -> Result<(), Fail> {
    let job = job(rt.alloc(), JOB)?;
    for (name, calls, want) in RUNS {
        let right = answers(rt.alloc(), &job, calls, want)?;
        assert!(rt; right, "{name}");
    }
    Ok(())
}
