// That copies succeed with ample memory, and are compared by every part.
use crate::texts::untyped;
use mig_base::{Exact, Seq, Txt};
use mig_schema::{Job, Value};
use mig_tokens::Misread;
use std::alloc::{AllocError, Global};
use std::test::Fail;

/// The parts of a job: each schema with its tables and links, an update with each form of statement, a query, and hints.
const PARTS: [&str; 12] = [
    "old table t { id: key, n: int }",
    " link t.n = t.id;",
    " new table s { id: key }",
    " link s.id = s.id;",
    " program update f(p: int) {",
    " insert into t join t on t.id = t.n { t.n = \"a\", t.id = fresh 3 };",
    " delete t from t join t on t.n = t.n where t.n <= -7;",
    " set t.n = p in t where t.n = p or t.id <> t.n; }",
    " query g() {",
    " select t.n from t join t on t.n = t.id where 1 < 2 and t.n <= -7; }",
    " hints hint t.n -> s.id 1;",
    " hint t.id -> s.id 2;",
];

/// The number of a part, and what stands there in another job.
const CHANGED: [(usize, &str); 26] = [
    (0, "old table u { id: key, n: int }"),
    (0, "old table t { id: key, m: int }"),
    (0, "old table t { id: int, n: int }"),
    (0, "old table t { id: key, n: int } table t { id: key }"),
    (1, " link t.n = t.n;"),
    (2, " new table s { id: text }"),
    (3, ""),
    (4, " program update g(p: int) {"),
    (4, " program update f(q: int) {"),
    (4, " program update f(p: text) {"),
    (5, " insert into t { t.n = \"a\", t.id = fresh 3 };"),
    (
        5,
        " insert into t join t on t.id = t.n { t.id = \"a\", t.id = fresh 3 };",
    ),
    (
        5,
        " insert into t join t on t.id = t.n { t.n = \"b\", t.id = fresh 3 };",
    ),
    (
        5,
        " insert into t join t on t.id = t.n { t.n = \"a\", t.id = fresh 4 };",
    ),
    (
        6,
        " delete t, t from t join t on t.n = t.n where t.n <= -7;",
    ),
    (6, " delete t from t join t on t.n = t.id where t.n <= -7;"),
    (6, " delete t from t join t on t.n = t.n where t.n < -7;"),
    (6, " delete t from t join t on t.n = t.n where t.n <= 7;"),
    (7, " set t.id = p in t where t.n = p or t.id <> t.n; }"),
    (7, " set t.n = 0 in t where t.n = p or t.id <> t.n; }"),
    (7, " set t.n = p in t where t.n = p and t.id <> t.n; }"),
    (
        9,
        " select t.id from t join t on t.n = t.id where 1 < 2 and t.n <= -7; }",
    ),
    (
        9,
        " select t.n from t join t on t.n = t.id where 1 < 2 and -7 <= -7; }",
    ),
    (10, " hints hint t.id -> s.id 1;"),
    (10, " hints hint t.n -> s.id 2;"),
    (11, ""),
];

/// The job of the parts, with one of them changed.
fn job(alloc: Global, at: usize, other: &str) -> Result<Job, Misread> {
    let mut parts = PARTS;
    if let Some(part) = parts.get_mut(at) {
        *part = other;
    }
    untyped(alloc, parts.as_slice())
}

#[test]
fn a_copy_is_the_same(rt: HostRuntime) -> Result<(), Misread> {
    let first = untyped(rt.alloc(), &PARTS)?;
    let copy = first.twin(rt.alloc())?;
    assert!(rt; copy.same(&first) && first.same(&copy));
    Ok(())
}

#[test]
fn a_changed_part_is_not_the_same(rt: HostRuntime) -> Result<(), Misread> {
    let first = untyped(rt.alloc(), &PARTS)?;
    for (at, other) in &CHANGED {
        let changed = job(rt.alloc(), *at, other)?;
        assert!(rt; !changed.same(&first) && !first.same(&changed), "{other}");
    }
    Ok(())
}

fn text(alloc: Global, text: &str) -> Result<Txt, AllocError> {
    Seq::from_slice(alloc, text.as_bytes())
}

#[test]
fn values_are_copied_and_compared(rt: HostRuntime) -> Result<(), Fail> {
    let values = [
        Value::Int(-1),
        Value::Text(text(rt.alloc(), "1")?),
        Value::Key(1),
    ];
    for (i, value) in values.iter().enumerate() {
        let copy = value.twin(rt.alloc())?;
        for (k, other) in values.iter().enumerate() {
            assert!(rt; copy.same(other) == (i == k), "values {i} and {k}");
        }
    }
    Ok(())
}
