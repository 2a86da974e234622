// Candidate invariants in their order, worked out by hand.
use crate::jobs::{MOVED, PICTURES, job, program};
use mig_corresp::Ranker;
use mig_invariant::candidates;
use mig_meaning::{Invariant, Invariants, View};
use mig_schema::{ColId, Side};
use std::alloc::{AllocError, Global};
use std::test::Fail;

/// Two tables that a query joins by columns that are no keys.
const JOINED: &str =
    "old table A { id: int, n: text } table B { id: int, m: text } new table A { id: int, n: text } table B { id: int, m: text } link A.id = B.id; program query get(n: text) { select B.m from A join B on A.id = B.id where A.n = n; }";

/// The same query over the new tables.
const JOINED_ANEW: &str =
    "query get(n: text) { select B.m from A join B on A.id = B.id where A.n = n; }";

/// A name; a job; the program over its new schema; and the candidates under the first correspondence. They are told so: two views by v
/// and the columns of each; another fact by its first letter, o or n for its side, and its columns; a column by the numbers of its
/// table and of itself.
const LISTED: [(&str, &str, &str, &[&str]); 2] = [
    (
        "the pictures of two tables move to a third",
        PICTURES,
        MOVED,
        &[
            "v 000102 000121",
            "v 101112 101121",
            "u n02",
            "u n12",
            "u n20",
            "a n0212",
            "a n0220",
            "a n1220",
            "w n0220",
            "w n1220",
            "w n2002",
            "w n2012",
        ],
    ),
    (
        "columns of equalities that are no keys",
        JOINED,
        JOINED_ANEW,
        &[
            "v 00011011 00011011",
            "u o00",
            "u o10",
            "u n00",
            "u n10",
            "w o0010",
            "w o1000",
            "w n0010",
            "w n1000",
        ],
    ),
];

/// The digit of a number below ten.
fn digit(number: u32) -> u8 {
    match u8::try_from(number) {
        Ok(n) => b'0'.saturating_add(n),
        Err(_) => b'?',
    }
}

/// Adds the columns, two digits each.
fn tell_columns(text: &mut Vec<u8>, columns: &[ColId]) -> Result<(), AllocError> {
    for column in columns {
        text.push(digit(column.table))?;
        text.push(digit(column.column))?;
    }
    Ok(())
}

/// Adds the columns of both views.
fn tell_views(text: &mut Vec<u8>, source: &View, target: &View) -> Result<(), AllocError> {
    text.extend_from_slice(b"v ")?;
    tell_columns(text, source.outs.as_slice())?;
    text.push(b' ')?;
    tell_columns(text, target.outs.as_slice())
}

/// Adds the letter, the side and the columns.
fn tell_fact(
    text: &mut Vec<u8>,
    letter: u8,
    side: Side,
    columns: &[ColId],
) -> Result<(), AllocError> {
    text.push(letter)?;
    text.push(b' ')?;
    text.push(if side == Side::Old { b'o' } else { b'n' })?;
    tell_columns(text, columns)
}

/// The invariant, as the lists tell it.
fn told(alloc: Global, invariant: &Invariant) -> Result<Vec<u8>, AllocError> {
    let mut text = Vec::new(alloc);
    match invariant {
        Invariant::Views { source, target } => tell_views(&mut text, source, target)?,
        Invariant::Unique { side, column } => tell_fact(&mut text, b'u', *side, &[*column])?,
        Invariant::Apart { side, left, right } => {
            tell_fact(&mut text, b'a', *side, &[*left, *right])?
        }
        Invariant::Within { side, left, right } => {
            tell_fact(&mut text, b'w', *side, &[*left, *right])?
        }
    }
    Ok(text)
}

/// The candidates under the first correspondence of the job.
fn listed(alloc: Global, text: &str, moved: &str) -> Result<Invariants, AllocError> {
    let job = job(alloc, text)?;
    let program = program(alloc, &job, moved)?;
    match Ranker::new(alloc, &job)?.next()? {
        Some(corr) => candidates(alloc, &job, &corr, &program),
        None => Err(AllocError),
    }
}

/// How many of the candidates come as they are told, before the first that does not; one more where there are more than are told.
fn alike(alloc: Global, found: &[Invariant], wanted: &[&str]) -> Result<usize, AllocError> {
    for (place, invariant) in found.iter().enumerate() {
        let text = told(alloc, invariant)?;
        match wanted.get(place) {
            Some(want) if text.as_slice() == want.as_bytes() => {}
            Some(_) => return Ok(place),
            None => return Ok(wanted.len().saturating_add(1)),
        }
    }
    Ok(found.len())
}

#[test]
fn candidates_come_in_order(rt: HostRuntime) -> Result<(), Fail> {
    for (name, text, moved, wanted) in &LISTED {
        let found = listed(rt.alloc(), text, moved)?;
        let count = alike(rt.alloc(), found.list.as_slice(), wanted)?;
        assert_eq!(rt; count, wanted.len(), "{name}");
    }
    Ok(())
}
