// Statements over joins unfolded, and views of joins folded, worked out by hand.
use crate::steps::{Sample, is_refused, leads_to};
use crate::worked::{MERGED, MOVED, PICTURES, Worked, read};
use std::alloc::{AllocError, Global};
use std::test::Fail;

/// The number of a function, a step, the expression that it is made on, and what it leads to.
type Row = (usize, &'static str, &'static str, &'static str);

const OF_PICTURES: [Row; 8] = [
    (
        0,
        "stage 0 - 0",
        "n2@1 -> 0.0 0.1",
        "n2 -> 0.0 0.1; -> k0 p2",
    ),
    (1, "stage 0 - 0", "o0@1 -> 0.0", "o0 none( p0=0.0 ) -> 0.0"),
    (
        1,
        "stage 0 - 0",
        "n0@1 -> 0.0",
        "n0 none( n2 0.2=1.0 p0=0.0 ) -> 0.0",
    ),
    (1, "stage 0 - 0", "n2@1 -> 0.0", "n2 -> 0.0"),
    (
        1,
        "stagein 0 0 1",
        "n2 any( n0@1 0.0=1.2 )",
        "n2 any( n0 0.0=1.2 none( n2 1.2=2.0 p0=1.0 ) )",
    ),
    (
        1,
        "stagein 0 0 1",
        "n2 none( n0@1 0.0=1.2 )",
        "n2 none( n0 0.0=1.2 none( n2 1.2=2.0 p0=1.0 ) )",
    ),
    (
        2,
        "fold 0 - 0 1",
        "o1 o0 -> 1.0 1.2 0.1",
        "o1 n0 n2 1.2=2.0 -> 1.0 2.1 0.1",
    ),
    (
        2,
        "foldin 0 0 0 1",
        "o1 none( o0 0.0=1.0 )",
        "o1 none( n0 n2 0.0=1.0 1.2=2.0 )",
    ),
];

const OF_MERGED: [Row; 6] = [
    (
        1,
        "stage 0 - 0",
        "o1@1 -> 0.1",
        "o1 none( o0 0.0=1.0 p0=1.1 ) -> 0.1",
    ),
    (
        2,
        "fold 0 - 0 0 1",
        "o0 o1 0.0=1.0 -> 0.1 1.1",
        "n0 -> 0.0 0.1",
    ),
    (
        2,
        "fold 0 - 0 1 0",
        "o1 o0 0.0=1.0 -> 1.1 0.1",
        "n0 -> 0.0 0.1",
    ),
    (
        2,
        "fold 0 - 0 1 2",
        "o0 o0 o1 1.0=2.0 0.1=1.1 -> 2.1",
        "o0 n0 0.1=1.0 -> 1.1",
    ),
    (
        2,
        "foldin 0 0 0 1 2",
        "o0 any( o0 o1 1.0=2.0 0.1=1.1 ) -> 0.0",
        "o0 any( n0 0.1=1.0 ) -> 0.0",
    ),
    (
        2,
        "foldin 0 1 0 1 2",
        "o0 p0=0.1 none( o0 o1 1.0=2.0 p0=1.1 )",
        "o0 p0=0.1 none( n0 p0=1.0 )",
    ),
];

const OF_MOVED: [Row; 4] = [
    (
        1,
        "stage 0 - 0",
        "o0@1 -> 0.2",
        "o0 any( p0=0.0 ) -> p1; o0 none( p0=0.0 ) -> 0.2",
    ),
    (1, "stage 0 - 0", "o0@1 -> 0.0", "o0 -> 0.0"),
    (
        1,
        "stage 0 - 0",
        "n1@1 -> 0.1",
        "n1 any( n0 0.0=1.2 p0=1.0 ) -> p1; n1 none( n0 0.0=1.2 p0=1.0 ) -> 0.1",
    ),
    (
        1,
        "stagein 0 0 1",
        "o0 any( o0@1 0.2=1.2 )",
        "o0 any( o0 p1=0.2 any( p0=1.0 ) ); o0 any( o0 0.2=1.2 none( p0=1.0 ) ) none( o0 p1=0.2 any( p0=1.0 ) )",
    ),
];

fn is_right(alloc: Global, sample: &Sample, row: &Row) -> Result<bool, AllocError> {
    let (function, used, given, want) = *row;
    leads_to(alloc, sample, function, used, given, want)
}

/// The expression of the first row that is wrong; nothing where none is.
fn first_wrong(alloc: Global, worked: &Worked, rows: &'static [Row]) -> Result<&'static str, Fail> {
    let sample = read(alloc, worked)?;
    for row in rows {
        if !is_right(alloc, &sample, row)? {
            return Ok(row.2);
        }
    }
    Ok("")
}

#[test]
fn deletes_through_a_join_leave_what_is_not_met(rt: HostRuntime) -> Result<(), Fail> {
    assert_eq!(rt; first_wrong(rt.alloc(), &PICTURES, &OF_PICTURES)?, "");
    Ok(())
}

#[test]
fn views_of_joins_are_folded(rt: HostRuntime) -> Result<(), Fail> {
    assert_eq!(rt; first_wrong(rt.alloc(), &MERGED, &OF_MERGED)?, "");
    Ok(())
}

#[test]
fn sets_have_a_term_for_each_case(rt: HostRuntime) -> Result<(), Fail> {
    assert_eq!(rt; first_wrong(rt.alloc(), &MOVED, &OF_MOVED)?, "");
    Ok(())
}

/// What is wrong with a step, the step, and the expression that it doesn't follow from.
const REFUSED: [(&str, &str, &str); 8] = [
    (
        "the tables in another order",
        "fold 0 - 0 1 0",
        "o0 o1 0.0=1.0 -> 0.1",
    ),
    ("no equality", "fold 0 - 0 0 1", "o0 o1 -> 0.1"),
    (
        "a column that no output says",
        "fold 0 - 0 0 1",
        "o0 o1 0.0=1.0 p0=0.0",
    ),
    (
        "a row that another one differs from",
        "fold 0 - 0 0 2",
        "o0 o0 o1 0.0=2.0 0~1",
    ),
    (
        "rows after the call",
        "fold 0 - 0 0 1",
        "o0@1 o1@1 0.0=1.0 -> 0.1",
    ),
    (
        "no equality in the body",
        "foldin 0 0 0 1 2",
        "o0 any( o0 o1 0.1=1.1 )",
    ),
    (
        "a row outside the body",
        "foldin 0 1 0 0 1",
        "o0 p0=0.1 any( o1 0.0=1.0 )",
    ),
    ("no view", "fold 0 - 1 0 1", "o0 o1 0.0=1.0 -> 0.1 1.1"),
];

/// The name of the first row whose step is not refused; nothing where all are.
fn first_folded(alloc: Global) -> Result<&'static str, Fail> {
    let sample = read(alloc, &MERGED)?;
    for (name, used, given) in &REFUSED {
        if !is_refused(alloc, &sample, 2, used, given) {
            return Ok(*name);
        }
    }
    Ok("")
}

#[test]
fn other_rows_are_not_folded(rt: HostRuntime) -> Result<(), Fail> {
    assert_eq!(rt; first_folded(rt.alloc())?, "");
    Ok(())
}
