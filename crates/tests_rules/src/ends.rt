// The expressions that are to be shown equal, taken to their ends by first steps; the ends were worked out by hand.
use crate::expressions::sum;
use crate::steps::{Sample, pair};
use crate::worked::{EITHER, MERGED, MOVED, PICTURES, RENAMED, TWICE, Worked, read};
use mig_algebra::{Expr, is_scoped, tidy};
use mig_base::Exact;
use mig_rules::{Facts, Obligation, Step, answers, apply, first, holds};
use std::alloc::{AllocError, Global};
use std::test::Fail;

/// The number of a function, that of an invariant that is to hold after it or `answers`, and the ends of the old and
/// the new expression; `=` is the old one's end again.
type Row = (usize, &'static str, &'static str, &'static str);

/// What comes of pictures that move from two tables to a third.
const OF_PICTURES: [Row; 34] = [
    (0, "0", "n0 n2 0.2=1.0 -> 0.0 0.1 1.1; -> p0 p1 p2", "="),
    (0, "1", "n1 n2 0.2=1.0 -> 0.0 0.1 1.1", "="),
    (0, "2", "", "="),
    (0, "3", "", "="),
    (0, "4", "", "="),
    (0, "5", "", "="),
    (0, "6", "", "="),
    (0, "7", "", "="),
    (1, "0", "n0 n2 p0<>0.0 0.2=1.0 -> 0.0 0.1 1.1", "="),
    (1, "1", "n1 n2 0.2=1.0 -> 0.0 0.1 1.1", "="),
    (1, "2", "", "="),
    (1, "3", "", "="),
    (1, "4", "", "="),
    (1, "5", "", "="),
    (1, "6", "", "="),
    (1, "7", "", "="),
    (2, "answers", "n0 n2 p0=0.0 0.2=1.0 -> 0.1 1.1", "="),
    (3, "0", "n0 n2 0.2=1.0 -> 0.0 0.1 1.1", "="),
    (3, "1", "n1 n2 0.2=1.0 -> 0.0 0.1 1.1; -> p0 p1 p2", "="),
    (3, "2", "", "="),
    (3, "3", "", "="),
    (3, "4", "", "="),
    (3, "5", "", "="),
    (3, "6", "", "="),
    (3, "7", "", "="),
    (4, "0", "n0 n2 0.2=1.0 -> 0.0 0.1 1.1", "="),
    (4, "1", "n1 n2 p0<>0.0 0.2=1.0 -> 0.0 0.1 1.1", "="),
    (4, "2", "", "="),
    (4, "3", "", "="),
    (4, "4", "", "="),
    (4, "5", "", "="),
    (4, "6", "", "="),
    (4, "7", "", "="),
    (5, "answers", "n1 n2 p0=0.0 0.2=1.0 -> 0.1 1.1", "="),
];

/// What comes of two tables that become one.
const OF_MERGED: [Row; 9] = [
    (0, "0", "n0 -> 0.0 0.1; -> p0 p1", "="),
    (0, "1", "", "="),
    (0, "2", "", "="),
    (0, "3", "", "="),
    (1, "0", "n0 p0<>0.0 -> 0.0 0.1", "="),
    (1, "1", "", "="),
    (1, "2", "", "="),
    (1, "3", "", "="),
    (2, "answers", "n0 p0=0.0 -> 0.1", "="),
];

/// What comes of a set of a column that moves.
const OF_MOVED: [Row; 11] = [
    (0, "0", "n0 n1 0.2=1.0 -> 0.0 0.1 1.1; -> p0 p1 p2", "="),
    (0, "1", "", "="),
    (0, "2", "", "="),
    (0, "3", "", "="),
    (0, "4", "", "="),
    (
        1,
        "0",
        "n0 p0=0.0 -> p0 0.1 p1; n0 n1 p0<>0.0 0.2=1.0 -> 0.0 0.1 1.1",
        "=",
    ),
    (1, "1", "", "="),
    (1, "2", "", "="),
    (1, "3", "", "="),
    (1, "4", "", "="),
    (2, "answers", "n0 n1 p0=0.0 0.2=1.0 -> 0.1 1.1", "="),
];

/// What comes of columns that get other names.
const OF_RENAMED: [Row; 2] = [
    (0, "0", "n0 -> 0.0 0.1; -> p0 p1", "="),
    (1, "answers", "n0 p0=0.0 -> 0.1", "="),
];

/// The rows of the first case, and those of the second that are none of the first.
const OF_EITHER: [Row; 1] = [(
    0,
    "answers",
    "o0 1=0.0 -> 1; o0 2=0.1 1<>0.0 -> 0.0",
    "n0 1=0.0 -> 1; n0 2=0.1 1<>0.0 -> 0.0",
)];

/// Two rows with one key are left, either first: a column with it is not unique.
const OF_TWICE: [Row; 1] = [(0, "0", "->;->", "")];

/// What a step leads to.
fn next(alloc: Global, facts: &Facts, step: &Step, expr: &Expr) -> Result<Expr, AllocError> {
    match apply(alloc, facts, step, expr) {
        Ok(next) => Ok(next),
        Err(_) => Err(AllocError),
    }
}

/// The expression that first steps lead to, from which none follows; want of memory where there are a hundred steps.
fn end_of(alloc: Global, facts: &Facts, given: Expr) -> Result<Expr, AllocError> {
    let mut expr = given;
    for _ in 0..100 {
        let Some(step) = first(alloc, facts, &expr)? else {
            return Ok(expr);
        };
        expr = next(alloc, facts, &step, &expr)?;
    }
    Err(AllocError)
}

fn tidied(alloc: Global, expr: &Expr) -> Result<Expr, AllocError> {
    if is_scoped(expr) {
        tidy(alloc, expr)
    } else {
        Err(AllocError)
    }
}

/// Whether an expression comes to this end, when both are tidied.
fn ends_as(alloc: Global, facts: &Facts, given: Expr, want: &str) -> Result<bool, AllocError> {
    let end = end_of(alloc, facts, given)?;
    let want = sum(alloc, want)?;
    Ok(tidied(alloc, &end)?.same(&tidied(alloc, &want)?))
}

/// What is to be shown of an invariant of a number, or of the answers.
fn shown(alloc: Global, facts: &Facts, claim: &str) -> Result<Obligation, AllocError> {
    let Ok(k) = claim.parse::<usize>() else {
        return answers(alloc, facts.pair);
    };
    match facts.invariants.list.get(k) {
        Some(invariant) => holds(alloc, facts.pair, invariant),
        None => Err(AllocError),
    }
}

/// Whether both expressions come to these ends.
fn are_ends(
    alloc: Global,
    facts: &Facts,
    claim: &str,
    source: &str,
    target: &str,
) -> Result<bool, AllocError> {
    let shown = shown(alloc, facts, claim)?;
    let target = if target == "=" { source } else { target };
    let Obligation {
        source: old,
        target: new,
    } = shown;
    Ok(ends_as(alloc, facts, old, source)? && ends_as(alloc, facts, new, target)?)
}

/// Whether a row is right.
fn is_right(alloc: Global, sample: &Sample, row: &Row) -> Result<bool, AllocError> {
    let (function, claim, source, target) = *row;
    let Some(pair) = pair(sample, function) else {
        return Ok(false);
    };
    let facts = Facts {
        pair: &pair,
        invariants: &sample.invariants,
    };
    are_ends(alloc, &facts, claim, source, target)
}

/// How many rows are right before the first that is not.
fn right_rows(alloc: Global, worked: &Worked, rows: &[Row]) -> Result<usize, Fail> {
    let sample = read(alloc, worked)?;
    for (n, row) in rows.iter().enumerate() {
        if !is_right(alloc, &sample, row)? {
            return Ok(n);
        }
    }
    Ok(rows.len())
}

#[test]
fn pictures_move_to_a_third_table(rt: HostRuntime) -> Result<(), Fail> {
    assert_eq!(rt; right_rows(rt.alloc(), &PICTURES, &OF_PICTURES)?, 34);
    Ok(())
}

#[test]
fn two_tables_become_one(rt: HostRuntime) -> Result<(), Fail> {
    assert_eq!(rt; right_rows(rt.alloc(), &MERGED, &OF_MERGED)?, 9);
    Ok(())
}

#[test]
fn a_column_that_is_set_moves(rt: HostRuntime) -> Result<(), Fail> {
    assert_eq!(rt; right_rows(rt.alloc(), &MOVED, &OF_MOVED)?, 11);
    Ok(())
}

#[test]
fn columns_get_other_names(rt: HostRuntime) -> Result<(), Fail> {
    assert_eq!(rt; right_rows(rt.alloc(), &RENAMED, &OF_RENAMED)?, 2);
    Ok(())
}

#[test]
fn a_row_of_both_cases_stands_in_the_first(rt: HostRuntime) -> Result<(), Fail> {
    assert_eq!(rt; right_rows(rt.alloc(), &EITHER, &OF_EITHER)?, 1);
    Ok(())
}

#[test]
fn a_key_that_is_inserted_twice_is_not_unique(rt: HostRuntime) -> Result<(), Fail> {
    assert_eq!(rt; right_rows(rt.alloc(), &TWICE, &OF_TWICE)?, 1);
    Ok(())
}
