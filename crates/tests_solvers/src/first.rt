// First models that were worked out by hand, and of families whose first model is known.
use crate::listed::is_told;
use mig_base::{Exact, Seq};
use mig_dimacs::{ReadError, read_cnf};
use mig_sat::{Cnf, SatLit, solve};
use std::alloc::{AllocError, Global};
use std::test::Fail;

/// A name, clauses, and the first model that is wanted.
const CASES: [[&str; 3]; 12] = [
    ["one of two and not both", "p cnf 2 2 1 2 0 -1 -2 0", "10"],
    ["a variable and its negation", "p cnf 1 2 1 0 -1 0", "none"],
    [
        "an empty clause behind others",
        "p cnf 2 3 2 0 0 1 0",
        "none",
    ],
    ["no variables, no clauses", "p cnf 0 0", ""],
    ["no variables, an empty clause", "p cnf 0 1 0", "none"],
    ["no clauses", "p cnf 3 0", "111"],
    ["a literal twice", "p cnf 2 1 -2 -2 0", "10"],
    ["a literal and its negation", "p cnf 1 1 -1 1 0", "1"],
    [
        "the last variable decides against the first",
        "p cnf 3 3 -1 3 0 -3 0 1 2 0",
        "010",
    ],
    [
        "four clauses over the last two of four variables",
        "p cnf 4 4 3 4 0 3 -4 0 -3 4 0 -3 -4 0",
        "none",
    ],
    [
        "at most one of four",
        "p cnf 4 6 -1 -2 0 -1 -3 0 -1 -4 0 -2 -3 0 -2 -4 0 -3 -4 0",
        "1000",
    ],
    [
        "the choice of the first variable fails late",
        "p cnf 4 4 -1 -2 4 0 -1 -2 -4 0 -1 2 3 0 -1 2 -3 0",
        "0111",
    ],
];

/// Whether the first model of the clauses is the one that is told.
fn is_first(alloc: Global, text: &str, want: &str) -> Result<bool, ReadError> {
    let cnf = read_cnf(alloc, text.as_bytes())?;
    let model = solve(alloc, &cnf)?;
    Ok(cnf.is_in_range() && is_told(&model, want))
}

#[test]
fn first_models_are_as_by_hand(rt: HostRuntime) -> Result<(), Fail> {
    for [name, text, want] in &CASES {
        assert!(rt; is_first(rt.alloc(), text, want)?, "{name}");
    }
    Ok(())
}

/// A clause of two literals.
fn pair(alloc: Global, positive: bool, vars: [u32; 2]) -> Result<Seq<SatLit>, AllocError> {
    let mut clause = Seq::new(alloc);
    for var in vars {
        clause.push(SatLit { var, positive })?;
    }
    Ok(clause)
}

/// Of each variable and the next one is true, and not both.
fn alternating(alloc: Global, vars: u32) -> Result<Cnf, AllocError> {
    let mut clauses = Seq::new(alloc);
    for var in 1..vars {
        clauses.push(pair(alloc, true, [var - 1, var])?)?;
        clauses.push(pair(alloc, false, [var - 1, var])?)?;
    }
    Ok(Cnf { vars, clauses })
}

/// Each pigeon has a hole of its own, where there is one pigeon more than holes: no model.
fn pigeons(alloc: Global, holes: u32) -> Result<Cnf, AllocError> {
    let pigeons = holes.saturating_add(1);
    let vars = holes.saturating_mul(pigeons);
    let mut clauses = Seq::new(alloc);
    for pigeon in 0..pigeons {
        clauses.push(row_of(alloc, pigeon.saturating_mul(holes), holes)?)?;
    }
    for number in 0..vars {
        put_rivals(alloc, &mut clauses, number, holes)?;
    }
    Ok(Cnf { vars, clauses })
}

/// So many variables from one on, as a clause.
fn row_of(alloc: Global, from: u32, count: u32) -> Result<Seq<SatLit>, AllocError> {
    let mut clause = Seq::new(alloc);
    for var in from..from.saturating_add(count) {
        clause.push(SatLit {
            var,
            positive: true,
        })?;
    }
    Ok(clause)
}

/// No earlier pigeon has the same hole.
fn put_rivals(
    alloc: Global,
    clauses: &mut Seq<Seq<SatLit>>,
    number: u32,
    holes: u32,
) -> Result<(), AllocError> {
    for earlier in 0..number {
        if (number - earlier).checked_rem(holes) == Some(0) {
            clauses.push(pair(alloc, false, [earlier, number])?)?;
        }
    }
    Ok(())
}

#[test]
fn every_second_variable_is_true(rt: HostRuntime) -> Result<(), Fail> {
    let cnf = alternating(rt.alloc(), 2000)?;
    assert!(rt; cnf.is_in_range(), "out of range");
    let model = solve(rt.alloc(), &cnf)?.ok_or("no model")?;
    for (var, value) in model.values.as_slice().iter().enumerate() {
        assert!(rt; *value == (var % 2 == 0), "variable {var}");
    }
    Ok(())
}

#[test]
fn six_pigeons_have_no_model_in_five_holes(rt: HostRuntime) -> Result<(), Fail> {
    let cnf = pigeons(rt.alloc(), 5)?;
    assert!(rt; cnf.is_in_range(), "out of range");
    assert!(rt; solve(rt.alloc(), &cnf)?.is_none(), "a model");
    Ok(())
}

#[test]
fn clauses_are_copied_and_compared(rt: HostRuntime) -> Result<(), Fail> {
    let cnf = alternating(rt.alloc(), 3)?;
    let longer = alternating(rt.alloc(), 4)?;
    assert!(rt; cnf.twin(rt.alloc())?.same(&cnf));
    assert!(rt; !cnf.same(&longer));
    Ok(())
}

#[test]
fn models_are_copied(rt: HostRuntime) -> Result<(), Fail> {
    let cnf = alternating(rt.alloc(), 3)?;
    assert!(rt; cnf.is_in_range(), "out of range");
    let model = solve(rt.alloc(), &cnf)?.ok_or("no model")?;
    assert!(rt; model.twin(rt.alloc())?.same(&model));
    Ok(())
}
