// How long the first step of an expression takes to be found, and how long a chain of first steps takes.
ghost use Rattle.std.specs.Prelude.{◌≡◌};

use crate::completing::job_of;
use mig_algebra::{Atom, Expr, Invariants, Lit, Term, Var};
use mig_base::Seq;
use mig_rules::{Facts, Pair, Taken, first, none_known, take_first};
use mig_schema::{Job, Op, Side};
use std::alloc::{AllocError, Global};
use std::io;
use std::rt::Runtime;
use std::time::Instant;

/// Four statements, which leave the second table alone.
const FOUR: &str =
    "old table t { x: int } table u { x: int } new table t { x: int } table u { x: int }
program update four() { insert into t { t.x = 1 }; insert into t { t.x = 2 }; insert into t { t.x = 3 }; insert into t { t.x = 4 }; }";

/// How the first steps of expressions are looked for.
#[derive(Clone, Copy)]
pub enum Steps {
    /// The first step of a sum of so many terms, each of so many comparisons, from which none follows; so many times.
    None(u32, u32, u32),
    /// First steps in turn from a sum of so many terms.
    Chain(u32),
}

/// A term of sixteen rows of the second table after the fourth statement.
fn late_rows(alloc: Global) -> Result<Term, AllocError> {
    let mut vars = Seq::new(alloc);
    for _ in 0..16 {
        vars.push(Var {
            side: Side::Old,
            table: 1,
            stage: 4,
        })?;
    }
    Ok(Term {
        vars,
        lits: Seq::new(alloc),
        head: Seq::new(alloc),
    })
}

/// A sum of so many such terms.
fn late_sum(alloc: Global, count: u32) -> Result<Expr, AllocError> {
    let mut terms = Seq::new(alloc);
    for _ in 0..count {
        terms.push(late_rows(alloc)?)?;
    }
    Ok(Expr { terms })
}

/// How many first steps follow in turn, up to a million.
fn steps_of(alloc: Global, facts: &Facts, given: Expr) -> Result<u32, AllocError> {
    let mut expr = given;
    let mut quiet = none_known(alloc, &expr)?;
    for turn in 0..1_000_000u32 {
        let taken = take_first(alloc, facts, &expr, quiet)?;
        let Some(taken) = taken else {
            return Ok(turn);
        };
        Taken {
            next: expr,
            quiet,
            ..
        } = taken;
    }
    Ok(1_000_000)
}

/// How many of so many looks find a step.
fn found_of(alloc: Global, facts: &Facts, expr: &Expr, times: u32) -> Result<u32, AllocError> {
    let mut found = 0u32;
    for _ in 0..times {
        if first(alloc, facts, expr)?.is_some() {
            found = found.saturating_add(1);
        }
    }
    Ok(found)
}

/// How many steps there are, with the sum at hand.
fn counted(alloc: Global, job: &Job, steps: Steps, expr: Expr) -> Result<u32, AllocError> {
    let Some(function) = job.program.functions.get(0) else {
        return Err(AllocError);
    };
    let pair = Pair {
        source: &job.source,
        target: &job.target,
        source_fn: function,
        target_fn: function,
    };
    let invariants = Invariants {
        list: Seq::new(alloc),
    };
    let facts = Facts {
        pair: &pair,
        invariants: &invariants,
    };
    match steps {
        Steps::None(_, _, times) => found_of(alloc, &facts, &expr, times),
        Steps::Chain(_) => steps_of(alloc, &facts, expr),
    }
}

/// A comparison of a column with a parameter, for each number another one.
fn comparison(number: u32) -> Lit {
    Lit::Cmp {
        op: Op::Ne,
        left: Atom::Param(0),
        right: Atom::Col {
            var: 0,
            column: number,
        },
    }
}

/// A row of the second table with so many comparisons, and with a number of its own.
fn still_row(alloc: Global, number: u32, comparisons: u32) -> Result<Term, AllocError> {
    let mut vars = Seq::new(alloc);
    vars.push(Var {
        side: Side::Old,
        table: 1,
        stage: 0,
    })?;
    let mut lits = Seq::new(alloc);
    for k in 0..comparisons {
        lits.push(comparison(k))?;
    }
    let mut head = Seq::new(alloc);
    head.push(Atom::Int(i64::from(number)))?;
    Ok(Term { vars, lits, head })
}

/// A sum of so many such rows, from which no step follows.
fn still_sum(alloc: Global, count: u32, comparisons: u32) -> Result<Expr, AllocError> {
    let mut terms = Seq::new(alloc);
    for n in 0..count {
        terms.push(still_row(alloc, n, comparisons)?)?;
    }
    Ok(Expr { terms })
}

/// The sum that is looked at.
fn looked_at(alloc: Global, steps: Steps) -> Result<Expr, AllocError> {
    match steps {
        Steps::None(terms, comparisons, _) => still_sum(alloc, terms, comparisons),
        Steps::Chain(terms) => late_sum(alloc, terms),
    }
}

/// Looks for first steps; the making of the sum is not timed.
pub fn time<R: Runtime + Alloc<A = Global>>(rt: &R, steps: Steps) -> io::Result<()> {
    let job = job_of(rt.alloc(), FOUR.as_bytes())?;
    let expr = looked_at(rt.alloc(), steps)?;
    let start = Instant::now(rt)?;
    let count = counted(rt.alloc(), &job, steps, expr)?;
    let spent = start.elapsed(rt)?.as_micros();
    println!(rt; "{count} steps")?;
    eprintln!(rt; "{spent} microseconds in all")
}
