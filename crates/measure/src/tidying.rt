// How long expressions take to be tidied: sums of terms over 16 variables, each of so many comparisons.
use mig_algebra::{Atom, Expr, Lit, Term, Var, is_scoped, tidy};
use mig_base::Seq;
use mig_schema::{Op, Side};
use std::alloc::{AllocError, Global};
use std::io;
use std::rt::Runtime;
use std::time::Instant;

/// Variables over 16 tables, the last table first, so that each gets another number.
fn vars(alloc: Global) -> Result<Seq<Var>, AllocError> {
    let mut vars = Seq::new(alloc);
    for k in 0..16 {
        vars.push(Var {
            side: Side::Old,
            table: 15 - k,
            stage: 0,
        })?;
    }
    Ok(vars)
}

/// A comparison of a column with a parameter, for each number another one; it is turned round.
fn comparison(number: u32) -> Lit {
    Lit::Cmp {
        op: Op::Gt,
        left: Atom::Col {
            var: number % 16,
            column: number / 16,
        },
        right: Atom::Param(0),
    }
}

/// A term of so many comparisons, which stands behind those of lesser numbers by its head alone.
fn term(alloc: Global, number: u32, comparisons: u32) -> Result<Term, AllocError> {
    let mut lits = Seq::new(alloc);
    for k in 0..comparisons {
        lits.push(comparison(k))?;
    }
    let mut head = Seq::new(alloc);
    head.push(Atom::Int(i64::from(number)))?;
    Ok(Term {
        vars: vars(alloc)?,
        lits,
        head,
    })
}

/// A sum of so many terms, the last in order first.
fn sum(alloc: Global, count: u32, comparisons: u32) -> Result<Expr, AllocError> {
    let mut terms = Seq::new(alloc);
    for k in 0..count {
        terms.push(term(alloc, count - k, comparisons)?)?;
    }
    Ok(Expr { terms })
}

/// Tidies a sum of so many terms, each of so many comparisons, so many times.
pub fn time<R: Runtime + Alloc<A = Global>>(
    rt: &R,
    count: u32,
    comparisons: u32,
    times: u32,
) -> io::Result<()> {
    let expr = sum(rt.alloc(), count, comparisons)?;
    if !is_scoped(&expr) {
        return println!(rt; "out of scope");
    }
    let start = Instant::now(rt)?;
    let mut terms = 0;
    for _ in 0..times {
        terms = tidy(rt.alloc(), &expr)?.terms.len();
    }
    let spent = start.elapsed(rt)?.as_micros();
    println!(rt; "{terms} terms of {comparisons} comparisons, tidied {times} times")?;
    eprintln!(rt; "{spent} microseconds in all")
}
