// How long it takes to find the classes of a term of so many equalities over 16 variables.
use mig_algebra::{Atom, Lit, Term};
use mig_base::Seq;
use mig_classes::closure;
use mig_schema::Op;
use std::alloc::{AllocError, Global};
use std::io;
use std::rt::Runtime;
use std::time::Instant;

/// How the equalities tie values.
#[derive(Clone, Copy)]
pub enum Ties {
    /// Each value to the next, so that all are one class.
    Chain,
    /// Each value to one other, so that there are as many classes as equalities.
    Pairs,
}

/// A value that is known by its number.
fn column(number: u32) -> Atom {
    Atom::Col {
        var: number % 16,
        column: number / 16,
    }
}

/// The equality of a value and the one behind it.
fn tie(first: u32) -> Lit {
    Lit::Cmp {
        op: Op::Eq,
        left: column(first),
        right: column(first.saturating_add(1)),
    }
}

/// A term of so many equalities, those of near values far from one another.
fn term(alloc: Global, ties: Ties, count: u32) -> Result<Term, AllocError> {
    let mut lits = Seq::new(alloc);
    for k in 0..count {
        let number = k.wrapping_mul(1543) % count;
        match ties {
            Ties::Chain => lits.push(tie(number))?,
            Ties::Pairs => lits.push(tie(number.saturating_mul(2)))?,
        }
    }
    Ok(Term {
        vars: Seq::new(alloc),
        lits,
        head: Seq::new(alloc),
    })
}

/// Finds the classes of a term of so many equalities, so many times.
pub fn time<R: Runtime + Alloc<A = Global>>(
    rt: &R,
    ties: Ties,
    count: u32,
    times: u32,
) -> io::Result<()> {
    let term = term(rt.alloc(), ties, count)?;
    let start = Instant::now(rt)?;
    let mut classes = 0;
    for _ in 0..times {
        classes = closure(rt.alloc(), &term)?.groups.len();
    }
    let spent = start.elapsed(rt)?.as_micros();
    println!(rt; "{classes} classes of {count} equalities, found {times} times")?;
    eprintln!(rt; "{spent} microseconds in all")
}
