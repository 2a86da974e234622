// Alternatives, and lists with them, worked out by hand.
use crate::expressions::{sum, term};
use mig_algebra::{Inner, Lit, Term};
use mig_base::{Exact, Seq};
use mig_replacing::{put_at, spread};
use std::alloc::{AllocError, Global};
use std::test::Fail;

/// Lists of literals, between `;`.
fn lists(alloc: Global, text: &str) -> Result<Seq<Seq<Lit>>, AllocError> {
    let mut lists = Seq::new(alloc);
    for term in sum(alloc, text)?.terms.into_vec() {
        lists.push(term.lits)?;
    }
    Ok(lists)
}

/// Bodies, between `;`.
fn bodies(alloc: Global, text: &str) -> Result<Vec<Inner>, AllocError> {
    let mut bodies = Vec::new(alloc);
    for term in sum(alloc, text)?.terms.into_vec() {
        let Term {
            vars,
            lits,
            head: _,
        } = term;
        bodies.push(Inner { vars, lits })?;
    }
    Ok(bodies)
}

/// Whether a body is held, the bodies that it becomes, and the alternatives.
const SPREAD: [(bool, &str, &str); 4] = [
    (true, "1<p0; 2<p0", "any( 1<p0 ); any( 2<p0 ) none( 1<p0 )"),
    (false, "1<p0; 2<p0", "none( 1<p0 ) none( 2<p0 )"),
    (true, "", ""),
    (false, "", "->"),
];

fn is_spread(alloc: Global, held: bool, given: &str, want: &str) -> Result<bool, AllocError> {
    let bodies = bodies(alloc, given)?;
    let made = Seq::from_vec(spread(alloc, held, bodies.as_slice())?);
    Ok(made.same(&lists(alloc, want)?))
}

#[test]
fn each_body_first_or_none(rt: HostRuntime) -> Result<(), Fail> {
    for (held, given, want) in SPREAD {
        let right = is_spread(rt.alloc(), held, given, want)?;
        assert!(rt; right, "{held} of {given}");
    }
    Ok(())
}

/// Whether these alternatives in place of the second literal make those lists.
fn are_put(alloc: Global, lits: &str, alternatives: &str, want: &str) -> Result<bool, AllocError> {
    let lits = term(alloc, lits)?.lits;
    if lits.len() < 2 {
        return Ok(false);
    }
    let alternatives = lists(alloc, alternatives)?;
    let made = put_at(alloc, lits.as_slice(), 1, alternatives.as_slice())?;
    Ok(Seq::from_vec(made).same(&lists(alloc, want)?))
}

#[test]
fn each_alternative_in_its_place(rt: HostRuntime) -> Result<(), Fail> {
    let right = are_put(
        rt.alloc(),
        "1<p0 2<p0 3<p0",
        "7<p0 8<p0; ->",
        "1<p0 7<p0 8<p0 3<p0; 1<p0 3<p0",
    )?;
    assert!(rt; right);
    Ok(())
}
