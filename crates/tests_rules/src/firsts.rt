// The first steps from expressions, worked out by hand.
use crate::certificates::steps;
use crate::expressions::sum;
use crate::steps::{Sample, pair, sampled};
use mig_algebra::Expr;
use mig_base::Exact;
use mig_rules::{Facts, Step, Taken, first, first_from, none_known, take_first};
use std::alloc::{AllocError, Global};
use std::test::Fail;

/// What is shown of an order, an expression, the first steps in turn, and what they lead to, from which no step follows.
const CHAINS: [(&str, &str, &str, &str); 9] = [
    ("nothing to do", "n0 -> 0.0 0.1", "", "n0 -> 0.0 0.1"),
    (
        "an unfolded row is folded",
        "o0@1 -> 0.0 0.1",
        "stage 0 - 0, fold 0 - 0 0",
        "n0 -> 0.0 0.1; -> p0 p1",
    ),
    (
        "a rule before a term",
        "n0 none( 1=0.0 ) -> 0.1; n0 1=0.0 2=0.0 -> 0.1",
        "dead 1 -, split 0 0",
        "n0 1<>0.0 -> 0.1",
    ),
    (
        "a term before a path",
        "n0 1=0.0 any( p1=0.1 ) -> 0.1; any( 1=p0 ) -> p1",
        "lift 0 1, same 0 -, lift 1 0",
        "n0 1=0.0 p1=0.1 -> p1; 1=p0 -> p1",
    ),
    (
        "what is opened is settled first",
        "n0 any( p0=0.0 none( 1=0.0 ) ) -> 0.1",
        "lift 0 0, same 0 -, split 0 1",
        "n0 p0=0.0 1<>p0 -> 0.1",
    ),
    (
        "one case for each literal",
        "n0 none( 1=0.0 'a=0.1 ) -> 0.1",
        "split 0 0",
        "n0 1<>0.0 -> 0.1; n0 1=0.0 'a<>0.1 -> 0.1",
    ),
    (
        "the first row that is known to meet a body",
        "n0 n0 p0=1.1 any( n0 p0=2.1 ) -> 0.0",
        "found 0 1 1",
        "n0 n0 p0=1.1 -> 0.0",
    ),
    (
        "a found body is opened out of another",
        "n0 p0=0.1 any( any( n0 p0=1.1 ) ) -> 0.0",
        "lift 0 1, found 0 1 0",
        "n0 p0=0.1 -> 0.0",
    ),
    (
        "two cases are joined, and their numbers go",
        "n0 none( 1=0.0 ) -> 0.1; n0 1=0.0 -> 0.1; n0 none( 2=0.0 ) -> 0.1",
        "split 0 0, split 2 0, rejoin 0 - 1 0",
        "n0 -> 0.1; n0 2<>0.0 -> 0.1",
    ),
];

/// Whether this is the step, or there is none where none is wanted.
pub(crate) fn is_step(step: &Option<Step>, want: Option<&Step>) -> bool {
    match (step, want) {
        (Some(step), Some(want)) => step.same(want),
        (None, None) => true,
        _ => false,
    }
}

/// Whether this is the first step, with and without numbers of terms.
fn is_first(
    alloc: Global,
    facts: &Facts,
    expr: &Expr,
    want: Option<&Step>,
) -> Result<bool, AllocError> {
    let plain = first(alloc, facts, expr)?;
    let mut quiet = none_known(alloc, expr)?;
    let resumed = first_from(alloc, facts, expr, &mut quiet)?;
    Ok(is_step(&plain, want) && is_step(&resumed, want))
}

/// Whether these are the first steps in turn, and lead to this end.
fn are_taken(
    alloc: Global,
    facts: &Facts,
    given: Expr,
    steps: &[Step],
    end: &Expr,
) -> Result<bool, AllocError> {
    let mut expr = given;
    let mut quiet = none_known(alloc, &expr)?;
    for step in steps {
        let taken = take_first(alloc, facts, &expr, quiet)?;
        let Some(taken) = taken else {
            return Ok(false);
        };
        if !taken.step.same(step) {
            return Ok(false);
        }
        Taken {
            next: expr,
            quiet,
            ..
        } = taken;
    }
    let last = take_first(alloc, facts, &expr, quiet)?;
    Ok(last.is_none() && expr.same(end))
}

/// Whether a row is right for the pair of updates.
fn is_right(
    alloc: Global,
    sample: &Sample,
    given: &str,
    chain: &str,
    end: &str,
) -> Result<bool, AllocError> {
    let Some(pair) = pair(sample, 0) else {
        return Ok(false);
    };
    let facts = Facts {
        pair: &pair,
        invariants: &sample.invariants,
    };
    let given = sum(alloc, given)?;
    let chain = steps(alloc, chain)?;
    let begun = is_first(alloc, &facts, &given, chain.get(0))?;
    let ended = are_taken(alloc, &facts, given, chain.as_slice(), &sum(alloc, end)?)?;
    Ok(begun && ended)
}

#[test]
fn first_steps_are_those_by_hand(rt: HostRuntime) -> Result<(), Fail> {
    let sample = sampled(rt.alloc())?;
    for (name, given, chain, end) in CHAINS {
        let right = is_right(rt.alloc(), &sample, given, chain, end)?;
        assert!(rt; right, "{name}");
    }
    Ok(())
}
