// Whether obligations are closed: both sides are simplified, and their ends compared.
ghost use Rattle.std.specs.Prelude.{◌≡◌, ◌↔◌, IsTrue, IfOk};
ghost use Rattle.mig_algebra.specs.Tidied.{tidied};
ghost use Rattle.mig_certificate.specs.Valid.{sides};
ghost use Rattle.mig_obligations.specs.Pairs.{sides_of};
ghost use Rattle.mig_prover.specs.Closing as spec;

use crate::trails::simplify;
use mig_algebra::{Expr, is_scoped, tidy};
use mig_base::Exact;
use mig_meaning::{Invariant, Invariants};
use mig_rules::{Facts, Obligation, Pair, answers, holds};
use mig_schema::{Body, Function, Job, Program};
use std::alloc::{AllocError, Global};

/// Whether two expressions are one when tidied. One that names a variable that is not in scope is answered as want of memory.
fn meet(alloc: Global, left: &Expr, right: &Expr) -> Result<bool, AllocError>
    ensures { IfOk result (λ b. IsTrue b ↔ (tidied left.now ≡ tidied right.now)) }
{
    if !is_scoped(left) || !is_scoped(right) {
        return Err(AllocError);
    }
    let left = tidy(alloc, left)?;
    let right = tidy(alloc, right)?;
    Ok(left.same(&right))
}

/// Whether an obligation is closed.
fn is_closed(alloc: Global, facts: &Facts, obligation: &Obligation) -> Result<bool, AllocError>
    ensures { IfOk result (λ b. spec.Tells b (spec.IsClosed (sides_of facts.now.pair.now) facts.now.invariants.now.list obligation.now)) }
{
    let source = simplify(alloc, facts, &obligation.source)?;
    let target = simplify(alloc, facts, &obligation.target)?;
    let one = meet(alloc, &source.end, &target.end)?;
    Ok(one)
}

/// Whether an invariant's obligation after a pair is closed.
fn is_closed_after(alloc: Global, facts: &Facts, candidate: &Invariant) -> Result<bool, AllocError>
    ensures { IfOk result (λ b. spec.Tells b (spec.IsClosedAfter (sides_of facts.now.pair.now) facts.now.invariants.now.list candidate.now facts.now.pair.now.source_fn.now.body facts.now.pair.now.target_fn.now.body)) }
{
    match (&facts.pair.source_fn.body, &facts.pair.target_fn.body) {
        (Body::Update(_), Body::Update(_)) => {
            let obligation = holds(alloc, facts.pair, candidate)?;
            let closed = is_closed(alloc, facts, &obligation)?;
            Ok(closed)
        }
        (Body::Update(_), Body::Query(_)) => Ok(true),
        (Body::Query(_), Body::Update(_)) => Ok(true),
        (Body::Query(_), Body::Query(_)) => Ok(true),
    }
}

/// Whether the obligation of a pair, if these are queries, is closed.
fn is_answered_by(alloc: Global, facts: &Facts) -> Result<bool, AllocError>
    ensures { IfOk result (λ b. spec.Tells b (spec.IsAnsweredBy (sides_of facts.now.pair.now) facts.now.invariants.now.list facts.now.pair.now.source_fn.now.body facts.now.pair.now.target_fn.now.body)) }
{
    match (&facts.pair.source_fn.body, &facts.pair.target_fn.body) {
        (Body::Query(_), Body::Query(_)) => {
            let obligation = answers(alloc, facts.pair)?;
            let closed = is_closed(alloc, facts, &obligation)?;
            Ok(closed)
        }
        (Body::Update(_), Body::Query(_)) => Ok(true),
        (Body::Query(_), Body::Update(_)) => Ok(true),
        (Body::Update(_), Body::Update(_)) => Ok(true),
    }
}

/// Whether an invariant's obligation after these two functions is closed.
fn is_closed_between(
    alloc: Global,
    job: &Job,
    facts: &Invariants,
    candidate: &Invariant,
    source_fn: &Function,
    target_fn: &Function,
) -> Result<bool, AllocError>
    ensures { IfOk result (λ b. spec.Tells b (spec.IsClosedAfter (sides job.now.source job.now.target source_fn.now target_fn.now) facts.now.list candidate.now source_fn.now.body target_fn.now.body)) }
{
    let pair = Pair {
        source: &job.source,
        target: &job.target,
        source_fn,
        target_fn,
    };
    let facts = Facts {
        pair: &pair,
        invariants: facts,
    };
    let closed = is_closed_after(alloc, &facts, candidate)?;
    Ok(closed)
}

/// Whether the obligation of these two functions, if they are queries, is closed.
fn is_answered_between(
    alloc: Global,
    job: &Job,
    facts: &Invariants,
    source_fn: &Function,
    target_fn: &Function,
) -> Result<bool, AllocError>
    ensures { IfOk result (λ b. spec.Tells b (spec.IsAnsweredBy (sides job.now.source job.now.target source_fn.now target_fn.now) facts.now.list source_fn.now.body target_fn.now.body)) }
{
    let pair = Pair {
        source: &job.source,
        target: &job.target,
        source_fn,
        target_fn,
    };
    let facts = Facts {
        pair: &pair,
        invariants: facts,
    };
    let closed = is_answered_by(alloc, &facts)?;
    Ok(closed)
}

/// Whether an invariant's obligation after the functions of a number is closed; it is where there are none.
fn is_closed_at(
    alloc: Global,
    job: &Job,
    program: &Program,
    facts: &Invariants,
    candidate: &Invariant,
    n: usize,
) -> Result<bool, AllocError>
    ensures { IfOk result (λ b. spec.Tells b (spec.IsClosedAt job.now program.now facts.now.list candidate.now n)) }
{
    let Some(source_fn) = job.program.functions.get(n) else {
        return Ok(true);
    };
    let Some(target_fn) = program.functions.get(n) else {
        return Ok(true);
    };
    let closed = is_closed_between(alloc, job, facts, candidate, source_fn, target_fn)?;
    Ok(closed)
}

/// Whether all obligations of an invariant are closed.
pub(crate) fn are_closed(
    alloc: Global,
    job: &Job,
    program: &Program,
    facts: &Invariants,
    candidate: &Invariant,
) -> Result<bool, AllocError>
    ensures { IfOk result (λ b. spec.Tells b (spec.AreClosed job.now program.now facts.now.list candidate.now)) }
{
    for n in 0..job.program.functions.len() {
        if !is_closed_at(alloc, job, program, facts, candidate, n)? {
            return Ok(false);
        }
    }
    Ok(true)
}

/// Whether the obligation of the functions of a number, if these are queries, is closed; it is where there are none.
pub(crate) fn is_answered(
    alloc: Global,
    job: &Job,
    program: &Program,
    facts: &Invariants,
    n: usize,
) -> Result<bool, AllocError>
    ensures { IfOk result (λ b. spec.Tells b (spec.IsAnswered job.now program.now facts.now.list n)) }
{
    let Some(source_fn) = job.program.functions.get(n) else {
        return Ok(true);
    };
    let Some(target_fn) = program.functions.get(n) else {
        return Ok(true);
    };
    let closed = is_answered_between(alloc, job, facts, source_fn, target_fn)?;
    Ok(closed)
}
