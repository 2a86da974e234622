// The first step taken, with what is known of terms kept for the next one.
ghost use Rattle.std.specs.Prelude.{◌≡◌, ◌<◌, ◌≤◌, List, length, IfOk};
ghost use Rattle.mig_meaning.specs.declared.relating.Invariant.{Invariant};
ghost use Rattle.mig_algebra.specs.Proper.{Sides};
ghost use Rattle.mig_obligations.specs.Pairs.{sides_of};
ghost use Rattle.mig_rules.specs.Quiet as quiet_spec;
ghost use Rattle.mig_rules.specs.Taking as spec;

use crate::following::followed;
use crate::resuming::first_from;
use mig_algebra::Expr;
use mig_steps::{Facts, Rule, Step};
use std::alloc::{AllocError, Global};

/// A step, what it leads to, and a number for each term there: no rule of a lower number gives anything at the term.
#[derive(Drop)]
pub struct Taken {
    pub step: Step,
    pub next: Expr,
    pub quiet: Vec<u8>,
}

/// The numbers after a step at a term, where `count` terms are new and those from number `stay` on stayed.
fn after_step(
    alloc: Global,
    quiet: &[u8],
    n: usize,
    count: usize,
    stay: usize,
) -> Result<Vec<u8>, AllocError>
    requires n { n < length quiet.now }
    requires stay { stay ≤ length quiet.now }
    ensures { IfOk result (λ v. v.items ≡ quiet_spec.after_step n count stay quiet.now) }
{
    let mut numbers = Vec::from_slice(alloc, &quiet[..n])?;
    numbers.append(&mut vec![in alloc; 0; count]?)?;
    numbers.extend_from_slice(&quiet[stay..])?;
    Ok(numbers)
}

/// From which number on the terms behind stay after a step of a rule at a term.
fn stay_from(rule: Rule, n: usize, count: usize) -> usize
    requires { n < count }
    ensures is { result ≡ spec.stay_from rule n count }
    ensures within { result ≤ count }
{
    match rule {
        Rule::Rejoin => count,
        _ => n + 1,
    }
}

/// How many terms are new after a step at a term, where those from number `stay` of `before` on stayed, and there are `after` in all.
fn new_terms(n: usize, stay: usize, before: usize, after: usize) -> usize
    ensures { result ≡ spec.new_terms n stay before after }
{
    after
        .saturating_sub(n)
        .saturating_sub(before.saturating_sub(stay))
}

/// Numbers to begin with, for `first_from` and `take_first`: of no term anything is known, so they serve for any facts. The only error is want of memory.
pub fn none_known(alloc: Global, expr: &Expr) -> Result<Vec<u8>, AllocError>
    ensures { IfOk result (λ v. (p : Sides) (invs : List Invariant) → quiet_spec.AreQuiet p invs v.items expr.now.terms) }
{
    let numbers = vec![in alloc; 0; expr.terms.len()]?;
    Ok(numbers)
}

/// The first step that follows, with what it leads to, where for each term no rule of a lower number than the term's gives anything there; a number for each term of what it leads to is handed on. So a loop over it takes the first step each time, and looks at a term that stayed no more often than once a rule. `None` exactly where no step follows.
pub fn take_first(
    alloc: Global,
    facts: &Facts,
    expr: &Expr,
    quiet: Vec<u8>,
) -> Result<Option<Taken>, AllocError>
    requires { quiet_spec.AreQuiet (sides_of facts.now.pair.now) facts.now.invariants.now.list quiet.items expr.now.terms }
    ensures { IfOk result (λ o. spec.Takes (sides_of facts.now.pair.now) facts.now.invariants.now.list expr.now o) }
{
    let mut quiet = quiet;
    let found = first_from(alloc, facts, expr, &mut quiet)?;
    let Some(step) = found else {
        return Ok(None);
    };
    let led = followed(alloc, facts, &step, expr)?;
    let Some(next) = led else {
        return Ok(None);
    };
    let n = step.term as usize;
    let before = expr.terms.len();
    let stay = stay_from(step.rule, n, before);
    let count = new_terms(n, stay, before, next.terms.len());
    let quiet = after_step(alloc, quiet.as_slice(), n, count, stay)?;
    Ok(Some(Taken { step, next, quiet }))
}
