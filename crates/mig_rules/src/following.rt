// The expression that a step leads to.
ghost use Rattle.std.specs.Prelude.{◌≡◌, ◌<◌, ◌+◌, Some, None, IfOk, drop, length, slice_get};
ghost use Rattle.std.specs.Option.{MatchOption};
ghost use Rattle.std.specs.Result.{MatchResult};
ghost use Rattle.mig_steps.specs.declared.steps.StepFault.TheVariants.{NoFollow as ANoFollow};
ghost use Rattle.mig_steps.specs.Ways.{alone, on_term, at_literal};
ghost use Rattle.mig_obligations.specs.Pairs.{sides_of};
ghost use Rattle.mig_rules.specs.Follow as spec;

use mig_algebra::{Expr, Term};
use mig_base::Seq;
use mig_folding::{Finding, Viewing, ViewingBodies};
use mig_literals::{Dying, Implying, Lifting, Rejoining, Settling, Splitting};
use mig_rows::{Losing, Merging, Parting, Refuting, Sparing, Uniting};
use mig_steps::{
    Facts, LitRule, Rule, Step, StepFault, TermRule, at_literal, before_later, is_short,
    is_within_limits, on_term, on_terms, push_terms,
};
use mig_unfolding::{InnerStaging, Staging};
use std::alloc::{AllocError, Global};

/// A term, by its number, and those behind it.
#[derive(Clone, Copy)]
pub(crate) struct Tail<'a> {
    pub number: u32,
    pub term: &'a Term,
    pub later: &'a [Term],
}

/// What a rule on terms puts in place of a term and those behind it.
fn by_term<R: TermRule>(
    alloc: Global,
    rule: &R,
    path: &[u32],
    args: &[u32],
    tail: &Tail,
) -> Result<Option<Seq<Term>>, AllocError>
    ensures { IfOk result (λ o. o ≡ alone (on_term (R.gives rule.now)) tail.now.number path.now args.now tail.now.term.now tail.now.later.now) }
{
    let given = on_term(alloc, rule, path, args, tail.term)?;
    let terms = before_later(alloc, given, tail.later)?;
    Ok(terms)
}

/// What a rule on literals puts there.
fn by_literal<R: LitRule>(
    alloc: Global,
    rule: &R,
    path: &[u32],
    args: &[u32],
    tail: &Tail,
) -> Result<Option<Seq<Term>>, AllocError>
    ensures { IfOk result (λ o. o ≡ alone (at_literal (R.gives rule.now)) tail.now.number path.now args.now tail.now.term.now tail.now.later.now) }
{
    let given = at_literal(alloc, rule, path, args, tail.term)?;
    let terms = before_later(alloc, given, tail.later)?;
    Ok(terms)
}

/// What a rule puts in place of a term and those behind it; none where it doesn't follow.
pub(crate) fn by_rule(
    alloc: Global,
    facts: &Facts,
    rule: Rule,
    path: &[u32],
    args: &[u32],
    tail: &Tail,
) -> Result<Option<Seq<Term>>, AllocError>
    ensures { IfOk result (λ o. o ≡ spec.by_rule (sides_of facts.now.pair.now) facts.now.invariants.now.list rule tail.now.number path.now args.now tail.now.term.now tail.now.later.now) }
{
    let pair = facts.pair;
    let invariants = facts.invariants.list.as_slice();
    match rule {
        Rule::Stage => by_term(alloc, &Staging { pair }, path, args, tail),
        Rule::StageIn => by_literal(alloc, &InnerStaging { pair }, path, args, tail),
        Rule::Dead => by_term(alloc, &Dying, path, args, tail),
        Rule::Same => by_term(alloc, &Settling, path, args, tail),
        Rule::Implied => by_literal(alloc, &Implying, path, args, tail),
        Rule::Lift => by_literal(alloc, &Lifting, path, args, tail),
        Rule::Split => by_literal(alloc, &Splitting, path, args, tail),
        Rule::Found => by_literal(alloc, &Finding, path, args, tail),
        Rule::Alone => by_literal(alloc, &Uniting { invariants }, path, args, tail),
        Rule::Inside => by_literal(alloc, &Sparing { invariants }, path, args, tail),
        Rule::Never => by_literal(alloc, &Refuting { invariants }, path, args, tail),
        Rule::Merge => by_term(alloc, &Merging { invariants }, path, args, tail),
        Rule::Apart => by_term(alloc, &Parting { invariants }, path, args, tail),
        Rule::Lossless => by_term(alloc, &Losing { invariants }, path, args, tail),
        Rule::Fold => by_term(alloc, &Viewing { invariants }, path, args, tail),
        Rule::FoldIn => by_literal(alloc, &ViewingBodies { invariants }, path, args, tail),
        Rule::Rejoin => on_terms(
            alloc,
            &Rejoining,
            tail.number,
            path,
            args,
            tail.term,
            tail.later,
        ),
    }
}

/// The term of a number, with those behind it.
pub(crate) fn tail_of<'a>(expr: &'a Expr, number: u32) -> Option<Tail<'a>>
    ensures { MatchOption result (slice_get expr.now.terms number ≡ None) (λ t. (t.number ≡ number) × (slice_get expr.now.terms number ≡ Some t.term.now) × (t.later.now ≡ drop (number + 1) expr.now.terms)) }
{
    let terms = expr.terms.as_slice();
    let at = number as usize;
    let Some(term) = terms.get(at) else {
        return None;
    };
    let later = &terms[at + 1..];
    Some(Tail {
        number,
        term,
        later,
    })
}

/// The terms before one of number n, and these.
fn put_terms(
    alloc: Global,
    n: usize,
    rest: Seq<Term>,
    terms: &[Term],
) -> Result<Seq<Term>, AllocError>
    requires { n < length terms.now }
    ensures { IfOk result (λ v. v ≡ spec.put_terms n rest terms.now) }
{
    let mut put = Seq::new(alloc);
    push_terms(alloc, &mut put, &terms[..n])?;
    push_terms(alloc, &mut put, rest.as_slice())?;
    Ok(put)
}

/// The expression that a step leads to, if it follows.
pub(crate) fn followed(
    alloc: Global,
    facts: &Facts,
    step: &Step,
    expr: &Expr,
) -> Result<Option<Expr>, AllocError>
    ensures { IfOk result (λ o. o ≡ spec.follow (sides_of facts.now.pair.now) facts.now.invariants.now.list step.now expr.now) }
{
    if !is_short(step) {
        return Ok(None);
    }
    let Some(tail) = tail_of(expr, step.term) else {
        return Ok(None);
    };
    let path = step.path.as_slice();
    let given = by_rule(alloc, facts, step.rule, path, step.args.as_slice(), &tail)?;
    let Some(rest) = given else {
        return Ok(None);
    };
    let terms = put_terms(alloc, step.term as usize, rest, expr.terms.as_slice())?;
    let next = Expr { terms };
    Ok(if is_within_limits(&next) {
        Some(next)
    } else {
        None
    })
}

/// The expression that a step leads to. `NoFollow` comes exactly where the step doesn't follow, by its rule or by a limit; `Memory` may come instead of any answer, and is answered too where a number is no u32.
pub fn apply(alloc: Global, facts: &Facts, step: &Step, expr: &Expr) -> Result<Expr, StepFault>
    ensures { MatchResult result (λ e. spec.follow (sides_of facts.now.pair.now) facts.now.invariants.now.list step.now expr.now ≡ Some e) (λ f. f ≡ ANoFollow → spec.follow (sides_of facts.now.pair.now) facts.now.invariants.now.list step.now expr.now ≡ None) }
{
    match followed(alloc, facts, step, expr) {
        Ok(Some(next)) => Ok(next),
        Ok(None) => Err(StepFault::NoFollow),
        Err(_) => Err(StepFault::Memory),
    }
}
