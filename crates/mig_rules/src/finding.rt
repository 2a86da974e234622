// The least step that follows.
ghost use Rattle.std.specs.Prelude.{◌≡◌, ◌∷◌, [], IfOk};
ghost use Rattle.mig_listing.specs.Finding.{first_some};
ghost use Rattle.mig_obligations.specs.Pairs.{sides_of};
ghost use Rattle.mig_rules.specs.First as spec;
ghost use Rattle.mig_rules.specs.Offered as offered;

use crate::following::{Tail, followed, tail_of};
use mig_algebra::{Expr, Term};
use mig_base::{Exact, Seq};
use mig_folding::{fold_args, foldin_args, found_args};
use mig_literals::rejoin_args;
use mig_rows::{alone_args, apart_args, inside_args, lossless_args, merge_args};
use mig_steps::{Facts, Rule, Step, body_paths, lit_paths, numbers, one_empty};
use mig_unfolding::{stage_args, stagein_args};
use std::alloc::{AllocError, Global};

/// The rules in order.
pub(crate) const RULES: [Rule; 17] = [
    Rule::Stage,
    Rule::StageIn,
    Rule::Dead,
    Rule::Same,
    Rule::Implied,
    Rule::Lift,
    Rule::Split,
    Rule::Found,
    Rule::Alone,
    Rule::Inside,
    Rule::Never,
    Rule::Merge,
    Rule::Apart,
    Rule::Lossless,
    Rule::Fold,
    Rule::FoldIn,
    Rule::Rejoin,
];

/// The paths that are tried for a rule.
pub(crate) fn paths_for(alloc: Global, rule: Rule, term: &Term) -> Result<Seq<Seq<u32>>, AllocError>
    ensures { IfOk result (λ s. s ≡ offered.paths_for rule term.now) }
{
    match rule {
        Rule::Stage
        | Rule::Dead
        | Rule::Same
        | Rule::Merge
        | Rule::Apart
        | Rule::Lossless
        | Rule::Fold
        | Rule::Rejoin => one_empty(alloc),
        Rule::Implied => lit_paths(alloc, term),
        Rule::StageIn
        | Rule::Lift
        | Rule::Split
        | Rule::Found
        | Rule::Alone
        | Rule::Inside
        | Rule::Never
        | Rule::FoldIn => body_paths(alloc, term),
    }
}

/// The arguments that are tried for a rule.
pub(crate) fn args_for(
    alloc: Global,
    facts: &Facts,
    rule: Rule,
    path: &[u32],
    tail: &Tail,
) -> Result<Seq<Seq<u32>>, AllocError>
    ensures { IfOk result (λ s. s ≡ offered.args_for facts.now.invariants.now.list rule tail.now.number path.now tail.now.term.now tail.now.later.now) }
{
    let invariants = facts.invariants.list.as_slice();
    match rule {
        Rule::Stage => stage_args(alloc, tail.term),
        Rule::StageIn => stagein_args(alloc, path, tail.term),
        Rule::Found => found_args(alloc, path, tail.term),
        Rule::Alone => alone_args(alloc, invariants, path, tail.term),
        Rule::Inside => inside_args(alloc, invariants, path, tail.term),
        Rule::Merge => merge_args(alloc, invariants, tail.term),
        Rule::Apart => apart_args(alloc, invariants, tail.term),
        Rule::Lossless => lossless_args(alloc, invariants, tail.term),
        Rule::Fold => fold_args(alloc, invariants, tail.term),
        Rule::FoldIn => foldin_args(alloc, invariants, path, tail.term),
        Rule::Rejoin => rejoin_args(alloc, tail.number, tail.term, tail.later),
        _ => one_empty(alloc),
    }
}

/// A step, if it follows.
fn tried(
    alloc: Global,
    facts: &Facts,
    expr: &Expr,
    rule: Rule,
    term: u32,
    path: &Seq<u32>,
    args: &Seq<u32>,
) -> Result<Option<Step>, AllocError>
    ensures { IfOk result (λ o. o ≡ spec.tried (sides_of facts.now.pair.now) facts.now.invariants.now.list expr.now rule term path.now args.now) }
{
    let path = path.twin(alloc)?;
    let args = args.twin(alloc)?;
    let step = Step {
        rule,
        term,
        path,
        args,
    };
    match followed(alloc, facts, &step, expr)? {
        Some(_) => Ok(Some(step)),
        None => Ok(None),
    }
}

/// The least step of a rule at a path of a term.
fn first_at(
    alloc: Global,
    facts: &Facts,
    expr: &Expr,
    rule: Rule,
    tail: &Tail,
    path: &Seq<u32>,
) -> Result<Option<Step>, AllocError>
    requires { tail.now.later.now ≡ spec.behind expr.now tail.now.number }
    ensures { IfOk result (λ o. o ≡ spec.first_at (sides_of facts.now.pair.now) facts.now.invariants.now.list expr.now rule tail.now.number tail.now.term.now path.now) }
{
    let offered = args_for(alloc, facts, rule, path.as_slice(), tail)?;
    for args in offered.as_slice() {
        let step = tried(alloc, facts, expr, rule, tail.number, path, args)?;
        if let Some(step) = step {
            return Ok(Some(step));
        }
    }
    Ok(None)
}

/// The least step of a rule in a term.
pub(crate) fn first_in(
    alloc: Global,
    facts: &Facts,
    expr: &Expr,
    rule: Rule,
    tail: &Tail,
) -> Result<Option<Step>, AllocError>
    requires { tail.now.later.now ≡ spec.behind expr.now tail.now.number }
    ensures { IfOk result (λ o. o ≡ spec.first_in (sides_of facts.now.pair.now) facts.now.invariants.now.list expr.now rule tail.now.number tail.now.term.now) }
{
    let offered = paths_for(alloc, rule, tail.term)?;
    for path in offered.as_slice() {
        let step = first_at(alloc, facts, expr, rule, tail, path)?;
        if let Some(step) = step {
            return Ok(Some(step));
        }
    }
    Ok(None)
}

/// The least step of a rule in the term of a number.
fn first_of(
    alloc: Global,
    facts: &Facts,
    expr: &Expr,
    rule: Rule,
    n: u32,
) -> Result<Option<Step>, AllocError>
    ensures { IfOk result (λ o. o ≡ spec.first_of (sides_of facts.now.pair.now) facts.now.invariants.now.list expr.now rule n) }
{
    let Some(tail) = tail_of(expr, n) else {
        return Ok(None);
    };
    let step = first_in(alloc, facts, expr, rule, &tail)?;
    Ok(step)
}

/// The least step of a rule.
fn first_by(
    alloc: Global,
    facts: &Facts,
    expr: &Expr,
    rule: Rule,
) -> Result<Option<Step>, AllocError>
    ensures { IfOk result (λ o. o ≡ spec.first_by (sides_of facts.now.pair.now) facts.now.invariants.now.list expr.now rule) }
{
    let offered = numbers(alloc, expr.terms.len())?;
    for n in offered.as_slice() {
        let step = first_of(alloc, facts, expr, rule, *n)?;
        if let Some(step) = step {
            return Ok(Some(step));
        }
    }
    Ok(None)
}

/// The least step of these rules, the first of them first.
fn first_among(
    alloc: Global,
    facts: &Facts,
    expr: &Expr,
    rules: &[Rule],
) -> Result<Option<Step>, AllocError>
    ensures { IfOk result (λ o. o ≡ first_some (spec.first_by (sides_of facts.now.pair.now) facts.now.invariants.now.list expr.now) rules.now) }
{
    for rule in rules {
        let step = first_by(alloc, facts, expr, *rule)?;
        if let Some(step) = step {
            return Ok(Some(step));
        }
    }
    Ok(None)
}

/// The least step.
fn first_step(alloc: Global, facts: &Facts, expr: &Expr) -> Result<Option<Step>, AllocError>
    ensures { IfOk result (λ o. o ≡ spec.first_step (sides_of facts.now.pair.now) facts.now.invariants.now.list expr.now) }
{
    first_among(alloc, facts, expr, &RULES)
}

/// The least step that follows: by the rule's number, then the term, the path and the arguments, lists compared by their first difference, a front first. `None` exactly where no step follows. Want of memory is the only error; it is answered too where a number is no u32.
pub fn first(alloc: Global, facts: &Facts, expr: &Expr) -> Result<Option<Step>, AllocError>
    ensures { IfOk result (λ o. spec.FindsFirst (sides_of facts.now.pair.now) facts.now.invariants.now.list expr.now o) }
{
    let step = first_step(alloc, facts, expr)?;
    Ok(step)
}
