// The least step that follows, where it is known of terms which rules give nothing there.
ghost use Rattle.std.specs.Prelude.{◌≡◌, ◌<◌, [], true, length, slice_index, IfOk};
ghost use Rattle.mig_listing.specs.Finding.{first_some};
ghost use Rattle.mig_obligations.specs.Pairs.{sides_of};
ghost use Rattle.mig_rules.specs.First as spec;
ghost use Rattle.mig_rules.specs.Quiet as quiet_spec;

use crate::finding::{RULES, args_for, first_in, paths_for};
use crate::following::{Tail, by_rule, tail_of};
use mig_algebra::{Expr, Term};
use mig_base::Seq;
use mig_steps::{Facts, Rule, Step, numbers};
use std::alloc::{AllocError, Global};

/// A rule's number, from 0.
fn number_of(rule: Rule) -> u8
    ensures number { result ≡ spec.number_of rule }
    ensures small { result < 17 }
{
    match rule {
        Rule::Stage => 0,
        Rule::StageIn => 1,
        Rule::Dead => 2,
        Rule::Same => 3,
        Rule::Implied => 4,
        Rule::Lift => 5,
        Rule::Split => 6,
        Rule::Found => 7,
        Rule::Alone => 8,
        Rule::Inside => 9,
        Rule::Never => 10,
        Rule::Merge => 11,
        Rule::Apart => 12,
        Rule::Lossless => 13,
        Rule::Fold => 14,
        Rule::FoldIn => 15,
        Rule::Rejoin => 16,
    }
}

/// A term as if it stood alone.
fn alone(term: &Term) -> Tail<'_>
    ensures number { result.number ≡ 0 }
    ensures term { result.term.now ≡ term.now }
    ensures later { result.later.now ≡ [] }
{
    Tail {
        number: 0,
        term,
        later: &[],
    }
}

/// Whether a rule gives nothing at a path of a term, with each of the arguments that are tried.
fn is_silent_at(
    alloc: Global,
    facts: &Facts,
    rule: Rule,
    term: &Term,
    path: &Seq<u32>,
) -> Result<bool, AllocError>
    ensures { IfOk result (λ b. b ≡ quiet_spec.silent_at (sides_of facts.now.pair.now) facts.now.invariants.now.list rule term.now path.now) }
{
    let tail = alone(term);
    let offered = args_for(alloc, facts, rule, path.as_slice(), &tail)?;
    for args in offered.as_slice() {
        let given = by_rule(alloc, facts, rule, path.as_slice(), args.as_slice(), &tail)?;
        if let Some(_) = given {
            return Ok(false);
        }
    }
    Ok(true)
}

/// Whether a rule gives nothing at a term.
fn is_silent(alloc: Global, facts: &Facts, rule: Rule, term: &Term) -> Result<bool, AllocError>
    ensures { IfOk result (λ b. b ≡ quiet_spec.silent_in (sides_of facts.now.pair.now) facts.now.invariants.now.list rule term.now) }
{
    let offered = paths_for(alloc, rule, term)?;
    for path in offered.as_slice() {
        if !is_silent_at(alloc, facts, rule, term, path)? {
            return Ok(false);
        }
    }
    Ok(true)
}

/// Whether a rule that looks at one term alone gives nothing there; of the rule that joins two terms it is not said.
fn looks_silent(
    alloc: Global,
    facts: &Facts,
    rule: Rule,
    number: u8,
    term: &Term,
) -> Result<bool, AllocError>
    ensures { IfOk result (λ b. b ≡ true → (number < 16) × (quiet_spec.silent_in (sides_of facts.now.pair.now) facts.now.invariants.now.list rule term.now ≡ true)) }
{
    if number >= 16 {
        return Ok(false);
    }
    let silent = is_silent(alloc, facts, rule, term)?;
    Ok(silent)
}

/// The number of a term.
fn known_of(quiet: &Vec<u8>, n: usize) -> u8
    requires { n < length quiet.now.items }
    ensures { result ≡ slice_index quiet.now.items n }
{
    quiet[n]
}

/// One more for a term, where its number is this one.
fn mark(quiet: &mut Vec<u8>, n: usize, number: u8)
    requires there { n < length quiet.old.items }
    requires small { number < 17 }
    ensures { quiet.new.items ≡ quiet_spec.marked n number quiet.old.items }
{
    if quiet[n] == number {
        quiet[n] = number + 1;
    }
}

/// The least step of a rule in a term at which no rule of a lower number than `known` gives anything. The number becomes greater where the rule gives nothing either.
fn first_where(
    alloc: Global,
    facts: &Facts,
    expr: &Expr,
    rule: Rule,
    n: u32,
    quiet: &mut Vec<u8>,
) -> Result<Option<Step>, AllocError>
    requires { quiet_spec.AreQuiet (sides_of facts.now.pair.now) facts.now.invariants.now.list quiet.old.items expr.now.terms }
    ensures step { IfOk result (λ o. o ≡ spec.first_of (sides_of facts.now.pair.now) facts.now.invariants.now.list expr.now rule n) }
    ensures quiet { quiet_spec.AreQuiet (sides_of facts.now.pair.now) facts.now.invariants.now.list quiet.new.items expr.now.terms }
{
    let Some(tail) = tail_of(expr, n) else {
        return Ok(None);
    };
    let number = number_of(rule);
    let known = known_of(quiet, n as usize);
    if number < known {
        return Ok(None);
    }
    let silent = looks_silent(alloc, facts, rule, number, tail.term)?;
    if silent {
        mark(quiet, n as usize, number);
        return Ok(None);
    }
    let step = first_in(alloc, facts, expr, rule, &tail)?;
    Ok(step)
}

/// The least step of a rule.
fn first_by_quiet(
    alloc: Global,
    facts: &Facts,
    expr: &Expr,
    rule: Rule,
    quiet: &mut Vec<u8>,
) -> Result<Option<Step>, AllocError>
    requires { quiet_spec.AreQuiet (sides_of facts.now.pair.now) facts.now.invariants.now.list quiet.old.items expr.now.terms }
    ensures step { IfOk result (λ o. o ≡ spec.first_by (sides_of facts.now.pair.now) facts.now.invariants.now.list expr.now rule) }
    ensures quiet { quiet_spec.AreQuiet (sides_of facts.now.pair.now) facts.now.invariants.now.list quiet.new.items expr.now.terms }
{
    let offered = numbers(alloc, expr.terms.len())?;
    for n in offered.as_slice() {
        let step = first_where(alloc, facts, expr, rule, *n, quiet)?;
        if let Some(step) = step {
            return Ok(Some(step));
        }
    }
    Ok(None)
}

/// The least step of these rules, the first of them first.
fn first_among_quiet(
    alloc: Global,
    facts: &Facts,
    expr: &Expr,
    rules: &[Rule],
    quiet: &mut Vec<u8>,
) -> Result<Option<Step>, AllocError>
    requires { quiet_spec.AreQuiet (sides_of facts.now.pair.now) facts.now.invariants.now.list quiet.old.items expr.now.terms }
    ensures step { IfOk result (λ o. o ≡ first_some (spec.first_by (sides_of facts.now.pair.now) facts.now.invariants.now.list expr.now) rules.now) }
    ensures quiet { quiet_spec.AreQuiet (sides_of facts.now.pair.now) facts.now.invariants.now.list quiet.new.items expr.now.terms }
{
    for rule in rules {
        let step = first_by_quiet(alloc, facts, expr, *rule, quiet)?;
        if let Some(step) = step {
            return Ok(Some(step));
        }
    }
    Ok(None)
}

/// The least step that follows, as `first` gives it, with a number for each term: no rule of a lower number gives anything at the term. The numbers grow, and serve again after a step for the terms that stayed.
pub fn first_from(
    alloc: Global,
    facts: &Facts,
    expr: &Expr,
    quiet: &mut Vec<u8>,
) -> Result<Option<Step>, AllocError>
    requires { quiet_spec.AreQuiet (sides_of facts.now.pair.now) facts.now.invariants.now.list quiet.old.items expr.now.terms }
    ensures first { IfOk result (λ o. spec.FindsFirst (sides_of facts.now.pair.now) facts.now.invariants.now.list expr.now o) }
    ensures quiet { quiet_spec.AreQuiet (sides_of facts.now.pair.now) facts.now.invariants.now.list quiet.new.items expr.now.terms }
{
    let step = first_among_quiet(alloc, facts, expr, &RULES, quiet)?;
    Ok(step)
}
