// The limits of expressions and steps.
ghost use Rattle.std.specs.Prelude.{◌≡◌, ◌<◌, ◌^◌, nat_lt};
ghost use Rattle.std.specs.List.{list_all};
ghost use Rattle.mig_meaning.specs.Lists.{total};
ghost use Rattle.mig_steps.specs.Limits as spec;

use crate::steps::Step;
use mig_algebra::{Expr, Lit, Term};

/// The greatest number of variables in scope.
const SCOPE: usize = 0x7fff_ffff;

/// What is left of a budget of literals when one and those of its bodies are taken from it.
#[cycle(counting)]
fn spend_lit(budget: u32, lit: &Lit) -> Option<u32>
    ensures { result ≡ spec.left budget (spec.lit_count lit.now) }
{
    let rest = budget.checked_sub(1)?;
    match lit {
        Lit::Cmp { .. } | Lit::Other { .. } => Some(rest),
        Lit::Any { inner, .. } => spend_lits(rest, inner.lits.as_slice()),
    }
}

/// The same of a list of literals.
#[cycle(counting)]
fn spend_lits(budget: u32, lits: &[Lit]) -> Option<u32>
    ensures { result ≡ spec.left budget (total spec.lit_count lits.now) }
{
    let mut budget = budget;
    for lit in lits {
        budget = spend_lit(budget, lit)?;
    }
    Some(budget)
}

/// The same of terms.
fn spend_terms(budget: u32, terms: &[Term]) -> Option<u32>
    ensures { result ≡ spec.left budget (total spec.term_count terms.now) }
{
    let mut budget = budget;
    for term in terms {
        budget = spend_lits(budget, term.lits.as_slice())?;
    }
    Some(budget)
}

/// Whether bodies are nested at most `depth` deep in a literal, and variables in scope stay few, where `scope` are in scope outside.
#[cycle(bounding)]
fn is_lit_bounded(depth: u32, scope: usize, lit: &Lit) -> bool
    requires { scope < 2 ^ 31 }
    ensures { result ≡ spec.lit_bounded depth scope lit.now }
{
    match lit {
        Lit::Cmp { .. } | Lit::Other { .. } => true,
        Lit::Any { inner, .. } => {
            inner.vars.len() <= SCOPE - scope
                && depth > 0
                && are_lits_bounded(depth - 1, scope + inner.vars.len(), inner.lits.as_slice())
        }
    }
}

/// The same of a list of literals.
#[cycle(bounding)]
fn are_lits_bounded(depth: u32, scope: usize, lits: &[Lit]) -> bool
    requires { scope < 2 ^ 31 }
    ensures { result ≡ list_all (spec.lit_bounded depth scope) lits.now }
{
    for lit in lits {
        if !is_lit_bounded(depth, scope, lit) {
            return false;
        }
    }
    true
}

/// Whether a term's bodies and variables are within the limits.
fn is_term_bounded(term: &Term) -> bool
    ensures { result ≡ spec.term_bounded term.now }
{
    term.vars.len() <= SCOPE && are_lits_bounded(8, term.vars.len(), term.lits.as_slice())
}

/// The same of terms.
fn are_terms_bounded(terms: &[Term]) -> bool
    ensures { result ≡ list_all spec.term_bounded terms.now }
{
    terms.iter().all(|term| is_term_bounded(term))
}

/// Whether terms have at most 4,096 literals in all.
fn are_few(terms: &[Term]) -> bool
    ensures { result ≡ nat_lt (total spec.term_count terms.now) 4097 }
{
    spend_terms(4096, terms).is_some()
}

/// Whether an expression is within the limits: 256 terms, 4,096 literals, bodies nested 8 deep, and fewer than 2^31 variables in scope.
pub fn is_within_limits(expr: &Expr) -> bool
    ensures { result ≡ spec.is_within_limits expr.now }
{
    let terms = expr.terms.as_slice();
    terms.len() <= 256 && are_few(terms) && are_terms_bounded(terms)
}

/// Whether a step's path and arguments are of at most 16 numbers each.
pub fn is_short(step: &Step) -> bool
    ensures { result ≡ spec.is_short step.now }
{
    step.path.len() <= 16 && step.args.len() <= 16
}
