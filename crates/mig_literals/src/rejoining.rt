// Two terms that differ in one literal and its complement become one without it.
ghost use Rattle.std.specs.Prelude.{◌≡◌, ◌∷◌, ◌++◌, ◌+◌, ◌<◌, [], length, IfOk, OnOk};
ghost use Rattle.mig_replacing.specs.Places.{others};
ghost use Rattle.mig_replacing.specs.Replaced.{with_lits as replaced_with};
ghost use Rattle.mig_literals.specs.Rejoined as spec;

use mig_algebra::{Lit, Term, term_order};
use mig_base::{Exact, Seq};
use mig_classes::{complement, has_complement};
use mig_steps::{TailRule, push_terms, twins};
use std::alloc::{AllocError, Global};

/// The rule `rejoin`: two terms that differ in one literal and its complement become one without it.
#[derive(Drop)]
pub struct Rejoining;

/// A term with other literals.
fn with_lits(alloc: Global, term: &Term, lits: Seq<Lit>) -> Result<Term, AllocError>
    ensures { IfOk result (λ t. t ≡ replaced_with term.now lits) }
{
    let vars = term.vars.twin(alloc)?;
    let head = term.head.twin(alloc)?;
    Ok(Term { vars, lits, head })
}

/// A term with the complement in place of its literal of number `at`.
fn opposite(alloc: Global, at: usize, lit: &Lit, term: &Term) -> Result<Term, AllocError>
    requires { at < length term.now.lits }
    ensures { IfOk result (λ t. t ≡ spec.opposite at lit.now term.now) }
{
    let lits = term.lits.as_slice();
    let mut all = twins(alloc, &lits[..at])?;
    all.push(complement(alloc, lit)?)?;
    push_lits(alloc, &mut all, &lits[at + 1..])?;
    let made = with_lits(alloc, term, all)?;
    Ok(made)
}

/// Puts a copy of each literal at the end.
fn push_lits(alloc: Global, all: &mut Seq<Lit>, lits: &[Lit]) -> Result<(), AllocError>
    ensures { OnOk result (all.new ≡ all.old ++ lits.now) }
{
    for lit in lits {
        all.push(lit.twin(alloc)?)?;
    }
    Ok(())
}

/// Whether a later term is a term with the complement in place of its literal of number `at`.
fn is_opposite(
    alloc: Global,
    at: usize,
    term: &Term,
    later: &Term,
    lit: &Lit,
) -> Result<bool, AllocError>
    requires { at < length term.now.lits }
    ensures { IfOk result (λ b. b ≡ spec.is_opposite at term.now later.now lit.now) }
{
    if !has_complement(lit) {
        return Ok(false);
    }
    let made = opposite(alloc, at, lit, term)?;
    Ok(term_order(later, &made).is_eq())
}

/// A term without its literal of number `at`.
fn without(alloc: Global, at: usize, term: &Term) -> Result<Term, AllocError>
    requires { at < length term.now.lits }
    ensures { IfOk result (λ t. t ≡ replaced_with term.now (others term.now.lits at)) }
{
    let lits = term.lits.as_slice();
    let mut all = twins(alloc, &lits[..at])?;
    push_lits(alloc, &mut all, &lits[at + 1..])?;
    let made = with_lits(alloc, term, all)?;
    Ok(made)
}

/// The term without that literal, and those behind it without the one of number `gone`.
fn joined(
    alloc: Global,
    at: usize,
    gone: usize,
    term: &Term,
    later: &[Term],
) -> Result<Seq<Term>, AllocError>
    requires at { at < length term.now.lits }
    requires gone { gone < length later.now }
    ensures { IfOk result (λ s. s ≡ spec.joined at gone term.now later.now) }
{
    let first = without(alloc, at, term)?;
    let mut all = Seq::new(alloc);
    all.push(first)?;
    push_terms(alloc, &mut all, &later[..gone])?;
    push_terms(alloc, &mut all, &later[gone + 1..])?;
    Ok(all)
}

/// What the rule gives, where the later term has the number `gone` of those behind.
fn joined_with(
    alloc: Global,
    at: usize,
    gone: usize,
    term: &Term,
    later: &[Term],
) -> Result<Option<Seq<Term>>, AllocError>
    ensures { IfOk result (λ o. o ≡ spec.joined_with at gone term.now later.now) }
{
    let Some(other) = later.get(gone) else {
        return Ok(None);
    };
    let Some(lit) = term.lits.get(at) else {
        return Ok(None);
    };
    let fits = is_opposite(alloc, at, term, other, lit)?;
    if !fits {
        return Ok(None);
    }
    let terms = joined(alloc, at, gone, term, later)?;
    Ok(Some(terms))
}

/// What the rule gives by its two arguments.
fn rejoined(
    alloc: Global,
    n: u32,
    u: u32,
    at: u32,
    term: &Term,
    later: &[Term],
) -> Result<Option<Seq<Term>>, AllocError>
    ensures { IfOk result (λ o. o ≡ spec.rejoined n (u ∷ (at ∷ [])) term.now later.now) }
{
    if n >= u {
        return Ok(None);
    }
    let gone = u as usize - (n as usize + 1);
    let terms = joined_with(alloc, at as usize, gone, term, later)?;
    Ok(terms)
}

impl TailRule for Rejoining {
    ghost use Rattle.mig_literals.specs.Rejoined.{rejoined};

    ghost gives = { λ r n args t later. rejoined n args t later };

    fn rest(
        &self,
        alloc: Global,
        number: u32,
        args: &[u32],
        term: &Term,
        later: &[Term],
    ) -> Result<Option<Seq<Term>>, AllocError> {
        match args {
            [u, at] => rejoined(alloc, number, *u, *at, term, later),
            _ => Ok(None),
        }
    }
}
