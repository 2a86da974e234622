// A body without variables that is not held becomes one alternative for each of its literals.
ghost use Rattle.std.specs.Prelude.{◌≡◌, ◌++◌, ◌∷◌, [], ℕ, IfOk, OnOk};
ghost use Rattle.std.specs.List.{list_all};
ghost use Rattle.mig_classes.specs.Given as given;
ghost use Rattle.mig_literals.specs.Split as spec;

use mig_algebra::{Inner, Lit};
use mig_base::{Exact, Seq};
use mig_classes::{complement, has_complement};
use mig_steps::{LitRule, Spot, twins};
use std::alloc::{AllocError, Global};

/// The rule `split`: a body without variables that is not held becomes one alternative for each of its literals, those before it and its complement.
#[derive(Drop)]
pub struct Splitting;

/// Whether each literal has one.
fn have_complements(lits: &[Lit]) -> bool
    ensures { result ≡ list_all given.has_complement lits.now }
{
    for lit in lits {
        if !has_complement(lit) {
            return false;
        }
    }
    true
}

/// Literals, and the complement of one behind them.
fn with_complement(alloc: Global, before: &[Lit], lit: &Lit) -> Result<Seq<Lit>, AllocError>
    ensures { IfOk result (λ s. s ≡ before.now ++ given.complement lit.now ∷ []) }
{
    let mut all = twins(alloc, before)?;
    all.push(complement(alloc, lit)?)?;
    Ok(all)
}

/// For each literal those before it, and its complement.
fn first_false(alloc: Global, lits: &[Lit]) -> Result<Seq<Seq<Lit>>, AllocError>
    ensures { IfOk result (λ s. s ≡ spec.first_false [] lits.now) }
{
    let mut all = Seq::new(alloc);
    let mut before = Seq::new(alloc);
    for lit in lits {
        all.push(with_complement(alloc, before.as_slice(), lit)?)?;
        before.push(lit.twin(alloc)?)?;
    }
    Ok(all)
}

/// What a body becomes.
fn split_body(alloc: Global, held: bool, inner: &Inner) -> Result<Option<Seq<Seq<Lit>>>, AllocError>
    ensures { IfOk result (λ o. o ≡ spec.split_body held inner.now.vars inner.now.lits) }
{
    match (held, inner.vars.as_slice()) {
        (false, []) => {
            if !have_complements(inner.lits.as_slice()) {
                return Ok(None);
            }
            Ok(Some(first_false(alloc, inner.lits.as_slice())?))
        }
        _ => Ok(None),
    }
}

/// What a literal becomes.
fn split_lit(alloc: Global, lit: &Lit) -> Result<Option<Seq<Seq<Lit>>>, AllocError>
    ensures { IfOk result (λ o. o ≡ spec.split_lit lit.now) }
{
    match lit {
        Lit::Any { held, inner } => split_body(alloc, *held, inner),
        _ => Ok(None),
    }
}

impl LitRule for Splitting {
    ghost use Rattle.mig_literals.specs.Split.{split};

    ghost gives = { λ r args s. split args s };

    fn alternatives(
        &self,
        alloc: Global,
        args: &[u32],
        spot: &Spot,
    ) -> Result<Option<Seq<Seq<Lit>>>, AllocError> {
        match args {
            [] => split_lit(alloc, spot.lit),
            _ => Ok(None),
        }
    }
}
