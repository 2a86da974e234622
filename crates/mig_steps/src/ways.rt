// The ways in which rules work: on a term, on a literal at a path, and on a term and those behind it.
ghost use Rattle.std.specs.Prelude.{◌≡◌, ◌++◌, IfOk, OnOk};
ghost use Rattle.std.specs.Option.{option_map};
ghost use Rattle.mig_steps.specs.Ways as spec;

use crate::replacing::replaced;
use crate::spots::{Spot, spot_at};
use mig_algebra::{Lit, Term};
use mig_base::{Exact, Seq};
use std::alloc::{AllocError, Global};

/// A rule on terms.
pub trait TermRule {
    ghost use Rattle.std.specs.Prelude.{◌≡◌, ℕ, List, Option, IfOk};
    ghost use Rattle.mig_algebra.specs.declared.terms.Term.{Term};

    ghost gives: { Self → List ℕ → Term → Option (List Term) };

    /// What a term becomes, by the step's arguments.
    fn terms(
        &self,
        alloc: Global,
        args: &[u32],
        term: &Term,
    ) -> Result<Option<Seq<Term>>, AllocError>
        ensures { IfOk result (λ o. o ≡ gives self.now args.now term.now) };
}

/// A rule on literals.
pub trait LitRule {
    ghost use Rattle.std.specs.Prelude.{◌≡◌, ℕ, List, Option, IfOk};
    ghost use Rattle.mig_algebra.specs.declared.literals.Lit.{Lit};
    ghost use Rattle.mig_steps.specs.Seeing.{seen};
    ghost use Rattle.mig_steps.specs.Spots.{Seen};

    ghost gives: { Self → List ℕ → Seen → Option (List (List Lit)) };

    /// What alternatives a literal has, by the step's arguments.
    fn alternatives(
        &self,
        alloc: Global,
        args: &[u32],
        spot: &Spot,
    ) -> Result<Option<Seq<Seq<Lit>>>, AllocError>
        ensures { IfOk result (λ o. o ≡ gives self.now args.now (seen spot.now)) };
}

/// The terms in place of the term itself.
pub fn on_term<R: TermRule>(
    alloc: Global,
    rule: &R,
    path: &[u32],
    args: &[u32],
    term: &Term,
) -> Result<Option<Seq<Term>>, AllocError>
    ensures { IfOk result (λ o. o ≡ spec.on_term (R.gives rule.now) path.now args.now term.now) }
{
    match path {
        [] => rule.terms(alloc, args, term),
        _ => Ok(None),
    }
}

/// The terms in place of a term of which the literal at a path has alternatives.
pub fn at_literal<R: LitRule>(
    alloc: Global,
    rule: &R,
    path: &[u32],
    args: &[u32],
    term: &Term,
) -> Result<Option<Seq<Term>>, AllocError>
    ensures { IfOk result (λ o. o ≡ spec.at_literal (R.gives rule.now) path.now args.now term.now) }
{
    let found = spot_at(alloc, term, path)?;
    let Some(spot) = found else {
        return Ok(None);
    };
    let Some(alternatives) = rule.alternatives(alloc, args, &spot)? else {
        return Ok(None);
    };
    let terms = replaced(alloc, term, path, alternatives)?;
    Ok(Some(terms))
}

/// A rule on a term and those behind it.
pub trait TailRule {
    ghost use Rattle.std.specs.Prelude.{◌≡◌, ℕ, List, Option, IfOk};
    ghost use Rattle.mig_algebra.specs.declared.terms.Term.{Term};

    ghost gives: { Self → ℕ → List ℕ → Term → List Term → Option (List Term) };

    /// What stands in place of the term of a number and of all behind it, by the step's arguments.
    fn rest(
        &self,
        alloc: Global,
        number: u32,
        args: &[u32],
        term: &Term,
        later: &[Term],
    ) -> Result<Option<Seq<Term>>, AllocError>
        ensures { IfOk result (λ o. o ≡ gives self.now number args.now term.now later.now) };
}

/// What a rule on a term and those behind it puts there.
pub fn on_terms<R: TailRule>(
    alloc: Global,
    rule: &R,
    number: u32,
    path: &[u32],
    args: &[u32],
    term: &Term,
    later: &[Term],
) -> Result<Option<Seq<Term>>, AllocError>
    ensures { IfOk result (λ o. o ≡ spec.on_terms (R.gives rule.now) number path.now args.now term.now later.now) }
{
    match path {
        [] => rule.rest(alloc, number, args, term, later),
        _ => Ok(None),
    }
}

/// The terms in place of one term, and copies of those behind it.
pub fn before_later(
    alloc: Global,
    given: Option<Seq<Term>>,
    later: &[Term],
) -> Result<Option<Seq<Term>>, AllocError>
    ensures { IfOk result (λ o. o ≡ option_map (λ us. us ++ later.now) given) }
{
    let Some(terms) = given else {
        return Ok(None);
    };
    let mut all = terms;
    push_terms(alloc, &mut all, later)?;
    Ok(Some(all))
}

/// Puts a copy of each term at the end.
pub fn push_terms(alloc: Global, all: &mut Seq<Term>, terms: &[Term]) -> Result<(), AllocError>
    ensures { OnOk result (all.new ≡ all.old ++ terms.now) }
{
    for term in terms {
        all.push(term.twin(alloc)?)?;
    }
    Ok(())
}
