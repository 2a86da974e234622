// Variables of a term are folded by a view.
ghost use Rattle.std.specs.Prelude.{◌≡◌, slice_get, IfOk};
ghost use Rattle.std.specs.Option.{option_and_then};
ghost use Rattle.mig_folding.specs.Folds as spec;

use crate::folded_terms::fold_of;
use crate::hosting::Hosting;
use crate::offering::host_args;
use mig_algebra::{Invariant, Term, View};
use mig_base::Seq;
use mig_classes::Groups;
use mig_steps::{TermRule, one, push_plain};
use std::alloc::{AllocError, Global};

/// The rule `fold`: in a term, variables for the old view's tables become variables for the new view's.
#[derive(Drop)]
pub struct Viewing<'a> {
    pub invariants: &'a [Invariant],
}

/// What a term becomes where these variables are folded by a view.
fn fold_at(
    alloc: Global,
    source: &View,
    target: &View,
    numbers: &[u32],
    term: &Term,
) -> Result<Option<Seq<Term>>, AllocError>
    ensures { IfOk result (λ o. o ≡ spec.by_views numbers.now term.now source.now target.now) }
{
    let made = fold_of(alloc, source, target, numbers, term)?;
    match made {
        Some(made) => Ok(Some(one(alloc, made)?)),
        None => Ok(None),
    }
}

/// What it becomes where they are folded by an invariant, which has to be a view.
fn by_fold(
    alloc: Global,
    invariant: &Invariant,
    numbers: &[u32],
    term: &Term,
) -> Result<Option<Seq<Term>>, AllocError>
    ensures { IfOk result (λ o. o ≡ spec.by_fold numbers.now term.now invariant.now) }
{
    match invariant {
        Invariant::Views { source, target } => fold_at(alloc, source, target, numbers, term),
        Invariant::Unique { .. } | Invariant::Apart { .. } | Invariant::Within { .. } => Ok(None),
    }
}

/// What it becomes by the invariant of a number, if there is one.
fn fold_by(
    alloc: Global,
    invariants: &[Invariant],
    k: u32,
    numbers: &[u32],
    term: &Term,
) -> Result<Option<Seq<Term>>, AllocError>
    ensures { IfOk result (λ o. o ≡ option_and_then (spec.by_fold numbers.now term.now) (slice_get invariants.now k)) }
{
    match invariants.get(k as usize) {
        Some(invariant) => by_fold(alloc, invariant, numbers, term),
        None => Ok(None),
    }
}

impl<'a> TermRule for Viewing<'a> {
    ghost use Rattle.mig_folding.specs.Folds.{fold};

    ghost gives = { λ r args t. fold r.invariants.now args t };

    fn terms(
        &self,
        alloc: Global,
        args: &[u32],
        term: &Term,
    ) -> Result<Option<Seq<Term>>, AllocError> {
        match args {
            [k, numbers @ ..] => fold_by(alloc, self.invariants, *k, numbers, term),
            [] => Ok(None),
        }
    }
}

/// The arguments that are tried for the rule `fold`, in order: each view with variables of the term that range over the tables of its old side before the call, where the term gives the equalities of the join between them. Want of memory is the only error.
pub fn fold_args(
    alloc: Global,
    invariants: &[Invariant],
    term: &Term,
) -> Result<Seq<Seq<u32>>, AllocError>
    ensures { IfOk result (λ s. s ≡ spec.fold_args invariants.now term.now) }
{
    let vars = term.vars.as_slice();
    let mut known = Seq::new(alloc);
    push_plain(alloc, &mut known, term.lits.as_slice())?;
    let groups = Groups::of(alloc, known.as_slice())?;
    let hosting = Hosting {
        base: 0,
        vars,
        scope: vars,
        groups: &groups,
    };
    let all = host_args(alloc, invariants, &hosting)?;
    Ok(all)
}
