// Bodies of which variables are folded by a view.
ghost use Rattle.std.specs.Prelude.{◌≡◌, ◌++◌, length, IfOk};
ghost use Rattle.mig_replacing.specs.Given.{plain};
ghost use Rattle.mig_folding.specs.Folding as spec;
ghost use Rattle.mig_folding.specs.Writing as writing;

use crate::hosting::{are_named, join_given};
use crate::images::{Named, lits_fold};
use crate::staying::kept_numbers;
use crate::writing::{Folding, folded_lits, folded_vars};
use mig_algebra::{Inner, Lit, Var, View};
use mig_base::Seq;
use mig_obligations::number;
use mig_schema::Join;
use mig_steps::{push_plain, twins};
use std::alloc::{AllocError, Global};

/// A body with the new view's tables in place of the named variables.
fn folded(alloc: Global, folding: &Folding, inner: &Inner) -> Result<Inner, AllocError>
    requires { writing.IsCounted folding.now }
    ensures { IfOk result (λ b. b ≡ spec.folded_body (writing.fold_now folding.now) inner.now) }
{
    let vars = folded_vars(alloc, folding)?;
    let lits = folded_lits(alloc, folding, inner.lits.as_slice())?;
    Ok(Inner { vars, lits })
}

/// A body whose named variables may be folded, where so many variables are in scope around it.
fn foldin_named(
    alloc: Global,
    named: &Named,
    target: &View,
    scope: &[Var],
    inner: &Inner,
) -> Result<Inner, AllocError>
    ensures { IfOk result (λ b. b ≡ spec.folded_body (spec.body_fold named.now.source.now target.now named.now.numbers.now scope.now inner.now) inner.now) }
{
    let vars = inner.vars.as_slice();
    let base = number(scope.len())?;
    let numbers = kept_numbers(alloc, base, vars, named.numbers)?;
    let kept = numbers.as_slice();
    let stay = number(kept.len())?;
    let first = number(base as usize + stay as usize)?;
    let folding = Folding {
        base,
        vars,
        named,
        target,
        kept,
        first,
    };
    let made = folded(alloc, &folding, inner)?;
    Ok(made)
}

/// The variables in scope in a body.
pub(crate) fn body_scope(
    alloc: Global,
    scope: &[Var],
    inner: &Inner,
) -> Result<Seq<Var>, AllocError>
    ensures { IfOk result (λ s. s ≡ scope.now ++ inner.now.vars) }
{
    let mut inside = Seq::from_slice(alloc, scope)?;
    inside.extend_from_slice(inner.vars.as_slice())?;
    Ok(inside)
}

/// The plain literals around a body and of it.
pub(crate) fn body_known(
    alloc: Global,
    around: &[Lit],
    inner: &Inner,
) -> Result<Seq<Lit>, AllocError>
    ensures { IfOk result (λ s. s ≡ around.now ++ plain inner.now.lits) }
{
    let mut known = twins(alloc, around)?;
    push_plain(alloc, &mut known, inner.lits.as_slice())?;
    Ok(known)
}

/// Whether a body's plain literals and those around it give all equalities of a join, by the variables of these numbers.
fn body_joins(
    alloc: Global,
    join: &Join,
    numbers: &[u32],
    scope: &[Var],
    around: &[Lit],
    inner: &Inner,
) -> Result<bool, AllocError>
    ensures { IfOk result (λ b. b ≡ spec.joins_by join.now numbers.now (scope.now ++ inner.now.vars) (around.now ++ plain inner.now.lits)) }
{
    let inside = body_scope(alloc, scope, inner)?;
    let known = body_known(alloc, around, inner)?;
    let given = join_given(alloc, inside.as_slice(), known.as_slice(), join, numbers)?;
    Ok(given)
}

/// The body that a body becomes where the rows of variables are those of the new view's join; nothing where these are no variables of it for the old view's tables, joined as these are, or the view can't say what the body says of them.
pub(crate) fn foldin_of(
    alloc: Global,
    source: &View,
    target: &View,
    numbers: &[u32],
    scope: &[Var],
    around: &[Lit],
    inner: &Inner,
) -> Result<Option<Inner>, AllocError>
    ensures { IfOk result (λ o. o ≡ spec.foldin_of source.now target.now numbers.now scope.now around.now inner.now) }
{
    let named = Named { numbers, source };
    let base = number(scope.len())?;
    if !are_named(base, inner.vars.as_slice(), numbers, &source.join)
        || !lits_fold(&named, inner.lits.as_slice())
    {
        return Ok(None);
    }
    if !body_joins(alloc, &source.join, numbers, scope, around, inner)? {
        return Ok(None);
    }
    let made = foldin_named(alloc, &named, target, scope, inner)?;
    Ok(Some(made))
}
