// Variables of a body are folded by a view.
ghost use Rattle.std.specs.Prelude.{◌≡◌, ◌++◌, slice_get, IfOk};
ghost use Rattle.std.specs.Option.{option_and_then};
ghost use Rattle.mig_steps.specs.Seeing.{seen};
ghost use Rattle.mig_folding.specs.Foldins as spec;
ghost use Rattle.mig_folding.specs.Naming as naming;

use crate::folded_bodies::{body_known, body_scope, foldin_of};
use crate::hosting::Hosting;
use crate::offering::host_args;
use mig_algebra::{Inner, Invariant, Lit, Term, Var, View};
use mig_base::Seq;
use mig_classes::Groups;
use mig_obligations::number;
use mig_replacing::spread;
use mig_steps::{LitRule, Spot, one, spot_at};
use std::alloc::{AllocError, Global};

/// The rule `foldin`: in a body, variables for the old view's tables become variables for the new view's.
#[derive(Drop)]
pub struct ViewingBodies<'a> {
    pub invariants: &'a [Invariant],
}

/// The alternatives for a body alone.
fn spread_one(alloc: Global, held: bool, inner: Inner) -> Result<Seq<Seq<Lit>>, AllocError>
    ensures { IfOk result (λ s. s ≡ spec.one_body held inner) }
{
    let bodies = one(alloc, inner)?;
    let made = spread(alloc, held, bodies.as_slice())?;
    Ok(Seq::from_vec(made))
}

/// The alternatives for a body of which these variables are folded by a view.
fn foldin_views(
    alloc: Global,
    numbers: &[u32],
    spot: &Spot,
    source: &View,
    target: &View,
    held: bool,
    inner: &Inner,
) -> Result<Option<Seq<Seq<Lit>>>, AllocError>
    ensures { IfOk result (λ o. o ≡ spec.foldin_views numbers.now (seen spot.now) source.now target.now held inner.now) }
{
    let scope = spot.scope.as_slice();
    let around = spot.around.as_slice();
    let made = foldin_of(alloc, source, target, numbers, scope, around, inner)?;
    match made {
        Some(made) => Ok(Some(spread_one(alloc, held, made)?)),
        None => Ok(None),
    }
}

/// By an invariant, which has to be a view.
fn foldin_by(
    alloc: Global,
    numbers: &[u32],
    spot: &Spot,
    invariant: &Invariant,
    held: bool,
    inner: &Inner,
) -> Result<Option<Seq<Seq<Lit>>>, AllocError>
    ensures { IfOk result (λ o. o ≡ spec.foldin_by numbers.now (seen spot.now) invariant.now held inner.now.vars inner.now.lits) }
{
    match invariant {
        Invariant::Views { source, target } => {
            foldin_views(alloc, numbers, spot, source, target, held, inner)
        }
        Invariant::Unique { .. } | Invariant::Apart { .. } | Invariant::Within { .. } => Ok(None),
    }
}

/// The alternatives for a literal.
fn foldin_lit(
    alloc: Global,
    numbers: &[u32],
    spot: &Spot,
    lit: &Lit,
    invariant: &Invariant,
) -> Result<Option<Seq<Seq<Lit>>>, AllocError>
    ensures { IfOk result (λ o. o ≡ spec.foldin_lit numbers.now (seen spot.now) lit.now invariant.now) }
{
    match lit {
        Lit::Any { held, inner } => foldin_by(alloc, numbers, spot, invariant, *held, inner),
        _ => Ok(None),
    }
}

/// The alternatives by the invariant of a number, if there is one.
fn foldin(
    alloc: Global,
    invariants: &[Invariant],
    k: u32,
    numbers: &[u32],
    spot: &Spot,
) -> Result<Option<Seq<Seq<Lit>>>, AllocError>
    ensures { IfOk result (λ o. o ≡ option_and_then (spec.foldin_lit numbers.now (seen spot.now) spot.now.lit.now) (slice_get invariants.now k)) }
{
    match invariants.get(k as usize) {
        Some(invariant) => foldin_lit(alloc, numbers, spot, spot.lit, invariant),
        None => Ok(None),
    }
}

impl<'a> LitRule for ViewingBodies<'a> {
    ghost use Rattle.mig_folding.specs.Foldins.{foldin};

    ghost gives = { λ r args s. foldin r.invariants.now args s };

    fn alternatives(
        &self,
        alloc: Global,
        args: &[u32],
        spot: &Spot,
    ) -> Result<Option<Seq<Seq<Lit>>>, AllocError> {
        match args {
            [k, numbers @ ..] => foldin(alloc, self.invariants, *k, numbers, spot),
            [] => Ok(None),
        }
    }
}

/// The arguments for a body, where these variables are in scope and these plain literals stand around it.
fn foldin_in(
    alloc: Global,
    invariants: &[Invariant],
    scope: &[Var],
    around: &[Lit],
    inner: &Inner,
) -> Result<Seq<Seq<u32>>, AllocError>
    ensures { IfOk result (λ s. s ≡ naming.host_args invariants.now (spec.body_host scope.now around.now inner.now.vars inner.now.lits)) }
{
    let base = number(scope.len())?;
    let inside = body_scope(alloc, scope, inner)?;
    let known = body_known(alloc, around, inner)?;
    let groups = Groups::of(alloc, known.as_slice())?;
    let hosting = Hosting {
        base,
        vars: inner.vars.as_slice(),
        scope: inside.as_slice(),
        groups: &groups,
    };
    let all = host_args(alloc, invariants, &hosting)?;
    Ok(all)
}

/// The arguments for a literal.
fn foldin_of_lit(
    alloc: Global,
    invariants: &[Invariant],
    scope: &[Var],
    around: &[Lit],
    lit: &Lit,
) -> Result<Seq<Seq<u32>>, AllocError>
    ensures { IfOk result (λ s. s ≡ spec.foldin_of_lit invariants.now scope.now around.now lit.now) }
{
    match lit {
        Lit::Any { inner, .. } => {
            let all = foldin_in(alloc, invariants, scope, around, inner)?;
            Ok(all)
        }
        _ => Ok(Seq::new(alloc)),
    }
}

/// The arguments that are tried for the rule `foldin` at a path, in order: each view with variables of the body there that range over the tables of its old side before the call, where what stands in the body and around it gives the equalities of the join between them. Want of memory is the only error.
pub fn foldin_args(
    alloc: Global,
    invariants: &[Invariant],
    path: &[u32],
    term: &Term,
) -> Result<Seq<Seq<u32>>, AllocError>
    ensures { IfOk result (λ s. s ≡ spec.foldin_args invariants.now path.now term.now) }
{
    let found = spot_at(alloc, term, path)?;
    let Some(spot) = found else {
        return Ok(Seq::new(alloc));
    };
    let scope = spot.scope.as_slice();
    let all = foldin_of_lit(alloc, invariants, scope, spot.around.as_slice(), spot.lit)?;
    Ok(all)
}
