// A body is decided that variables outside it meet.
ghost use Rattle.std.specs.Prelude.{◌≡◌, IfOk, slice_get, length};
ghost use Rattle.mig_steps.specs.Seeing.{seen};
ghost use Rattle.mig_folding.specs.Found as spec;

use crate::knowing::are_known;
use mig_algebra::{Inner, Lit, Var, var_order};
use mig_base::Seq;
use mig_steps::{LitRule, Spot, one};
use std::alloc::{AllocError, Global};

/// The rule `found`: a body is decided that variables outside it meet, in place of its own.
#[derive(Drop)]
pub struct Finding;

/// Whether a variable of a number is there, of the side, table and stage of another.
fn is_alike(var: &Var, scope: &[Var], x: u32) -> bool
    ensures { result ≡ spec.is_alike var.now (slice_get scope.now x) }
{
    match scope.get(x as usize) {
        Some(found) => var_order(var, found).is_eq(),
        None => false,
    }
}

/// Whether these are variables in scope that are alike the first of a body's, one for each.
pub(crate) fn stand_first(scope: &[Var], names: &[u32], vars: &[Var]) -> bool
    ensures { result ≡ spec.stand_first scope.now names.now vars.now }
{
    match names {
        [] => true,
        [x, names @ ..] => match vars {
            [] => false,
            [var, vars @ ..] => is_alike(var, scope, *x) && stand_first(scope, names, vars),
        },
    }
}

/// Whether these are variables in scope that are alike a body's, one for each.
fn stand_for(scope: &[Var], names: &[u32], vars: &[Var]) -> bool
    ensures { result ≡ spec.stand_for scope.now names.now vars.now }
{
    names.len() == vars.len() && stand_first(scope, names, vars)
}

/// One alternative without literals where the body is held, and none where it is not.
fn met_alternatives(alloc: Global, held: bool) -> Result<Seq<Seq<Lit>>, AllocError>
    ensures { IfOk result (λ s. s ≡ spec.met_alternatives held) }
{
    if held {
        let met = one(alloc, Seq::new(alloc))?;
        Ok(met)
    } else {
        Ok(Seq::new(alloc))
    }
}

/// What a body becomes that these variables meet.
fn found_in(
    alloc: Global,
    names: &[u32],
    spot: &Spot,
    held: bool,
    inner: &Inner,
) -> Result<Option<Seq<Seq<Lit>>>, AllocError>
    ensures { IfOk result (λ o. o ≡ spec.found_in names.now (seen spot.now) held inner.now.vars inner.now.lits) }
{
    if !stand_for(spot.scope.as_slice(), names, inner.vars.as_slice()) {
        return Ok(None);
    }
    if !are_known(alloc, spot, names, inner.lits.as_slice())? {
        return Ok(None);
    }
    let met = met_alternatives(alloc, held)?;
    Ok(Some(met))
}

/// What a literal becomes, if it has a body.
fn found(
    alloc: Global,
    names: &[u32],
    spot: &Spot,
    lit: &Lit,
) -> Result<Option<Seq<Seq<Lit>>>, AllocError>
    requires { lit.now ≡ spot.now.lit.now }
    ensures { IfOk result (λ o. o ≡ spec.found names.now (seen spot.now)) }
{
    match lit {
        Lit::Any { held, inner } => {
            let made = found_in(alloc, names, spot, *held, inner)?;
            Ok(made)
        }
        _ => Ok(None),
    }
}

impl LitRule for Finding {
    ghost gives = { λ r args s. spec.found args s };

    fn alternatives(
        &self,
        alloc: Global,
        args: &[u32],
        spot: &Spot,
    ) -> Result<Option<Seq<Seq<Lit>>>, AllocError> {
        let made = found(alloc, args, spot, spot.lit)?;
        Ok(made)
    }
}
