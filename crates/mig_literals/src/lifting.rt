// A held body without variables becomes its literals.
ghost use Rattle.std.specs.Prelude.{◌≡◌, IfOk};
ghost use Rattle.mig_literals.specs.Lifted as spec;

use mig_algebra::{Inner, Lit};
use mig_base::{Exact, Seq};
use mig_steps::{LitRule, Spot, one};
use std::alloc::{AllocError, Global};

/// The rule `lift`: a held body without variables becomes its literals.
#[derive(Drop)]
pub struct Lifting;

/// What a body becomes.
fn lifted_body(
    alloc: Global,
    held: bool,
    inner: &Inner,
) -> Result<Option<Seq<Seq<Lit>>>, AllocError>
    ensures { IfOk result (λ o. o ≡ spec.lifted_body held inner.now.vars inner.now.lits) }
{
    match (held, inner.vars.as_slice()) {
        (true, []) => {
            let lits = inner.lits.twin(alloc)?;
            Ok(Some(one(alloc, lits)?))
        }
        _ => Ok(None),
    }
}

/// What a literal becomes.
fn lifted_lit(alloc: Global, lit: &Lit) -> Result<Option<Seq<Seq<Lit>>>, AllocError>
    ensures { IfOk result (λ o. o ≡ spec.lifted_lit lit.now) }
{
    match lit {
        Lit::Any { held, inner } => lifted_body(alloc, *held, inner),
        _ => Ok(None),
    }
}

impl LitRule for Lifting {
    ghost use Rattle.mig_literals.specs.Lifted.{lifted};

    ghost gives = { λ r args s. lifted args s };

    fn alternatives(
        &self,
        alloc: Global,
        args: &[u32],
        spot: &Spot,
    ) -> Result<Option<Seq<Seq<Lit>>>, AllocError> {
        match args {
            [] => lifted_lit(alloc, spot.lit),
            _ => Ok(None),
        }
    }
}
