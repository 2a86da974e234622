// Literals of lists, and bodies of literals.
ghost use Rattle.std.specs.Prelude.{◌≡◌, ◌<◌, false, length, slice_get, OnSome};
ghost use Rattle.std.specs.Option.{MatchOption, option_copied};
ghost use Rattle.mig_algebra.specs.declared.literals.Lit.TheVariants.{Any};
ghost use Rattle.mig_steps.specs.Bodies.{is_body as has_body};

use mig_algebra::{Inner, Lit};

/// Whether a body is held, and the body.
#[derive(Clone, Copy)]
pub struct Body<'a> {
    pub held: bool,
    pub inner: &'a Inner,
}

/// A literal's body, if it has one.
pub fn body_of(lit: &Lit) -> Option<Body<'_>>
    ensures { MatchOption result (has_body lit.now ≡ false) (λ b. lit.now ≡ Any b.held b.inner.now) }
{
    match lit {
        Lit::Any { held, inner } => Some(Body { held: *held, inner }),
        _ => None,
    }
}

/// The literal of a number.
pub(crate) fn lit_at(lits: &[Lit], at: usize) -> Option<&Lit>
    ensures value { option_copied result ≡ slice_get lits.now at }
    ensures within { OnSome result (at < length lits.now) }
{
    lits.get(at)
}

/// Whether a literal has a body.
pub fn is_body(lit: &Lit) -> bool
    ensures { result ≡ has_body lit.now }
{
    match lit {
        Lit::Any { .. } => true,
        _ => false,
    }
}
