// A literal goes that is given, or repeats an earlier one of its list.
ghost use Rattle.std.specs.Prelude.{◌≡◌, IfOk};
ghost use Rattle.mig_literals.specs.Implied as spec;
ghost use Rattle.mig_steps.specs.Seeing.{seen};

use mig_algebra::{Lit, lit_order};
use mig_base::Seq;
use mig_classes::is_given;
use mig_steps::{LitRule, Spot, one};
use std::alloc::{AllocError, Global};

/// The rule `implied`: a comparison goes that the other plain literals around it give; an `Other` or a body goes that stands earlier in its list.
#[derive(Drop)]
pub struct Implying;

/// Whether a literal is one of a list.
fn is_one_of(lits: &[Lit], lit: &Lit) -> bool
    ensures { result ≡ spec.is_one_of lits.now lit.now }
{
    for other in lits {
        if lit_order(lit, other).is_eq() {
            return true;
        }
    }
    false
}

/// Whether a literal goes.
fn goes(alloc: Global, spot: &Spot, lit: &Lit) -> Result<bool, AllocError>
    ensures { IfOk result (λ b. b ≡ spec.goes (seen spot.now) lit.now) }
{
    match lit {
        Lit::Cmp { .. } => {
            let given = is_given(alloc, spot.scope.as_slice(), spot.around.as_slice(), lit)?;
            Ok(given)
        }
        _ => Ok(is_one_of(spot.earlier, lit)),
    }
}

impl LitRule for Implying {
    ghost use Rattle.mig_literals.specs.Implied.{implied};

    ghost gives = { λ r args s. implied args s };

    fn alternatives(
        &self,
        alloc: Global,
        args: &[u32],
        spot: &Spot,
    ) -> Result<Option<Seq<Seq<Lit>>>, AllocError> {
        match args {
            [] => {
                if goes(alloc, spot, spot.lit)? {
                    Ok(Some(one(alloc, Seq::new(alloc))?))
                } else {
                    Ok(None)
                }
            }
            _ => Ok(None),
        }
    }
}
