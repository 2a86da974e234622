// A term goes that contradicts itself.
ghost use Rattle.std.specs.Prelude.{◌≡◌, IfOk};
ghost use Rattle.mig_classes.specs.Given as given;
ghost use Rattle.mig_replacing.specs.Given as placed;

use mig_algebra::Term;
use mig_base::Seq;
use mig_classes::contradictory;
use mig_steps::{TermRule, push_plain};
use std::alloc::{AllocError, Global};

/// The rule `dead`: a term goes whose own plain literals contradict each other.
#[derive(Drop)]
pub struct Dying;

/// Whether a term contradicts itself.
fn is_dead(alloc: Global, term: &Term) -> Result<bool, AllocError>
    ensures { IfOk result (λ b. b ≡ given.contradictory term.now.vars (placed.plain term.now.lits)) }
{
    let mut plain = Seq::new(alloc);
    push_plain(alloc, &mut plain, term.lits.as_slice())?;
    let found = contradictory(alloc, term.vars.as_slice(), plain.as_slice())?;
    Ok(found)
}

impl TermRule for Dying {
    ghost use Rattle.mig_literals.specs.Dead.{dead};

    ghost gives = { λ r args t. dead args t };

    fn terms(
        &self,
        alloc: Global,
        args: &[u32],
        term: &Term,
    ) -> Result<Option<Seq<Term>>, AllocError> {
        match args {
            [] => {
                if is_dead(alloc, term)? {
                    Ok(Some(Seq::new(alloc)))
                } else {
                    Ok(None)
                }
            }
            _ => Ok(None),
        }
    }
}
