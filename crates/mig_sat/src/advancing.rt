// One more step, or the newest choice turned.
ghost use Rattle.std.specs.Prelude.{◌≡◌, Some, None, IfOk, MatchBool};
ghost use Rattle.mig_sat.specs.Found.{advanced, IsPossible};

use crate::clauses::SatLit;
use crate::steps::{Found, Step};
use crate::trail::Trail;
use std::alloc::AllocError;

/// Makes a forced literal or a free variable true; else turns the newest choice. False where there is no choice.
///
/// On want of memory the newest choice and the steps after it may be gone.
pub fn advance(found: Found, trail: &mut Trail) -> Result<bool, AllocError>
    requires { IsPossible trail.old.size trail.old.steps found }
    ensures size { trail.new.size ≡ trail.old.size }
    ensures on { IfOk result (λ on. MatchBool on (advanced found trail.old.steps ≡ Some trail.new.steps) (advanced found trail.old.steps ≡ None)) }
{
    match found {
        Found::Forced(lit) => {
            trail.push(Step { lit, chosen: false })?;
            Ok(true)
        }
        Found::Free(var) => {
            let lit = SatLit {
                var,
                positive: true,
            };
            trail.push(Step { lit, chosen: true })?;
            Ok(true)
        }
        Found::Conflict | Found::Full => trail.turn_back(),
    }
}
