// What a clause is under some steps.
ghost use Rattle.std.specs.Prelude.{◌≡◌, ◌<◌, ℕ, All, IfSome, MatchOption, MatchBool, Any, slice_get};
ghost use Rattle.mig_sat.specs.Models.{IsInRange, IsModel};
ghost use Rattle.mig_sat.specs.Steps.{IsFalse, IsNotFalse, FollowsAll};
ghost use Rattle.mig_sat.specs.Found.{IsFound};
ghost use Rattle.mig_sat.specs.Saying.{IsJudged, IsSaid, IsSilent};
ghost use Rattle.mig_sat.specs.declared.clauses.SatLit.{SatLit as Lit};

use crate::clauses::{Cnf, SatLit};
use crate::steps::{Found, Judged};
use crate::trail::Trail;
use mig_base::Seq;

/// What the clause is. It goes no further than to a true literal, or to a second one without a value.
fn judge(clause: &Seq<SatLit>, trail: &Trail) -> Judged
    requires { All (λ (l : Lit). l.var < trail.now.size) clause.now }
    ensures { IsJudged trail.now.steps trail.now.size clause.now result }
{
    let mut free: Option<SatLit> = None;
    for lit in clause.as_slice() {
        match trail.value(lit.var) {
            Some(value) => {
                if value == lit.positive {
                    return Judged::Open;
                }
            }
            None => {
                if free.is_some() {
                    return Judged::Open;
                }
                free = Some(*lit);
            }
        }
    }
    match free {
        None => Judged::Falsified,
        Some(lit) => Judged::Unit(lit),
    }
}

/// What the clause of this number says: a conflict or a forced literal; `None` where it is missing or open,
/// that is where a literal is true, or literals at two places have no value.
pub fn told(cnf: &Cnf, number: usize, trail: &Trail) -> Option<Found>
    requires range { IsInRange cnf.now }
    requires size { trail.now.size ≡ cnf.now.vars }
    ensures found { IfSome result (λ f. IsFound cnf.now.clauses cnf.now.vars (IsModel cnf.now) trail.now.steps f) }
    ensures said { MatchOption result (IsSilent trail.now.steps (slice_get cnf.now.clauses number)) (λ f. IsSaid trail.now.steps (slice_get cnf.now.clauses number) f) }
{
    match judge(cnf.clauses.get(number)?, trail) {
        Judged::Falsified => Some(Found::Conflict),
        Judged::Unit(lit) => Some(Found::Forced(lit)),
        Judged::Open => None,
    }
}

/// Whether each literal of the clause is false.
pub fn is_falsified(clause: &Seq<SatLit>, trail: &Trail) -> bool
    requires { All (λ (l : Lit). l.var < trail.now.size) clause.now }
    ensures { MatchBool result (All (IsFalse trail.now.steps) clause.now) (Any (IsNotFalse trail.now.steps) clause.now) }
{
    for lit in clause.as_slice() {
        if trail.value(lit.var) != Some(!lit.positive) {
            return false;
        }
    }
    true
}
