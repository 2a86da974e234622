// The heaviest model found so far.
ghost use Rattle.std.specs.Prelude.{◌≡◌, length, IfOk, MatchBool};
ghost use Rattle.mig_maxsat.specs.Heaviest.{IsSound};
ghost use Rattle.mig_maxsat.specs.Rivals.{IsAbove, IsRival, IsBetter, IsSettled};
ghost use Rattle.mig_sat.specs.Steps.{IsRight};
ghost use Rattle.mig_sat.specs.Found.{IsFound};

use crate::weighing::weigh;
use crate::weighted::Weighted;
use mig_sat::{Found, Model, Trail};
use std::alloc::{AllocError, Global};

/// The heaviest model found so far, if one was found, and the floor: what a heavier one weighs more than.
#[derive(Drop)]
pub struct Held {
    pub floor: Option<i64>,
    pub model: Option<Model>,
}

/// Whether the weight is more than the floor, if there is a floor.
pub fn is_above(weight: i64, floor: Option<i64>) -> bool
    ensures { MatchBool result (IsAbove floor weight) (IsAbove floor weight → ⊥) }
{
    match floor {
        None => true,
        Some(floor) => floor < weight,
    }
}

/// The model where it weighs more than the floor, and what it weighs as the next floor; else what was held.
fn better(problem: &Weighted, held: Held, model: Model) -> Held
    requires sound { IsSound problem.now }
    requires sized { length model.values ≡ problem.now.hard.vars }
    ensures { IsBetter problem.now.weights held model result }
{
    let weight = weigh(problem.weights.as_slice(), model.values.as_slice());
    if is_above(weight, held.floor) {
        Held {
            floor: Some(weight),
            model: Some(model),
        }
    } else {
        held
    }
}

/// What was held, or the model of whole steps where that is heavier.
pub fn keep(
    alloc: Global,
    problem: &Weighted,
    seen: &Found,
    held: Held,
    trail: &Trail,
) -> Result<Held, AllocError>
    requires sound { IsSound problem.now }
    requires size { trail.now.size ≡ problem.now.hard.vars }
    requires right { IsRight problem.now.hard.vars (IsRival problem.now held.floor) trail.now.steps }
    requires seen { IsFound problem.now.hard.clauses problem.now.hard.vars (IsRival problem.now held.floor) trail.now.steps seen.now }
    ensures { IfOk result (λ kept. IsSettled problem.now held kept trail.now.steps seen.now) }
{
    match seen {
        Found::Full => {
            let model = trail.to_model(alloc)?;
            Ok(better(problem, held, model))
        }
        _ => Ok(held),
    }
}
