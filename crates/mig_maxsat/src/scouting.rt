// A search that looks for a great weight alone: it tries first what weighs more, and tells nothing of the order of models.
ghost use Rattle.std.specs.Prelude.{◌≡◌, ◌<◌, ◌^◌, Some, None, IfOk, IfSome, MatchBool};
ghost use Rattle.std.specs.Int.RustNames.{unsigned_abs};
ghost use Rattle.mig_sat.specs.Found.{IsFound, IsPossible};
ghost use Rattle.mig_maxsat.specs.Heaviest.{IsSound};
ghost use Rattle.mig_maxsat.specs.Losses.{costly_numbers};
ghost use Rattle.mig_maxsat.specs.Rivals.{IsRival};
ghost use Rattle.mig_maxsat.specs.Scouting.{is_gaining, tried, IsReached};

use crate::hopeless::look_ahead;
use crate::keeping::is_above;
use crate::weighing::weigh;
use crate::weighted::Weighted;
use mig_sat::{Agenda, Found, SatLit, Step, Trail, advance};
use std::alloc::{AllocError, Global};

/// Whether the variable weighs more than nothing.
fn gains(weights: &[i64], var: u32) -> bool
    ensures { result ≡ is_gaining weights.now var }
{
    match weights.get(var as usize) {
        None => false,
        Some(weight) => *weight > 0,
    }
}

/// What `advance` does, but a free variable is tried false first where it weighs no more than nothing.
fn try_on(weights: &[i64], seen: Found, trail: &mut Trail) -> Result<bool, AllocError>
    requires { IsPossible trail.old.size trail.old.steps seen }
    ensures size { trail.new.size ≡ trail.old.size }
    ensures on { IfOk result (λ on. MatchBool on (tried weights.now seen trail.old.steps ≡ Some trail.new.steps) (tried weights.now seen trail.old.steps ≡ None)) }
{
    match seen {
        Found::Free(var) => {
            let lit = SatLit {
                var,
                positive: gains(weights, var),
            };
            trail.push(Step { lit, chosen: true })?;
            Ok(true)
        }
        seen => advance(seen, trail),
    }
}

/// What the model of whole steps weighs where that is more than was reached; else what was reached.
fn raised(
    alloc: Global,
    problem: &Weighted,
    seen: &Found,
    reached: Option<i64>,
    trail: &Trail,
) -> Result<Option<i64>, AllocError>
    requires sound { IsSound problem.now }
    requires size { trail.now.size ≡ problem.now.hard.vars }
    requires seen { IsFound problem.now.hard.clauses problem.now.hard.vars (IsRival problem.now reached) trail.now.steps seen.now }
    requires reached { IsReached problem.now reached }
    ensures { IfOk result (IsReached problem.now) }
{
    match seen {
        Found::Full => {
            let model = trail.to_model(alloc)?;
            let weight = weigh(problem.weights.as_slice(), model.values.as_slice());
            if is_above(weight, reached) {
                Ok(Some(weight))
            } else {
                Ok(reached)
            }
        }
        _ => Ok(reached),
    }
}

/// What some model weighs, the most that this search comes upon. `costly` has the numbers of the clauses that cost something.
pub fn scout(alloc: Global, problem: &Weighted, costly: &[usize]) -> Result<Option<i64>, AllocError>
    requires sound { IsSound problem.now }
    requires numbers { costly.now ≡ costly_numbers problem.now }
    ensures reached { IfOk result (IsReached problem.now) }
    ensures small { IfOk result (λ o. IfSome o (λ w. unsigned_abs w < 2 ^ 62)) }
{
    let mut trail = Trail::new(alloc, problem.hard.vars)?;
    let mut agenda = Agenda::new(alloc, &problem.hard)?;
    let mut reached = None;
    loop {
        let seen = look_ahead(alloc, problem, costly, reached, &mut agenda, &trail)?;
        reached = raised(alloc, problem, &seen, reached, &trail)?;
        if !try_on(problem.weights.as_slice(), seen, &mut trail)? {
            return Ok(reached);
        }
        agenda.shorten(trail.len());
    }
}
