// The heaviest model of clauses whose variables have weights.
ghost use Rattle.std.specs.Prelude.{◌≡◌, ◌<◌, ◌^◌, ℤ, pos, ◌-ℤ◌, List, Bool, IfOk, IfSome, IfNone, option_map};
ghost use Rattle.std.specs.Int.RustNames.{unsigned_abs};
ghost use Rattle.mig_sat.specs.Models.{HasNoModel};
ghost use Rattle.mig_maxsat.specs.Heaviest.{IsSound, IsHeaviest};
ghost use Rattle.mig_maxsat.specs.Losses.{costly_numbers};
ghost use Rattle.mig_maxsat.specs.Rivals.{IsRival, IsFloor};

use crate::hopeless::{costly, look_ahead};
use crate::keeping::{Held, keep};
use crate::scouting::scout;
use crate::weighted::Weighted;
use mig_sat::{Agenda, Model, Trail, advance};
use std::alloc::{AllocError, Global};

/// One less than was reached, if anything was.
fn below(reached: Option<i64>) -> Option<i64>
    requires { IfSome reached (λ w. unsigned_abs w < 2 ^ 62) }
    ensures less { result ≡ option_map (λ w. w -ℤ pos 1) reached }
    ensures floor { IsFloor result }
{
    match reached {
        None => None,
        Some(weight) => Some(weight - 1),
    }
}

/// The heaviest model of those that weigh more than the floor, of equally heavy ones the first. `costly` has the numbers of the
/// clauses that cost something.
fn heaviest_above(
    alloc: Global,
    problem: &Weighted,
    costly: &[usize],
    floor: Option<i64>,
) -> Result<Option<Model>, AllocError>
    requires sound { IsSound problem.now }
    requires numbers { costly.now ≡ costly_numbers problem.now }
    requires floor { IsFloor floor }
    ensures heaviest { IfOk result (λ o. IfSome o (λ m. IsHeaviest problem.now m.values)) }
    ensures none { IfOk result (λ o. IfNone o ((m : List Bool) → IsRival problem.now floor m → ⊥)) }
{
    let mut trail = Trail::new(alloc, problem.hard.vars)?;
    let mut agenda = Agenda::new(alloc, &problem.hard)?;
    let mut held = Held { floor, model: None };
    loop {
        let seen = look_ahead(alloc, problem, costly, held.floor, &mut agenda, &trail)?;
        held = keep(alloc, problem, &seen, held, &trail)?;
        if !advance(seen, &mut trail)? {
            return Ok(held.model);
        }
        agenda.shorten(trail.len());
    }
}

/// A model whose true variables weigh most, of equally heavy ones the first; `None` exactly where the clauses have no model.
///
/// Models are ordered by variable, true before false. The variable of each literal must be below `vars`, and each
/// variable must have one weight; the absolute values must sum below 2^62. The only error is want of memory.
///
/// A first search looks for a great weight alone, and a second one for the heaviest model of those that weigh as much.
pub fn best(alloc: Global, problem: &Weighted) -> Result<Option<Model>, AllocError>
    requires { IsSound problem.now }
    ensures heaviest { IfOk result (λ o. IfSome o (λ m. IsHeaviest problem.now m.values)) }
    ensures none { IfOk result (λ o. IfNone o (HasNoModel problem.now.hard)) }
{
    let costly = costly(alloc, problem)?;
    let reached = scout(alloc, problem, costly.as_slice())?;
    heaviest_above(alloc, problem, costly.as_slice(), below(reached))
}
