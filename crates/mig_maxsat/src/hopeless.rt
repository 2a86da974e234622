// Steps that no model follows which weighs more than the floor.
ghost use Rattle.std.specs.Prelude.{◌≡◌, ◌⊎◌, IfOk, IfSome, MatchBool, length};
ghost use Rattle.std.specs.List.{list_all};
ghost use Rattle.mig_maxsat.specs.Heaviest.{IsSound};
ghost use Rattle.mig_maxsat.specs.Rivals.{IsRival, IsFloor};
ghost use Rattle.mig_maxsat.specs.Losses.{is_costly_lit, costly_numbers, HasRoom, OnFree};
ghost use Rattle.mig_sat.specs.Found.{IsFound, IsUnfollowed};
ghost use Rattle.mig_sat.specs.Agendas.{IsThrough, StopsAt};

use crate::charging::charged;
use crate::weighing::most;
use crate::weighted::Weighted;
use mig_sat::{Agenda, Found, SatLit, Trail, look};
use std::alloc::{AllocError, Global};

/// Whether the literal is positive, and its variable of negative weight.
fn loses(lit: SatLit, weights: &[i64]) -> bool
    ensures { result ≡ is_costly_lit weights.now lit }
{
    match weights.get(lit.var as usize) {
        None => false,
        Some(weight) => lit.positive && *weight < 0,
    }
}

/// Whether each literal of the clause is so.
fn is_costly(clause: &[SatLit], weights: &[i64]) -> bool
    ensures { result ≡ list_all (is_costly_lit weights.now) clause.now }
{
    clause.iter().all(|lit| loses(*lit, weights))
}

/// The numbers of the clauses that cost something where none of their literals is true yet, in order.
pub fn costly(alloc: Global, problem: &Weighted) -> Result<Vec<usize>, AllocError>
    ensures { IfOk result (λ numbers. numbers.items ≡ costly_numbers problem.now) }
{
    let clauses = problem.hard.clauses.as_slice();
    let weights = problem.weights.as_slice();
    let mut numbers = Vec::new(alloc);
    for number in 0..clauses.len() {
        if is_costly(clauses[number].as_slice(), weights) {
            numbers.push(number)?;
        }
    }
    Ok(numbers)
}

/// Whether the bound shows that no model follows the steps and weighs more than the floor.
fn is_hopeless(
    alloc: Global,
    problem: &Weighted,
    costly: &[usize],
    floor: Option<i64>,
    trail: &Trail,
) -> Result<bool, AllocError>
    requires sound { IsSound problem.now }
    requires size { trail.now.size ≡ problem.now.hard.vars }
    requires floor { IsFloor floor }
    ensures { IfOk result (λ hopeless. MatchBool hopeless (IsUnfollowed (IsRival problem.now floor) trail.now.steps) (HasRoom problem.now floor costly.now trail.now.steps)) }
{
    match floor {
        None => Ok(false),
        Some(floor) => {
            let charged = charged(alloc, problem, costly, trail)?;
            let most = most(charged.weights.as_slice(), problem.hard.vars, trail);
            Ok(most - floor <= charged.lost)
        }
    }
}

/// What `look` finds, and a conflict in place of a free variable where no model that follows the steps weighs more than the floor.
/// `costly` has the numbers of the clauses that cost something.
pub fn look_ahead(
    alloc: Global,
    problem: &Weighted,
    costly: &[usize],
    floor: Option<i64>,
    agenda: &mut Agenda,
    trail: &Trail,
) -> Result<Found, AllocError>
    requires sound { IsSound problem.now }
    requires size { trail.now.size ≡ problem.now.hard.vars }
    requires numbers { costly.now ≡ costly_numbers problem.now }
    requires floor { IsFloor floor }
    ensures found { IfOk result (λ seen. IsFound problem.now.hard.clauses problem.now.hard.vars (IsRival problem.now floor) trail.now.steps seen) }
    ensures room { IfOk result (λ seen. OnFree seen (HasRoom problem.now floor costly.now trail.now.steps)) }
    ensures lists { agenda.new.lists.items ≡ agenda.old.lists.items }
    ensures heeded { IfOk result (λ seen. IsThrough problem.now.hard.clauses agenda.old trail.now.steps ⊎ StopsAt problem.now.hard.clauses agenda.old agenda.new trail.now.steps seen) }
{
    match look(&problem.hard, agenda, trail) {
        Found::Free(var) => {
            if is_hopeless(alloc, problem, costly, floor, trail)? {
                Ok(Found::Conflict)
            } else {
                Ok(Found::Free(var))
            }
        }
        seen => Ok(seen),
    }
}
