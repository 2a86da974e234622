// What clauses cost at least, put onto the weights of their variables.
ghost use Rattle.std.specs.Prelude.{◌≡◌, ◌<◌, ◌≤◌, ◌^◌, ◌≤ℤ◌, ◌+ℤ◌, pos, List, Bool, length, slice_get, ◌⊎◌, ℕ, All, Any, IfOk, IfSome, IfNone};
ghost use Rattle.mig_sat.specs.Models.{HoldsLit, IsModel};
ghost use Rattle.mig_sat.specs.Steps.{FollowsAll};
ghost use Rattle.mig_sat.specs.declared.clauses.SatLit.{SatLit as Lit};
ghost use Rattle.mig_maxsat.specs.Heaviest.{weight, magnitude, IsSound};
ghost use Rattle.mig_maxsat.specs.Bounds.{weight_of, CostsLit, IsPayment, ArePaid, IsRaised, IsCharged};
ghost use Rattle.mig_maxsat.specs.Losses.{IsLossless, IsLossy, LosesLit, Loses, IsSpent, AreSpent, IsCharge, IsChargeAt, IsSum, AreCharged};

use crate::weighted::Weighted;
use mig_sat::{SatLit, Trail};
use std::alloc::{AllocError, Global};

/// More than any weight is.
const LIMIT: i64 = 1 << 62;

/// Weights by which each model that follows the steps is heavier than by the problem's, by `lost` at least.
#[derive(Drop)]
pub struct Charges {
    pub weights: Vec<i64>,
    pub lost: i64,
}

/// The lesser of the cost and the loss by the literal, or the cost where it is false; `None` where it is true, or may be
/// without loss.
fn lesser(lit: SatLit, cost: i64, weights: &[i64], trail: &Trail) -> Option<i64>
    requires range { lit.var < trail.now.size }
    requires sized { length weights.now ≡ trail.now.size }
    requires fits { magnitude weights.now < 2 ^ 62 }
    ensures most { IfSome result (λ k. k ≤ℤ cost) }
    ensures costs { IfSome result (λ k. CostsLit trail.now.steps weights.now k lit) }
    ensures loses { IfSome result (λ k. (k ≡ cost) ⊎ LosesLit trail.now.steps weights.now k lit) }
    ensures lossy { IfSome result (λ k. IsLossy trail.now.steps weights.now lit) }
    ensures none { IfNone result (IsLossless trail.now.steps weights.now lit) }
{
    let value = trail.value(lit.var);
    if value == Some(!lit.positive) {
        return Some(cost);
    }
    let weight = weights[lit.var as usize];
    if value == Some(lit.positive) || !lit.positive || weight >= 0 {
        return None;
    }
    Some(cost.min(-weight))
}

/// What a model loses at least by its true literal of the clause; `None` where that may be nothing, or a literal is true already.
fn cost(clause: &[SatLit], weights: &[i64], trail: &Trail) -> Option<i64>
    requires range { All (λ (l : Lit). l.var < trail.now.size) clause.now }
    requires sized { length weights.now ≡ trail.now.size }
    requires fits { magnitude weights.now < 2 ^ 62 }
    ensures most { IfSome result (λ k. k ≤ℤ pos (2 ^ 62)) }
    ensures costs { IfSome result (λ k. All (CostsLit trail.now.steps weights.now k) clause.now) }
    ensures loses { IfSome result (λ k. Loses trail.now.steps clause.now weights.now k) }
    ensures lossy { IfSome result (λ k. All (IsLossy trail.now.steps weights.now) clause.now) }
    ensures none { IfNone result (Any (IsLossless trail.now.steps weights.now) clause.now) }
{
    let mut cost = LIMIT;
    for lit in clause {
        cost = lesser(*lit, cost, weights, trail)?;
    }
    Some(cost)
}

/// Puts the cost onto the weight of the literal's variable, unless the literal is false or the weight would pass 0.
fn pay(lit: SatLit, cost: i64, weights: &mut [i64], trail: &Trail)
    requires range { lit.var < trail.now.size }
    requires sized { length weights.old ≡ trail.now.size }
    requires fits { magnitude weights.old < 2 ^ 62 }
    requires least { pos 0 ≤ℤ cost }
    requires most { cost ≤ℤ pos (2 ^ 62) }
    ensures { IsPayment trail.now.steps lit cost weights.old weights.new }
{
    if trail.value(lit.var) == Some(!lit.positive) {
        return;
    }
    let weight = weights[lit.var as usize] + cost;
    if weight <= 0 {
        weights[lit.var as usize] = weight;
    }
}

/// Pays the cost for each literal of the clause, one after the other.
fn pay_all(clause: &[SatLit], cost: i64, weights: &mut [i64], trail: &Trail)
    requires range { All (λ (l : Lit). l.var < trail.now.size) clause.now }
    requires sized { length weights.old ≡ trail.now.size }
    requires fits { magnitude weights.old < 2 ^ 62 }
    requires least { pos 0 ≤ℤ cost }
    requires most { cost ≤ℤ pos (2 ^ 62) }
    requires costs { All (CostsLit trail.now.steps weights.old cost) clause.now }
    ensures raised { IsRaised trail.now.steps clause.now cost weights.old weights.new }
    ensures paid { ArePaid trail.now.steps clause.now cost weights.old weights.new }
{
    for lit in clause {
        pay(*lit, cost, weights, trail);
    }
}

/// Charges the clause: a model that follows the steps and meets it is heavier than before, by the result at least. Nothing is
/// left to charge.
fn charge(clause: &[SatLit], weights: &mut [i64], trail: &Trail) -> i64
    requires range { All (λ (l : Lit). l.var < trail.now.size) clause.now }
    requires sized { length weights.old ≡ trail.now.size }
    requires fits { magnitude weights.old < 2 ^ 62 }
    ensures sized { length weights.new ≡ length weights.old }
    ensures small { magnitude weights.new ≤ magnitude weights.old }
    ensures least { pos 0 ≤ℤ result }
    ensures charged { (m : List Bool) → FollowsAll m trail.now.steps → Any (HoldsLit m) clause.now → (weight weights.old m +ℤ result) ≤ℤ weight weights.new m }
    ensures each { (v : ℕ) → weight_of weights.old v ≤ℤ weight_of weights.new v }
    ensures spent { IsSpent trail.now.steps weights.new clause.now }
    ensures exact { IsCharge trail.now.steps weights.old weights.new result clause.now }
{
    match cost(clause, weights, trail) {
        None => 0,
        Some(cost) => {
            pay_all(clause, cost, weights, trail);
            cost
        }
    }
}

/// Charges the clause of a number; nothing where there is none.
fn charge_number(problem: &Weighted, number: usize, weights: &mut [i64], trail: &Trail) -> i64
    requires sound { IsSound problem.now }
    requires size { trail.now.size ≡ problem.now.hard.vars }
    requires sized { length weights.old ≡ trail.now.size }
    requires fits { magnitude weights.old < 2 ^ 62 }
    ensures sized { length weights.new ≡ length weights.old }
    ensures small { magnitude weights.new ≤ magnitude weights.old }
    ensures least { pos 0 ≤ℤ result }
    ensures charged { (m : List Bool) → IsModel problem.now.hard m → FollowsAll m trail.now.steps → (weight weights.old m +ℤ result) ≤ℤ weight weights.new m }
    ensures each { (v : ℕ) → weight_of weights.old v ≤ℤ weight_of weights.new v }
    ensures spent { IfSome (slice_get problem.now.hard.clauses number) (IsSpent trail.now.steps weights.new) }
    ensures exact { IsChargeAt trail.now.steps weights.old weights.new result (slice_get problem.now.hard.clauses number) }
{
    match problem.hard.clauses.get(number) {
        None => 0,
        Some(clause) => charge(clause.as_slice(), weights, trail),
    }
}

/// The sum; the first number where the sum is out of range.
fn add_up(lost: i64, more: i64) -> i64
    requires { pos 0 ≤ℤ more }
    ensures most { result ≤ℤ (lost +ℤ more) }
    ensures is { IsSum lost more result }
{
    match lost.checked_add(more) {
        Some(sum) => sum,
        None => lost,
    }
}

/// The weights once the clauses of these numbers are charged, one after the other. Nothing is left to charge in them.
pub fn charged(
    alloc: Global,
    problem: &Weighted,
    numbers: &[usize],
    trail: &Trail,
) -> Result<Charges, AllocError>
    requires sound { IsSound problem.now }
    requires size { trail.now.size ≡ problem.now.hard.vars }
    ensures charged { IfOk result (λ c. IsCharged problem.now trail.now.steps c.weights.items c.lost) }
    ensures exact { IfOk result (λ c. AreCharged problem.now.hard.clauses trail.now.steps numbers.now problem.now.weights (pos 0) c.weights.items c.lost) }
    ensures spent { IfOk result (λ c. AreSpent problem.now.hard.clauses trail.now.steps c.weights.items numbers.now) }
{
    let mut weights = Vec::from_slice(alloc, problem.weights.as_slice())?;
    let mut lost: i64 = 0;
    for number in numbers {
        lost = add_up(
            lost,
            charge_number(problem, *number, weights.as_mut_slice(), trail),
        );
    }
    Ok(Charges { weights, lost })
}
