// The model that costs least by soft literals.
ghost use Rattle.std.specs.Prelude.{◌≡◌, ◌<◌, ◌^◌, length, All, IfOk, IfSome, IfNone};
ghost use Rattle.mig_sat.specs.Models.{HasNoModel};
ghost use Rattle.mig_dimacs.specs.Costs as spec;
ghost use Rattle.mig_dimacs.specs.Costs.{IsSoundWcnf, IsCheapest};
ghost use Rattle.mig_dimacs.specs.declared.soft.SoftLit.{SoftLit as Soft};

use crate::gains::weights_of;
use crate::soft::{SoftLit, Wcnf};
use mig_base::Exact;
use mig_maxsat::{Weighted, best};
use mig_sat::{Model, SatLit};
use std::alloc::{AllocError, Global};

/// Whether the values make the literal true.
fn holds(values: &[bool], lit: SatLit) -> bool
    requires { lit.var < length values.now }
    ensures { result ≡ spec.holds values.now lit }
{
    let value = values[lit.var as usize];
    if lit.positive { value } else { !value }
}

/// What the values cost by one soft literal: its weight, where it is false.
fn cost_of(values: &[bool], soft: SoftLit) -> u64
    requires { soft.lit.var < length values.now }
    ensures { result ≡ spec.cost_of values.now soft }
{
    if holds(values, soft.lit) {
        0
    } else {
        soft.weight
    }
}

/// What the values cost.
pub(crate) fn cost(soft: &[SoftLit], values: &[bool]) -> u64
    requires range { All (λ (s : Soft). s.lit.var < length values.now) soft.now }
    requires fits { spec.total soft.now < 2 ^ 62 }
    ensures { result ≡ spec.cost soft.now values.now }
{
    let mut sum = 0;
    for item in soft {
        sum += cost_of(values, *item);
    }
    sum
}

/// A model of the hard clauses that costs least, of those that cost as much the first; `None` exactly where they have no model.
///
/// A model costs what the soft literals weigh together that it makes false. Models are ordered by variable, true before
/// false. The variable of each literal must be below `vars`, and the soft literals must weigh less than 2^62 together.
/// The only error is want of memory.
pub fn cheapest(alloc: Global, problem: &Wcnf) -> Result<Option<Model>, AllocError>
    requires { IsSoundWcnf problem.now }
    ensures cheapest { IfOk result (λ o. IfSome o (λ m. IsCheapest problem.now m.values)) }
    ensures none { IfOk result (λ o. IfNone o (HasNoModel problem.now.hard)) }
{
    let weights = weights_of(alloc, problem)?;
    let hard = problem.hard.twin(alloc)?;
    best(alloc, &Weighted { hard, weights })
}
