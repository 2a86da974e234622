// Weights of variables by which a model weighs more just where it costs less.
ghost use Rattle.std.specs.Prelude.{◌≡◌, ◌+◌, ◌<◌, ◌^◌, length, IfOk};
ghost use Rattle.mig_maxsat.specs.Heaviest.{magnitude};
ghost use Rattle.mig_dimacs.specs.Costs.{IsSoundWcnf};
ghost use Rattle.mig_dimacs.specs.Gains as spec;
ghost use Rattle.mig_dimacs.specs.Gains.{IsBalanced};

use crate::soft::{SoftLit, Wcnf};
use mig_base::Seq;
use std::alloc::{AllocError, Global};

/// How much less it costs where the literal's variable is true.
fn gain(soft: SoftLit) -> i64
    requires { soft.weight < 2 ^ 62 }
    ensures { result ≡ spec.gain soft }
{
    let weight = soft.weight as i64;
    if soft.lit.positive { weight } else { -weight }
}

/// Adds the gain to the weight of the literal's variable.
fn add(weights: &mut [i64], soft: SoftLit)
    requires range { soft.lit.var < length weights.old }
    requires fits { magnitude weights.old + soft.weight < 2 ^ 62 }
    ensures { weights.new ≡ spec.weighed weights.old soft }
{
    weights[soft.lit.var as usize] += gain(soft);
}

/// One weight for each variable: what its positive soft literals weigh, less what its negative ones do.
pub(crate) fn weights_of(alloc: Global, problem: &Wcnf) -> Result<Seq<i64>, AllocError>
    requires { IsSoundWcnf problem.now }
    ensures { IfOk result (λ ws. IsBalanced problem.now.hard.vars problem.now.soft ws) }
{
    let mut weights = vec![in alloc; 0; problem.hard.vars as usize]?;
    for soft in problem.soft.as_slice() {
        add(weights.as_mut_slice(), *soft);
    }
    Ok(Seq::from_vec(weights))
}
