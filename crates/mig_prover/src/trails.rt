// The least step again and again.
ghost use Rattle.std.specs.Prelude.{IfOk};
ghost use Rattle.mig_obligations.specs.Pairs.{sides_of};
ghost use Rattle.mig_prover.specs.Simplified as spec;

use mig_algebra::Expr;
use mig_base::{Exact, Seq};
use mig_rules::{Facts, Step, Taken, none_known, take_first};
use std::alloc::{AllocError, Global};

/// How many steps are taken at most.
const MOST_STEPS: usize = 4000;

/// Steps, and the expression at which they end.
#[derive(Drop)]
pub struct Trail {
    pub steps: Seq<Step>,
    pub end: Expr,
}

/// The expression simplified: the least step that follows is taken again and again, until none follows or 4,000 are taken.
///
/// Gives these steps and the expression at their end; each expression has exactly one such trail. The only error is want of memory.
pub fn simplify(alloc: Global, facts: &Facts, expr: &Expr) -> Result<Trail, AllocError>
    ensures { IfOk result (λ t. spec.IsTrail (sides_of facts.now.pair.now) facts.now.invariants.now.list expr.now t) }
{
    let mut steps = Vec::new(alloc);
    let mut end = expr.twin(alloc)?;
    let mut quiet = none_known(alloc, expr)?;
    for _taken in 0..MOST_STEPS {
        let first = take_first(alloc, facts, &end, quiet)?;
        let Some(taken) = first else {
            return Ok(Trail {
                steps: Seq::from_vec(steps),
                end,
            });
        };
        let Taken {
            step,
            next,
            quiet: numbers,
        } = taken;
        steps.push(step)?;
        end = next;
        quiet = numbers;
    }
    Ok(Trail {
        steps: Seq::from_vec(steps),
        end,
    })
}
