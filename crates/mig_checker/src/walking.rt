// Steps in turn.
ghost use Rattle.std.specs.Prelude.{IfOk};
ghost use Rattle.mig_obligations.specs.Pairs.{sides_of};
ghost use Rattle.mig_checker.specs.Inside.{IsWalk};

use mig_algebra::Expr;
use mig_rules::{Facts, Step, StepFault, apply};
use std::alloc::{AllocError, Global};

/// Where steps lead.
#[derive(Drop)]
pub(crate) enum Walk {
    /// To this end.
    End(Expr),
    /// Nowhere: the step of this number is the first that doesn't follow.
    Stuck(usize),
}

/// Where these steps lead from an expression, each from what the one before gave.
pub(crate) fn follow_all(
    alloc: Global,
    facts: &Facts,
    steps: &[Step],
    start: Expr,
) -> Result<Walk, AllocError>
    ensures { IfOk result (λ w. IsWalk (sides_of facts.now.pair.now) facts.now.invariants.now.list steps.now start w) }
{
    let mut current = start;
    for (s, step) in steps.iter().enumerate() {
        match apply(alloc, facts, step, &current) {
            Ok(next) => current = next,
            Err(StepFault::NoFollow) => return Ok(Walk::Stuck(s)),
            Err(StepFault::Memory) => return Err(AllocError),
        }
    }
    Ok(Walk::End(current))
}
