// What is made of the program of a completion.
ghost use Rattle.std.specs.Prelude.{IfOk};
ghost use Rattle.mig_sketch.specs.Completed.{IsSound, IsCompletion};
ghost use Rattle.mig_search.specs.Judging.{IsVerdict};
ghost use Rattle.mig_search.specs.Stopping.{IsRightVerdict};

use crate::outcomes::Tried;
use crate::stopping::Verdict;
use mig_failing::first_failing;
use mig_invariant::Corr;
use mig_prover::{Proof, prove};
use mig_schema::{Job, Program};
use std::alloc::{AllocError, Global};

/// The find where no list of calls fails and the program is closed; else its entry.
pub(crate) fn judge(
    alloc: Global,
    job: &Job,
    corr: &Corr,
    program: &Program,
    tests: u32,
) -> Result<Verdict, AllocError>
    requires sound { IsSound job.now corr.now }
    requires completion { IsCompletion job.now program.now }
    ensures verdict { IfOk result (λ v. IsVerdict job.now corr.now tests program.now v) }
    ensures right { IfOk result (λ v. IsRightVerdict job.now program.now v) }
{
    match first_failing(alloc, job, program, tests)? {
        Some(calls) => Ok(Verdict::Entry(Tried::Refuted(calls))),
        None => match prove(alloc, job, corr, program)? {
            Proof::Closed(certificate) => Ok(Verdict::Find(certificate)),
            Proof::Stuck { query, .. } => Ok(Verdict::Entry(Tried::Unproved(query))),
        },
    }
}
