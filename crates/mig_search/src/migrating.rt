// The search.
ghost use Rattle.std.specs.Prelude.{◌≡◌, true, IfOk};
ghost use Rattle.mig_schema.specs.Typed.{IsTyped};
ghost use Rattle.mig_schema.specs.Within.{IsProgramWithin};
ghost use Rattle.mig_sketch.specs.Completed.{has_columns};
ghost use Rattle.mig_search.specs.Outcomes.{IsOutcome};
ghost use Rattle.mig_search.specs.Finds.{IsRightOutcome};

use crate::looking::look_at;
use crate::outcomes::{Options, Outcome};
use crate::stopping::Stop;
use mig_base::Seq;
use mig_corresp::Ranker;
use mig_schema::Job;
use std::alloc::{AllocError, Global};

/// Searches for a program over the new schema that is equivalent to the job's, as far as the options go, and tells what it tried.
///
/// The first `maps` correspondences are taken in order, and of each its completions. A correspondence under which a hole has no
/// option, or more than 4,096, makes one entry, for the first such hole. A completion is passed over where an earlier one of the
/// same correspondence was refuted by a list of calls and both have the same options at all holes of the functions which that list
/// names. Each other one is the find where none of the first `tests` lists of calls fails and it is closed; else it makes one entry.
///
/// `Spent` comes where the entries reach the budget, `Found` where a completion before is the find, and `Exhausted` where none is.
/// A program that is found is typed over the new schema and within the limits, and its certificate is valid.
///
/// The job must be typed, with a program within the limits and with a column in each new table. The only error is want of memory.
pub fn migrate(alloc: Global, job: &Job, options: &Options) -> Result<Outcome, AllocError>
    requires typed { IsTyped job.now }
    requires within { IsProgramWithin job.now.program }
    requires columns { has_columns job.now.target ≡ true }
    ensures outcome { IfOk result (λ o. IsOutcome job.now options.now o) }
    ensures found { IfOk result (λ o. IsRightOutcome job.now o) }
{
    let mut tried = Seq::new(alloc);
    if options.budget == 0 {
        return Ok(Outcome::Spent { tried });
    }
    let mut ranker = Ranker::new(alloc, job)?;
    for _taken in 0..options.maps {
        let Some(corr) = ranker.next()? else {
            return Ok(Outcome::Exhausted { tried });
        };
        match look_at(alloc, job, &corr, options, &mut tried)? {
            Stop::Whole => {}
            Stop::Spent => return Ok(Outcome::Spent { tried }),
            Stop::Found(program, certificate) => {
                return Ok(Outcome::Found {
                    program,
                    certificate,
                    tried,
                });
            }
        }
    }
    Ok(Outcome::Exhausted { tried })
}
