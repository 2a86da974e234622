// The first list that fails.
ghost use Rattle.std.specs.Prelude.{◌≡◌, IfOk};
ghost use Rattle.mig_schema.specs.Typed.{IsTypedProgram};
ghost use Rattle.mig_schema.specs.Within.{IsProgramWithin};
ghost use Rattle.mig_meaning.specs.Functions.{SameFunctions};
ghost use Rattle.mig_failing.specs.Failing.{IsFailing};

use crate::played::unplayed;
use crate::ready::Tests;
use crate::variants::calls_of;
use crate::walking::walk;
use mig_meaning::Calls;
use mig_schema::{Job, Program};
use std::alloc::{AllocError, Global};

/// The first of the first `tests` test lists on which the job's program and this one answer differently, or None where
/// both answer each of them alike.
///
/// A test list is 0 to 3 calls of updates and then one call of a query, by number of updates, then by function and
/// variant of each call. Variant 0 gives each int 0 and each text `a`; variant 1 gives 1 and `b`; variant 2 gives the
/// first int 0 and any other parameter, by its position j from 1, the int j or the text `t` followed by j. Both
/// programs play a list from empty tables with the keys 0, 1, 2 and so on; their last answers are compared as bags.
///
/// Lists that begin alike share their common front: each update is played once, on copies of both stores. The only
/// error is want of memory. Both programs must be typed and within the limits of the language, and have the same
/// functions.
pub fn first_failing(
    alloc: Global,
    job: &Job,
    program: &Program,
    tests: u32,
) -> Result<Option<Calls>, AllocError>
    requires old { IsTypedProgram job.now.source job.now.program }
    requires new { IsTypedProgram job.now.target program.now }
    requires within { IsProgramWithin job.now.program }
    requires within_new { IsProgramWithin program.now }
    requires functions { SameFunctions job.now.source job.now.target job.now.program program.now }
    ensures { IfOk result (IsFailing job.now program.now tests) }
{
    let updates = calls_of(alloc, &job.program, false)?;
    let queries = calls_of(alloc, &job.program, true)?;
    let all = Tests {
        job,
        program,
        updates: updates.as_slice(),
        queries: queries.as_slice(),
    };
    let mut left = tests;
    for many in 0..4 {
        let mut played = unplayed(alloc, job)?;
        let found = walk(alloc, &all, many, &mut played, &mut left)?;
        if found.is_some() {
            return Ok(found);
        }
    }
    Ok(None)
}
