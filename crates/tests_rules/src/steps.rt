// A table that is renamed with its columns: what is to be shown, and the steps that show it.
use crate::certificates::{invariants, step};
use crate::expressions::sum;
use crate::jobs::{RENAMED, job, program};
use mig_algebra::{Expr, Invariants};
use mig_base::Exact;
use mig_rules::{Facts, Obligation, Pair, StepFault, answers, apply, holds};
use mig_schema::{Job, Program};
use std::alloc::{AllocError, Global};
use std::test::Fail;

/// The rows of the one table after the update, of both sides.
const AFTER_OLD: &str = "o0@1 -> 0.0 0.1";

const AFTER_NEW: &str = "n0@1 -> 0.0 0.1";

/// The rows before it, and the row that is inserted.
const UNFOLDED: &str = "o0 -> 0.0 0.1; -> p0 p1";

const FOLDED: &str = "n0 -> 0.0 0.1; -> p0 p1";

/// Steps, the expressions that they are made on, and those that they lead to.
const STEPS: [(&str, &str, &str); 5] = [
    ("stage 0 - 0", AFTER_OLD, UNFOLDED),
    ("fold 0 - 0 0", UNFOLDED, FOLDED),
    ("stage 0 - 0", AFTER_NEW, FOLDED),
    (
        "stage 0 - 0",
        "o0@1 o0@1 0~1 -> 0.0 1.0",
        "o0 o0@1 0~1 -> 0.0 1.0; o0 -> p0 0.0",
    ),
    (
        "stagein 0 0 1",
        "o0 any( o0@1 0.0=1.0 )",
        "o0 any( o0 0.0=1.0 ); o0 any( p0=0.0 ) none( o0 0.0=1.0 )",
    ),
];

/// That one table is the other.
pub(crate) const SAME_TABLE: &str = "view 0.0 0.1 is 0.0 0.1";

/// What is wrong with a step, the step, and the expression that it doesn't follow from.
const REFUSED: [(&str, &str, &str); 9] = [
    ("no such variable", "stage 0 - 1", AFTER_OLD),
    ("no such term", "stage 1 - 0", AFTER_OLD),
    ("no such place", "stage 0 0 0", AFTER_OLD),
    ("an argument too many", "stage 0 - 0 0", AFTER_OLD),
    ("a variable of the term", "stagein 0 - 0", AFTER_OLD),
    ("no contradiction", "dead 0 -", AFTER_OLD),
    ("a row after the update", "fold 0 - 0 0", AFTER_OLD),
    ("no such view", "fold 0 - 1 0", AFTER_OLD),
    ("a variable too few", "fold 0 - 0", AFTER_OLD),
];

/// The job, its new program, and invariants; without others, that one table is the other.
#[derive(Drop)]
pub(crate) struct Sample {
    pub(crate) job: Job,
    pub(crate) program: Program,
    pub(crate) invariants: Invariants,
}

pub(crate) fn sampled(alloc: Global) -> Result<Sample, Fail> {
    sampled_with(alloc, SAME_TABLE)
}

/// The same with other invariants.
pub(crate) fn sampled_with(alloc: Global, facts: &str) -> Result<Sample, Fail> {
    let job = job(alloc)?;
    let program = program(alloc, &job, RENAMED)?;
    let invariants = invariants(alloc, facts)?;
    Ok(Sample {
        job,
        program,
        invariants,
    })
}

/// The functions of this number.
pub(crate) fn pair(sample: &Sample, at: usize) -> Option<Pair<'_>> {
    Some(Pair {
        source: &sample.job.source,
        target: &sample.job.target,
        source_fn: sample.job.program.functions.get(at)?,
        target_fn: sample.program.functions.get(at)?,
    })
}

/// Whether both sides are these.
fn are(alloc: Global, shown: &Obligation, source: &str, target: &str) -> Result<bool, AllocError> {
    let source = sum(alloc, source)?;
    let target = sum(alloc, target)?;
    Ok(shown.source.same(&source) && shown.target.same(&target))
}

/// Whether the view is to be shown of the rows after the update.
fn is_held(alloc: Global, sample: &Sample) -> Result<bool, AllocError> {
    match (pair(sample, 0), sample.invariants.list.get(0)) {
        (Some(pair), Some(view)) => {
            let shown = holds(alloc, &pair, view)?;
            are(alloc, &shown, AFTER_OLD, AFTER_NEW)
        }
        _ => Ok(false),
    }
}

/// Whether all rows are to be shown of the queries.
fn is_answered(alloc: Global, sample: &Sample) -> Result<bool, AllocError> {
    match pair(sample, 1) {
        Some(pair) => {
            let shown = answers(alloc, &pair)?;
            are(alloc, &shown, "o0 -> 0.0 0.1", "n0 -> 0.0 0.1")
        }
        None => Ok(false),
    }
}

#[test]
fn obligations_are_the_rows_of_both_sides(rt: HostRuntime) -> Result<(), Fail> {
    let sample = sampled(rt.alloc())?;
    assert!(rt; is_held(rt.alloc(), &sample)?, "after the updates");
    assert!(rt; is_answered(rt.alloc(), &sample)?, "of the queries");
    Ok(())
}

/// What a step leads to, for the functions of this number.
fn applied(
    alloc: Global,
    sample: &Sample,
    at: usize,
    used: &str,
    given: &str,
) -> Result<Expr, StepFault> {
    let Some(pair) = pair(sample, at) else {
        return Err(StepFault::Memory);
    };
    let facts = Facts {
        pair: &pair,
        invariants: &sample.invariants,
    };
    match (step(alloc, used), sum(alloc, given)) {
        (Ok(step), Ok(given)) => apply(alloc, &facts, &step, &given),
        _ => Err(StepFault::Memory),
    }
}

/// Whether it leads to this, for the functions of this number.
pub(crate) fn leads_to(
    alloc: Global,
    sample: &Sample,
    at: usize,
    used: &str,
    given: &str,
    want: &str,
) -> Result<bool, AllocError> {
    match applied(alloc, sample, at, used, given) {
        Ok(next) => Ok(next.same(&sum(alloc, want)?)),
        Err(_) => Ok(false),
    }
}

/// Whether a step does not follow, for the functions of this number.
pub(crate) fn is_refused(
    alloc: Global,
    sample: &Sample,
    at: usize,
    used: &str,
    given: &str,
) -> bool {
    matches!(
        applied(alloc, sample, at, used, given),
        Err(StepFault::NoFollow)
    )
}

/// The expression of the first row whose step does not lead to what the row says, for the pair of updates; nothing where
/// all do.
pub(crate) fn first_astray(
    alloc: Global,
    facts: &str,
    rows: &'static [(&'static str, &'static str, &'static str)],
) -> Result<&'static str, Fail> {
    let sample = sampled_with(alloc, facts)?;
    for (used, given, want) in rows {
        if !leads_to(alloc, &sample, 0, used, given, want)? {
            return Ok(*given);
        }
    }
    Ok("")
}

/// The name of the first row whose step is not refused for the pair of updates; nothing where all are.
pub(crate) fn first_followed(
    alloc: Global,
    facts: &str,
    rows: &'static [(&'static str, &'static str, &'static str)],
) -> Result<&'static str, Fail> {
    let sample = sampled_with(alloc, facts)?;
    for (name, used, given) in rows {
        if !is_refused(alloc, &sample, 0, used, given) {
            return Ok(*name);
        }
    }
    Ok("")
}

#[test]
fn inserted_rows_are_unfolded_and_folded(rt: HostRuntime) -> Result<(), Fail> {
    assert_eq!(rt; first_astray(rt.alloc(), SAME_TABLE, &STEPS)?, "");
    Ok(())
}

#[test]
fn other_steps_do_not_follow(rt: HostRuntime) -> Result<(), Fail> {
    assert_eq!(rt; first_followed(rt.alloc(), SAME_TABLE, &REFUSED)?, "");
    Ok(())
}
