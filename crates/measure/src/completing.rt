// Jobs from their texts, and completions by their picks.
ghost use Rattle.std.specs.Prelude.{◌≡◌, IfOk};
ghost use Rattle.mig_schema.specs.Typed.{IsTyped};
ghost use Rattle.mig_schema.specs.Within.{IsProgramWithin};
ghost use Rattle.mig_sketch.specs.Completed as spec;
ghost use Rattle.mig_sketch.specs.Completed.{IsCompletion};

use mig_base::Seq;
use mig_corresp::Ranker;
use mig_invariant::Corr;
use mig_schema::{Job, Program, Schema, kind_of, same_kind};
use mig_sketch::{Choice, Made, fill, sketch};
use mig_syntax::{read_job, read_program};
use std::alloc::{AllocError, Global};

/// The job that a text spells; a text that spells none counts as want of memory.
pub fn job_of(alloc: Global, text: &[u8]) -> Result<Job, AllocError>
    ensures typed { IfOk result (λ j. IsTyped j) }
    ensures within { IfOk result (λ j. IsProgramWithin j.program) }
{
    if text.len() > 262_144 {
        return Err(AllocError);
    }
    match read_job(alloc, text) {
        Ok(job) => Ok(job),
        Err(_) => Err(AllocError),
    }
}

/// The program over a job's new schema that a text spells; a text that spells none counts as want of memory.
pub fn program_of(alloc: Global, job: &Job, text: &[u8]) -> Result<Program, AllocError> {
    if text.len() > 262_144 {
        return Err(AllocError);
    }
    match read_program(alloc, &job.target, text) {
        Ok(program) => Ok(program),
        Err(_) => Err(AllocError),
    }
}

/// Whether each table has a column.
fn has_columns(schema: &Schema) -> bool
    ensures { result ≡ spec.has_columns schema.now }
{
    let tables = schema.tables.as_slice();
    tables.iter().all(|t| 0 < t.columns.len())
}

/// Whether both columns of each pair are of one kind.
fn keeps_kinds(job: &Job, corr: &Corr) -> bool
    ensures { result ≡ spec.keeps_kinds job.now corr.now }
{
    let pairs = corr.pairs.as_slice();
    pairs.iter().all(|p| {
        same_kind(
            kind_of(&job.source, p.source),
            kind_of(&job.target, p.target),
        )
    })
}

/// The first correspondence of a job; want of memory where it has none.
pub fn first_corr(alloc: Global, job: &Job) -> Result<Corr, AllocError> {
    match Ranker::new(alloc, job)?.next()? {
        Some(corr) => Ok(corr),
        None => Err(AllocError),
    }
}

/// The completion of these picks; want of memory where there is none.
pub fn completion(
    alloc: Global,
    job: &Job,
    corr: &Corr,
    picks: &[u32],
) -> Result<Program, AllocError>
    requires typed { IsTyped job.now }
    requires within { IsProgramWithin job.now.program }
    ensures { IfOk result (λ p. IsCompletion job.now p) }
{
    if !has_columns(&job.target) || !keeps_kinds(job, corr) {
        return Err(AllocError);
    }
    let choice = Choice {
        picks: Seq::from_slice(alloc, picks)?,
    };
    match sketch(alloc, job, corr)? {
        Made::Plan(plan) => {
            if plan.takes(&choice) {
                fill(alloc, &plan, &choice)
            } else {
                Err(AllocError)
            }
        }
        _ => Err(AllocError),
    }
}
