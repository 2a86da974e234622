// Sketches of jobs as texts, and completions by their picks.
ghost use Rattle.std.specs.Prelude.{◌≡◌, IfOk};
ghost use Rattle.mig_schema.specs.Typed.{IsTyped};
ghost use Rattle.mig_schema.specs.Within.{IsProgramWithin};
ghost use Rattle.mig_sketch.specs.Completed as spec;
ghost use Rattle.mig_sketch.specs.Completed.{IsCompletion};

use mig_base::{Seq, Txt, number};
use mig_corresp::Ranker;
use mig_invariant::Corr;
use mig_printing::{put, put_number};
use mig_schema::{Job, Program, Schema, kind_of, same_kind};
use mig_sketch::{Choice, Hole, Made, fill, sketch};
use std::alloc::{AllocError, Global};

/// The digits of a text.
pub(crate) fn digits(alloc: Global, text: &str) -> Result<Seq<u32>, AllocError> {
    let mut all = Seq::new(alloc);
    for byte in text.as_bytes() {
        all.push(u32::from(byte.saturating_sub(b'0')))?;
    }
    Ok(all)
}

/// Whether each table has a column.
fn has_columns(schema: &Schema) -> bool
    ensures { result ≡ spec.has_columns schema.now }
{
    let tables = schema.tables.as_slice();
    tables.iter().all(|t| 0 < t.columns.len())
}

/// Whether both columns of each pair are of one kind.
fn keeps_kinds(job: &Job, corr: &Corr) -> bool
    ensures { result ≡ spec.keeps_kinds job.now corr.now }
{
    let pairs = corr.pairs.as_slice();
    pairs.iter().all(|p| {
        same_kind(
            kind_of(&job.source, p.source),
            kind_of(&job.target, p.target),
        )
    })
}

/// The first correspondence of a job; want of memory where it has none.
pub(crate) fn first_corr(alloc: Global, job: &Job) -> Result<Corr, AllocError> {
    match Ranker::new(alloc, job)?.next()? {
        Some(corr) => Ok(corr),
        None => Err(AllocError),
    }
}

/// The completion of these picks; want of memory where there is none.
pub(crate) fn completion(
    alloc: Global,
    job: &Job,
    corr: &Corr,
    picks: &[u32],
) -> Result<Program, AllocError>
    requires typed { IsTyped job.now }
    requires within { IsProgramWithin job.now.program }
    ensures { IfOk result (λ p. IsCompletion job.now p) }
{
    if !has_columns(&job.target) || !keeps_kinds(job, corr) {
        return Err(AllocError);
    }
    let choice = Choice {
        picks: Seq::from_slice(alloc, picks)?,
    };
    match sketch(alloc, job, corr)? {
        Made::Plan(plan) => {
            if plan.takes(&choice) {
                fill(alloc, &plan, &choice)
            } else {
                Err(AllocError)
            }
        }
        _ => Err(AllocError),
    }
}

/// How many options each hole has.
fn tell_sizes(text: &mut Txt, holes: &[Hole]) -> Result<(), AllocError> {
    for hole in holes {
        put_number(text, number(hole.options.len())?)?;
        put(text, ";")?;
    }
    Ok(())
}

/// What a sketch is, as the tables tell it.
pub(crate) fn told(alloc: Global, made: &Made) -> Result<Txt, AllocError> {
    let mut text = Seq::new(alloc);
    match made {
        Made::Plan(plan) => tell_sizes(&mut text, plan.holes.as_slice())?,
        Made::Empty { function } => {
            put(&mut text, "empty ")?;
            put_number(&mut text, *function)?
        }
        Made::Wide { function } => {
            put(&mut text, "wide ")?;
            put_number(&mut text, *function)?
        }
    }
    Ok(text)
}
