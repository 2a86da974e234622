// Rounds, in each of which all go that are not closed under what is left.
ghost use Rattle.std.specs.Prelude.{◌≡◌, IfOk};
ghost use Rattle.mig_prover.specs.Closing.{Tells};
ghost use Rattle.mig_prover.specs.Rounds as spec;

use crate::closing::are_closed;
use mig_base::{Exact, Seq};
use mig_meaning::{Invariant, Invariants};
use mig_schema::{Job, Program};
use std::alloc::{AllocError, Global};

/// Whether it is a view.
fn is_view(candidate: &Invariant) -> bool
    ensures { result ≡ spec.is_view candidate.now }
{
    match candidate {
        Invariant::Views { .. } => true,
        _ => false,
    }
}

/// Whether it is of the other sort, or its obligations are closed.
fn stays(
    alloc: Global,
    job: &Job,
    program: &Program,
    views: bool,
    left: &Invariants,
    candidate: &Invariant,
) -> Result<bool, AllocError>
    ensures { IfOk result (λ b. Tells b (spec.Stays job.now program.now views left.now.list candidate.now)) }
{
    if is_view(candidate) != views {
        return Ok(true);
    }
    let closed = are_closed(alloc, job, program, left, candidate)?;
    Ok(closed)
}

/// Those of the list without the ones of one sort that are not closed under what is left.
fn staying(
    alloc: Global,
    job: &Job,
    program: &Program,
    views: bool,
    left: &Invariants,
    list: &[Invariant],
) -> Result<Vec<Invariant>, AllocError>
    ensures { IfOk result (λ v. spec.IsWithout (spec.Stays job.now program.now views left.now.list) list.now v.items) }
{
    let mut next = Vec::new(alloc);
    for candidate in list {
        if stays(alloc, job, program, views, left, candidate)? {
            next.push(candidate.twin(alloc)?)?;
        }
    }
    Ok(next)
}

/// What is left without those of one sort that are not closed.
fn without(
    alloc: Global,
    job: &Job,
    program: &Program,
    views: bool,
    left: &Invariants,
) -> Result<Invariants, AllocError>
    ensures { IfOk result (λ next. spec.IsWithout (spec.Stays job.now program.now views left.now.list) left.now.list next.list) }
{
    let next = staying(alloc, job, program, views, left, left.list.as_slice())?;
    Ok(Invariants {
        list: Seq::from_vec(next),
    })
}

/// What is left after a round: views go only where nothing else does.
fn round(
    alloc: Global,
    job: &Job,
    program: &Program,
    left: &Invariants,
) -> Result<Invariants, AllocError>
    ensures { IfOk result (λ next. spec.IsRound job.now program.now left.now.list next.list) }
{
    let plain = without(alloc, job, program, false, left)?;
    if plain.list.len() < left.list.len() {
        return Ok(plain);
    }
    let next = without(alloc, job, program, true, left)?;
    Ok(next)
}

/// What stands when no round drops any.
pub(crate) fn kept(
    alloc: Global,
    job: &Job,
    program: &Program,
    list: &Invariants,
) -> Result<Invariants, AllocError>
    ensures { IfOk result (λ s. spec.IsKept job.now program.now list.now.list s.list) }
{
    let mut left = list.twin(alloc)?;
    'rounds: loop {
        let next = round(alloc, job, program, &left)?;
        if next.list.len() == left.list.len() {
            return Ok(left);
        }
        left = next;
    }
}
