// The verdict on a certificate.
ghost use Rattle.std.specs.Prelude.{◌≡◌, IfOk};
ghost use Rattle.mig_checker.specs.declared.verdicts.Verdict.{Verdict as AnyVerdict};
ghost use Rattle.mig_checker.specs.declared.verdicts.Verdict.TheVariants as AVerdict;
ghost use Rattle.mig_checker.specs.Accepted.{AcceptedMeans};
ghost use Rattle.mig_checker.specs.Inside.{at_pair};
ghost use Rattle.mig_checker.specs.Verdict as spec;

use crate::functions::first_differing;
use crate::obligations::obligation_count;
use crate::pairs::first_pair;
use crate::places::{InEntry, InPair};
use crate::shapes::first_unshaped;
use crate::verdicts::{Verdict, Why};
use mig_certificate::Certificate;
use mig_schema::{Job, Program};
use std::alloc::{AllocError, Global};

/// A rejection. A number that is no u32 is answered as want of memory.
fn rejected(pair: usize, obligation: usize, step: usize, why: Why) -> Result<Verdict, AllocError>
    ensures { IfOk result (λ v. v ≡ AVerdict.Rejected pair obligation step why) }
{
    match (
        u32::try_from(pair),
        u32::try_from(obligation),
        u32::try_from(step),
    ) {
        (Ok(pair), Ok(obligation), Ok(step)) => Ok(Verdict::Rejected {
            pair,
            obligation,
            step,
            why,
        }),
        _ => Err(AllocError),
    }
}

/// How many steps both blocks of entry k of pair i have.
fn step_count(certificate: &Certificate, i: usize, k: usize) -> Result<usize, AllocError>
    ensures { IfOk result (λ n. n ≡ spec.step_count certificate.now i k) }
{
    let Some(proof) = certificate.pairs.get(i) else {
        return Ok(0);
    };
    let Some(entry) = proof.entries.get(k) else {
        return Ok(0);
    };
    match entry.source.len().checked_add(entry.target.len()) {
        Some(count) => Ok(count),
        None => Err(AllocError),
    }
}

/// How many obligations pair i has.
fn count_at(job: &Job, program: &Program, certificate: &Certificate, i: usize) -> usize
    ensures { result ≡ spec.obligation_count job.now program.now certificate.now i }
{
    match (job.program.functions.get(i), program.functions.get(i)) {
        (Some(f), Some(g)) => obligation_count(&certificate.invariants, &f.body, &g.body),
        _ => 0,
    }
}

/// The verdict at a place of pair i.
fn rejected_at(
    job: &Job,
    program: &Program,
    certificate: &Certificate,
    i: usize,
    place: InPair,
) -> Result<Verdict, AllocError>
    ensures { IfOk result (λ v. v ≡ spec.verdict_at job.now program.now certificate.now (at_pair i place)) }
{
    match place {
        InPair::Missing => rejected(i, 0, 0, Why::Missing),
        InPair::Entry(k, InEntry::Missing) => rejected(i, k, 0, Why::Missing),
        InPair::Entry(k, InEntry::Step(s)) => rejected(i, k, s, Why::NoFollow),
        InPair::Entry(k, InEntry::Ends) => {
            rejected(i, k, step_count(certificate, i, k)?, Why::EndsDiffer)
        }
        InPair::Extra => rejected(i, count_at(job, program, certificate, i), 0, Why::Extra),
    }
}

/// The verdict on a certificate for a job and a new program: accepted exactly where it is valid, and otherwise the first
/// place at which it is broken. Functions come first, then invariants, then the pairs of functions, one after the other,
/// then a pair too many; `docs/CERTIFICATES.md` has the places and their numbers. Where it is accepted and both programs
/// are typed, with labels up to 15 and no parameter of kind key, the new program answers as the old one does.
///
/// The only error is want of memory. A number that is no u32 is answered so, and an end that names a variable out of
/// scope.
pub fn check(
    alloc: Global,
    job: &Job,
    program: &Program,
    certificate: &Certificate,
) -> Result<Verdict, AllocError>
    ensures verdict { IfOk result (λ v. spec.IsVerdict job.now program.now certificate.now v) }
    ensures only { (v : AnyVerdict) → spec.IsVerdict job.now program.now certificate.now v → IfOk result (λ w. w ≡ v) }
    ensures means { IfOk result (λ v. AcceptedMeans job.now program.now certificate.now v) }
{
    let count = job.program.functions.len();
    if let Some(n) = first_differing(job, program) {
        return rejected(n, 0, 0, Why::Shape);
    }
    if let Some(k) = first_unshaped(job, &certificate.invariants) {
        return rejected(count, k, 0, Why::Shape);
    }
    if let Some(found) = first_pair(alloc, job, program, certificate)? {
        return rejected_at(job, program, certificate, found.0, found.1);
    }
    if count < certificate.pairs.len() {
        return rejected(count, 0, 0, Why::Extra);
    }
    Ok(Verdict::Accepted)
}
