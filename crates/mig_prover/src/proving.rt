// What is kept of the candidates, and whether each query is closed under it.
ghost use Rattle.std.specs.Prelude.{◌≡◌, ◌↔◌, length, IfOk, IfSome, IfNone, IsTrue};
ghost use Rattle.mig_listing.specs.Listing.{IsIn};
ghost use Rattle.mig_schema.specs.Typed.{IsTyped, IsTypedProgram};
ghost use Rattle.mig_meaning.specs.Functions.{SameFunctions};
ghost use Rattle.mig_prover.specs.Proving as spec;
ghost use Rattle.mig_prover.specs.Rounds.{IsWithout};

use crate::closing::is_answered;
use crate::keeping::kept;
use crate::tracing::traces_of;
use mig_base::{Exact, Seq};
use mig_certificate::Certificate;
use mig_invariant::{Corr, candidates};
use mig_meaning::{Invariant, Invariants};
use mig_schema::{Job, Program};
use std::alloc::{AllocError, Global};

/// What is made of a program.
#[derive(Debug, Drop)]
pub enum Proof {
    /// It is closed, and the certificate shows it.
    Closed(Certificate),
    /// The query, a function of this number, is not closed under what is kept; these candidates are not kept.
    Stuck { query: u32, dropped: Invariants },
}

/// Whether it is one of these.
fn is_one(list: &[Invariant], wanted: &Invariant) -> bool
    ensures { IsTrue result ↔ IsIn wanted.now list.now }
{
    for other in list {
        if wanted.same(other) {
            return true;
        }
    }
    false
}

/// Those of the list that are not among the facts.
fn dropped(alloc: Global, list: &[Invariant], facts: &[Invariant]) -> Result<Invariants, AllocError>
    ensures { IfOk result (λ s. IsWithout (λ i. IsIn i facts.now → ⊥) list.now s.list) }
{
    let mut gone = Vec::new(alloc);
    for candidate in list {
        if !is_one(facts, candidate) {
            gone.push(candidate.twin(alloc)?)?;
        }
    }
    Ok(Invariants {
        list: Seq::from_vec(gone),
    })
}

/// A number as the language holds it. One that is no u32 counts as want of memory.
fn number(k: usize) -> Result<u32, AllocError>
    ensures { IfOk result (λ n. n ≡ k) }
{
    match u32::try_from(k) {
        Ok(n) => Ok(n),
        Err(_) => Err(AllocError),
    }
}

/// The first query that is not closed under these facts.
fn first_open(
    alloc: Global,
    job: &Job,
    program: &Program,
    facts: &Invariants,
) -> Result<Option<u32>, AllocError>
    ensures none { IfOk result (λ o. IfNone o (spec.AllAnswered job.now program.now facts.now.list (length job.now.program.functions))) }
    ensures some { IfOk result (λ o. IfSome o (λ q. spec.IsFirstOpen job.now program.now facts.now.list q)) }
{
    for n in 0..job.program.functions.len() {
        if !is_answered(alloc, job, program, facts, n)? {
            return Ok(Some(number(n)?));
        }
    }
    Ok(None)
}

/// The certificate of a program that is closed under what is kept.
fn certificate_of(
    alloc: Global,
    job: &Job,
    program: &Program,
    facts: Invariants,
) -> Result<Certificate, AllocError>
    requires count { length job.now.program.functions ≡ length program.now.functions }
    requires answered { spec.AllAnswered job.now program.now facts.list (length job.now.program.functions) }
    ensures { IfOk result (λ c. spec.IsClosing job.now program.now facts.list c) }
{
    let pairs = traces_of(alloc, job, program, &facts)?;
    Ok(Certificate {
        invariants: facts,
        pairs,
    })
}

/// The same as `prove`, with these candidates. The programs have equally many functions; nothing else is asked for, and nothing is
/// said of the certificate but that it has what is kept and the steps by which each obligation is simplified.
pub fn prove_from(
    alloc: Global,
    job: &Job,
    program: &Program,
    list: &Invariants,
) -> Result<Proof, AllocError>
    requires { length job.now.program.functions ≡ length program.now.functions }
    ensures { IfOk result (λ p. spec.IsProofFrom job.now program.now list.now.list p) }
{
    let facts = kept(alloc, job, program, list)?;
    match first_open(alloc, job, program, &facts)? {
        None => {
            let certificate = certificate_of(alloc, job, program, facts)?;
            Ok(Proof::Closed(certificate))
        }
        Some(query) => {
            let gone = dropped(alloc, list.list.as_slice(), facts.list.as_slice())?;
            Ok(Proof::Stuck {
                query,
                dropped: gone,
            })
        }
    }
}

/// Whether a new program is shown to do what the job's program does, with the candidate invariants under a correspondence.
///
/// `Closed` exactly where each query's obligation is closed under the invariants that are kept, with the certificate that has these
/// and the steps by which each obligation is simplified; that certificate is valid. Otherwise `Stuck`, with the first query that is not
/// closed and the candidates that are not kept, in their order.
///
/// The only error is want of memory. A number that is no u32 is answered so, and an end that names a variable out of scope.
pub fn prove(alloc: Global, job: &Job, corr: &Corr, program: &Program) -> Result<Proof, AllocError>
    requires typed { IsTyped job.now }
    requires new { IsTypedProgram job.now.target program.now }
    requires functions { SameFunctions job.now.source job.now.target job.now.program program.now }
    requires kinds { spec.KeepsKinds job.now corr.now }
    ensures proof { IfOk result (λ p. spec.IsProof job.now corr.now program.now p) }
    ensures sound { IfOk result (λ p. spec.IsSoundProof job.now program.now p) }
{
    let list = candidates(alloc, job, corr, program)?;
    let proof = prove_from(alloc, job, program, &list)?;
    Ok(proof)
}
