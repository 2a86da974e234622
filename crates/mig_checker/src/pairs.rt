// The first pair of functions whose proof is broken.
ghost use Rattle.std.specs.Prelude.{◌≡◌, ◌∷◌, IfOk, length};
ghost use Rattle.std.specs.Option.{option_copied};
ghost use Rattle.mig_obligations.specs.Obligations.{obligations};
ghost use Rattle.mig_typing.specs.First.{IsFirst};
ghost use Rattle.mig_obligations.specs.Pairs.{sides_of};
ghost use Rattle.mig_certificate.specs.BrokenPlace.{broken};
ghost use Rattle.mig_checker.specs.Inside as spec;

use crate::entries::first_in_entry;
use crate::obligations::{claim_at, obligation_at, obligation_count};
use crate::places::{InEntry, InPair};
use mig_base::{Seq, same_text};
use mig_certificate::{Certificate, Entry, PairProof};
use mig_rules::{Facts, Pair};
use mig_schema::{Function, Job, Program};
use std::alloc::{AllocError, Global};

/// The first place at which entry k is broken.
fn first_at(
    alloc: Global,
    facts: &Facts,
    entries: &Seq<Entry>,
    k: usize,
) -> Result<Option<InEntry>, AllocError>
    ensures { IfOk result (λ o. IsFirst spec.entry_numbers (spec.entry_at_broken (sides_of facts.now.pair.now) facts.now.invariants.now.list entries.now k) o) }
{
    let Some(obligation) = obligation_at(alloc, facts, k)? else {
        return Ok(None);
    };
    let claim = claim_at(facts.pair.source_fn, k)?;
    match entries.get(k) {
        Some(entry) => first_in_entry(alloc, facts, claim, obligation, entry),
        None => Ok(Some(InEntry::Missing)),
    }
}

/// How many obligations a pair has.
fn count_of(facts: &Facts) -> usize
    ensures { result ≡ length (obligations facts.now.invariants.now.list facts.now.pair.now.source_fn.now.body facts.now.pair.now.target_fn.now.body) }
{
    obligation_count(
        facts.invariants,
        &facts.pair.source_fn.body,
        &facts.pair.target_fn.body,
    )
}

/// The first entry that is broken, and the first place in it.
fn first_entry(
    alloc: Global,
    facts: &Facts,
    entries: &Seq<Entry>,
) -> Result<Option<(usize, InEntry)>, AllocError>
    ensures { IfOk result (λ o. IsFirst (λ q. q.0 ∷ spec.entry_numbers q.1) (λ q. spec.entry_at_broken (sides_of facts.now.pair.now) facts.now.invariants.now.list entries.now q.0 q.1) o) }
{
    for k in 0..count_of(facts) {
        match first_at(alloc, facts, entries, k)? {
            Some(place) => return Ok(Some((k, place))),
            None => {}
        }
    }
    Ok(None)
}

/// The first place at which the entries of a pair are broken.
fn first_in_entries(
    alloc: Global,
    facts: &Facts,
    entries: &Seq<Entry>,
) -> Result<Option<InPair>, AllocError>
    ensures { IfOk result (λ o. IsFirst spec.pair_numbers (spec.entries_broken (sides_of facts.now.pair.now) facts.now.invariants.now.list entries.now) o) }
{
    match first_entry(alloc, facts, entries)? {
        Some(found) => Ok(Some(InPair::Entry(found.0, found.1))),
        None => Ok(if count_of(facts) < entries.len() {
            Some(InPair::Extra)
        } else {
            None
        }),
    }
}

/// The proof of a function, of number i, if it is there and has its name.
fn proof_of<'a>(
    certificate: &'a Certificate,
    i: usize,
    function: &Function,
) -> Option<&'a PairProof>
    ensures { option_copied result ≡ spec.proof_of certificate.now i function.now }
{
    match certificate.pairs.get(i) {
        Some(proof) => if same_text(&proof.name, &function.name) {
            Some(proof)
        } else {
            None
        },
        None => None,
    }
}

/// The first place at which the proof of pair i is broken; nothing where a function of that number is missing.
fn first_in_pair(
    alloc: Global,
    job: &Job,
    program: &Program,
    certificate: &Certificate,
    i: usize,
) -> Result<Option<InPair>, AllocError>
    ensures { IfOk result (λ o. IsFirst spec.pair_numbers (λ q. broken job.now program.now certificate.now (spec.at_pair i q)) o) }
{
    let Some(source_fn) = job.program.functions.get(i) else {
        return Ok(None);
    };
    let Some(proof) = proof_of(certificate, i, source_fn) else {
        return Ok(Some(InPair::Missing));
    };
    let Some(target_fn) = program.functions.get(i) else {
        return Ok(None);
    };
    let pair = Pair {
        source: &job.source,
        target: &job.target,
        source_fn,
        target_fn,
    };
    let facts = Facts {
        pair: &pair,
        invariants: &certificate.invariants,
    };
    first_in_entries(alloc, &facts, &proof.entries)
}

/// The first pair whose proof is broken, and the first place in it.
pub(crate) fn first_pair(
    alloc: Global,
    job: &Job,
    program: &Program,
    certificate: &Certificate,
) -> Result<Option<(usize, InPair)>, AllocError>
    ensures { IfOk result (λ o. IsFirst (λ q. q.0 ∷ spec.pair_numbers q.1) (λ q. broken job.now program.now certificate.now (spec.at_pair q.0 q.1)) o) }
{
    for i in 0..job.program.functions.len() {
        match first_in_pair(alloc, job, program, certificate, i)? {
            Some(place) => return Ok(Some((i, place))),
            None => {}
        }
    }
    Ok(None)
}
