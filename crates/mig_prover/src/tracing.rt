// The certificate: for each pair of functions, the steps by which both sides of each obligation are simplified.
ghost use Rattle.std.specs.Prelude.{◌≡◌, IfOk, length, map};
ghost use Rattle.mig_certificate.specs.Valid.{claim_of};
ghost use Rattle.mig_obligations.specs.Obligations.{holds_obligation, obligations};
ghost use Rattle.mig_obligations.specs.Settings.{statements};
ghost use Rattle.mig_obligations.specs.Pairs.{sides_of};
ghost use Rattle.mig_prover.specs.Tracing as spec;

use crate::trails::{Trail, simplify};
use mig_base::{Exact, Seq};
use mig_certificate::{Claim, Entry, PairProof};
use mig_meaning::Invariants;
use mig_rules::{Facts, Obligation, Pair, answers, holds};
use mig_schema::{Body, Function, Job, Program};
use std::alloc::{AllocError, Global};

/// What is claimed of obligation k of a function. A number that is no u32 is answered as want of memory.
fn claim_at(function: &Function, k: usize) -> Result<Claim, AllocError>
    ensures { IfOk result (λ c. c ≡ claim_of function.now.body k) }
{
    match (&function.body, u32::try_from(k)) {
        (Body::Query(_), _) => Ok(Claim::Answers),
        (Body::Update(_), Ok(k)) => Ok(Claim::Holds(k)),
        (Body::Update(_), Err(_)) => Err(AllocError),
    }
}

/// What two updates have to show: one obligation for each invariant.
fn holding(alloc: Global, facts: &Facts) -> Result<Vec<Obligation>, AllocError>
    ensures { IfOk result (λ v. v.items ≡ map (holds_obligation (length (statements facts.now.pair.now.source_fn.now.body)) (length (statements facts.now.pair.now.target_fn.now.body))) facts.now.invariants.now.list) }
{
    let mut list = Vec::new(alloc);
    for invariant in facts.invariants.list.as_slice() {
        list.push(holds(alloc, facts.pair, invariant)?)?;
    }
    Ok(list)
}

/// All that a pair has to show, in order.
fn obligations_of(alloc: Global, facts: &Facts) -> Result<Vec<Obligation>, AllocError>
    ensures { IfOk result (λ v. v.items ≡ obligations facts.now.invariants.now.list facts.now.pair.now.source_fn.now.body facts.now.pair.now.target_fn.now.body) }
{
    match (&facts.pair.source_fn.body, &facts.pair.target_fn.body) {
        (Body::Update(_), Body::Update(_)) => {
            let list = holding(alloc, facts)?;
            Ok(list)
        }
        (Body::Query(_), Body::Query(_)) => {
            let mut list = Vec::new(alloc);
            list.push(answers(alloc, facts.pair)?)?;
            Ok(list)
        }
        (Body::Update(_), Body::Query(_)) => Ok(Vec::new(alloc)),
        (Body::Query(_), Body::Update(_)) => Ok(Vec::new(alloc)),
    }
}

/// The entry for obligation k.
fn entry_of(
    alloc: Global,
    facts: &Facts,
    k: usize,
    obligation: &Obligation,
) -> Result<Entry, AllocError>
    ensures { IfOk result (λ e. spec.IsTraced (sides_of facts.now.pair.now) facts.now.invariants.now.list k obligation.now e) }
{
    let claim = claim_at(facts.pair.source_fn, k)?;
    let old = simplify(alloc, facts, &obligation.source)?;
    let new = simplify(alloc, facts, &obligation.target)?;
    let Trail { steps: source, .. } = old;
    let Trail { steps: target, .. } = new;
    Ok(Entry {
        claim,
        source,
        target,
    })
}

/// The entries for these obligations, in order.
fn entries_of(alloc: Global, facts: &Facts, list: &[Obligation]) -> Result<Vec<Entry>, AllocError>
    ensures { IfOk result (λ v. spec.AreTraced (sides_of facts.now.pair.now) facts.now.invariants.now.list 0 list.now v.items) }
{
    let mut entries = Vec::new(alloc);
    for k in 0..list.len() {
        entries.push(entry_of(alloc, facts, k, &list[k])?)?;
    }
    Ok(entries)
}

/// The proof of a pair.
fn trace_of(alloc: Global, facts: &Facts) -> Result<PairProof, AllocError>
    ensures name { IfOk result (λ x. x.name ≡ facts.now.pair.now.source_fn.now.name) }
    ensures entries { IfOk result (λ x. spec.AreTraced (sides_of facts.now.pair.now) facts.now.invariants.now.list 0 (obligations facts.now.invariants.now.list facts.now.pair.now.source_fn.now.body facts.now.pair.now.target_fn.now.body) x.entries) }
{
    let name = facts.pair.source_fn.name.twin(alloc)?;
    let list = obligations_of(alloc, facts)?;
    let entries = entries_of(alloc, facts, list.as_slice())?;
    Ok(PairProof {
        name,
        entries: Seq::from_vec(entries),
    })
}

/// The proof of these two functions.
fn trace_between(
    alloc: Global,
    job: &Job,
    facts: &Invariants,
    source_fn: &Function,
    target_fn: &Function,
) -> Result<PairProof, AllocError>
    ensures { IfOk result (λ x. spec.IsTraceOf job.now.source job.now.target facts.now.list source_fn.now target_fn.now x) }
{
    let pair = Pair {
        source: &job.source,
        target: &job.target,
        source_fn,
        target_fn,
    };
    let facts = Facts {
        pair: &pair,
        invariants: facts,
    };
    let trace = trace_of(alloc, &facts)?;
    Ok(trace)
}

/// The proofs of all pairs of functions.
fn traces_between(
    alloc: Global,
    job: &Job,
    facts: &Invariants,
    sources: &[Function],
    targets: &[Function],
) -> Result<Vec<PairProof>, AllocError>
    requires { length sources.now ≡ length targets.now }
    ensures { IfOk result (λ v. spec.AreTracesOf job.now.source job.now.target facts.now.list sources.now targets.now v.items) }
{
    let mut traces = Vec::new(alloc);
    for n in 0..sources.len() {
        traces.push(trace_between(alloc, job, facts, &sources[n], &targets[n])?)?;
    }
    Ok(traces)
}

/// The proofs of all pairs of functions of two programs.
pub(crate) fn traces_of(
    alloc: Global,
    job: &Job,
    program: &Program,
    facts: &Invariants,
) -> Result<Seq<PairProof>, AllocError>
    requires { length job.now.program.functions ≡ length program.now.functions }
    ensures { IfOk result (λ xs. spec.AreTracesOf job.now.source job.now.target facts.now.list job.now.program.functions program.now.functions xs) }
{
    let sources = job.program.functions.as_slice();
    let targets = program.functions.as_slice();
    let traces = traces_between(alloc, job, facts, sources, targets)?;
    Ok(Seq::from_vec(traces))
}
