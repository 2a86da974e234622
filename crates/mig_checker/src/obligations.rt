// What is to be shown of a pair, by its number.
ghost use Rattle.std.specs.Prelude.{◌≡◌, IfOk, length, slice_get};
ghost use Rattle.std.specs.Option.{option_map};
ghost use Rattle.mig_certificate.specs.Valid.{claim_of};
ghost use Rattle.mig_obligations.specs.Pairs.{sides_of};
ghost use Rattle.mig_obligations.specs.Obligations.{holds_obligation, obligations};
ghost use Rattle.mig_obligations.specs.Settings.{statements};

use mig_algebra::Invariants;
use mig_certificate::Claim;
use mig_rules::{Facts, Obligation, answers, holds};
use mig_schema::{Body, Function};
use std::alloc::{AllocError, Global};

/// What two updates have to show for invariant k; nothing past the last invariant.
fn holds_at(alloc: Global, facts: &Facts, k: usize) -> Result<Option<Obligation>, AllocError>
    ensures { IfOk result (λ o. o ≡ option_map (holds_obligation (length (statements facts.now.pair.now.source_fn.now.body)) (length (statements facts.now.pair.now.target_fn.now.body))) (slice_get facts.now.invariants.now.list k)) }
{
    match facts.invariants.list.get(k) {
        Some(invariant) => Ok(Some(holds(alloc, facts.pair, invariant)?)),
        None => Ok(None),
    }
}

/// The obligation of number k of a pair; none past the last.
pub(crate) fn obligation_at(
    alloc: Global,
    facts: &Facts,
    k: usize,
) -> Result<Option<Obligation>, AllocError>
    ensures { IfOk result (λ o. o ≡ slice_get (obligations facts.now.invariants.now.list facts.now.pair.now.source_fn.now.body facts.now.pair.now.target_fn.now.body) k) }
{
    match (&facts.pair.source_fn.body, &facts.pair.target_fn.body) {
        (Body::Update(_), Body::Update(_)) => holds_at(alloc, facts, k),
        (Body::Query(_), Body::Query(_)) => if k == 0 {
            Ok(Some(answers(alloc, facts.pair)?))
        } else {
            Ok(None)
        },
        _ => Ok(None),
    }
}

/// How many obligations a pair of functions has.
pub(crate) fn obligation_count(invariants: &Invariants, left: &Body, right: &Body) -> usize
    ensures { result ≡ length (obligations invariants.now.list left.now right.now) }
{
    match (left, right) {
        (Body::Update(_), Body::Update(_)) => invariants.list.len(),
        (Body::Query(_), Body::Query(_)) => 1,
        _ => 0,
    }
}

/// What is claimed of obligation k of a function. A number that is no u32 is answered as want of memory.
pub(crate) fn claim_at(function: &Function, k: usize) -> Result<Claim, AllocError>
    ensures { IfOk result (λ c. c ≡ claim_of function.now.body k) }
{
    match (&function.body, u32::try_from(k)) {
        (Body::Query(_), _) => Ok(Claim::Answers),
        (Body::Update(_), Ok(k)) => Ok(Claim::Holds(k)),
        (Body::Update(_), Err(_)) => Err(AllocError),
    }
}
