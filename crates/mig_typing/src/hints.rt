// The first rule that a job's hints break.
ghost use Rattle.std.specs.Prelude.{◌≡◌, ◌⊎◌, ◌∷◌, [], Some, slice_get};
ghost use Rattle.mig_schema.specs.declared.faults.TypeFault.{TypeFault as Fault};
ghost use Rattle.mig_schema.specs.Typed as typing;
ghost use Rattle.mig_schema.specs.Typed.{AreTypedHints};
ghost use Rattle.mig_typing.specs.First.{IsFirst, IsOkWhere, IsFaultWhere};
ghost use Rattle.mig_typing.specs.Broken.{hint_rank, numbers, hint_broken, hints_break};

use crate::again::is_again;
use mig_schema::{Hint, HintRule, Job, TypeFault, has_column, kind_of, same_kind};
use std::alloc::Global;

/// Whether an end of a hint names no column.
fn hint_end(job: &Job, hint: &Hint) -> bool
    ensures { result ≡ typing.hint_end job.now hint.now }
{
    !(has_column(&job.source, hint.source) && has_column(&job.target, hint.target))
}

/// Whether the ends of a hint have different kinds.
fn hint_kinds(job: &Job, hint: &Hint) -> bool
    ensures { result ≡ typing.hint_kinds job.now hint.now }
{
    !same_kind(
        kind_of(&job.source, hint.source),
        kind_of(&job.target, hint.target),
    )
}

/// The first rule that hint k breaks.
fn first_rule(job: &Job, k: usize, hint: &Hint) -> Option<HintRule>
    requires { slice_get job.now.hints k ≡ Some hint.now }
    ensures { IsFirst (λ r. hint_rank r ∷ []) (λ r. hint_broken job.now r k) result }
{
    if hint_end(job, hint) {
        Some(HintRule::HintEnd)
    } else if hint_kinds(job, hint) {
        Some(HintRule::HintKinds)
    } else if is_again(job.hints.as_slice(), k) {
        Some(HintRule::HintTwice)
    } else {
        None
    }
}

/// The first hint that breaks a rule, with the first rule that it breaks.
fn first_place(job: &Job) -> Option<(HintRule, usize)>
    ensures { IsFirst (λ p. p.1 ∷ hint_rank p.0 ∷ []) (λ p. hint_broken job.now p.0 p.1) result }
{
    for (k, hint) in job.hints.as_slice().iter().enumerate() {
        if let Some(rule) = first_rule(job, k, hint) {
            return Some((rule, k));
        }
    }
    None
}

/// The fault at a hint. A number that is no u32 is reported as want of memory.
fn fault_at(rule: HintRule, k: usize) -> TypeFault
    ensures { (result ≡ Fault.Memory) ⊎ (result ≡ Fault.Hint rule k) }
{
    match u32::try_from(k) {
        Ok(at) => TypeFault::Hint { rule, at },
        Err(_) => TypeFault::Memory,
    }
}

/// Whether a job's hints are typed. The error is the first broken rule, by hint, then rule. A hint whose number is no u32
/// is answered as `Memory`.
pub fn check_hints(_alloc: Global, job: &Job) -> Result<(), TypeFault>
    ensures typed { IsOkWhere (AreTypedHints job.now) result }
    ensures first { IsFaultWhere numbers (hints_break job.now) result }
{
    match first_place(job) {
        None => Ok(()),
        Some(found) => Err(fault_at(found.0, found.1)),
    }
}
