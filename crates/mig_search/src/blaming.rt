// Which picks an entry blames.
ghost use Rattle.std.specs.Prelude.{◌≡◌, ◌<◌, ◌^◌, ℕ, length, All, IfOk};
ghost use Rattle.mig_sketch.specs.Choices.{IsChoice, sizes_of};
ghost use Rattle.mig_complete.specs.Covering.{IsInSizes};
ghost use Rattle.mig_search.specs.Blocking as spec;

use crate::outcomes::Tried;
use mig_base::Seq;
use mig_complete::{Block, Pick};
use mig_failing::{Names, blame};
use mig_invariant::is_among;
use mig_sketch::Hole;
use std::alloc::{AllocError, Global};

/// The functions that are blocked with an entry: those that its failing list blames; `None` where all are.
fn blocked(alloc: Global, entry: &Tried) -> Result<Option<Names>, AllocError>
    ensures { IfOk result (λ o. (f : ℕ) → spec.is_blocked_by o f ≡ spec.is_blocked entry.now f) }
{
    match entry {
        Tried::Refuted(calls) => Ok(Some(blame(alloc, calls)?)),
        _ => Ok(None),
    }
}

/// Whether the function is among these, or all are.
fn is_blocked(names: &Option<Names>, function: u32) -> bool
    ensures { result ≡ spec.is_blocked_by names.now function }
{
    match names {
        Some(these) => is_among(function, these.functions.as_slice()),
        None => true,
    }
}

/// The picks at the holes of these functions.
fn picks_at(
    alloc: Global,
    holes: &[Hole],
    names: &Option<Names>,
    picks: &[u32],
) -> Result<Seq<Pick>, AllocError>
    requires choice { IsChoice (sizes_of holes.now) picks.now }
    requires few { length holes.now < 2 ^ 32 }
    ensures { IfOk result (λ ps. ps ≡ spec.picks_at 0 holes.now (spec.is_blocked_by names.now) picks.now) }
{
    let mut blocked = Vec::new(alloc);
    for number in 0..holes.len() {
        if is_blocked(names, holes[number].function) {
            blocked.push(Pick {
                hole: number as u32,
                option: picks[number],
            })?;
        }
    }
    Ok(Seq::from_vec(blocked))
}

/// The picks at the holes of the functions that are blocked with the entry.
pub(crate) fn block_for(
    alloc: Global,
    holes: &[Hole],
    entry: &Tried,
    picks: &[u32],
) -> Result<Block, AllocError>
    requires choice { IsChoice (sizes_of holes.now) picks.now }
    requires few { length holes.now < 2 ^ 32 }
    ensures block { IfOk result (λ b. b.picks ≡ spec.picks_at 0 holes.now (spec.is_blocked entry.now) picks.now) }
    ensures picks { IfOk result (λ b. All (IsInSizes (sizes_of holes.now)) b.picks) }
{
    let names = blocked(alloc, entry)?;
    let picks = picks_at(alloc, holes, &names, picks)?;
    Ok(Block { picks })
}
