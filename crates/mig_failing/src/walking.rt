// The test lists as a tree: lists that begin alike share what their common front made of both stores.
ghost use Rattle.std.specs.Prelude.{◌≡◌, false, true, ◌+◌, ◌<◌, ◌∷◌, ◌++◌, [], length, IfOk, OnOk};
ghost use Rattle.mig_meaning.specs.Lists.{Each};
ghost use Rattle.mig_storage.specs.VecMeaning.{meaning_of};
ghost use Rattle.mig_failing.specs.Made.{below};
ghost use Rattle.mig_failing.specs.Playing.{CanBeAsked, IsAfter, IsAsked, Walks};

use crate::differing::agree;
use crate::played::{Played, with_update};
use crate::ready::Tests;
use mig_base::{Exact, Seq};
use mig_meaning::{Calls, Invocation};
use std::alloc::{AllocError, Global};

/// These calls and one more.
fn with_call(alloc: Global, calls: &Seq<Invocation>, next: &Invocation) -> Result<Calls, AllocError>
    ensures { IfOk result (λ c. c.calls ≡ calls.now ++ next.now ∷ []) }
{
    let mut calls = calls.twin(alloc)?;
    calls.push(next.twin(alloc)?)?;
    Ok(Calls { calls })
}

/// Asks each query behind the calls that were played, as long as tests are left: the first list that fails.
fn ask(
    alloc: Global,
    tests: &Tests<'_>,
    played: &mut Played,
    left: &mut u32,
) -> Result<Option<Calls>, AllocError>
    requires asked { CanBeAsked tests.now.job.now tests.now.program.now }
    requires queries { Each (IsAsked true tests.now.job.now tests.now.program.now) tests.now.queries.now }
    requires old { IsAfter tests.now.job.now.source tests.now.job.now.program played.old.calls (meaning_of played.old.source) }
    requires new { IsAfter tests.now.job.now.target tests.now.program.now played.old.calls (meaning_of played.old.target) }
    requires few { length played.old.calls < 4 }
    ensures { IfOk result (Walks tests.now.job.now tests.now.program.now (below tests.now.updates.now tests.now.queries.now 0 played.old.calls) left.old left.new) }
{
    for query in tests.queries {
        if *left == 0 {
            return Ok(None);
        }
        *left -= 1;
        if !agree(alloc, tests, played, query)? {
            return Ok(Some(with_call(alloc, &played.calls, query)?));
        }
    }
    Ok(None)
}

/// Goes through the lists that go on with so many updates and a query behind the calls that were played, as long as
/// tests are left: the first list that fails.
pub(crate) fn walk(
    alloc: Global,
    tests: &Tests<'_>,
    updates: u32,
    played: &mut Played,
    left: &mut u32,
) -> Result<Option<Calls>, AllocError>
    requires asked { CanBeAsked tests.now.job.now tests.now.program.now }
    requires updates { Each (IsAsked false tests.now.job.now tests.now.program.now) tests.now.updates.now }
    requires queries { Each (IsAsked true tests.now.job.now tests.now.program.now) tests.now.queries.now }
    requires old { IsAfter tests.now.job.now.source tests.now.job.now.program played.old.calls (meaning_of played.old.source) }
    requires new { IsAfter tests.now.job.now.target tests.now.program.now played.old.calls (meaning_of played.old.target) }
    requires few { length played.old.calls + updates < 4 }
    ensures { IfOk result (Walks tests.now.job.now tests.now.program.now (below tests.now.updates.now tests.now.queries.now updates played.old.calls) left.old left.new) }
{
    if updates == 0 {
        return ask(alloc, tests, played, left);
    }
    for update in tests.updates {
        if *left == 0 {
            return Ok(None);
        }
        let mut next = with_update(alloc, tests, played, update)?;
        let found = walk(alloc, tests, updates - 1, &mut next, left)?;
        if found.is_some() {
            return Ok(found);
        }
    }
    Ok(None)
}
