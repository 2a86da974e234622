// Whether both programs answer a query alike.
ghost use Rattle.std.specs.Prelude.{◌≡◌, ◌++◌, ◌∷◌, ◌↔◌, ◌<◌, [], true, length, IfOk, OnOk, IsTrue};
ghost use Rattle.mig_meaning.specs.Told.{reply_told};
ghost use Rattle.mig_storage.specs.VecMeaning.{meaning_of};
ghost use Rattle.mig_failing.specs.Failing.{AgreeOn, SameAnswer};
ghost use Rattle.mig_failing.specs.Playing.{CanBeAsked, IsAfter, IsAsked};

use crate::played::{Played, make};
use crate::ready::Tests;
use mig_meaning::{Invocation, Reply, same_bag};
use std::alloc::{AllocError, Global};

/// Whether two replies are equal bags, or no answers.
fn same_answer(left: &Reply, right: &Reply) -> bool
    ensures { IsTrue result ↔ SameAnswer (reply_told left.now) (reply_told right.now) }
{
    match (left, right) {
        (Reply::Done, Reply::Done) => true,
        (Reply::Rows(a), Reply::Rows(b)) => same_bag(a, b),
        _ => false,
    }
}

/// Whether both programs answer alike, when they are asked this query behind the calls that they have played. What
/// their stores tell stays.
pub(crate) fn agree(
    alloc: Global,
    tests: &Tests<'_>,
    played: &mut Played,
    query: &Invocation,
) -> Result<bool, AllocError>
    requires asked { CanBeAsked tests.now.job.now tests.now.program.now }
    requires old { IsAfter tests.now.job.now.source tests.now.job.now.program played.old.calls (meaning_of played.old.source) }
    requires new { IsAfter tests.now.job.now.target tests.now.program.now played.old.calls (meaning_of played.old.target) }
    requires few { length played.old.calls < 4 }
    requires given { IsAsked true tests.now.job.now tests.now.program.now query.now }
    ensures agree { IfOk result (λ same. IsTrue same ↔ AgreeOn tests.now.job.now tests.now.program.now (played.old.calls ++ query.now ∷ [])) }
    ensures calls { played.new.calls ≡ played.old.calls }
    ensures old { OnOk result (IsAfter tests.now.job.now.source tests.now.job.now.program played.old.calls (meaning_of played.new.source)) }
    ensures new { OnOk result (IsAfter tests.now.job.now.target tests.now.program.now played.old.calls (meaning_of played.new.target)) }
{
    let job = tests.job;
    let calls = played.calls.as_slice();
    let old = make(
        alloc,
        &mut played.source,
        &job.source,
        &job.program,
        calls,
        query,
    )?;
    let new = make(
        alloc,
        &mut played.target,
        &job.target,
        tests.program,
        calls,
        query,
    )?;
    Ok(same_answer(&old, &new))
}
