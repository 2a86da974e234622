// Both programs' stores after the same calls.
ghost use Rattle.std.specs.Prelude.{◌≡◌, false, ◌++◌, ◌∷◌, ◌<◌, [], length, IfOk, OnOk};
ghost use Rattle.mig_schema.specs.Typed.{IsTypedProgram};
ghost use Rattle.mig_meaning.specs.Calls.{IsCall};
ghost use Rattle.mig_meaning.specs.Lists.{Each};
ghost use Rattle.mig_meaning.specs.Told.{reply_told};
ghost use Rattle.mig_storage.specs.Layout.{IsShort};
ghost use Rattle.mig_storage.specs.VecMeaning.{meaning_of};
ghost use Rattle.mig_store.specs.Runs.{IsCallable};
ghost use Rattle.mig_failing.specs.Failing.{answered_last};
ghost use Rattle.mig_failing.specs.Playing.{CanBeAsked, IsAfter, IsAsked};

use crate::ready::Tests;
use mig_base::{Exact, Seq};
use mig_meaning::{Invocation, Reply};
use mig_schema::{Job, Program, Schema};
use mig_storage::{Store, VecStore};
use mig_store::nth_call;
use std::alloc::{AllocError, Global};

/// Calls, and both programs' stores after them.
#[derive(Drop)]
pub(crate) struct Played {
    pub(crate) calls: Seq<Invocation>,
    pub(crate) source: VecStore,
    pub(crate) target: VecStore,
}

/// A store with the empty tables of a schema.
fn emptied(alloc: Global, schema: &Schema) -> Result<VecStore, AllocError>
    ensures { IfOk result (λ s. (p : _) → IsAfter schema.now p [] (meaning_of s)) }
{
    let mut store = VecStore::new(alloc);
    match store.create(schema) {
        Ok(()) => Ok(store),
        Err(_) => Err(AllocError),
    }
}

/// Both stores before any call.
pub(crate) fn unplayed(alloc: Global, job: &Job) -> Result<Played, AllocError>
    ensures calls { IfOk result (λ k. k.calls ≡ []) }
    ensures old { IfOk result (λ k. (p : _) → IsAfter job.now.source p [] (meaning_of k.source)) }
    ensures new { IfOk result (λ k. (p : _) → IsAfter job.now.target p [] (meaning_of k.target)) }
{
    Ok(Played {
        calls: Seq::new(alloc),
        source: emptied(alloc, &job.source)?,
        target: emptied(alloc, &job.target)?,
    })
}

/// Makes one more call, behind these.
pub(crate) fn make(
    alloc: Global,
    store: &mut VecStore,
    schema: &Schema,
    program: &Program,
    calls: &[Invocation],
    next: &Invocation,
) -> Result<Reply, AllocError>
    requires typed { IsTypedProgram schema.now program.now }
    requires callable { Each IsCallable program.now.functions }
    requires after { IsAfter schema.now program.now calls.now (meaning_of store.old) }
    requires few { length calls.now < 4 }
    requires given { IsCall program.now next.now }
    requires texts { Each IsShort next.now.args.values }
    ensures after { OnOk result (IsAfter schema.now program.now (calls.now ++ next.now ∷ []) (meaning_of store.new)) }
    ensures reply { IfOk result (λ r. reply_told r ≡ answered_last schema.now program.now (calls.now ++ next.now ∷ [])) }
{
    match nth_call(alloc, store, schema, program, next, calls.len() as u32) {
        Ok(reply) => Ok(reply),
        Err(_) => Err(AllocError),
    }
}

/// Both stores after one more call of an update; those before it stay as they are.
pub(crate) fn with_update(
    alloc: Global,
    tests: &Tests<'_>,
    before: &Played,
    update: &Invocation,
) -> Result<Played, AllocError>
    requires asked { CanBeAsked tests.now.job.now tests.now.program.now }
    requires old { IsAfter tests.now.job.now.source tests.now.job.now.program before.now.calls (meaning_of before.now.source) }
    requires new { IsAfter tests.now.job.now.target tests.now.program.now before.now.calls (meaning_of before.now.target) }
    requires few { length before.now.calls < 4 }
    requires given { IsAsked false tests.now.job.now tests.now.program.now update.now }
    ensures calls { IfOk result (λ k. k.calls ≡ before.now.calls ++ update.now ∷ []) }
    ensures old { IfOk result (λ k. IsAfter tests.now.job.now.source tests.now.job.now.program k.calls (meaning_of k.source)) }
    ensures new { IfOk result (λ k. IsAfter tests.now.job.now.target tests.now.program.now k.calls (meaning_of k.target)) }
{
    let job = tests.job;
    let mut calls = before.calls.twin(alloc)?;
    let mut source = before.source.copy(alloc)?;
    let mut target = before.target.copy(alloc)?;
    make(
        alloc,
        &mut source,
        &job.source,
        &job.program,
        before.calls.as_slice(),
        update,
    )?;
    make(
        alloc,
        &mut target,
        &job.target,
        tests.program,
        before.calls.as_slice(),
        update,
    )?;
    calls.push(update.twin(alloc)?)?;
    Ok(Played {
        calls,
        source,
        target,
    })
}
