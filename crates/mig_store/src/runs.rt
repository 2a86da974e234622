// Runs of calls over a store.
ghost use Rattle.std.specs.Prelude.{◌≡◌, ◌⊎◌, ℕ, ◌*◌, ◌<◌, ◌≤◌, true, false, Option, Some, length, map, option_map, IfOk, OnOk, OnErr};
ghost use Rattle.mig_schema.specs.Typed.{IsTypedProgram};
ghost use Rattle.mig_meaning.specs.declared.calling.Invocation.{Invocation as Call};
ghost use Rattle.mig_meaning.specs.declared.states.State.{State};
ghost use Rattle.mig_meaning.specs.Calls.{AreCalls, IsCall};
ghost use Rattle.mig_meaning.specs.Lists.{Each};
ghost use Rattle.mig_meaning.specs.Run.{called, function_at};
ghost use Rattle.mig_meaning.specs.Told.{reply_told};
ghost use Rattle.mig_storage.specs.Layout.{IsShort, layout_of};
ghost use Rattle.mig_storage.specs.Meaning.{IsAtRest, IsSound};
ghost use Rattle.mig_calls.specs.Calling.{IsReplyOf};
ghost use Rattle.mig_store.specs.Runs.{IsCallable, answers_of, numbers_from, played, query_calls, state_after};
ghost use Rattle.mig_store.specs.Stopped.{IsStopped};
ghost use Rattle.mig_store.specs.Told.{answered_told, place_told};

use crate::answers::{Answers, put_answer};
use crate::keys::keys_of;
use mig_base::Seq;
use mig_calls::call;
use mig_meaning::{Calls, Invocation, Reply};
use mig_schema::{Program, Schema};
use mig_storage::{Store, StoreFault};
use std::alloc::Global;

/// Makes the call of this number of a run, from 0, with the sixteen keys that a run gives it: those from sixteen times
/// the number on.
///
/// It is `call` of `mig_calls` for the function that the call names: where the store tells its state, the state after an
/// Ok and the reply are the defined ones. On a fault the told state is that before, or the store is broken; `Memory` and
/// `Failed` come as they do there. The program must be typed over the schema and its functions callable, the call be of
/// one of them with arguments that fit, and the told next id be at most 17 for each call before.
pub fn nth_call<S: Store>(
    alloc: Global,
    store: &mut S,
    schema: &Schema,
    program: &Program,
    invocation: &Invocation,
    number: u32,
) -> Result<Reply, StoreFault>
    requires typed { IsTypedProgram schema.now program.now }
    requires callable { Each IsCallable program.now.functions }
    requires given { IsCall program.now invocation.now }
    requires texts { Each IsShort invocation.now.args.values }
    requires number { number < 100000 }
    requires layout { layout_of schema.now ≡ (S.meaning store.old).layout }
    requires rest { (S.meaning store.old).begun ≡ false }
    requires whole { (S.meaning store.old).broken ≡ false }
    requires room { (s : State) → (S.meaning store.old).told ≡ Some s → s.next ≤ 17 * number }
    ensures sound { IsSound (S.meaning store.old) (S.meaning store.new) result }
    ensures state { OnOk result ((S.meaning store.new).told ≡ option_map (λ s. (called schema.now program.now invocation.now (numbers_from (16 * number) 16) s).state) (S.meaning store.old).told) }
    ensures kind { IfOk result (IsReplyOf (function_at program.now invocation.now.function).body) }
    ensures reply { IfOk result (λ r. (s : State) → (S.meaning store.old).told ≡ Some s → reply_told r ≡ (called schema.now program.now invocation.now (numbers_from (16 * number) 16) s).reply) }
    ensures fault { OnErr result (((S.meaning store.new).told ≡ (S.meaning store.old).told) ⊎ ((S.meaning store.new).broken ≡ true)) }
    ensures rest { IsAtRest (S.meaning store.new) }
    ensures layout { (S.meaning store.new).layout ≡ (S.meaning store.old).layout }
{
    let keys = keys_of(alloc, number)?;
    let function = &program.functions.as_slice()[invocation.function as usize];
    call(alloc, store, schema, function, &invocation.args, &keys)
}

/// Makes the tables of the schema, empty, and then these calls in order; answers what the query calls answer.
///
/// Call i, from 0, has the sixteen keys from 16 i on. An Ok has one answer for each query call, in order, with the
/// call's number and its function. Where the store tells its state, the rows of each answer are the defined ones, and
/// the told state is the last of the defined run from empty tables (`docs/MEANING.md`). The layout is the schema's then.
///
/// After a fault the told state is that at entry, or that after the first n calls, none left out, or the store is
/// broken. `Memory` says that there was no memory; `Failed` comes only where the store's count of faults rose or the
/// store was broken before. After each answer no transaction is begun, or the store is broken.
///
/// The program must be typed over the schema, its labels at most 15, the inserts of a function join at most 17 tables
/// in all; at most 100,000 calls, each of a function of the program with arguments that fit; texts have at most 65,535
/// bytes. No transaction may be begun in the store, unless it is broken.
pub fn run<S: Store>(
    alloc: Global,
    store: &mut S,
    schema: &Schema,
    program: &Program,
    calls: &Calls,
) -> Result<Answers, StoreFault>
    requires typed { IsTypedProgram schema.now program.now }
    requires callable { Each IsCallable program.now.functions }
    requires given { AreCalls program.now calls.now.calls }
    requires texts { Each (λ (i : Call). Each IsShort i.args.values) calls.now.calls }
    requires count { length calls.now.calls ≤ 100000 }
    requires rest { IsAtRest (S.meaning store.old) }
    ensures sound { IsSound (S.meaning store.old) (S.meaning store.new) result }
    ensures queries { IfOk result (λ a. map place_told a.list ≡ query_calls program.now 0 calls.now.calls) }
    ensures answers { IfOk result (λ a. (s : State) → (S.meaning store.old).told ≡ Some s → map answered_told a.list ≡ answers_of 0 calls.now.calls (played schema.now program.now calls.now.calls)) }
    ensures state { OnOk result ((S.meaning store.new).told ≡ option_map (λ s. state_after schema.now program.now calls.now.calls) (S.meaning store.old).told) }
    ensures layout { OnOk result ((S.meaning store.new).layout ≡ layout_of schema.now) }
    ensures fault { OnErr result (IsStopped schema.now program.now calls.now.calls (S.meaning store.old) (S.meaning store.new)) }
    ensures rest { IsAtRest (S.meaning store.new) }
{
    store.create(schema)?;
    let mut list = Seq::new(alloc);
    let mut number = 0u32;
    for invocation in calls.calls.as_slice() {
        let reply = nth_call(alloc, store, schema, program, invocation, number)?;
        put_answer(&mut list, number, invocation.function, reply)?;
        number += 1;
    }
    Ok(Answers { list })
}
