// Calls of functions over a store.
ghost use Rattle.std.specs.Prelude.{◌≡◌, ◌⊎◌, ℕ, ◌+◌, ◌-◌, ◌<◌, ◌≤◌, ◌^◌, true, false, Option, Some, option_map, IfOk, OnOk, OnErr};
ghost use Rattle.mig_schema.specs.Typed.{IsTypedFunction};
ghost use Rattle.mig_meaning.specs.declared.states.State.{State};
ghost use Rattle.mig_meaning.specs.Calls.{IsGivenTo};
ghost use Rattle.mig_meaning.specs.Effect as spec;
ghost use Rattle.mig_meaning.specs.States.{labels_fit};
ghost use Rattle.mig_meaning.specs.Told.{reply_told};
ghost use Rattle.mig_storage.specs.Layout.{layout_of};
ghost use Rattle.mig_storage.specs.Meaning.{IsAtRest, IsSound};
ghost use Rattle.mig_calls.specs.Calling.{HasShortTexts, IsReplyOf, given_by};
ghost use Rattle.mig_calls.specs.Fits.{BodyFits};
ghost use Rattle.mig_calls.specs.Making.{Makes};
ghost use Rattle.mig_calls.specs.Rows.{rows_added_by};
ghost use Rattle.mig_meaning.specs.Told.{given_told};

use crate::queries::answer;
use crate::statements::update;
use mig_meaning::{Args, Given, Keys, Reply};
use mig_schema::{Body, Function, Schema};
use mig_storage::{Store, StoreFault};
use std::alloc::Global;

/// Makes the changes of an update, or finds the answer of a query, within a transaction.
fn perform<S: Store>(
    alloc: Global,
    store: &mut S,
    schema: &Schema,
    given: &Given<'_>,
    body: &Body,
) -> Result<Reply, StoreFault>
    requires fits { BodyFits (S.meaning store.old).layout schema.now (given_told given.now) body.now }
    requires room { (s : State) → (S.meaning store.old).told ≡ Some s → s.next + rows_added_by body.now < 2 ^ 63 }
    requires begun { (S.meaning store.old).begun ≡ true }
    requires whole { (S.meaning store.old).broken ≡ false }
    ensures sound { IsSound (S.meaning store.old) (S.meaning store.new) result }
    ensures makes { Makes (S.meaning store.old) (S.meaning store.new) (spec.after schema.now (given_told given.now) body.now) result }
    ensures kind { IfOk result (IsReplyOf body.now) }
    ensures reply { IfOk result (λ r. (s : State) → (S.meaning store.old).told ≡ Some s → reply_told r ≡ spec.reply (given_told given.now) body.now s) }
{
    match body {
        Body::Update(stmts) => {
            update(alloc, store, schema, given, stmts.as_slice())?;
            Ok(Reply::Done)
        }
        Body::Query(query) => Ok(Reply::Rows(answer(alloc, store, given, query)?)),
    }
}

/// Calls a function with these arguments and keys: all its changes are made, or none.
///
/// An update is `Done`; a query answers `Rows`, one for each join row that meets its condition. Where the store tells
/// its state, the state after an Ok is exactly the function's effect on it, and the rows are the defined answer.
/// `docs/MEANING.md` says what statements and queries mean.
///
/// On a fault what was changed is taken back: the told state is that before the call, or the store is broken. `Memory`
/// says that there was no memory; `Failed` comes only where the store's count of faults rose or the store was broken
/// before. After each answer no transaction is begun, or the store is broken, and the layout is the same.
///
/// The function must be typed over the schema, with labels up to 15 and inserts that join at most 17 tables in all; the
/// arguments must fit it, and the keys be 16 different ones; texts have at most 65,535 bytes. The store must have the
/// schema's layout and no transaction begun, unless it is broken, and a told next id below 2^63 - 17.
pub fn call<S: Store>(
    alloc: Global,
    store: &mut S,
    schema: &Schema,
    function: &Function,
    args: &Args,
    keys: &Keys,
) -> Result<Reply, StoreFault>
    requires typed { IsTypedFunction schema.now function.now }
    requires labels { labels_fit function.now ≡ true }
    requires given { IsGivenTo function.now (given_by args.now keys.now) }
    requires rows { rows_added_by function.now.body ≤ 17 }
    requires texts { HasShortTexts function.now args.now.values }
    requires layout { layout_of schema.now ≡ (S.meaning store.old).layout }
    requires rest { IsAtRest (S.meaning store.old) }
    requires room { (s : State) → (S.meaning store.old).told ≡ Some s → s.next < 2 ^ 63 - 17 }
    ensures sound { IsSound (S.meaning store.old) (S.meaning store.new) result }
    ensures state { OnOk result ((S.meaning store.new).told ≡ option_map (spec.after schema.now (given_by args.now keys.now) function.now.body) (S.meaning store.old).told) }
    ensures kind { IfOk result (IsReplyOf function.now.body) }
    ensures reply { IfOk result (λ r. (s : State) → (S.meaning store.old).told ≡ Some s → reply_told r ≡ spec.reply (given_by args.now keys.now) function.now.body s) }
    ensures fault { OnErr result (((S.meaning store.new).told ≡ (S.meaning store.old).told) ⊎ ((S.meaning store.new).broken ≡ true)) }
    ensures rest { IsAtRest (S.meaning store.new) }
    ensures layout { (S.meaning store.new).layout ≡ (S.meaning store.old).layout }
{
    let given = Given { args, keys };
    store.begin()?;
    let done = match perform(alloc, store, schema, &given, &function.body) {
        Ok(reply) => match store.commit() {
            Ok(()) => Ok(reply),
            Err(fault) => Err(fault),
        },
        Err(fault) => Err(fault),
    };
    match done {
        Ok(reply) => Ok(reply),
        Err(fault) => match store.rollback() {
            Ok(()) => Err(fault),
            Err(broken) => Err(broken),
        },
    }
}
