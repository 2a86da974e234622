// The rows that an insert adds.
ghost use Rattle.std.specs.Prelude.{◌≡◌, ℕ, ◌+◌, ◌^◌, ◌<◌, ◌≤◌, false, true, Option, Some, length};
ghost use Rattle.mig_meaning.specs.declared.states.State.{State};
ghost use Rattle.mig_meaning.specs.Effect as spec;
ghost use Rattle.mig_meaning.specs.Lists.{Each};
ghost use Rattle.mig_storage.specs.Meaning.{IsSound};
ghost use Rattle.mig_calls.specs.Fits.{RowFits};
ghost use Rattle.mig_calls.specs.Making.{Makes};
ghost use Rattle.mig_meaning.specs.Told.{given_told};

use mig_meaning::{Given, Row, new_values};
use mig_schema::{Assign, Joined, Schema};
use mig_storage::{Store, StoreFault};
use std::alloc::Global;

/// One new row in each of these tables, in order.
pub(crate) fn insert_rows<S: Store>(
    alloc: Global,
    store: &mut S,
    schema: &Schema,
    given: &Given<'_>,
    joined: &[Joined],
    values: &[Assign],
    tables: &[u32],
) -> Result<(), StoreFault>
    requires fits { Each (RowFits (S.meaning store.old).layout schema.now (given_told given.now) joined.now values.now) tables.now }
    requires begun { (S.meaning store.old).begun ≡ true }
    requires whole { (S.meaning store.old).broken ≡ false }
    requires room { (s : State) → (S.meaning store.old).told ≡ Some s → s.next + length tables.now < 2 ^ 63 }
    ensures sound { IsSound (S.meaning store.old) (S.meaning store.new) result }
    ensures makes { Makes (S.meaning store.old) (S.meaning store.new) (spec.with_rows schema.now (given_told given.now) joined.now values.now tables.now) result }
{
    for t in tables {
        let values = new_values(alloc, schema, given, joined, values, *t)?;
        store.add(*t, Row { values })?;
    }
    Ok(())
}
