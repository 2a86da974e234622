// The rows of a table that have one of several values in a column.
ghost use Rattle.std.specs.Prelude.{◌≡◌, ℕ, ◌<◌, true, false, Option, Some, filter, length, IfOk};
ghost use Rattle.std.specs.List.{list_any};
ghost use Rattle.mig_schema.specs.declared.values.Value.{Value as PlainValue};
ghost use Rattle.mig_meaning.specs.declared.states.Placed.{Placed as PlacedRow};
ghost use Rattle.mig_meaning.specs.declared.states.State.{State};
ghost use Rattle.mig_meaning.specs.Lists.{Each, In};
ghost use Rattle.mig_meaning.specs.Rows as placed;
ghost use Rattle.mig_meaning.specs.States.{Rising};
ghost use Rattle.mig_meaning.specs.Values as plain;
ghost use Rattle.mig_storage.specs.Changes.{has_id};
ghost use Rattle.mig_storage.specs.Layout.{kind_at, kinds_at, of_kinds};
ghost use Rattle.mig_storage.specs.Meaning.{IsSound, Keeps};
ghost use Rattle.mig_calls.specs.Leading.{AreUnequal, is_one_of, has_one_of};

use crate::order::value_order;
use mig_base::Seq;
use mig_meaning::{Placed, value_at, value_eq};
use mig_schema::Value;
use mig_storage::{Store, StoreFault};
use std::alloc::{AllocError, Global};

/// The values of a column in these rows, equal ones once.
pub fn values_at(alloc: Global, rows: &[Placed], column: u32) -> Result<Vec<Value>, AllocError>
    ensures unequal { IfOk result (λ vs. AreUnequal vs.items) }
    ensures members { IfOk result (λ vs. (v : PlainValue) → is_one_of vs.items v ≡ list_any (λ (p : PlacedRow). plain.value_eq v (placed.value_at p column)) rows.now) }
{
    let mut values = Vec::new(alloc);
    for row in rows {
        values.push(value_at(alloc, row, column)?)?;
    }
    values.sort_unstable_by(|left, right| value_order(left, right));
    values.dedup_by(|left, right| value_eq(left, right));
    Ok(values)
}

/// These rows in order of their ids, those of one id once.
pub fn in_order(rows: Vec<Placed>) -> Vec<Placed>
    ensures rising { Rising result.items }
    ensures found { Each (λ (p : PlacedRow). In p rows.items) result.items }
    ensures ids { (id : ℕ) → has_id id result.items ≡ has_id id rows.items }
{
    let mut rows = rows;
    rows.sort_unstable_by_key(|row| row.id);
    rows.dedup_by_key(|row| row.id);
    rows
}

/// The rows of the table whose column has one of these values, in order of their ids.
pub(crate) fn rows_with<S: Store>(
    alloc: Global,
    store: &mut S,
    table: u32,
    column: u32,
    values: &[Value],
) -> Result<Seq<Placed>, StoreFault>
    requires table { table < length (S.meaning store.old).layout }
    requires column { column < length (kinds_at (S.meaning store.old).layout table) }
    requires kind { Each (λ v. plain.of_kind (kind_at (S.meaning store.old).layout table column) v ≡ true) values.now }
    requires whole { (S.meaning store.old).broken ≡ false }
    ensures sound { IsSound (S.meaning store.old) (S.meaning store.new) result }
    ensures keeps { Keeps (S.meaning store.old) (S.meaning store.new) }
    ensures kinds { IfOk result (λ found. Each (λ (p : PlacedRow). of_kinds (kinds_at (S.meaning store.old).layout table) p.row.values ≡ true) found) }
    ensures rows { IfOk result (λ found. (s : State) → (S.meaning store.old).told ≡ Some s → found ≡ filter (has_one_of values.now column) (placed.rows_of s table)) }
{
    let mut all = Vec::new(alloc);
    for value in values {
        let found = store.matching(alloc, table, column, value)?;
        all.append(&mut found.into_vec())?;
    }
    Ok(Seq::from_vec(in_order(all)))
}
