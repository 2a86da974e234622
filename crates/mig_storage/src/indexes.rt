// The indexes of a table.
ghost use Rattle.std.specs.Prelude.{◌≡◌, ◌<◌, [], List, length, filter, IfOk, OnOk, OnErr};
ghost use Rattle.mig_meaning.specs.declared.states.Placed.{Placed as PlacedRow};
ghost use Rattle.mig_meaning.specs.Rows.{value_at};
ghost use Rattle.mig_meaning.specs.Values as spec;
ghost use Rattle.mig_storage.specs.declared.slots.Slot.{Slot as AnySlot};
ghost use Rattle.mig_storage.specs.Index.{AreIndexes, ChangesAt};
ghost use Rattle.mig_storage.specs.Slots.{rows_in};

use crate::index::Index;
use crate::slots::Slot;
use mig_base::Seq;
use mig_meaning::{Placed, Row};
use mig_schema::Value;
use std::alloc::{AllocError, Global};

/// Lets each index follow a change of the row at a place.
fn follow_each(
    indexes: &mut Vec<Index>,
    slots: &[Slot],
    place: usize,
    row: &Option<Row>,
) -> Result<(), AllocError>
    requires { AreIndexes slots.now indexes.old.items }
    ensures { OnOk result ((after : List AnySlot) → ChangesAt place row.now slots.now after → AreIndexes after indexes.new.items) }
{
    for i in 0..indexes.len() {
        indexes[i].follow(slots, place, row)?;
    }
    Ok(())
}

/// Lets the indexes follow a change of the row at a place. These are the slots before the change. On want of memory no
/// index is left.
pub(crate) fn follow_all(
    indexes: &mut Vec<Index>,
    slots: &[Slot],
    place: usize,
    row: &Option<Row>,
) -> Result<(), AllocError>
    requires { AreIndexes slots.now indexes.old.items }
    ensures ok { OnOk result ((after : List AnySlot) → ChangesAt place row.now slots.now after → AreIndexes after indexes.new.items) }
    ensures err { OnErr result (indexes.new.items ≡ []) }
{
    let followed = follow_each(indexes, slots, place, row);
    if followed.is_err() {
        indexes.clear();
    }
    followed
}

/// A copy of each row in these slots whose column has the value. The index of the column is made where there is none.
pub(crate) fn matching(
    alloc: Global,
    indexes: &mut Vec<Index>,
    slots: &[Slot],
    column: u32,
    value: &Value,
) -> Result<Seq<Placed>, AllocError>
    requires { AreIndexes slots.now indexes.old.items }
    ensures rows { IfOk result (λ rows. rows ≡ filter (λ (p : PlacedRow). spec.value_eq (value_at p column) value.now) (rows_in slots.now)) }
    ensures indexes { AreIndexes slots.now indexes.new.items }
{
    if let Some(index) = indexes.iter().find(|index| index.column == column) {
        return index.matching(alloc, slots, value);
    }
    let index = Index::of(alloc, slots, column)?;
    let rows = index.matching(alloc, slots, value)?;
    indexes.push(index)?;
    Ok(rows)
}
