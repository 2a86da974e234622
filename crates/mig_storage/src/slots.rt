// The slots of a table in memory.
ghost use Rattle.std.specs.Prelude.{◌≡◌, ◌⊎◌, ◌-◌, ◌<◌, [], ◌∷◌, ◌++◌, length, take, filter, Some, slice_index_or, IfOk, OnOk, OnErr};
ghost use Rattle.mig_meaning.specs.declared.states.Placed.{Placed as PlacedRow};
ghost use Rattle.mig_meaning.specs.Rows.{value_at};
ghost use Rattle.mig_meaning.specs.Values as spec;
ghost use Rattle.mig_storage.specs.Slots.{no_slot, rows_in, with_row_at};

use crate::index::Index;
use crate::indexes::{follow_all, matching};
use mig_base::{Exact, Seq};
use mig_meaning::{Placed, Row};
use mig_schema::Value;
use std::alloc::{AllocError, Global};
use std::marker::Model;
use std::mem;

/// A place for a row. It keeps its id when the row is taken out.
#[derive(Debug, Drop)]
pub(crate) struct Slot {
    pub(crate) id: u64,
    pub(crate) row: Option<Row>,
}

impl Slot {
    /// A copy of the slot and of its row.
    fn copy(&self, alloc: Global) -> Result<Slot, AllocError>
        ensures { IfOk result (λ s. s ≡ self.now) }
    {
        let row = match &self.row {
            Some(row) => Some(row.twin(alloc)?),
            None => None,
        };
        Ok(Slot { id: self.id, row })
    }
}

/// A copy of these slots.
fn copied(alloc: Global, slots: &[Slot]) -> Result<Vec<Slot>, AllocError>
    ensures { IfOk result (λ v. v.items ≡ slots.now) }
{
    let mut copies = Vec::new(alloc);
    for slot in slots {
        copies.push(slot.copy(alloc)?)?;
    }
    Ok(copies)
}

/// Puts another row, or none, in a slot, and answers what stood there. Nothing changes past the end.
fn put(items: &mut Vec<Slot>, place: usize, row: Option<Row>) -> Option<Row>
    ensures row { result ≡ (slice_index_or items.old.items place no_slot).row }
    ensures slots { items.new.items ≡ with_row_at place row items.old.items }
{
    if place < items.len() {
        mem::replace(&mut items[place].row, row)
    } else {
        None
    }
}

/// The slots of a table, in order of their ids, and the indexes of the columns whose values were asked for.
#[derive(Drop)]
pub(crate) struct Slots {
    items: Vec<Slot>,
    indexes: Vec<Index>,
    /// How many rows were taken out since empty slots were dropped.
    emptied: usize,
}

impl Model for Slots {
    ghost use Rattle.std.specs.Prelude.{List};
    ghost use Rattle.mig_storage.specs.declared.slots.Slot.{Slot};
    ghost use Rattle.mig_storage.specs.Index.{AreIndexes};

    ghost Value = { List Slot };

    ghost view = { λ s. s.items.items };

    ghost invariant = { λ s. AreIndexes s.items.items s.indexes.items };
}

impl Slots {
    ghost use Rattle.mig_storage.specs.Order.{full_slots};

    /// No slot.
    pub(crate) fn new(alloc: Global) -> Slots
        ensures { result ≡ [] }
    {
        Slots {
            items: Vec::new(alloc),
            indexes: Vec::new(alloc),
            emptied: 0,
        }
    }

    /// A copy of all slots, without indexes.
    pub(crate) fn copy(&self, alloc: Global) -> Result<Slots, AllocError>
        ensures { IfOk result (λ s. s ≡ self.now) }
    {
        Ok(Slots {
            items: copied(alloc, self.items.as_slice())?,
            indexes: Vec::new(alloc),
            emptied: self.emptied,
        })
    }

    /// All slots.
    pub(crate) fn as_slice(&self) -> &[Slot]
        ensures { result.now ≡ self.now }
    {
        self.items.as_slice()
    }

    /// A copy of each row whose column has the value. The slots stay.
    pub(crate) fn matching(
        &mut self,
        alloc: Global,
        column: u32,
        value: &Value,
    ) -> Result<Seq<Placed>, AllocError>
        ensures rows { IfOk result (λ rows. rows ≡ filter (λ (p : PlacedRow). spec.value_eq (value_at p column) value.now) (rows_in self.old)) }
        ensures slots { self.new ≡ self.old }
    {
        matching(
            alloc,
            &mut self.indexes,
            self.items.as_slice(),
            column,
            value,
        )
    }

    /// One more slot, at the end. On want of memory nothing changes.
    pub(crate) fn push(&mut self, slot: Slot) -> Result<(), AllocError>
        ensures ok { OnOk result (self.new ≡ self.old ++ slot ∷ []) }
        ensures err { OnErr result (self.new ≡ self.old) }
    {
        self.items.reserve(1)?;
        let place = self.items.len();
        follow_all(&mut self.indexes, self.items.as_slice(), place, &slot.row)?;
        self.items.push(slot).unwrap();
        Ok(())
    }

    /// Drops the last slot, if there is one, and all indexes.
    pub(crate) fn cut_last(&mut self)
        ensures { self.new ≡ take (length self.old - 1) self.old }
    {
        self.indexes.clear();
        let _ = self.items.pop();
    }

    /// Puts another row, or none, in a slot, and answers what stood there. On want of memory nothing changes.
    pub(crate) fn change(
        &mut self,
        place: usize,
        row: Option<Row>,
    ) -> Result<Option<Row>, AllocError>
        requires { place < length self.old }
        ensures row { IfOk result (λ r. r ≡ (slice_index_or self.old place no_slot).row) }
        ensures ok { OnOk result (self.new ≡ with_row_at place row self.old) }
        ensures err { OnErr result (self.new ≡ self.old) }
    {
        follow_all(&mut self.indexes, self.items.as_slice(), place, &row)?;
        if row.is_none() {
            self.emptied = self.emptied.saturating_add(1);
        }
        Ok(put(&mut self.items, place, row))
    }

    /// Puts a row back in a slot, and drops all indexes. Nothing changes past the end. It takes no memory.
    pub(crate) fn put_back(&mut self, place: usize, row: Row)
        ensures { self.new ≡ with_row_at place (Some row) self.old }
    {
        self.indexes.clear(); // They know the row that is taken back.
        let _ = put(&mut self.items, place, Some(row));
    }

    /// Drops the empty slots, where they may be more than the full ones, and the indexes with them. It takes no memory,
    /// and in the long run no more time than taking the rows out did.
    pub(crate) fn close_up(&mut self)
        ensures { (self.new ≡ self.old) ⊎ (self.new ≡ full_slots self.old) }
    {
        if self.emptied > self.items.len() / 2 {
            self.indexes.clear();
            self.items.retain(|slot| slot.row.is_some());
            self.emptied = 0;
        }
    }
}
