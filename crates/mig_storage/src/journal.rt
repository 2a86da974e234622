// Rows in memory, and what takes their changes back.
ghost use Rattle.std.specs.Prelude.{◌≡◌, ◌<◌, ◌^◌, true, false, [], filter, length, is_some, slice_index_or, vec_capacity, vec_len, IfOk, IfSome, IfNone, OnOk, OnErr};
ghost use Rattle.mig_meaning.specs.declared.states.Placed.{Placed as PlacedRow};
ghost use Rattle.mig_meaning.specs.Effect.{with_row};
ghost use Rattle.mig_meaning.specs.Rows.{empty_state, rows_of, value_at};
ghost use Rattle.mig_meaning.specs.States.{Rising};
ghost use Rattle.mig_meaning.specs.Values.{no_value};
ghost use Rattle.mig_meaning.specs.Values as spec;
ghost use Rattle.mig_storage.specs.Changes.{removed, written, has_id};
ghost use Rattle.mig_storage.specs.Slots.{rows_in, slots_at, with_slots, with_row_at, no_slot, no_state, undone};
ghost use Rattle.mig_storage.specs.Places.{IsPlaceOf};

use crate::places::place_of;
use crate::shelf::Shelf;
use crate::slots::Slot;
use crate::undo::Undo;
use crate::values::with_value;
use mig_base::{Exact, Seq};
use mig_meaning::{Placed, Row};
use mig_schema::{Schema, Value};
use std::alloc::{AllocError, Global};
use std::marker::Model;

/// A copy of each row in these slots.
fn copied(alloc: Global, slots: &[Slot]) -> Result<Seq<Placed>, AllocError>
    ensures { IfOk result (λ rows. rows ≡ rows_in slots.now) }
{
    let mut rows = Seq::new(alloc);
    for slot in slots {
        if let Some(row) = &slot.row {
            let row = row.twin(alloc)?;
            rows.push(Placed { id: slot.id, row })?;
        }
    }
    Ok(rows)
}

/// Puts another row, or none, in the place of a row, and notes what stood there. There must be room for the note. On
/// want of memory nothing changes.
fn replace(
    shelf: &mut Shelf,
    changes: &mut Vec<Undo>,
    table: u32,
    place: usize,
    row: Option<Row>,
) -> Result<(), AllocError>
    requires room { vec_len changes.old < vec_capacity changes.old }
    requires table { table < length shelf.old.tables }
    requires place { place < length (slots_at shelf.old table) }
    requires filled { is_some (slice_index_or (slots_at shelf.old table) place no_slot).row ≡ true }
    ensures ok { OnOk result (shelf.new ≡ with_slots shelf.old table (with_row_at place row (slots_at shelf.old table))) }
    ensures err { OnErr result (shelf.new ≡ shelf.old) }
    ensures start { undone changes.new.items shelf.new ≡ undone changes.old.items shelf.old }
{
    if let Some(old) = shelf.change(table, place, row)? {
        let note = Undo::Changed {
            table,
            place,
            row: old,
        };
        changes.push(note).unwrap();
    }
    Ok(())
}

/// Rows in tables, and the changes since a mark, which can be taken back. Contracts see the state as it is and as it
/// was at the mark.
#[derive(Drop)]
pub(crate) struct Journal {
    shelf: Shelf,
    changes: Vec<Undo>,
}

impl Model for Journal {
    ghost use Rattle.mig_storage.specs.Order.{StaysOrdered};
    ghost use Rattle.mig_storage.specs.Slots.{Held, held};

    ghost Value = { Held };

    ghost view = { λ j. held j.shelf j.changes.items };

    ghost invariant = { λ j. StaysOrdered j.shelf j.changes.items };
}

impl Journal {
    /// No tables. It takes no memory.
    pub(crate) fn new(alloc: Global) -> Journal
        ensures current { result.current ≡ no_state }
        ensures start { result.start ≡ no_state }
    {
        Journal {
            shelf: Shelf::new(alloc),
            changes: Vec::new(alloc),
        }
    }

    /// The tables of the schema, all empty, and no change.
    pub(crate) fn of_tables(alloc: Global, schema: &Schema) -> Result<Journal, AllocError>
        ensures current { IfOk result (λ j. j.current ≡ empty_state schema.now) }
        ensures start { IfOk result (λ j. j.start ≡ empty_state schema.now) }
    {
        Ok(Journal {
            shelf: Shelf::of_tables(alloc, schema)?,
            changes: Vec::new(alloc),
        })
    }

    /// A copy of the state as it is, marked there.
    pub(crate) fn copy(&self, alloc: Global) -> Result<Journal, AllocError>
        ensures current { IfOk result (λ j. j.current ≡ self.now.current) }
        ensures start { IfOk result (λ j. j.start ≡ self.now.current) }
    {
        Ok(Journal {
            shelf: self.shelf.copy(alloc)?,
            changes: Vec::new(alloc),
        })
    }

    /// A copy of each row of a table.
    pub(crate) fn rows(&self, alloc: Global, table: u32) -> Result<Seq<Placed>, AllocError>
        requires { table < length self.now.current.tables }
        ensures { IfOk result (λ rows. rows ≡ rows_of self.now.current table) }
    {
        copied(alloc, self.shelf.slots(table))
    }

    /// A copy of each row of a table whose column has the value.
    pub(crate) fn matching(
        &mut self,
        alloc: Global,
        table: u32,
        column: u32,
        value: &Value,
    ) -> Result<Seq<Placed>, AllocError>
        requires { table < length self.old.current.tables }
        ensures rows { IfOk result (λ rows. rows ≡ filter (λ (p : PlacedRow). spec.value_eq (value_at p column) value.now) (rows_of self.old.current table)) }
        ensures current { self.new.current ≡ self.old.current }
        ensures start { self.new.start ≡ self.old.start }
    {
        self.shelf.matching(alloc, table, column, value)
    }

    /// Places a row in a table under the next id, and answers that id. On want of memory nothing changes.
    pub(crate) fn add(&mut self, table: u32, row: Row) -> Result<u64, AllocError>
        requires table { table < length self.old.current.tables }
        requires room { self.old.current.next < 2 ^ 63 }
        ensures id { IfOk result (λ id. id ≡ self.old.current.next) }
        ensures ok { OnOk result (self.new.current ≡ with_row self.old.current table row.values) }
        ensures err { OnErr result (self.new.current ≡ self.old.current) }
        ensures start { self.new.start ≡ self.old.start }
    {
        let id = self.shelf.next();
        self.changes.reserve(1)?;
        self.shelf.add(table, row)?;
        self.changes.push(Undo::Added { table }).unwrap();
        Ok(id)
    }

    /// Removes the row of this id from a table. On want of memory nothing changes.
    pub(crate) fn remove(&mut self, table: u32, id: u64) -> Result<(), AllocError>
        requires table { table < length self.old.current.tables }
        requires rising { Rising (rows_of self.old.current table) }
        requires there { has_id id (rows_of self.old.current table) ≡ true }
        ensures ok { OnOk result (self.new.current ≡ removed table id self.old.current) }
        ensures err { OnErr result (self.new.current ≡ self.old.current) }
        ensures start { self.new.start ≡ self.old.start }
    {
        self.changes.reserve(1)?;
        let Some((place, _row)) = place_of(self.shelf.slots(table), id) else {
            return Ok(());
        };
        replace(&mut self.shelf, &mut self.changes, table, place, None)?;
        Ok(())
    }

    /// Writes a value into a column of the row of this id in a table. On want of memory nothing changes.
    pub(crate) fn set(
        &mut self,
        alloc: Global,
        table: u32,
        id: u64,
        column: u32,
        value: Value,
    ) -> Result<(), AllocError>
        requires table { table < length self.old.current.tables }
        requires rising { Rising (rows_of self.old.current table) }
        requires there { has_id id (rows_of self.old.current table) ≡ true }
        ensures ok { OnOk result (self.new.current ≡ written table id column value self.old.current) }
        ensures err { OnErr result (self.new.current ≡ self.old.current) }
        ensures start { self.new.start ≡ self.old.start }
    {
        self.changes.reserve(1)?;
        let Some((place, row)) = place_of(self.shelf.slots(table), id) else {
            return Ok(());
        };
        let row = with_value(alloc, row, column, value)?;
        replace(&mut self.shelf, &mut self.changes, table, place, Some(row))?;
        Ok(())
    }

    /// Marks the state as it is: changes made before are not taken back any more. It takes no memory.
    pub(crate) fn mark(&mut self)
        ensures current { self.new.current ≡ self.old.current }
        ensures start { self.new.start ≡ self.old.current }
    {
        self.changes.clear();
        self.shelf.close_up();
    }

    /// Takes back all changes since the mark, the newest first. It takes no memory.
    pub(crate) fn take_back(&mut self)
        ensures current { self.new.current ≡ self.old.start }
        ensures start { self.new.start ≡ self.old.start }
    {
        while let Some(entry) = self.changes.pop() {
            self.shelf.take_back(entry);
        }
    }
}
