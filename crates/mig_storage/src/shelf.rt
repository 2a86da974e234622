// The tables of a store in memory, and the next id.
ghost use Rattle.std.specs.Prelude.{◌≡◌, ◌^◌, ◌<◌, [], length, filter, slice_index_or, IfOk, OnOk, OnErr};
ghost use Rattle.mig_meaning.specs.declared.states.Placed.{Placed as PlacedRow};
ghost use Rattle.mig_meaning.specs.Rows.{value_at};
ghost use Rattle.mig_meaning.specs.Values as spec;

use crate::slots::{Slot, Slots};
use crate::undo::Undo;
use mig_base::Seq;
use mig_meaning::{Placed, Row};
use mig_schema::{Schema, Value};
use std::alloc::{AllocError, Global};
use std::marker::Model;

/// A copy of these tables.
fn copied(alloc: Global, tables: &[Slots]) -> Result<Vec<Slots>, AllocError>
    ensures { IfOk result (λ v. v.items ≡ tables.now) }
{
    let mut copies = Vec::new(alloc);
    for slots in tables {
        copies.push(slots.copy(alloc)?)?;
    }
    Ok(copies)
}

/// The slots of each table, and the next id.
#[derive(Drop)]
pub(crate) struct Shelf {
    tables: Vec<Slots>,
    next: u64,
}

impl Model for Shelf {
    ghost use Rattle.mig_storage.specs.Slots.{Shelf};

    ghost Value = { Shelf };

    ghost view = { λ s. record { tables = s.tables.items; next = s.next } };
}

impl Shelf {
    ghost use Rattle.mig_storage.specs.Order.{IsOrdered};
    ghost use Rattle.mig_storage.specs.Slots.{state_on, no_slot, no_tables, empty_shelf, rows_in, slots_at, with_new, with_slots, with_row_at, undo};

    /// No tables. It takes no memory.
    pub(crate) fn new(alloc: Global) -> Shelf
        ensures { result ≡ no_tables }
    {
        Shelf {
            tables: Vec::new(alloc),
            next: 0,
        }
    }

    /// The tables of the schema, all empty.
    pub(crate) fn of_tables(alloc: Global, schema: &Schema) -> Result<Shelf, AllocError>
        ensures { IfOk result (λ s. s ≡ empty_shelf schema.now) }
    {
        let mut tables = Vec::new(alloc);
        for _table in schema.tables.as_slice() {
            tables.push(Slots::new(alloc))?;
        }
        Ok(Shelf { tables, next: 0 })
    }

    /// A copy of all tables, with the same next id.
    pub(crate) fn copy(&self, alloc: Global) -> Result<Shelf, AllocError>
        ensures { IfOk result (λ s. s ≡ self.now) }
    {
        Ok(Shelf {
            tables: copied(alloc, self.tables.as_slice())?,
            next: self.next,
        })
    }

    /// The next id.
    pub(crate) fn next(&self) -> u64
        ensures { result ≡ self.now.next }
    {
        self.next
    }

    /// The slots of a table.
    pub(crate) fn slots(&self, table: u32) -> &[Slot]
        requires { table < length self.now.tables }
        ensures { result.now ≡ slots_at self.now table }
    {
        self.tables[table as usize].as_slice()
    }

    /// A row with the next id, behind the others of a table. On want of memory nothing changes.
    pub(crate) fn add(&mut self, table: u32, row: Row) -> Result<(), AllocError>
        requires table { table < length self.old.tables }
        requires room { self.old.next < 2 ^ 63 }
        ensures ok { OnOk result (self.new ≡ with_new self.old table row) }
        ensures err { OnErr result (self.new ≡ self.old) }
    {
        let slot = Slot {
            id: self.next,
            row: Some(row),
        };
        self.tables[table as usize].push(slot)?;
        self.next += 1;
        Ok(())
    }

    /// A copy of each row of a table whose column has the value. All slots stay.
    pub(crate) fn matching(
        &mut self,
        alloc: Global,
        table: u32,
        column: u32,
        value: &Value,
    ) -> Result<Seq<Placed>, AllocError>
        requires { table < length self.old.tables }
        ensures rows { IfOk result (λ rows. rows ≡ filter (λ (p : PlacedRow). spec.value_eq (value_at p column) value.now) (rows_in (slots_at self.old table))) }
        ensures shelf { self.new ≡ self.old }
    {
        self.tables[table as usize].matching(alloc, column, value)
    }

    /// Puts another row, or none, in a slot of a table, and answers what stood there. On want of memory nothing
    /// changes.
    pub(crate) fn change(
        &mut self,
        table: u32,
        place: usize,
        row: Option<Row>,
    ) -> Result<Option<Row>, AllocError>
        requires table { table < length self.old.tables }
        requires place { place < length (slots_at self.old table) }
        ensures row { IfOk result (λ r. r ≡ (slice_index_or (slots_at self.old table) place no_slot).row) }
        ensures ok { OnOk result (self.new ≡ with_slots self.old table (with_row_at place row (slots_at self.old table))) }
        ensures err { OnErr result (self.new ≡ self.old) }
    {
        self.tables[table as usize].change(place, row)
    }

    /// Takes a change back. It takes no memory.
    pub(crate) fn take_back(&mut self, entry: Undo)
        ensures { self.new ≡ undo entry self.old }
    {
        match entry {
            Undo::Added { table } => {
                if (table as usize) < self.tables.len() {
                    self.tables[table as usize].cut_last();
                }
                self.next = self.next.saturating_sub(1);
            }
            Undo::Changed { table, place, row } => {
                if (table as usize) < self.tables.len() {
                    self.tables[table as usize].put_back(place, row);
                }
            }
        }
    }

    /// Drops empty slots, where a table may have more of them than full ones. It takes no memory.
    pub(crate) fn close_up(&mut self)
        ensures state { state_on self.new ≡ state_on self.old }
        ensures order { IsOrdered self.old → IsOrdered self.new }
    {
        for t in 0..self.tables.len() {
            self.tables[t].close_up();
        }
    }
}
