// Rows in tables, under transactions.
ghost use Rattle.std.specs.Prelude.{◌≡◌, ℕ, ◌^◌, ◌<◌, true, Option, Some, length, filter, IfOk};
ghost use Rattle.mig_meaning.specs.declared.states.Placed.{Placed as PlacedRow};
ghost use Rattle.mig_meaning.specs.declared.states.State.{State};
ghost use Rattle.mig_meaning.specs.Effect.{with_row};
ghost use Rattle.mig_meaning.specs.Lists.{Each};
ghost use Rattle.mig_meaning.specs.Rows.{rows_of, value_at};
ghost use Rattle.mig_meaning.specs.Values.{of_kind, value_eq};
ghost use Rattle.mig_storage.specs.Changes.{removed, written, has_id};
ghost use Rattle.mig_storage.specs.Layout.{IsShort, kind_at, kinds_at, of_kinds};
ghost use Rattle.mig_storage.specs.Meaning.{Meaning, IsMeaning, IsAtRest, IsBegun, IsSound, Keeps, Changes, Creates, Begins, Commits, TakesBack};

use crate::faults::StoreFault;
use mig_base::Seq;
use mig_meaning::{Placed, Row};
use mig_schema::{Schema, Value};
use std::alloc::Global;

/// Tables of rows that are changed in transactions, with a count of faults from 0 to 2^64 - 1 that never falls.
///
/// A store may tell its state; whether it does, no call changes but one that breaks it. It knows its layout: the kinds
/// of the columns of each table of the schema that the last `create` with the answer Ok was given, no tables before.
/// A told state is a state over that schema.
///
/// `Memory` may come from every call but `rollback`. `Failed` comes only where the count rose or the store was broken
/// before, and only with it a store breaks. A broken store stays broken and answers `Failed` to every call.
///
/// Tables and columns that a call names must be in the layout, and values that it is given must have its kinds.
pub trait Store {
    /// What the store tells, its faults, its transaction and its layout.
    ghost meaning: { Self → Meaning };

    /// Makes the tables of the schema, all empty, with the next id 0, in place of those that were there.
    ///
    /// No transaction may be begun, unless the store is broken. After a fault all is as it was.
    fn create(&mut self, schema: &Schema) -> Result<(), StoreFault>
        requires { IsAtRest (meaning self.old) }
        ensures sound { IsSound (meaning self.old) (meaning self.new) result }
        ensures creates { Creates (meaning self.old) (meaning self.new) schema.now result };

    /// The rows of the table, in order of their ids; where the store tells its state, those that it tells.
    ///
    /// They have the layout's kinds. Nothing changes.
    fn rows(&mut self, alloc: Global, table: u32) -> Result<Seq<Placed>, StoreFault>
        requires { table < length (meaning self.old).layout }
        ensures sound { IsSound (meaning self.old) (meaning self.new) result }
        ensures keeps { Keeps (meaning self.old) (meaning self.new) }
        ensures kinds { IfOk result (λ rows. Each (λ (p : PlacedRow). of_kinds (kinds_at (meaning self.old).layout table) p.row.values ≡ true) rows) }
        ensures rows { IfOk result (λ rows. (s : State) → (meaning self.old).told ≡ Some s → rows ≡ rows_of s table) };

    /// The rows of the table whose column has the value, in order of their ids.
    ///
    /// They have the layout's kinds. Nothing changes.
    fn matching(
        &mut self,
        alloc: Global,
        table: u32,
        column: u32,
        value: &Value,
    ) -> Result<Seq<Placed>, StoreFault>
        requires table { table < length (meaning self.old).layout }
        requires column { column < length (kinds_at (meaning self.old).layout table) }
        requires kind { of_kind (kind_at (meaning self.old).layout table column) value.now ≡ true }
        ensures sound { IsSound (meaning self.old) (meaning self.new) result }
        ensures keeps { Keeps (meaning self.old) (meaning self.new) }
        ensures kinds { IfOk result (λ rows. Each (λ (p : PlacedRow). of_kinds (kinds_at (meaning self.old).layout table) p.row.values ≡ true) rows) }
        ensures rows { IfOk result (λ rows. (s : State) → (meaning self.old).told ≡ Some s → rows ≡ filter (λ (p : PlacedRow). value_eq (value_at p column) value.now) (rows_of s table)) };

    /// Places the row in the table under the next id, and answers that id. The next id is one more then.
    ///
    /// A transaction must be begun, unless the store is broken. A told next id must be below 2^63, and texts have at
    /// most 65,535 bytes. A store that doesn't tell its state counts a fault where it has no next id.
    fn add(&mut self, table: u32, row: Row) -> Result<u64, StoreFault>
        requires table { table < length (meaning self.old).layout }
        requires kinds { of_kinds (kinds_at (meaning self.old).layout table) row.values ≡ true }
        requires texts { Each IsShort row.values }
        requires begun { IsBegun (meaning self.old) }
        requires room { (s : State) → (meaning self.old).told ≡ Some s → s.next < 2 ^ 63 }
        ensures sound { IsSound (meaning self.old) (meaning self.new) result }
        ensures id { IfOk result (λ id. (s : State) → (meaning self.old).told ≡ Some s → id ≡ s.next) }
        ensures changes { Changes (meaning self.old) (meaning self.new) (λ s. with_row s table row.values) result };

    /// Removes the row of this id from the table, and no other.
    ///
    /// A transaction must be begun, unless the store is broken; where the state is told, the row must be there.
    fn remove(&mut self, table: u32, id: u64) -> Result<(), StoreFault>
        requires table { table < length (meaning self.old).layout }
        requires begun { IsBegun (meaning self.old) }
        requires there { (s : State) → (meaning self.old).told ≡ Some s → has_id id (rows_of s table) ≡ true }
        ensures sound { IsSound (meaning self.old) (meaning self.new) result }
        ensures changes { Changes (meaning self.old) (meaning self.new) (removed table id) result };

    /// Writes the value into the column of the row of this id in the table. Its other values and all other rows stay.
    ///
    /// A transaction must be begun, unless the store is broken; where the state is told, the row must be there. A text
    /// has at most 65,535 bytes.
    fn set(&mut self, table: u32, id: u64, column: u32, value: Value) -> Result<(), StoreFault>
        requires table { table < length (meaning self.old).layout }
        requires column { column < length (kinds_at (meaning self.old).layout table) }
        requires kind { of_kind (kind_at (meaning self.old).layout table column) value ≡ true }
        requires text { IsShort value }
        requires begun { IsBegun (meaning self.old) }
        requires there { (s : State) → (meaning self.old).told ≡ Some s → has_id id (rows_of s table) ≡ true }
        ensures sound { IsSound (meaning self.old) (meaning self.new) result }
        ensures changes { Changes (meaning self.old) (meaning self.new) (written table id column value) result };

    /// Begins a transaction. None may be begun, unless the store is broken. The state stays.
    fn begin(&mut self) -> Result<(), StoreFault>
        requires { IsAtRest (meaning self.old) }
        ensures sound { IsSound (meaning self.old) (meaning self.new) result }
        ensures begins { Begins (meaning self.old) (meaning self.new) result };

    /// Ends the transaction and keeps what it changed. One must be begun, unless the store is broken.
    ///
    /// After a fault the transaction goes on, or the store is broken.
    fn commit(&mut self) -> Result<(), StoreFault>
        requires { IsBegun (meaning self.old) }
        ensures sound { IsSound (meaning self.old) (meaning self.new) result }
        ensures commits { Commits (meaning self.old) (meaning self.new) result };

    /// Ends the transaction and takes back what it changed: the state is again that at the begin. One must be begun,
    /// unless the store is broken.
    ///
    /// Its only fault is `Failed`, and then the store is broken.
    fn rollback(&mut self) -> Result<(), StoreFault>
        requires { IsBegun (meaning self.old) }
        ensures sound { IsSound (meaning self.old) (meaning self.new) result }
        ensures takes_back { TakesBack (meaning self.old) (meaning self.new) result }
        ensures never { result ≡ Err StoreFault.Memory → ⊥ };

    /// At any time a told state fits the layout, and the count of faults is below 2^64.
    ghost valid: { (s : Self) → IsMeaning (meaning s) };
}
