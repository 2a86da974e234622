// A store that fails at listed calls.
ghost use Rattle.std.specs.Prelude.{◌≡◌, ℕ, ◌^◌, ◌<◌, ◌||◌, ◌&&◌, not, if◌then◌else◌, true, Option, Some, length, filter, IfOk};
ghost use Rattle.mig_io.specs.Counts.{raised, is_listed};
ghost use Rattle.mig_meaning.specs.declared.states.Placed.{Placed as PlacedRow};
ghost use Rattle.mig_meaning.specs.declared.states.State.{State};
ghost use Rattle.mig_meaning.specs.Effect.{with_row};
ghost use Rattle.mig_meaning.specs.Lists.{Each};
ghost use Rattle.mig_meaning.specs.Rows.{rows_of, value_at};
ghost use Rattle.mig_meaning.specs.Values.{of_kind, value_eq};
ghost use Rattle.mig_storage.specs.Changes.{removed, written, has_id};
ghost use Rattle.mig_storage.specs.Layout.{IsShort, kind_at, kinds_at, of_kinds};
ghost use Rattle.mig_storage.specs.Meaning.{IsAtRest, IsBegun, IsSound, Keeps, Changes, Creates, Begins, Commits, TakesBack};

use crate::faults::StoreFault;
use crate::store::Store;
use mig_base::Seq;
use mig_meaning::{Placed, Row};
use mig_schema::{Schema, Value};
use std::alloc::Global;

/// A store that fails by itself at the calls whose numbers, from 1, are listed. After that it is broken.
///
/// Other calls are passed on to the inner store. It is broken too where the inner store is. Its count of faults is that
/// of the inner store and its own together, at most 2^64 - 1.
#[derive(Drop)]
pub struct FaultStore<S> {
    inner: S,
    fails: Seq<u64>,
    calls: u64,
    own: u64,
    broken: bool,
}

/// Whether the call after this many is listed.
fn is_next(fails: &[u64], calls: u64) -> bool
    ensures { result ≡ is_listed fails.now calls }
{
    match calls.checked_add(1) {
        Some(number) => fails.contains(&number),
        None => false,
    }
}

impl<S> FaultStore<S> {
    /// Counts a call, and answers whether it fails by itself.
    fn strikes(&mut self) -> bool
        ensures answer { result ≡ (self.old.broken || is_listed self.old.fails self.old.calls) }
        ensures broken { self.new.broken ≡ result }
        ensures own { self.new.own ≡ (if not self.old.broken && is_listed self.old.fails self.old.calls then raised self.old.own else self.old.own) }
        ensures calls { self.new.calls ≡ raised self.old.calls }
        ensures fails { self.new.fails ≡ self.old.fails }
        ensures inner { self.new.inner ≡ self.old.inner }
    {
        let listed = is_next(self.fails.as_slice(), self.calls);
        self.calls = self.calls.saturating_add(1);
        if listed && !self.broken {
            self.own = self.own.saturating_add(1);
            self.broken = true;
        }
        self.broken
    }
}

impl<S: Store> FaultStore<S> {
    ghost use Rattle.mig_storage.specs.Faulty.{calls_of, listed_of};

    /// A store that passes its calls on to the inner one, but fails at the listed calls. It takes no memory.
    pub fn new(inner: S, fails: Seq<u64>) -> FaultStore<S>
        ensures meaning { ⟦<FaultStore<S> as Store>⟧.meaning result ≡ S.meaning inner }
        ensures calls { calls_of result ≡ 0 }
        ensures listed { listed_of result ≡ fails }
    {
        FaultStore {
            inner,
            fails,
            calls: 0,
            own: 0,
            broken: false,
        }
    }
}

impl<S: Store> Store for FaultStore<S> {
    ghost use Rattle.mig_storage.specs.Faulty.{meaning_by, Strikes, faulty-valid};

    ghost meaning = { meaning_by S.meaning };

    fn create(&mut self, schema: &Schema) -> Result<(), StoreFault>
        requires { IsAtRest (meaning_by S.meaning self.old) }
        ensures sound { IsSound (meaning_by S.meaning self.old) (meaning_by S.meaning self.new) result }
        ensures creates { Creates (meaning_by S.meaning self.old) (meaning_by S.meaning self.new) schema.now result }
        ensures strikes { Strikes S.meaning self.old self.new result }
    {
        if self.strikes() {
            return Err(StoreFault::Failed);
        }
        self.inner.create(schema)
    }

    fn rows(&mut self, alloc: Global, table: u32) -> Result<Seq<Placed>, StoreFault>
        requires { table < length (meaning_by S.meaning self.old).layout }
        ensures sound { IsSound (meaning_by S.meaning self.old) (meaning_by S.meaning self.new) result }
        ensures keeps { Keeps (meaning_by S.meaning self.old) (meaning_by S.meaning self.new) }
        ensures kinds { IfOk result (λ rows. Each (λ (p : PlacedRow). of_kinds (kinds_at (meaning_by S.meaning self.old).layout table) p.row.values ≡ true) rows) }
        ensures rows { IfOk result (λ rows. (s : State) → (meaning_by S.meaning self.old).told ≡ Some s → rows ≡ rows_of s table) }
        ensures strikes { Strikes S.meaning self.old self.new result }
    {
        if self.strikes() {
            return Err(StoreFault::Failed);
        }
        self.inner.rows(alloc, table)
    }

    fn matching(
        &mut self,
        alloc: Global,
        table: u32,
        column: u32,
        value: &Value,
    ) -> Result<Seq<Placed>, StoreFault>
        requires table { table < length (meaning_by S.meaning self.old).layout }
        requires column { column < length (kinds_at (meaning_by S.meaning self.old).layout table) }
        requires kind { of_kind (kind_at (meaning_by S.meaning self.old).layout table column) value.now ≡ true }
        ensures sound { IsSound (meaning_by S.meaning self.old) (meaning_by S.meaning self.new) result }
        ensures keeps { Keeps (meaning_by S.meaning self.old) (meaning_by S.meaning self.new) }
        ensures kinds { IfOk result (λ rows. Each (λ (p : PlacedRow). of_kinds (kinds_at (meaning_by S.meaning self.old).layout table) p.row.values ≡ true) rows) }
        ensures rows { IfOk result (λ rows. (s : State) → (meaning_by S.meaning self.old).told ≡ Some s → rows ≡ filter (λ (p : PlacedRow). value_eq (value_at p column) value.now) (rows_of s table)) }
        ensures strikes { Strikes S.meaning self.old self.new result }
    {
        if self.strikes() {
            return Err(StoreFault::Failed);
        }
        self.inner.matching(alloc, table, column, value)
    }

    fn add(&mut self, table: u32, row: Row) -> Result<u64, StoreFault>
        requires table { table < length (meaning_by S.meaning self.old).layout }
        requires kinds { of_kinds (kinds_at (meaning_by S.meaning self.old).layout table) row.values ≡ true }
        requires texts { Each IsShort row.values }
        requires begun { IsBegun (meaning_by S.meaning self.old) }
        requires room { (s : State) → (meaning_by S.meaning self.old).told ≡ Some s → s.next < 2 ^ 63 }
        ensures sound { IsSound (meaning_by S.meaning self.old) (meaning_by S.meaning self.new) result }
        ensures id { IfOk result (λ id. (s : State) → (meaning_by S.meaning self.old).told ≡ Some s → id ≡ s.next) }
        ensures changes { Changes (meaning_by S.meaning self.old) (meaning_by S.meaning self.new) (λ s. with_row s table row.values) result }
        ensures strikes { Strikes S.meaning self.old self.new result }
    {
        if self.strikes() {
            return Err(StoreFault::Failed);
        }
        self.inner.add(table, row)
    }

    fn remove(&mut self, table: u32, id: u64) -> Result<(), StoreFault>
        requires table { table < length (meaning_by S.meaning self.old).layout }
        requires begun { IsBegun (meaning_by S.meaning self.old) }
        requires there { (s : State) → (meaning_by S.meaning self.old).told ≡ Some s → has_id id (rows_of s table) ≡ true }
        ensures sound { IsSound (meaning_by S.meaning self.old) (meaning_by S.meaning self.new) result }
        ensures changes { Changes (meaning_by S.meaning self.old) (meaning_by S.meaning self.new) (removed table id) result }
        ensures strikes { Strikes S.meaning self.old self.new result }
    {
        if self.strikes() {
            return Err(StoreFault::Failed);
        }
        self.inner.remove(table, id)
    }

    fn set(&mut self, table: u32, id: u64, column: u32, value: Value) -> Result<(), StoreFault>
        requires table { table < length (meaning_by S.meaning self.old).layout }
        requires column { column < length (kinds_at (meaning_by S.meaning self.old).layout table) }
        requires kind { of_kind (kind_at (meaning_by S.meaning self.old).layout table column) value ≡ true }
        requires text { IsShort value }
        requires begun { IsBegun (meaning_by S.meaning self.old) }
        requires there { (s : State) → (meaning_by S.meaning self.old).told ≡ Some s → has_id id (rows_of s table) ≡ true }
        ensures sound { IsSound (meaning_by S.meaning self.old) (meaning_by S.meaning self.new) result }
        ensures changes { Changes (meaning_by S.meaning self.old) (meaning_by S.meaning self.new) (written table id column value) result }
        ensures strikes { Strikes S.meaning self.old self.new result }
    {
        if self.strikes() {
            return Err(StoreFault::Failed);
        }
        self.inner.set(table, id, column, value)
    }

    fn begin(&mut self) -> Result<(), StoreFault>
        requires { IsAtRest (meaning_by S.meaning self.old) }
        ensures sound { IsSound (meaning_by S.meaning self.old) (meaning_by S.meaning self.new) result }
        ensures begins { Begins (meaning_by S.meaning self.old) (meaning_by S.meaning self.new) result }
        ensures strikes { Strikes S.meaning self.old self.new result }
    {
        if self.strikes() {
            return Err(StoreFault::Failed);
        }
        self.inner.begin()
    }

    fn commit(&mut self) -> Result<(), StoreFault>
        requires { IsBegun (meaning_by S.meaning self.old) }
        ensures sound { IsSound (meaning_by S.meaning self.old) (meaning_by S.meaning self.new) result }
        ensures commits { Commits (meaning_by S.meaning self.old) (meaning_by S.meaning self.new) result }
        ensures strikes { Strikes S.meaning self.old self.new result }
    {
        if self.strikes() {
            return Err(StoreFault::Failed);
        }
        self.inner.commit()
    }

    fn rollback(&mut self) -> Result<(), StoreFault>
        requires { IsBegun (meaning_by S.meaning self.old) }
        ensures sound { IsSound (meaning_by S.meaning self.old) (meaning_by S.meaning self.new) result }
        ensures takes_back { TakesBack (meaning_by S.meaning self.old) (meaning_by S.meaning self.new) result }
        ensures never { result ≡ Err StoreFault.Memory → ⊥ }
        ensures strikes { Strikes S.meaning self.old self.new result }
    {
        if self.strikes() {
            return Err(StoreFault::Failed);
        }
        self.inner.rollback()
    }

    ghost valid = { λ f. faulty-valid S.meaning S.valid f };
}
