// A store in memory.
ghost use Rattle.std.specs.Prelude.{◌≡◌, [], false, length, Some, IfOk};
ghost use Rattle.mig_storage.specs.Meaning.{FitsLayout, IsSound, Commits, TakesBack};
ghost use Rattle.mig_storage.specs.Props.{FitsLayout-prop};

use crate::faults::StoreFault;
use crate::journal::Journal;
use crate::layouts::layout_of;
use crate::store::Store;
use mig_base::{Exact, Seq};
use mig_meaning::{Placed, Row};
use mig_schema::{Kind, Schema, Value};
use std::alloc::{AllocError, Global};

/// A store in memory, which tells its state.
///
/// It is never broken and counts no fault. `commit` and `rollback` take no memory and answer Ok.
#[derive(Drop)]
pub struct VecStore {
    alloc: Global,
    journal: Journal,
    layout: Seq<Seq<Kind>>,
    begun: bool,
    ghost sized: { length journal.current.tables ≡ length layout },
    ghost fits: { FitsLayout layout journal.current } by { FitsLayout-prop layout journal.current },
    ghost started: { FitsLayout layout journal.start } by { FitsLayout-prop layout journal.start },
}

impl VecStore {
    ghost use Rattle.mig_storage.specs.Slots.{no_state};

    /// A store without tables. It takes no memory.
    pub fn new(alloc: Global) -> VecStore
        ensures told { (⟦<VecStore as Store>⟧.meaning result).told ≡ Some no_state }
        ensures faults { (⟦<VecStore as Store>⟧.meaning result).faults ≡ 0 }
        ensures whole { (⟦<VecStore as Store>⟧.meaning result).broken ≡ false }
        ensures rest { (⟦<VecStore as Store>⟧.meaning result).begun ≡ false }
        ensures layout { (⟦<VecStore as Store>⟧.meaning result).layout ≡ [] }
    {
        VecStore {
            alloc,
            journal: Journal::new(alloc),
            layout: Seq::new(alloc),
            begun: false,
        }
    }

    /// A store of its own with the same told state and layout, in which no transaction is begun. Its only error is want
    /// of memory. No transaction may be begun in this one.
    pub fn copy(&self, alloc: Global) -> Result<VecStore, AllocError>
        requires { (⟦<VecStore as Store>⟧.meaning self.now).begun ≡ false }
        ensures told { IfOk result (λ s. (⟦<VecStore as Store>⟧.meaning s).told ≡ (⟦<VecStore as Store>⟧.meaning self.now).told) }
        ensures layout { IfOk result (λ s. (⟦<VecStore as Store>⟧.meaning s).layout ≡ (⟦<VecStore as Store>⟧.meaning self.now).layout) }
        ensures rest { IfOk result (λ s. (⟦<VecStore as Store>⟧.meaning s).begun ≡ false) }
        ensures whole { IfOk result (λ s. (⟦<VecStore as Store>⟧.meaning s).broken ≡ false) }
        ensures faults { IfOk result (λ s. (⟦<VecStore as Store>⟧.meaning s).faults ≡ 0) }
    {
        Ok(VecStore {
            alloc,
            journal: self.journal.copy(alloc)?,
            layout: self.layout.twin(alloc)?,
            begun: false,
        })
    }
}

impl Store for VecStore {
    ghost use Rattle.mig_storage.specs.VecMeaning.{meaning_of, vec_valid};

    ghost meaning = { meaning_of };

    fn create(&mut self, schema: &Schema) -> Result<(), StoreFault> {
        let journal = Journal::of_tables(self.alloc, schema)?;
        self.layout = layout_of(self.alloc, schema)?;
        self.journal = journal;
        Ok(())
    }

    fn rows(&mut self, alloc: Global, table: u32) -> Result<Seq<Placed>, StoreFault> {
        Ok(self.journal.rows(alloc, table)?)
    }

    fn matching(
        &mut self,
        alloc: Global,
        table: u32,
        column: u32,
        value: &Value,
    ) -> Result<Seq<Placed>, StoreFault> {
        Ok(self.journal.matching(alloc, table, column, value)?)
    }

    fn add(&mut self, table: u32, row: Row) -> Result<u64, StoreFault> {
        Ok(self.journal.add(table, row)?)
    }

    fn remove(&mut self, table: u32, id: u64) -> Result<(), StoreFault> {
        Ok(self.journal.remove(table, id)?)
    }

    fn set(&mut self, table: u32, id: u64, column: u32, value: Value) -> Result<(), StoreFault> {
        Ok(self.journal.set(self.alloc, table, id, column, value)?)
    }

    fn begin(&mut self) -> Result<(), StoreFault> {
        self.journal.mark();
        self.begun = true;
        Ok(())
    }

    fn commit(&mut self) -> Result<(), StoreFault>
        ensures sound { IsSound (meaning_of self.old) (meaning_of self.new) result }
        ensures commits { Commits (meaning_of self.old) (meaning_of self.new) result }

        // Beyond the trait's clauses:
        ensures always { result ≡ Ok tt }
    {
        self.journal.mark();
        self.begun = false;
        Ok(())
    }

    fn rollback(&mut self) -> Result<(), StoreFault>
        ensures sound { IsSound (meaning_of self.old) (meaning_of self.new) result }
        ensures takes_back { TakesBack (meaning_of self.old) (meaning_of self.new) result }
        ensures never { result ≡ Err StoreFault.Memory → ⊥ }

        // Beyond the trait's clauses:
        ensures always { result ≡ Ok tt }
    {
        self.journal.take_back();
        self.commit()
    }

    ghost valid = { vec_valid };
}
