// States of a database: rows that are placed in tables.
use mig_base::{Exact, Seq};
use mig_schema::Value;
use std::alloc::{AllocError, Global};

/// A row: one value for each column of its table, in order.
#[derive(Debug, Drop)]
pub struct Row {
    pub values: Seq<Value>,
}

/// A row in a table. No other row of the state, whatever its table, has its id.
#[derive(Debug, Drop)]
pub struct Placed {
    pub id: u64,
    pub row: Row,
}

/// The rows of each table, with ids that rise, and the id that the next row gets in whichever table.
#[derive(Debug, Drop)]
pub struct State {
    pub tables: Seq<Seq<Placed>>,
    pub next: u64,
}

impl Exact for Row {
    fn same(&self, other: &Row) -> bool {
        self.values.same(&other.values)
    }

    fn twin(&self, alloc: Global) -> Result<Row, AllocError> {
        let values = self.values.twin(alloc)?;
        Ok(Row { values })
    }
}

impl Exact for Placed {
    fn same(&self, other: &Placed) -> bool {
        self.id == other.id && self.row.same(&other.row)
    }

    fn twin(&self, alloc: Global) -> Result<Placed, AllocError> {
        let row = self.row.twin(alloc)?;
        Ok(Placed { id: self.id, row })
    }
}

impl Exact for State {
    fn same(&self, other: &State) -> bool {
        self.next == other.next && self.tables.same(&other.tables)
    }

    fn twin(&self, alloc: Global) -> Result<State, AllocError> {
        let tables = self.tables.twin(alloc)?;
        Ok(State {
            tables,
            next: self.next,
        })
    }
}
