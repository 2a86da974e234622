// Schemas: tables of named columns, and links between columns.
use mig_base::{Exact, Seq, Txt};
use std::alloc::{AllocError, Global};

/// The kind of a column or of a parameter. No parameter is of kind key.
#[derive(Clone, Copy, Debug, PartialEq, Eq, PartialOrd, Ord)]
pub enum Kind {
    Int,
    Text,
    Key,
}

/// A column, by the number of its table and by its own number in that table, both from 0.
#[derive(Clone, Copy, Debug, PartialEq, Eq, PartialOrd, Ord)]
pub struct ColId {
    pub table: u32,
    pub column: u32,
}

/// A column of a table.
#[derive(Debug, Drop)]
pub struct Column {
    pub name: Txt,
    pub kind: Kind,
}

/// A table, with its columns in the order in which they were declared.
#[derive(Debug, Drop)]
pub struct Table {
    pub name: Txt,
    pub columns: Seq<Column>,
}

/// Two columns by which tables may be joined.
#[derive(Clone, Copy, Debug, PartialEq, Eq)]
pub struct Link {
    pub left: ColId,
    pub right: ColId,
}

/// Tables and links, in the order in which they were declared.
#[derive(Debug, Drop)]
pub struct Schema {
    pub tables: Seq<Table>,
    pub links: Seq<Link>,
}

impl Exact for Kind {
    fn same(&self, other: &Kind) -> bool {
        *self == *other
    }

    fn twin(&self, _alloc: Global) -> Result<Kind, AllocError> {
        Ok(*self)
    }
}

impl Exact for ColId {
    fn same(&self, other: &ColId) -> bool {
        *self == *other
    }

    fn twin(&self, _alloc: Global) -> Result<ColId, AllocError> {
        Ok(*self)
    }
}

impl Exact for Column {
    fn same(&self, other: &Column) -> bool {
        self.name.same(&other.name) && self.kind == other.kind
    }

    fn twin(&self, alloc: Global) -> Result<Column, AllocError> {
        Ok(Column {
            name: self.name.twin(alloc)?,
            kind: self.kind,
        })
    }
}

impl Exact for Table {
    fn same(&self, other: &Table) -> bool {
        self.name.same(&other.name) && self.columns.same(&other.columns)
    }

    fn twin(&self, alloc: Global) -> Result<Table, AllocError> {
        let name = self.name.twin(alloc)?;
        let columns = self.columns.twin(alloc)?;
        Ok(Table { name, columns })
    }
}

impl Exact for Link {
    fn same(&self, other: &Link) -> bool {
        *self == *other
    }

    fn twin(&self, _alloc: Global) -> Result<Link, AllocError> {
        Ok(*self)
    }
}

impl Exact for Schema {
    fn same(&self, other: &Schema) -> bool {
        self.tables.same(&other.tables) && self.links.same(&other.links)
    }

    fn twin(&self, alloc: Global) -> Result<Schema, AllocError> {
        let tables = self.tables.twin(alloc)?;
        let links = self.links.twin(alloc)?;
        Ok(Schema { tables, links })
    }
}
