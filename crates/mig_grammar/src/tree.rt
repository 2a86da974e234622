// What a text says, with its names and numbers as they are written.
use mig_base::{Seq, Txt};
use mig_schema::{Op, Param, Table};

/// A column, by the names of its table and of itself.
#[derive(Debug, Drop)]
pub struct ColName {
    pub table: Txt,
    pub column: Txt,
}

/// A link between two columns.
#[derive(Debug, Drop)]
pub struct LinkTree {
    pub left: ColName,
    pub right: ColName,
}

/// A schema.
#[derive(Debug, Drop)]
pub struct SchemaTree {
    pub tables: Seq<Table>,
    pub links: Seq<LinkTree>,
}

/// A single value: the name of a parameter, an optional minus sign and digits, or the bytes of a text.
#[derive(Debug, Drop)]
pub enum ScalarTree {
    Name(Txt),
    Int(Txt),
    Text(Txt),
}

/// A value for a column. A fresh key has its label as an optional minus sign and digits.
#[derive(Debug, Drop)]
pub enum ValueTree {
    Scalar(ScalarTree),
    Fresh(Txt),
}

/// A side of a comparison.
#[derive(Debug, Drop)]
pub enum ItemTree {
    Col(ColName),
    Scalar(ScalarTree),
}

/// A comparison.
#[derive(Debug, Drop)]
pub struct CmpTree {
    pub left: ItemTree,
    pub op: Op,
    pub right: ItemTree,
}

/// A further table of a join.
#[derive(Debug, Drop)]
pub struct JoinedTree {
    pub table: Txt,
    pub left: ColName,
    pub right: ColName,
}

/// A first table, and those joined to it.
#[derive(Debug, Drop)]
pub struct JoinTree {
    pub first: Txt,
    pub more: Seq<JoinedTree>,
}

/// The rows that are worked on: a join, and the cases of its `where`; no case where there is no `where`.
#[derive(Debug, Drop)]
pub struct RowsTree {
    pub join: JoinTree,
    pub cases: Seq<Seq<CmpTree>>,
}

/// A column and its value.
#[derive(Debug, Drop)]
pub struct AssignTree {
    pub column: ColName,
    pub value: ValueTree,
}

/// A statement of an update.
#[derive(Debug, Drop)]
pub enum StmtTree {
    Insert {
        join: JoinTree,
        values: Seq<AssignTree>,
    },
    Delete {
        tables: Seq<Txt>,
        rows: RowsTree,
    },
    Set {
        column: ColName,
        value: ScalarTree,
        rows: RowsTree,
    },
}

/// Columns that are selected, and the rows that they are selected from.
#[derive(Debug, Drop)]
pub struct SelectTree {
    pub columns: Seq<ColName>,
    pub rows: RowsTree,
}

/// The statements of an update, or a query.
#[derive(Debug, Drop)]
pub enum BodyTree {
    Update(Seq<StmtTree>),
    Query(SelectTree),
}

/// A function.
#[derive(Debug, Drop)]
pub struct FunctionTree {
    pub name: Txt,
    pub params: Seq<Param>,
    pub body: BodyTree,
}

/// A hint, with its weight as an optional minus sign and digits.
#[derive(Debug, Drop)]
pub struct HintTree {
    pub source: ColName,
    pub target: ColName,
    pub weight: Txt,
}

/// A whole job. Its hints are `None` where the word `hints` is left out.
#[derive(Debug, Drop)]
pub struct JobTree {
    pub source: SchemaTree,
    pub target: SchemaTree,
    pub functions: Seq<FunctionTree>,
    pub hints: Option<Seq<HintTree>>,
}

/// The grammar of jobs, whose items stand in lists.
pub(crate) enum Jobs {}
