// Programs: named functions of statements and queries over a schema.
use crate::tables::{ColId, Kind};
use mig_base::{Seq, Txt};

/// A further table of a join: one equality of a column of an earlier table, left, and one of its own, right.
#[derive(Clone, Copy, Debug, PartialEq, Eq)]
pub struct Joined {
    pub table: u32,
    pub left: ColId,
    pub right: ColId,
}

/// A first table, and further tables that are joined to it one after the other.
#[derive(Debug, Drop)]
pub struct Join {
    pub first: u32,
    pub more: Seq<Joined>,
}

/// A single value: a parameter by its number, a literal, or a fresh key by its label.
#[derive(Debug, Drop)]
pub enum Scalar {
    Param(u32),
    Int(i64),
    Text(Txt),
    Fresh(u32),
}

/// A side of a comparison.
#[derive(Debug, Drop)]
pub enum Item {
    Col(ColId),
    Scalar(Scalar),
}

/// An operator of a comparison: `=`, `<>`, `<`, `<=`, `>`, `>=`.
#[derive(Clone, Copy, Debug, PartialEq, Eq, PartialOrd, Ord)]
pub enum Op {
    Eq,
    Ne,
    Lt,
    Le,
    Gt,
    Ge,
}

/// A comparison.
#[derive(Debug, Drop)]
pub struct Cmp {
    pub op: Op,
    pub left: Item,
    pub right: Item,
}

/// A condition: it holds where some case has only true comparisons. Without a `where` it is one empty case.
#[derive(Debug, Drop)]
pub struct Cond {
    pub cases: Seq<Seq<Cmp>>,
}

/// A value for a column, and for all columns of its class.
#[derive(Debug, Drop)]
pub struct Assign {
    pub column: ColId,
    pub value: Scalar,
}

/// A statement of an update.
#[derive(Debug, Drop)]
pub enum Stmt {
    Insert {
        join: Join,
        values: Seq<Assign>,
    },
    Delete {
        tables: Seq<u32>,
        join: Join,
        cond: Cond,
    },
    Set {
        column: ColId,
        value: Scalar,
        join: Join,
        cond: Cond,
    },
}

/// The selected columns of each join row that meets the condition.
#[derive(Debug, Drop)]
pub struct Query {
    pub columns: Seq<ColId>,
    pub join: Join,
    pub cond: Cond,
}

/// What a function does: statements in order, or one query.
#[derive(Debug, Drop)]
pub enum Body {
    Update(Seq<Stmt>),
    Query(Query),
}

/// A parameter of a function.
#[derive(Debug, Drop)]
pub struct Param {
    pub name: Txt,
    pub kind: Kind,
}

/// A stored transaction.
#[derive(Debug, Drop)]
pub struct Function {
    pub name: Txt,
    pub params: Seq<Param>,
    pub body: Body,
}

/// All functions, in order.
#[derive(Debug, Drop)]
pub struct Program {
    pub functions: Seq<Function>,
}
