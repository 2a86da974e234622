// Variables that stand for rows, and the single values that expressions speak of.
use mig_base::{Exact, Txt};
use mig_schema::Side;
use std::alloc::{AllocError, Global};

/// A variable: it ranges over the rows that the table of this side has after `stage` statements of the side's function.
#[derive(Clone, Copy, Debug, PartialEq, Eq, PartialOrd, Ord)]
pub struct Var {
    pub side: Side,
    pub table: u32,
    pub stage: u32,
}

/// A single value.
#[derive(Debug, Drop)]
pub enum Atom {
    /// A number.
    Int(i64),
    /// A text.
    Text(Txt),
    /// The argument of this number, the same on both sides.
    Param(u32),
    /// The key of the call with this label, the same on both sides.
    Fresh(u32),
    /// What a variable's row has in a column. A variable's number is its place among those in scope: the term's own first, in order, then those of each body around it, from the outside in.
    Col { var: u32, column: u32 },
}

impl Exact for Var {
    fn same(&self, other: &Var) -> bool {
        *self == *other
    }

    fn twin(&self, _alloc: Global) -> Result<Var, AllocError> {
        Ok(*self)
    }
}

impl Exact for Atom {
    fn same(&self, other: &Atom) -> bool {
        match (self, other) {
            (Atom::Int(a), Atom::Int(b)) => *a == *b,
            (Atom::Text(a), Atom::Text(b)) => a.same(b),
            (Atom::Param(a), Atom::Param(b)) => *a == *b,
            (Atom::Fresh(a), Atom::Fresh(b)) => *a == *b,
            (
                Atom::Col { var, column },
                Atom::Col {
                    var: var2,
                    column: column2,
                },
            ) => *var == *var2 && *column == *column2,
            _ => false,
        }
    }

    fn twin(&self, alloc: Global) -> Result<Atom, AllocError> {
        match self {
            Atom::Int(a) => Ok(Atom::Int(*a)),
            Atom::Text(a) => Ok(Atom::Text(a.twin(alloc)?)),
            Atom::Param(a) => Ok(Atom::Param(*a)),
            Atom::Fresh(a) => Ok(Atom::Fresh(*a)),
            Atom::Col { var, column } => Ok(Atom::Col {
                var: *var,
                column: *column,
            }),
        }
    }
}
