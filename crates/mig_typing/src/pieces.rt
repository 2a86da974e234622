// What the rules look at in a statement or a query.
ghost use Rattle.std.specs.Prelude.{◌≡◌};
ghost use Rattle.mig_schema.specs.Typed as typing;
ghost use Rattle.mig_typing.specs.Seen.{seen};

use mig_base::Seq;
use mig_schema::{Assign, Cmp, ColId, Join, Query, Scalar, Stmt};

/// The values that a statement writes: those of an insert, or the one of a set.
#[derive(Clone, Copy)]
pub(crate) enum Written<'a> {
    Values(&'a [Assign]),
    Set(ColId, &'a Scalar),
}

/// A statement or a query: its join, the tables that a delete lists, the columns that a query selects, the values that
/// are written, the cases of its condition, and whether it is an insert.
#[derive(Clone, Copy)]
pub(crate) struct Piece<'a> {
    pub(crate) join: &'a Join,
    pub(crate) listed: &'a [u32],
    pub(crate) selected: &'a [ColId],
    pub(crate) written: Written<'a>,
    pub(crate) cases: &'a [Seq<Cmp>],
    pub(crate) inserts: bool,
}

/// A statement as a piece.
pub(crate) fn piece_of(stmt: &Stmt) -> Piece
    ensures { seen result ≡ typing.piece_of stmt.now }
{
    match stmt {
        Stmt::Insert { join, values } => Piece {
            join,
            listed: &[],
            selected: &[],
            written: Written::Values(values.as_slice()),
            cases: &[],
            inserts: true,
        },
        Stmt::Delete { tables, join, cond } => Piece {
            join,
            listed: tables.as_slice(),
            selected: &[],
            written: Written::Values(&[]),
            cases: cond.cases.as_slice(),
            inserts: false,
        },
        Stmt::Set {
            column,
            value,
            join,
            cond,
        } => Piece {
            join,
            listed: &[],
            selected: &[],
            written: Written::Set(*column, value),
            cases: cond.cases.as_slice(),
            inserts: false,
        },
    }
}

/// A query as a piece.
pub(crate) fn query_piece(query: &Query) -> Piece
    ensures { seen result ≡ typing.query_piece query.now }
{
    Piece {
        join: &query.join,
        listed: &[],
        selected: query.columns.as_slice(),
        written: Written::Values(&[]),
        cases: query.cond.cases.as_slice(),
        inserts: false,
    }
}
