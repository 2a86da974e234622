// The columns and tables that a piece names, tested one by one.
ghost use Rattle.std.specs.Prelude.{◌≡◌, ◌||◌, not};
ghost use Rattle.std.specs.List.{list_any, flat_map};
ghost use Rattle.mig_schema.specs.Columns.{has_table as spec_has_table, has_column as spec_has_column};
ghost use Rattle.mig_schema.specs.Joins.{tables_of, is_among};
ghost use Rattle.mig_schema.specs.Typed as typing;
ghost use Rattle.mig_typing.specs.Seen.{seen, assigns};

use crate::pieces::{Piece, Written};
use mig_base::Seq;
use mig_schema::{
    Assign, Cmp, ColId, Item, Join, Joined, Schema, has_column, has_table, is_in_join,
};

/// What may be wrong with a column.
pub(crate) trait ColumnTest {
    ghost use Rattle.std.specs.Prelude.{Bool};
    ghost use Rattle.mig_schema.specs.declared.tables.ColId.{ColId};

    ghost wrong: { Self → ColId → Bool };

    /// Whether it is.
    fn is_wrong(&self, column: ColId) -> bool
        ensures { result ≡ wrong self.now column };
}

/// Its table is not in the schema.
#[derive(Clone, Copy)]
pub(crate) struct NoTable<'a> {
    pub(crate) schema: &'a Schema,
}

impl ColumnTest for NoTable<'_> {
    ghost wrong = { λ test c. not (spec_has_table test.schema.now c.table) };

    fn is_wrong(&self, column: ColId) -> bool {
        !has_table(self.schema, column.table)
    }
}

/// It is not in the schema.
#[derive(Clone, Copy)]
pub(crate) struct NoColumn<'a> {
    pub(crate) schema: &'a Schema,
}

impl ColumnTest for NoColumn<'_> {
    ghost wrong = { λ test c. not (spec_has_column test.schema.now c) };

    fn is_wrong(&self, column: ColId) -> bool {
        !has_column(self.schema, column)
    }
}

/// Its table is not in the join.
#[derive(Clone, Copy)]
pub(crate) struct NotIn<'a> {
    pub(crate) join: &'a Join,
}

impl ColumnTest for NotIn<'_> {
    ghost wrong = { λ test c. not (is_among c.table (tables_of test.join.now)) };

    fn is_wrong(&self, column: ColId) -> bool {
        !is_in_join(self.join, column.table)
    }
}

/// Whether a selected column is wrong.
fn any_selected<T: ColumnTest>(test: &T, columns: &[ColId]) -> bool
    ensures { result ≡ list_any (T.wrong test.now) columns.now }
{
    columns.iter().any(|c| test.is_wrong(*c))
}

/// Whether the column of a value is wrong.
fn any_assigned<T: ColumnTest>(test: &T, values: &[Assign]) -> bool
    ensures { result ≡ list_any (λ a. T.wrong test.now a.column) values.now }
{
    values.iter().any(|a| test.is_wrong(a.column))
}

/// Whether a written column is wrong.
fn any_written<T: ColumnTest>(test: &T, written: Written) -> bool
    ensures { result ≡ list_any (λ a. T.wrong test.now a.column) (assigns written.entry) }
{
    match written {
        Written::Values(values) => any_assigned(test, values),
        Written::Set(column, _) => test.is_wrong(column),
    }
}

/// Whether a side of a comparison is a wrong column.
fn side_is_wrong<T: ColumnTest>(test: &T, item: &Item) -> bool
    ensures { result ≡ list_any (T.wrong test.now) (typing.item_columns item.now) }
{
    match item {
        Item::Col(column) => test.is_wrong(*column),
        Item::Scalar(_) => false,
    }
}

/// Whether a comparison of a case has a wrong column.
fn any_in_case<T: ColumnTest>(test: &T, case: &[Cmp]) -> bool
    ensures { result ≡ list_any (λ c. list_any (T.wrong test.now) (typing.item_columns c.left) || list_any (T.wrong test.now) (typing.item_columns c.right)) case.now }
{
    case.iter().any(|c| side_is_wrong(test, &c.left) || side_is_wrong(test, &c.right))
}

/// Whether a comparison of a condition has a wrong column.
fn any_compared<T: ColumnTest>(test: &T, cases: &[Seq<Cmp>]) -> bool
    ensures { result ≡ list_any (λ case. list_any (λ c. list_any (T.wrong test.now) (typing.item_columns c.left) || list_any (T.wrong test.now) (typing.item_columns c.right)) case) cases.now }
{
    cases.iter().any(|case| any_in_case(test, case.as_slice()))
}

/// Whether a used column is wrong.
pub(crate) fn any_used<T: ColumnTest>(test: &T, piece: &Piece) -> bool
    ensures { result ≡ list_any (T.wrong test.now) (typing.used_columns (seen piece.now)) }
{
    any_selected(test, piece.selected)
        || any_written(test, piece.written)
        || any_compared(test, piece.cases)
}

/// Whether a column of an equality is wrong.
fn any_equated<T: ColumnTest>(test: &T, joined: &[Joined]) -> bool
    ensures { result ≡ list_any (λ m. T.wrong test.now m.left || T.wrong test.now m.right) joined.now }
{
    joined
        .iter()
        .any(|m| test.is_wrong(m.left) || test.is_wrong(m.right))
}

/// Whether a named column is wrong.
pub(crate) fn any_named<T: ColumnTest>(test: &T, piece: &Piece) -> bool
    ensures { result ≡ list_any (T.wrong test.now) (typing.named_columns (seen piece.now)) }
{
    any_equated(test, piece.join.more.as_slice()) || any_used(test, piece)
}
