// The rules for statements and queries, one test each.
ghost use Rattle.std.specs.Prelude.{◌≡◌, ◌==◌, ◌||◌, ◌&&◌, [], not};
ghost use Rattle.std.specs.List.{list_any, count_by, range_with_len};
ghost use Rattle.mig_schema.specs.Columns.{columns_in, has_table as spec_has_table};
ghost use Rattle.mig_schema.specs.Joins as joins;
ghost use Rattle.mig_schema.specs.Joins.{is_among, tables_of};
ghost use Rattle.mig_schema.specs.Typed as typing;
ghost use Rattle.mig_typing.specs.Broken.{piece_broken};
ghost use Rattle.mig_typing.specs.Seen.{seen};

use crate::compared::{
    KindsDiffer, NoParam, OrdersOthers, any_cmp, written_differs, written_names_none,
};
use crate::joins::is_in_class;
use crate::named::{NoColumn, NoTable, NotIn, any_named, any_used};
use crate::pieces::{Piece, Written};
use mig_schema::{
    Assign, Function, Join, Joined, ProgramRule, Schema, all_join_on, columns_of, has_table,
    is_in_join, joins_twice,
};

/// Whether one of these tables is not in the schema.
fn any_unknown(schema: &Schema, tables: &[u32]) -> bool
    ensures { result ≡ list_any (λ t. not (spec_has_table schema.now t)) tables.now }
{
    tables.iter().any(|t| !has_table(schema, *t))
}

/// Whether a joined table is not in the schema.
fn any_joined_unknown(schema: &Schema, joined: &[Joined]) -> bool
    ensures { result ≡ list_any (λ m. not (spec_has_table schema.now m.table)) joined.now }
{
    joined.iter().any(|m| !has_table(schema, m.table))
}

/// Whether a named table is not in the schema.
fn unknown_table(schema: &Schema, piece: &Piece) -> bool
    ensures { result ≡ typing.unknown_table schema.now (seen piece.now) }
{
    !has_table(schema, piece.join.first)
        || any_joined_unknown(schema, piece.join.more.as_slice())
        || any_unknown(schema, piece.listed)
        || any_named(&NoTable { schema }, piece)
}

/// Whether a named column is not in its table.
fn unknown_column(schema: &Schema, piece: &Piece) -> bool
    ensures { result ≡ typing.unknown_column schema.now (seen piece.now) }
{
    any_named(&NoColumn { schema }, piece)
}

/// Whether a table is one of these.
fn is_listed(tables: &[u32], t: u32) -> bool
    ensures { result ≡ is_among t tables.now }
{
    tables.iter().any(|u| *u == t)
}

/// Whether a number stands twice in a list.
fn stands_twice(tables: &[u32]) -> bool
    ensures { result ≡ typing.stands_twice tables.now }
{
    match tables {
        [] => false,
        [t, rest @ ..] => is_listed(rest, *t) || stands_twice(rest),
    }
}

/// Whether a table stands twice in the join, or in the list of a delete.
fn joined_twice(piece: &Piece) -> bool
    ensures { result ≡ typing.joined_twice (seen piece.now) }
{
    joins_twice(piece.join) || stands_twice(piece.listed)
}

/// Whether an equality of the join has not a column of an earlier table left and one of the joined table right, of one kind.
fn on_shape(schema: &Schema, piece: &Piece) -> bool
    ensures { result ≡ typing.on_shape schema.now (seen piece.now) }
{
    !all_join_on(schema, piece.join.first, piece.join.more.as_slice())
}

/// Whether a scalar names no parameter.
fn unknown_parameter(function: &Function, piece: &Piece) -> bool
    ensures { result ≡ typing.unknown_parameter function.now (seen piece.now) }
{
    written_names_none(function, piece.written) || any_cmp(&NoParam { function }, piece.cases)
}

/// Whether one of these tables is not in the join.
fn any_not_joined(join: &Join, tables: &[u32]) -> bool
    ensures { result ≡ list_any (λ t. not (is_among t (tables_of join.now))) tables.now }
{
    tables.iter().any(|t| !is_in_join(join, *t))
}

/// Whether the table of a used column, or a deleted table, is not in the join.
fn not_joined(piece: &Piece) -> bool
    ensures { result ≡ typing.not_joined (seen piece.now) }
{
    any_not_joined(piece.join, piece.listed) || any_used(&NotIn { join: piece.join }, piece)
}

/// Whether the sides of a comparison, a value or a set have different kinds.
fn kind_differs(schema: &Schema, function: &Function, piece: &Piece) -> bool
    ensures { result ≡ typing.kind_differs schema.now function.now (seen piece.now) }
{
    written_differs(schema, function, piece.written)
        || any_cmp(&KindsDiffer { schema, function }, piece.cases)
}

/// Whether an order compares texts or keys.
fn order_kind(schema: &Schema, function: &Function, piece: &Piece) -> bool
    ensures { result ≡ typing.order_kind schema.now function.now (seen piece.now) }
{
    any_cmp(&OrdersOthers { schema, function }, piece.cases)
}

/// How many of these values are for the class of column k of table t.
fn count_values(join: &Join, values: &[Assign], t: u32, k: usize) -> usize
    ensures { result ≡ count_by (λ a. joins.in_one_class join.now a.column (record { table = t; column = k })) values.now }
{
    values
        .iter()
        .filter(|a| is_in_class(join, a.column, t, k))
        .count()
}

/// How many of the written values are.
fn values_for(piece: &Piece, t: u32, k: usize) -> usize
    ensures { result ≡ typing.values_for (seen piece.now) (record { table = t; column = k }) }
{
    match piece.written {
        Written::Values(values) => count_values(piece.join, values, t, k),
        Written::Set(column, _) => usize::from(is_in_class(piece.join, column, t, k)),
    }
}

/// Whether one of the first columns of table t has no value, or more than one.
fn any_uncovered(piece: &Piece, t: u32, columns: usize) -> bool
    ensures { result ≡ list_any (λ k. not (typing.values_for (seen piece.now) (record { table = t; column = k }) == 1)) (range_with_len 0 columns) }
{
    (0..columns).any(|k| values_for(piece, t, k) != 1)
}

/// Whether a column of table t has no value, or more than one.
fn is_uncovered(schema: &Schema, piece: &Piece, t: u32) -> bool
    ensures { result ≡ list_any (λ c. not (typing.values_for (seen piece.now) c == 1)) (columns_in schema.now t) }
{
    any_uncovered(piece, t, columns_of(schema, t).len())
}

/// Whether a column of the joined tables has no value, or more than one.
fn any_joined_uncovered(schema: &Schema, piece: &Piece, joined: &[Joined]) -> bool
    ensures { result ≡ list_any (λ m. list_any (λ c. not (typing.values_for (seen piece.now) c == 1)) (columns_in schema.now m.table)) joined.now }
{
    joined.iter().any(|m| is_uncovered(schema, piece, m.table))
}

/// Whether a class of the columns that an insert joins has no value, or more than one.
fn insert_cover(schema: &Schema, piece: &Piece) -> bool
    ensures { result ≡ typing.insert_cover schema.now (seen piece.now) }
{
    piece.inserts
        && (is_uncovered(schema, piece, piece.join.first)
            || any_joined_uncovered(schema, piece, piece.join.more.as_slice()))
}

/// Whether a statement or a query of a function breaks a rule.
pub(crate) fn breaks(schema: &Schema, function: &Function, rule: ProgramRule, piece: &Piece) -> bool
    ensures { result ≡ piece_broken schema.now function.now rule (seen piece.now) }
{
    match rule {
        ProgramRule::FunctionTwice | ProgramRule::ParameterTwice => false,
        ProgramRule::UnknownTable => unknown_table(schema, piece),
        ProgramRule::UnknownColumn => unknown_column(schema, piece),
        ProgramRule::JoinedTwice => joined_twice(piece),
        ProgramRule::OnShape => on_shape(schema, piece),
        ProgramRule::UnknownParameter => unknown_parameter(function, piece),
        ProgramRule::NotJoined => not_joined(piece),
        ProgramRule::KindDiffers => kind_differs(schema, function, piece),
        ProgramRule::OrderKind => order_kind(schema, function, piece),
        ProgramRule::InsertCover => insert_cover(schema, piece),
    }
}
