// Tables, columns and kinds by their numbers.
ghost use Rattle.std.specs.Prelude.{◌≡◌};
ghost use Rattle.mig_schema.specs.Columns as spec;

use crate::tables::{ColId, Column, Kind, Schema};

/// The columns of table t; none where there is no such table.
#[tactic(auto, using(std::proofs::lemmas::Grind::common_steps, std::proofs::lemmas::Option::gets))]
pub fn columns_of(schema: &Schema, t: u32) -> &[Column]
    ensures { result.now ≡ spec.columns_of schema.now t }
{
    match schema.tables.get(t as usize) {
        Some(table) => table.columns.as_slice(),
        None => &[],
    }
}

/// Whether the schema has a table of this number.
pub fn has_table(schema: &Schema, t: u32) -> bool
    ensures { result ≡ spec.has_table schema.now t }
{
    (t as usize) < schema.tables.len()
}

/// Whether the schema has a column of these numbers.
pub fn has_column(schema: &Schema, id: ColId) -> bool
    ensures { result ≡ spec.has_column schema.now id }
{
    has_table(schema, id.table) && (id.column as usize) < columns_of(schema, id.table).len()
}

/// The kind of a column; int where there is none.
#[tactic(auto, using(std::proofs::lemmas::Grind::common_steps, std::proofs::lemmas::Option::gets))]
pub fn kind_of(schema: &Schema, id: ColId) -> Kind
    ensures { result ≡ spec.kind_of schema.now id }
{
    match columns_of(schema, id.table).get(id.column as usize) {
        Some(column) => column.kind,
        None => Kind::Int,
    }
}

/// Whether two columns are one.
pub fn same_col(left: ColId, right: ColId) -> bool
    ensures { result ≡ spec.same_col left right }
{
    left.table == right.table && left.column == right.column
}

/// Whether two kinds are one.
pub fn same_kind(left: Kind, right: Kind) -> bool
    ensures { result ≡ spec.same_kind left right }
{
    left == right
}
