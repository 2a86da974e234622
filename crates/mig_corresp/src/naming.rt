// The names of tables and columns.
ghost use Rattle.std.specs.Prelude.{◌≡◌};
ghost use Rattle.mig_schema.specs.Columns as spec;

use mig_schema::{ColId, Schema, columns_of};

/// The name of table t; the empty one where there is no such table.
pub fn table_name(schema: &Schema, t: u32) -> &[u8]
    ensures { result.now ≡ (spec.table_at schema.now t).name }
{
    match schema.tables.get(t as usize) {
        Some(table) => table.name.as_slice(),
        None => &[],
    }
}

/// The name of a column; the empty one where there is no such column.
pub fn column_name(schema: &Schema, column: ColId) -> &[u8]
    ensures { result.now ≡ (spec.column_at schema.now column).name }
{
    match columns_of(schema, column.table).get(column.column as usize) {
        Some(found) => found.name.as_slice(),
        None => &[],
    }
}
