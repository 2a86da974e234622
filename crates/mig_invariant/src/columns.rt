// The columns of a schema by their numbers, in order.
ghost use Rattle.std.specs.Prelude.{◌≡◌, ◌++◌, IfOk, OnOk};
ghost use Rattle.mig_schema.specs.Columns as columns;
ghost use Rattle.mig_schema.specs.Joins as joins;
ghost use Rattle.mig_invariant.specs.Columns as spec;

use mig_base::{Seq, number};
use mig_schema::{ColId, Kind, Schema, columns_of, kind_of, same_kind};
use std::alloc::{AllocError, Global};

/// Adds the columns of table t.
fn add_columns(schema: &Schema, t: u32, list: &mut Seq<ColId>) -> Result<(), AllocError>
    ensures { OnOk result (list.new ≡ list.old ++ columns.columns_in schema.now t) }
{
    for (n, _) in columns_of(schema, t).iter().enumerate() {
        let column = number(n)?;
        list.push(ColId { table: t, column })?;
    }
    Ok(())
}

/// All columns of the schema, table by table, each table's in the order in which they were declared.
///
/// `AllocError` comes only where memory is wanting, as which a schema of 2^32 tables, or a table of 2^32 columns, counts.
pub fn all_columns(alloc: Global, schema: &Schema) -> Result<Seq<ColId>, AllocError>
    ensures { IfOk result (λ list. list ≡ spec.all_columns schema.now) }
{
    let mut list = Seq::new(alloc);
    for t in 0..schema.tables.len() {
        add_columns(schema, number(t)?, &mut list)?;
    }
    Ok(list)
}

/// Whether the table is among these.
pub fn is_among(t: u32, tables: &[u32]) -> bool
    ensures { result ≡ joins.is_among t tables.now }
{
    tables.iter().any(|u| *u == t)
}

/// Those of the columns whose table is among these, in order.
pub fn columns_within(
    alloc: Global,
    columns: &[ColId],
    tables: &[u32],
) -> Result<Seq<ColId>, AllocError>
    ensures { IfOk result (λ list. list ≡ spec.columns_within columns.now tables.now) }
{
    let mut list = Seq::new(alloc);
    for c in columns {
        if is_among(c.table, tables) {
            list.push(*c)?;
        }
    }
    Ok(list)
}

/// Whether the column is of kind key. A column that is not there is not.
pub fn is_key(schema: &Schema, column: ColId) -> bool
    ensures { result ≡ spec.is_key schema.now column }
{
    same_kind(kind_of(schema, column), Kind::Key)
}
