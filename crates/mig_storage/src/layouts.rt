// The layout of a schema.
ghost use Rattle.std.specs.Prelude.{◌≡◌, map, IfOk};
ghost use Rattle.mig_schema.specs.declared.tables.Column.{Column as SchemaColumn};
ghost use Rattle.mig_storage.specs.Layout as spec;

use mig_base::Seq;
use mig_schema::{Column, Kind, Schema};
use std::alloc::{AllocError, Global};

/// The kinds of these columns.
fn kinds_of(alloc: Global, columns: &[Column]) -> Result<Seq<Kind>, AllocError>
    ensures { IfOk result (λ ks. ks ≡ map (λ (c : SchemaColumn). c.kind) columns.now) }
{
    let mut kinds = Seq::new(alloc);
    for column in columns {
        kinds.push(column.kind)?;
    }
    Ok(kinds)
}

/// The kinds of the columns of each table of the schema.
pub(crate) fn layout_of(alloc: Global, schema: &Schema) -> Result<Seq<Seq<Kind>>, AllocError>
    ensures { IfOk result (λ l. l ≡ spec.layout_of schema.now) }
{
    let mut layout = Seq::new(alloc);
    for table in schema.tables.as_slice() {
        layout.push(kinds_of(alloc, table.columns.as_slice())?)?;
    }
    Ok(layout)
}
