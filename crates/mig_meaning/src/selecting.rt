// What a query selects of join rows.
ghost use Rattle.std.specs.Prelude.{◌≡◌, map, IfOk};
ghost use Rattle.mig_meaning.specs.Rows as rows;
ghost use Rattle.mig_meaning.specs.Told.{rows_told};

use crate::calling::Answer;
use crate::rows::{JoinRow, column_in};
use crate::states::{Placed, Row};
use mig_base::Seq;
use mig_schema::ColId;
use std::alloc::{AllocError, Global};

/// The values of these columns in a join row.
fn selected(
    alloc: Global,
    tables: &[u32],
    row: &[Placed],
    columns: &[ColId],
) -> Result<Row, AllocError>
    ensures { IfOk result (λ r. r.values ≡ map (rows.column_in tables.now row.now) columns.now) }
{
    let mut values = Seq::new(alloc);
    for column in columns {
        values.push(column_in(alloc, tables, row, *column)?)?;
    }
    Ok(Row { values })
}

/// The values of the selected columns in each of these join rows of these tables, in order.
pub fn all_selected(
    alloc: Global,
    tables: &[u32],
    met: &[JoinRow],
    columns: &[ColId],
) -> Result<Answer, AllocError>
    ensures { IfOk result (λ a. rows_told a.rows ≡ map (λ e. map (rows.column_in tables.now e) columns.now) met.now) }
{
    let mut rows = Seq::new(alloc);
    for row in met {
        rows.push(selected(alloc, tables, row.as_slice(), columns)?)?;
    }
    Ok(Answer { rows })
}
