// What a set makes of a state.
ghost use Rattle.std.specs.Prelude.{◌≡◌, ◌==◌, cond, map, IfOk};
ghost use Rattle.mig_meaning.specs.Effect as spec;

use crate::deleting::takes_part;
use crate::rows::JoinRow;
use crate::states::{Placed, Row, State};
use mig_base::{Exact, Seq};
use mig_schema::{ColId, Value};
use std::alloc::{AllocError, Global};

/// A copy of the new value or of the old one.
fn one_of(alloc: Global, is_new: bool, new: &Value, old: &Value) -> Result<Value, AllocError>
    ensures { IfOk result (λ v. v ≡ cond is_new new.now old.now) }
{
    if is_new {
        new.twin(alloc)
    } else {
        old.twin(alloc)
    }
}

/// A row with a value in a column.
fn with_value(alloc: Global, column: u32, value: &Value, row: &Placed) -> Result<Placed, AllocError>
    ensures { IfOk result (λ p. p ≡ spec.with_value column value.now row.now) }
{
    let before = row.row.values.as_slice();
    let mut values = Seq::new(alloc);
    for (n, old) in before.iter().enumerate() {
        values.push(one_of(alloc, n == column as usize, value, old)?)?;
    }
    Ok(Placed {
        id: row.id,
        row: Row { values },
    })
}

/// The rows of table t, each with a value in the column if it takes part in some of these join rows.
fn set_rows(
    alloc: Global,
    tables: &[u32],
    met: &[JoinRow],
    column: ColId,
    value: &Value,
    t: usize,
    rows: &[Placed],
) -> Result<Seq<Placed>, AllocError>
    ensures { IfOk result (λ r. r ≡ map (λ p. cond (spec.takes_part tables.now met.now t p) (spec.with_value column.column value.now p) p) rows.now) }
{
    let mut all = Seq::new(alloc);
    for row in rows {
        if takes_part(tables, met, t, row) {
            all.push(with_value(alloc, column.column, value, row)?)?;
        } else {
            all.push(row.twin(alloc)?)?;
        }
    }
    Ok(all)
}

/// The rows of table t, changed if it is the column's table.
fn set_table(
    alloc: Global,
    tables: &[u32],
    met: &[JoinRow],
    column: ColId,
    value: &Value,
    t: usize,
    rows: &Seq<Placed>,
) -> Result<Seq<Placed>, AllocError>
    ensures { IfOk result (λ r. r ≡ cond (t == column.table) (map (λ p. cond (spec.takes_part tables.now met.now t p) (spec.with_value column.column value.now p) p) rows.now) rows.now) }
{
    if t == column.table as usize {
        set_rows(alloc, tables, met, column, value, t, rows.as_slice())
    } else {
        rows.twin(alloc)
    }
}

/// The state with a value in the column of each row that takes part in these join rows.
pub(crate) fn with_set(
    alloc: Global,
    tables: &[u32],
    met: &[JoinRow],
    column: ColId,
    value: &Value,
    state: &State,
) -> Result<State, AllocError>
    ensures { IfOk result (λ s. s ≡ spec.with_set tables.now met.now column value.now state.now) }
{
    let before = state.tables.as_slice();
    let mut after = Seq::new(alloc);
    for (n, rows) in before.iter().enumerate() {
        after.push(set_table(alloc, tables, met, column, value, n, rows)?)?;
    }
    Ok(State {
        tables: after,
        next: state.next,
    })
}
