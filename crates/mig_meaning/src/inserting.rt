// What an insert makes of a state.
ghost use Rattle.std.specs.Prelude.{◌≡◌, ◌∷◌, ◌++◌, [], cond, IfOk};
ghost use Rattle.mig_meaning.specs.Effect as spec;
ghost use Rattle.mig_meaning.specs.Told.{given_told};

use crate::given::{Given, scalar_value};
use crate::states::{Placed, Row, State};
use mig_base::{Exact, Seq, number};
use mig_schema::{Assign, ColId, Joined, Schema, Value, columns_of, leader};
use std::alloc::{AllocError, Global};

/// The value that an insert gives to the class of a column; the int 0 where it gives none.
fn class_value(
    alloc: Global,
    given: &Given<'_>,
    joined: &[Joined],
    values: &[Assign],
    column: ColId,
) -> Result<Value, AllocError>
    ensures { IfOk result (λ v. v ≡ spec.class_value (given_told given.now) joined.now values.now column) }
{
    match values {
        [] => Ok(Value::Int(0)),
        [a, more @ ..] => if leader(joined, a.column) == leader(joined, column) {
            scalar_value(alloc, given, &a.value)
        } else {
            class_value(alloc, given, joined, more, column)
        },
    }
}

/// The values of the new row of table t, in the order of its columns. Want of memory is also told where the table has more than 2^32
/// columns.
pub fn new_values(
    alloc: Global,
    schema: &Schema,
    given: &Given<'_>,
    joined: &[Joined],
    values: &[Assign],
    t: u32,
) -> Result<Seq<Value>, AllocError>
    ensures { IfOk result (λ vs. vs ≡ spec.new_values schema.now (given_told given.now) joined.now values.now t) }
{
    let columns = columns_of(schema, t);
    let mut all = Seq::new(alloc);
    for n in 0..columns.len() {
        let column = ColId {
            table: t,
            column: number(n)?,
        };
        all.push(class_value(alloc, given, joined, values, column)?)?;
    }
    Ok(all)
}

/// The rows of a table, with a row behind them if it is to stand here.
fn with_last(
    alloc: Global,
    rows: &Seq<Placed>,
    here: bool,
    id: u64,
    values: &Seq<Value>,
) -> Result<Seq<Placed>, AllocError>
    ensures { IfOk result (λ r. r ≡ cond here (rows.now ++ record { id = id; row = record { values = values.now } } ∷ []) rows.now) }
{
    let mut all = rows.twin(alloc)?;
    if here {
        let values = values.twin(alloc)?;
        let row = Row { values };
        all.push(Placed { id, row })?;
    }
    Ok(all)
}

/// The state with a row at the end of table t, with the next id.
fn with_row(alloc: Global, state: &State, t: u32, values: &Seq<Value>) -> Result<State, AllocError>
    ensures { IfOk result (λ s. s ≡ spec.with_row state.now t values.now) }
{
    let Some(next) = state.next.checked_add(1) else {
        return Err(AllocError);
    };
    let before = state.tables.as_slice();
    let mut tables = Seq::new(alloc);
    for (n, rows) in before.iter().enumerate() {
        tables.push(with_last(alloc, rows, n == t as usize, state.next, values)?)?;
    }
    Ok(State { tables, next })
}

/// One new row in each of these tables, in order.
pub(crate) fn with_rows(
    alloc: Global,
    schema: &Schema,
    given: &Given<'_>,
    joined: &[Joined],
    values: &[Assign],
    tables: &[u32],
    state: &State,
) -> Result<State, AllocError>
    ensures { IfOk result (λ s. s ≡ spec.with_rows schema.now (given_told given.now) joined.now values.now tables.now state.now) }
{
    match tables {
        [] => state.twin(alloc),
        [t, more @ ..] => {
            let row = new_values(alloc, schema, given, joined, values, *t)?;
            let next = with_row(alloc, state, *t, &row)?;
            with_rows(alloc, schema, given, joined, values, more, &next)
        }
    }
}
