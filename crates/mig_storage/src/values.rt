// Values that are compared, and rows that are copied and changed.
ghost use Rattle.std.specs.Prelude.{◌≡◌, ◌==◌, cond, slice_index_or, slice_set, IfOk};
ghost use Rattle.mig_schema.specs.declared.values.Value.{Value as PlainValue};
ghost use Rattle.mig_base.specs.Lists.{numbered};
ghost use Rattle.mig_meaning.specs.Values as spec;

use mig_base::{Exact, Seq};
use mig_meaning::{Row, value_eq};
use mig_schema::Value;
use std::alloc::{AllocError, Global};

/// Whether a row has the value in a column. A column past its end counts as the int 0.
#[tactic(auto, using(std::proofs::lemmas::Grind::common_steps, std::proofs::lemmas::Option::gets))]
pub(crate) fn has_value(row: &Row, column: u32, value: &Value) -> bool
    ensures { result ≡ spec.value_eq (slice_index_or row.now.values column spec.no_value) value.now }
{
    match row.values.get(column as usize) {
        Some(found) => value_eq(found, value),
        None => value_eq(&Value::Int(0), value),
    }
}

/// Writes a value over the one of this number, if there is one.
fn put_value(values: &mut Vec<Value>, at: usize, value: Value)
    ensures { values.new.items ≡ slice_set values.old.items at value }
{
    if at < values.len() {
        values[at] = value;
    }
}

/// A copy of the row with a value in a column. Its only error is want of memory.
pub(crate) fn with_value(
    alloc: Global,
    row: &Row,
    column: u32,
    value: Value,
) -> Result<Row, AllocError>
    ensures { IfOk result (λ r. r.values ≡ numbered (λ n (x : PlainValue). cond (n == column) value x) 0 row.now.values) }
{
    let mut values = row.values.twin(alloc)?.into_vec();
    put_value(&mut values, column as usize, value);
    Ok(Row {
        values: Seq::from_vec(values),
    })
}
