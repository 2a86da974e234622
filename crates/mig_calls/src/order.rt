// The order of values.
ghost use Rattle.std.specs.Prelude.{◌≡◌};
ghost use Rattle.mig_calls.specs.Order as spec;

use mig_schema::Value;
use std::cmp::Ordering;

/// How two values stand: ints by value, texts by bytes, keys by number. Ints come before texts, and texts before keys.
pub fn value_order(left: &Value, right: &Value) -> Ordering
    ensures { result ≡ spec.value_order left.now right.now }
{
    match (left, right) {
        (Value::Int(i), Value::Int(j)) => i.cmp(j),
        (Value::Text(t), Value::Text(u)) => t.as_slice().cmp(u.as_slice()),
        (Value::Key(k), Value::Key(l)) => k.cmp(l),
        (Value::Int(_), _) => Ordering::Less,
        (Value::Text(_), Value::Key(_)) => Ordering::Less,
        _ => Ordering::Greater,
    }
}
