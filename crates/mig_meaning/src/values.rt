// Equality, order and kinds of values.
ghost use Rattle.std.specs.Prelude.{◌≡◌};
ghost use Rattle.mig_meaning.specs.Values as spec;

use mig_base::Exact;
use mig_schema::{Op, Value};

/// Whether two values are one. Values of different kinds differ.
pub fn value_eq(left: &Value, right: &Value) -> bool
    ensures { result ≡ spec.value_eq left.now right.now }
{
    left.same(right)
}

/// Whether an int is at most another; true of other values.
fn value_le(left: &Value, right: &Value) -> bool
    ensures { result ≡ spec.value_le left.now right.now }
{
    match (left, right) {
        (Value::Int(a), Value::Int(b)) => *a <= *b,
        _ => true,
    }
}

/// Whether an operator is true of two values.
pub(crate) fn compares(op: Op, left: &Value, right: &Value) -> bool
    ensures { result ≡ spec.compares op left.now right.now }
{
    match op {
        Op::Eq => value_eq(left, right),
        Op::Ne => !value_eq(left, right),
        Op::Lt => !value_le(right, left),
        Op::Le => value_le(left, right),
        Op::Gt => !value_le(left, right),
        Op::Ge => value_le(right, left),
    }
}
