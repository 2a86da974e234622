// The order of rows.
ghost use Rattle.std.specs.Prelude.{◌≡◌};
ghost use Rattle.mig_store.specs.Order as spec;

use mig_calls::value_order;
use mig_schema::Value;
use std::cmp::Ordering;

/// How two rows stand: as their first values that differ do, else the shorter first.
pub(crate) fn row_order(left: &[Value], right: &[Value]) -> Ordering
    ensures { result ≡ spec.row_order left.now right.now }
{
    for i in 0..left.len().min(right.len()) {
        match value_order(&left[i], &right[i]) {
            Ordering::Equal => {}
            order => return order,
        }
    }
    left.len().cmp(&right.len())
}
