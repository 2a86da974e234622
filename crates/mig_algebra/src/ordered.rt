// Values that stand in an order, and the order of lists of them.
ghost use Rattle.std.specs.Prelude.{◌≡◌};
ghost use Rattle.std.specs.Cmp.Lexicographic.{slice_cmp};

use std::cmp::Ordering;

/// A type whose values stand in an order.
pub(crate) trait Ordered: Drop {
    ghost use Rattle.std.specs.declared.cmp.Ordering.{Ordering};

    ghost order: { Self → Self → Ordering };

    /// How two values stand. It takes no memory.
    fn compare(&self, other: &Self) -> Ordering
        ensures { result ≡ order self.now other.now };
}

/// How two lists stand: as their first items that differ do, else the shorter first.
pub(crate) fn list_order<T: Ordered>(left: &[T], right: &[T]) -> Ordering
    ensures { result ≡ slice_cmp T.order left.now right.now }
{
    for i in 0..left.len().min(right.len()) {
        match left[i].compare(&right[i]) {
            Ordering::Equal => {}
            order => return order,
        }
    }
    left.len().cmp(&right.len())
}
