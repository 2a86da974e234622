// The first item that an earlier one is like.
ghost use Rattle.std.specs.Prelude.{◌≡◌, [], ◌∷◌, Bool};
ghost use Rattle.std.specs.List.{list_any};
ghost use Rattle.std.specs.Str.{bytes_eq};
ghost use Rattle.mig_schema.specs.Columns.{same_col as spec_same_col};
ghost use Rattle.mig_base.specs.Lists.{again};
ghost use Rattle.mig_typing.specs.First.{IsFirst};

use mig_base::same_text;
use mig_schema::{Column, Function, Hint, Param, Table, same_col};

/// Items of which two may be alike.
pub(crate) trait Alike {
    ghost use Rattle.std.specs.Prelude.{Bool};

    ghost like: { Self → Self → Bool };

    /// Whether the two are alike.
    fn is_like(&self, other: &Self) -> bool
        ensures { result ≡ like self.now other.now };
}

impl Alike for Table {
    ghost like = { λ a b. bytes_eq a.name b.name };

    fn is_like(&self, other: &Table) -> bool {
        same_text(&self.name, &other.name)
    }
}

impl Alike for Column {
    ghost like = { λ a b. bytes_eq a.name b.name };

    fn is_like(&self, other: &Column) -> bool {
        same_text(&self.name, &other.name)
    }
}

impl Alike for Param {
    ghost like = { λ a b. bytes_eq a.name b.name };

    fn is_like(&self, other: &Param) -> bool {
        same_text(&self.name, &other.name)
    }
}

impl Alike for Function {
    ghost like = { λ a b. bytes_eq a.name b.name };

    fn is_like(&self, other: &Function) -> bool {
        same_text(&self.name, &other.name)
    }
}

impl Alike for Hint {
    ghost use Rattle.std.specs.Prelude.{◌&&◌};

    ghost like = { λ a b. spec_same_col a.source b.source && spec_same_col a.target b.target };

    fn is_like(&self, other: &Hint) -> bool {
        same_col(self.source, other.source) && same_col(self.target, other.target)
    }
}

/// Whether one of the items is like this one.
fn has_like<T: Alike>(items: &[T], item: &T) -> bool
    ensures { result ≡ list_any (λ y. T.like y item.now) items.now }
{
    items.iter().any(|y| y.is_like(item))
}

/// Whether an item before item k is like it; false past the end.
pub(crate) fn is_again<T: Alike>(items: &[T], k: usize) -> bool
    ensures { result ≡ again T.like items.now k }
{
    k < items.len() && has_like(&items[..k], &items[k])
}

/// The first item that an earlier one is like.
pub(crate) fn first_again<T: Alike>(items: &[T]) -> Option<usize>
    ensures { IsFirst (λ k. k ∷ []) (again T.like items.now) result }
{
    for k in 0..items.len() {
        if is_again(items, k) {
            return Some(k);
        }
    }
    None
}
