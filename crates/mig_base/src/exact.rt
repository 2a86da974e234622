// Equality and copies that contracts see as plain equality of values.
ghost use Rattle.std.specs.Prelude.{◌≡◌, ◌↔◌, IsTrue, IfOk};
ghost use Rattle.std.specs.Str.{bytes_eq};

use crate::seq::{Seq, Txt};
use std::alloc::{AllocError, Global};

/// A type whose equality and copies are exact: what contracts see of two values is compared and copied.
pub trait Exact: Drop {
    /// Whether both values are the same. It takes no memory.
    fn same(&self, other: &Self) -> bool
        ensures { IsTrue result ↔ (self.now ≡ other.now) };

    /// A copy of the value. Its only error is want of memory.
    fn twin(&self, alloc: Global) -> Result<Self, AllocError>
        ensures { IfOk result (λ x. x ≡ self.now) };
}

impl Exact for bool {
    fn same(&self, other: &bool) -> bool {
        *self == *other
    }

    fn twin(&self, _alloc: Global) -> Result<bool, AllocError> {
        Ok(*self)
    }
}

impl Exact for u8 {
    fn same(&self, other: &u8) -> bool {
        *self == *other
    }

    fn twin(&self, _alloc: Global) -> Result<u8, AllocError> {
        Ok(*self)
    }
}

impl Exact for u32 {
    fn same(&self, other: &u32) -> bool {
        *self == *other
    }

    fn twin(&self, _alloc: Global) -> Result<u32, AllocError> {
        Ok(*self)
    }
}

impl Exact for u64 {
    fn same(&self, other: &u64) -> bool {
        *self == *other
    }

    fn twin(&self, _alloc: Global) -> Result<u64, AllocError> {
        Ok(*self)
    }
}

impl Exact for i64 {
    fn same(&self, other: &i64) -> bool {
        *self == *other
    }

    fn twin(&self, _alloc: Global) -> Result<i64, AllocError> {
        Ok(*self)
    }
}

/// Whether two lists have the same items in the same order.
fn same_items<T: Exact>(left: &[T], right: &[T]) -> bool
    ensures { IsTrue result ↔ (left.now ≡ right.now) }
{
    if left.len() != right.len() {
        return false;
    }
    for i in 0..left.len() {
        if !left[i].same(&right[i]) {
            return false;
        }
    }
    true
}

/// A copy of each item, in order.
fn twin_items<T: Exact>(alloc: Global, items: &[T]) -> Result<Vec<T>, AllocError>
    ensures { IfOk result (λ v. v.items ≡ items.now) }
{
    let mut twins = Vec::with_capacity(alloc, items.len())?;
    for item in items {
        twins.push(item.twin(alloc)?)?;
    }
    Ok(twins)
}

impl<T: Exact> Exact for Seq<T> {
    fn same(&self, other: &Seq<T>) -> bool {
        same_items(self.as_slice(), other.as_slice())
    }

    fn twin(&self, alloc: Global) -> Result<Seq<T>, AllocError> {
        Ok(Seq::from_vec(twin_items(alloc, self.as_slice())?))
    }
}

/// Whether two texts are the same bytes, as a test that definitions compute and as an equation.
pub fn same_text(left: &Txt, right: &Txt) -> bool
    ensures test { result ≡ bytes_eq left.now right.now }
    ensures equal { IsTrue result ↔ (left.now ≡ right.now) }
{
    left.as_slice() == right.as_slice()
}
