// Lists of numbers, and paths by their first number.
ghost use Rattle.std.specs.Prelude.{◌≡◌, ◌∷◌, [], IfOk};
ghost use Rattle.std.specs.Option.{MatchOption};
ghost use Rattle.mig_listing.specs.Choices as listing;

use mig_base::Seq;
use mig_obligations::number;
use std::alloc::{AllocError, Global};

/// A list of one item.
pub fn one<T: Drop>(alloc: Global, item: T) -> Result<Seq<T>, AllocError>
    ensures { IfOk result (λ s. s ≡ item ∷ []) }
{
    let mut list = Seq::new(alloc);
    list.push(item)?;
    Ok(list)
}

/// The first number of a path, and the rest.
#[derive(Clone, Copy)]
pub(crate) struct Turn<'a> {
    pub at: u32,
    pub rest: &'a [u32],
}

/// A path's first number and rest; none of the empty path.
pub(crate) fn next_turn(path: &[u32]) -> Option<Turn<'_>>
    ensures { MatchOption result (path.now ≡ []) (λ t. path.now ≡ t.at ∷ t.rest.now) }
{
    match path {
        [] => None,
        [at, rest @ ..] => Some(Turn { at: *at, rest }),
    }
}

/// The numbers below one, in order. Want of memory is answered too where one is no u32.
pub fn numbers(alloc: Global, count: usize) -> Result<Seq<u32>, AllocError>
    ensures { IfOk result (λ s. s ≡ listing.numbers count) }
{
    let mut list = Seq::new(alloc);
    for i in 0..count {
        list.push(number(i)?)?;
    }
    Ok(list)
}
