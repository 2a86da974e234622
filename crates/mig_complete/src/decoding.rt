// From the values of a model to the choice that they stand for.
ghost use Rattle.std.specs.Prelude.{◌≡◌, ℕ, ◌+◌, ◌<◌, ◌≤◌, ◌^◌, List, length, slice_index_or, false, IfOk};
ghost use Rattle.mig_sat.specs.Models.{value_of};
ghost use Rattle.mig_sketch.specs.Choices.{total};
ghost use Rattle.mig_complete.specs.Coding.{IsPicked, Codes};

use mig_base::Seq;
use std::alloc::{AllocError, Global};

/// Which of so many variables is true, where one is.
fn picked(values: &[bool], first: u32, count: u32) -> u32
    requires within { first + count ≤ length values.now }
    requires small { first + count < 2 ^ 31 }
    ensures { (p : ℕ) → IsPicked values.now first count p → result ≡ p }
{
    for k in 0..count {
        if values[(first + k) as usize] {
            return k;
        }
    }
    0
}

/// The choice that the values stand for, where they stand for one.
pub fn decode(alloc: Global, sizes: &[u32], values: &[bool]) -> Result<Seq<u32>, AllocError>
    requires small { total sizes.now < 2 ^ 31 }
    requires within { total sizes.now ≤ length values.now }
    ensures { IfOk result (λ s. (picks : List ℕ) → Codes values.now 0 sizes.now picks → s ≡ picks) }
{
    let mut picks = Vec::new(alloc);
    let mut first = 0;
    for size in sizes {
        picks.push(picked(values, first, *size))?;
        first += *size;
    }
    Ok(Seq::from_vec(picks))
}
