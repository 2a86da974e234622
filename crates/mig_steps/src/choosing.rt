// Lists of numbers chosen one after the other, each of those that may follow the ones before.
ghost use Rattle.std.specs.Prelude.{◌≡◌, ◌-◌, ◌∷◌, ◌++◌, [], IfOk, OnOk};
ghost use Rattle.mig_listing.specs.Chosen as spec;
ghost use Rattle.mig_steps.specs.Choosing.{chosen_from};

use crate::lists::numbers;
use crate::paths::push_longer;
use mig_base::{Exact, Seq};
use std::alloc::{AllocError, Global};

/// A test of the fronts of lists.
pub trait Front {
    ghost use Rattle.std.specs.Prelude.{◌≡◌, ℕ, Bool, List};

    ghost may: { Self → List ℕ → Bool };

    /// Whether a front may go on.
    fn goes_on(&self, front: &[u32]) -> bool
        ensures { result ≡ may self.now front.now };
}

/// A list with one number more.
fn with(alloc: Global, before: &Seq<u32>, x: u32) -> Result<Seq<u32>, AllocError>
    ensures { IfOk result (λ s. s ≡ before.now ++ x ∷ []) }
{
    let mut front = before.twin(alloc)?;
    front.push(x)?;
    Ok(front)
}

/// Puts all lists that begin with a number, if it may follow those before, at the end.
#[cycle(choosing)]
fn push_chosen<T: Front>(
    alloc: Global,
    test: &T,
    n: usize,
    count: usize,
    before: &Seq<u32>,
    x: u32,
    all: &mut Vec<Seq<u32>>,
) -> Result<(), AllocError>
    ensures { OnOk result (all.new.items ≡ all.old.items ++ chosen_from (T.may test.now) n count before.now (x ∷ [])) }
{
    let front = with(alloc, before, x)?;
    let goes_on = test.goes_on(front.as_slice());
    if !goes_on {
        return Ok(());
    }
    let rest = chosen(alloc, test, n, count, &front)?;
    push_longer(alloc, all, x, rest.as_slice())?;
    Ok(())
}

/// All lists of so many numbers below n of which each front, after the numbers `before`, may go on, in order. Want of memory is the only error.
#[cycle(choosing)]
pub fn chosen<T: Front>(
    alloc: Global,
    test: &T,
    n: usize,
    count: usize,
    before: &Seq<u32>,
) -> Result<Vec<Seq<u32>>, AllocError>
    ensures { IfOk result (λ v. v.items ≡ spec.chosen (T.may test.now) n count before.now) }
{
    let mut all = Vec::new(alloc);
    if count == 0 {
        all.push(Seq::new(alloc))?;
        return Ok(all);
    }
    let offered = numbers(alloc, n)?;
    for x in offered.as_slice() {
        push_chosen(alloc, test, n, count - 1, before, *x, &mut all)?;
    }
    Ok(all)
}
