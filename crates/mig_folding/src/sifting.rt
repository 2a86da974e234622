// Lists of numbers chosen one after the other, by a test that may want memory.
ghost use Rattle.std.specs.Prelude.{◌≡◌, ◌-◌, ◌∷◌, ◌++◌, [], map, IfOk, OnOk};
ghost use Rattle.mig_listing.specs.Chosen.{chosen};
ghost use Rattle.mig_steps.specs.Choosing.{chosen_from};

use mig_base::{Exact, Seq};
use mig_steps::{numbers, one};
use std::alloc::{AllocError, Global};

/// A test of the fronts of lists.
pub(crate) trait Sieve {
    ghost use Rattle.std.specs.Prelude.{◌≡◌, ℕ, Bool, List, IfOk};

    ghost may: { Self → List ℕ → Bool };

    /// Whether a front may go on.
    fn goes_on(&self, alloc: Global, front: &[u32]) -> Result<bool, AllocError>
        ensures { IfOk result (λ b. b ≡ may self.now front.now) };
}

/// A list with one number more.
fn with(alloc: Global, before: &Seq<u32>, x: u32) -> Result<Seq<u32>, AllocError>
    ensures { IfOk result (λ s. s ≡ before.now ++ x ∷ []) }
{
    let mut front = before.twin(alloc)?;
    front.push(x)?;
    Ok(front)
}

/// A list that begins with a number.
fn longer(alloc: Global, x: u32, list: &[u32]) -> Result<Seq<u32>, AllocError>
    ensures { IfOk result (λ s. s ≡ x ∷ list.now) }
{
    let mut longer = one(alloc, x)?;
    longer.extend_from_slice(list)?;
    Ok(longer)
}

/// Puts each list, with a number before it, at the end.
fn push_longer(
    alloc: Global,
    all: &mut Vec<Seq<u32>>,
    x: u32,
    lists: &[Seq<u32>],
) -> Result<(), AllocError>
    ensures { OnOk result (all.new.items ≡ all.old.items ++ map (λ p. x ∷ p) lists.now) }
{
    for list in lists {
        all.push(longer(alloc, x, list.as_slice())?)?;
    }
    Ok(())
}

/// Puts all lists that begin with a number, if it may follow those before, at the end.
#[cycle(sifting)]
fn push_sifted<T: Sieve>(
    alloc: Global,
    test: &T,
    n: usize,
    count: usize,
    before: &Seq<u32>,
    x: u32,
    all: &mut Vec<Seq<u32>>,
) -> Result<(), AllocError>
    ensures { OnOk result (all.new.items ≡ all.old.items ++ chosen_from (T.may test.now) n count before.now (x ∷ [])) }
{
    let front = with(alloc, before, x)?;
    if !test.goes_on(alloc, front.as_slice())? {
        return Ok(());
    }
    let rest = sifted(alloc, test, n, count, &front)?;
    push_longer(alloc, all, x, rest.as_slice())?;
    Ok(())
}

/// All lists of so many numbers below n of which each front, after the numbers `before`, may go on, in order. Want of memory is the only error.
#[cycle(sifting)]
pub(crate) fn sifted<T: Sieve>(
    alloc: Global,
    test: &T,
    n: usize,
    count: usize,
    before: &Seq<u32>,
) -> Result<Vec<Seq<u32>>, AllocError>
    ensures { IfOk result (λ v. v.items ≡ chosen (T.may test.now) n count before.now) }
{
    let mut all = Vec::new(alloc);
    if count == 0 {
        all.push(Seq::new(alloc))?;
        return Ok(all);
    }
    let offered = numbers(alloc, n)?;
    for x in offered.as_slice() {
        push_sifted(alloc, test, n, count - 1, before, *x, &mut all)?;
    }
    Ok(all)
}
