// Sets of numbers, each as the list of its members by size.
ghost use Rattle.std.specs.Prelude.{◌≡◌, ◌++◌, ◌∷◌, [], IfOk, OnOk};
ghost use Rattle.std.specs.List.{flat_map};
ghost use Rattle.mig_listing.specs.Choices as spec;

use mig_base::{Seq, number};
use std::alloc::{AllocError, Global};

/// The numbers below n.
pub(crate) fn numbers(alloc: Global, n: usize) -> Result<Vec<u32>, AllocError>
    ensures { IfOk result (λ v. v.items ≡ spec.numbers n) }
{
    let mut list = Vec::new(alloc);
    for i in 0..n {
        list.push(number(i)?)?;
    }
    Ok(list)
}

/// Whether all of the choice are below x.
fn is_above(choice: &[u32], x: u32) -> bool
    ensures { result ≡ spec.is_above choice.now x }
{
    choice.iter().all(|y| *y < x)
}

/// The choice with one more.
fn with_one(alloc: Global, choice: &[u32], x: u32) -> Result<Seq<u32>, AllocError>
    ensures { IfOk result (λ s. s ≡ choice.now ++ x ∷ []) }
{
    let mut longer = Vec::with_capacity(alloc, choice.len().saturating_add(1))?;
    longer.extend_from_slice(choice)?;
    longer.push(x)?;
    Ok(Seq::from_vec(longer))
}

/// Adds the choice with each one of the pool that is above it.
fn add_longer(
    alloc: Global,
    pool: &[u32],
    choice: &[u32],
    list: &mut Vec<Seq<u32>>,
) -> Result<(), AllocError>
    ensures { OnOk result (list.new.items ≡ list.old.items ++ spec.longer pool.now choice.now) }
{
    for x in pool {
        if is_above(choice, *x) {
            list.push(with_one(alloc, choice, *x)?)?;
        }
    }
    Ok(())
}

/// Each of the choices with each one of the pool that is above it.
fn all_longer(
    alloc: Global,
    pool: &[u32],
    choices: &[Seq<u32>],
) -> Result<Vec<Seq<u32>>, AllocError>
    ensures { IfOk result (λ v. v.items ≡ flat_map (spec.longer pool.now) choices.now) }
{
    let mut list = Vec::new(alloc);
    for choice in choices {
        add_longer(alloc, pool, choice.as_slice(), &mut list)?;
    }
    Ok(list)
}

/// All sets of so many numbers of a rising pool, each as the list of its members by size, in the order of these lists. The only error is want of memory.
pub fn choices(alloc: Global, count: usize, pool: &[u32]) -> Result<Vec<Seq<u32>>, AllocError>
    ensures { IfOk result (λ v. v.items ≡ spec.choices count pool.now) }
{
    let mut list = Vec::new(alloc);
    list.push(Seq::new(alloc))?;
    for _ in 0..count {
        list = all_longer(alloc, pool, list.as_slice())?;
    }
    Ok(list)
}
