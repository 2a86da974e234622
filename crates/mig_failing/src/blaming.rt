// The functions that a list of calls blames.
ghost use Rattle.std.specs.Prelude.{◌≡◌, ◌++◌, filter, nat_lt, IfOk, OnOk};
ghost use Rattle.mig_listing.specs.Listing.{IsListOf};
ghost use Rattle.mig_listing.specs.Orders.{Less};
ghost use Rattle.mig_failing.specs.Blaming as made;
ghost use Rattle.mig_failing.specs.Blaming.{IsBlamed};

use mig_base::Seq;
use mig_meaning::Calls;
use std::alloc::{AllocError, Global};

/// Numbers of functions, in rising order.
#[derive(Debug, Drop)]
pub struct Names {
    pub functions: Seq<u32>,
}

/// Puts those of these numbers that are below n behind the others.
fn push_below(more: &mut Seq<u32>, numbers: &[u32], n: u32) -> Result<(), AllocError>
    ensures { OnOk result (more.new ≡ more.old ++ filter (λ m. nat_lt m n) numbers.now) }
{
    for m in numbers {
        if *m < n {
            more.push(*m)?;
        }
    }
    Ok(())
}

/// Puts those of these numbers that are above n behind the others.
fn push_above(more: &mut Seq<u32>, numbers: &[u32], n: u32) -> Result<(), AllocError>
    ensures { OnOk result (more.new ≡ more.old ++ filter (λ m. nat_lt n m) numbers.now) }
{
    for m in numbers {
        if n < *m {
            more.push(*m)?;
        }
    }
    Ok(())
}

/// These numbers and one more, in its place, each once.
fn with_number(alloc: Global, numbers: &[u32], n: u32) -> Result<Seq<u32>, AllocError>
    ensures { IfOk result (λ all. all ≡ made.with_number numbers.now n) }
{
    let mut all = Seq::new(alloc);
    push_below(&mut all, numbers, n)?;
    all.push(n)?;
    push_above(&mut all, numbers, n)?;
    Ok(all)
}

/// The functions of these calls, in rising order, each once. The only error is want of memory.
pub fn blame(alloc: Global, calls: &Calls) -> Result<Names, AllocError>
    ensures { IfOk result (λ n. IsListOf (IsBlamed calls.now.calls) Less n.functions) }
{
    let mut functions = Seq::new(alloc);
    for call in calls.calls.as_slice() {
        functions = with_number(alloc, functions.as_slice(), call.function)?;
    }
    Ok(Names { functions })
}
