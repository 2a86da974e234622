// Choices as clauses: a variable for each option, and behind all of them a helper for each.
ghost use Rattle.std.specs.Prelude.{◌≡◌, ℕ, ◌+◌, ◌*◌, ◌<◌, ◌≤◌, ◌^◌, ◌++◌, ◌∷◌, [], All, length, take, IfOk, OnOk};
ghost use Rattle.mig_sketch.specs.Choices.{total};
ghost use Rattle.mig_complete.specs.Covering.{IsInSizes};
ghost use Rattle.mig_complete.specs.Coding as spec;

use crate::blocks::{Block, Pick};
use mig_base::Seq;
use mig_sat::SatLit;
use std::alloc::{AllocError, Global};

/// The variable, true.
fn positive(var: u32) -> SatLit
    ensures { result ≡ spec.positive var }
{
    SatLit {
        var,
        positive: true,
    }
}

/// The variable, false.
fn negative(var: u32) -> SatLit
    ensures { result ≡ spec.negative var }
{
    SatLit {
        var,
        positive: false,
    }
}

/// A clause of two literals.
fn pair(alloc: Global, left: SatLit, right: SatLit) -> Result<Seq<SatLit>, AllocError>
    ensures { IfOk result (λ c. c ≡ left ∷ right ∷ []) }
{
    let mut clause = Seq::new(alloc);
    clause.push(left)?;
    clause.push(right)?;
    Ok(clause)
}

/// One of so many variables is true.
fn one_of(alloc: Global, first: u32, count: u32) -> Result<Seq<SatLit>, AllocError>
    requires { first + count < 2 ^ 32 }
    ensures { IfOk result (λ c. c ≡ spec.one_of first count) }
{
    let mut clause = Seq::new(alloc);
    for k in 0..count {
        clause.push(positive(first + k))?;
    }
    Ok(clause)
}

/// Adds: the variable reaches its helper, which reaches the next one's helper and forbids the next variable.
fn add_link(
    alloc: Global,
    helpers: u32,
    var: u32,
    clauses: &mut Seq<Seq<SatLit>>,
) -> Result<(), AllocError>
    requires { helpers + var + 1 < 2 ^ 32 }
    ensures { OnOk result (clauses.new ≡ clauses.old ++ spec.link helpers var) }
{
    clauses.push(pair(alloc, negative(var), positive(helpers + var))?)?;
    clauses.push(pair(alloc, negative(helpers + var), positive(helpers + var + 1))?)?;
    clauses.push(pair(alloc, negative(helpers + var), negative(var + 1))?)?;
    Ok(())
}

/// Adds: exactly one of so many variables is true.
fn add_hole(
    alloc: Global,
    helpers: u32,
    first: u32,
    count: u32,
    clauses: &mut Seq<Seq<SatLit>>,
) -> Result<(), AllocError>
    requires { helpers + first + count < 2 ^ 32 }
    ensures { OnOk result (clauses.new ≡ clauses.old ++ spec.hole helpers first count) }
{
    clauses.push(one_of(alloc, first, count)?)?;
    let links = count.saturating_sub(1);
    for k in 0..links {
        add_link(alloc, helpers, first + k, clauses)?;
    }
    Ok(())
}

/// How many options all holes have.
pub fn count(sizes: &[u32]) -> u32
    requires { total sizes.now < 2 ^ 31 }
    ensures { result ≡ total sizes.now }
{
    let mut sum = 0;
    for size in sizes {
        sum += *size;
    }
    sum
}

/// Adds: of each hole exactly one option is picked.
pub fn add_holes(
    alloc: Global,
    sizes: &[u32],
    clauses: &mut Seq<Seq<SatLit>>,
) -> Result<(), AllocError>
    requires { total sizes.now < 2 ^ 31 }
    ensures { OnOk result (clauses.new ≡ clauses.old ++ spec.holes (total sizes.now) 0 sizes.now) }
{
    let helpers = count(sizes);
    let mut first = 0;
    for size in sizes {
        add_hole(alloc, helpers, first, *size, clauses)?;
        first += *size;
    }
    Ok(())
}

/// The first variable of a hole.
fn offset(sizes: &[u32], hole: u32) -> u32
    requires small { total sizes.now < 2 ^ 31 }
    requires hole { hole < length sizes.now }
    ensures { result ≡ spec.offset sizes.now hole }
{
    count(&sizes[..hole as usize])
}

/// Some pick of the block is not picked.
pub fn block_clause(alloc: Global, sizes: &[u32], block: &Block) -> Result<Seq<SatLit>, AllocError>
    requires small { total sizes.now < 2 ^ 31 }
    requires picks { All (IsInSizes sizes.now) block.now.picks }
    ensures { IfOk result (λ c. c ≡ spec.block_clause sizes.now block.now) }
{
    let mut clause = Seq::new(alloc);
    for pick in block.picks.as_slice() {
        clause.push(negative(offset(sizes, pick.hole) + pick.option))?;
    }
    Ok(clause)
}
