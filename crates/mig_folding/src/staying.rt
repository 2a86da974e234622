// The variables of a host that are not named, with their numbers.
ghost use Rattle.std.specs.Prelude.{◌≡◌, ◌+◌, IfOk};
ghost use Rattle.mig_algebra.specs.Tidied.{numbers_of, vars_of};
ghost use Rattle.mig_folding.specs.Writing as writing;

use crate::images::is_there;
use mig_algebra::Var;
use mig_obligations::number;
use std::alloc::{AllocError, Global};

/// The number of a host's variable i.
fn number_at(base: u32, i: usize) -> Result<u32, AllocError>
    ensures { IfOk result (λ n. n ≡ base + i) }
{
    let i = number(i)?;
    number(base as usize + i as usize)
}

/// The numbers of a host's variables that stay.
#[tactic(auto, using(crate::proofs::Kept::stay_kept, crate::proofs::Kept::stay_pushed))]
pub(crate) fn kept_numbers(
    alloc: Global,
    base: u32,
    vars: &[Var],
    named: &[u32],
) -> Result<Vec<u32>, AllocError>
    ensures { IfOk result (λ v. v.items ≡ numbers_of (writing.stay named.now base vars.now)) }
{
    let mut kept = Vec::new(alloc);
    for i in 0..vars.len() {
        let n = number_at(base, i)?;
        if !is_there(named, n) {
            kept.push(n)?;
        }
    }
    Ok(kept)
}

/// The variables that stay.
#[tactic(auto, using(crate::proofs::Kept::vars_kept, crate::proofs::Kept::vars_pushed))]
pub(crate) fn kept_vars(
    alloc: Global,
    base: u32,
    vars: &[Var],
    named: &[u32],
) -> Result<Vec<Var>, AllocError>
    ensures { IfOk result (λ v. v.items ≡ vars_of (writing.stay named.now base vars.now)) }
{
    let mut kept = Vec::new(alloc);
    for i in 0..vars.len() {
        let n = number_at(base, i)?;
        if !is_there(named, n) {
            kept.push(vars[i])?;
        }
    }
    Ok(kept)
}
