// The keys of the calls of a run.
ghost use Rattle.std.specs.Prelude.{◌≡◌, ◌*◌, ◌≤◌, IfOk};
ghost use Rattle.mig_store.specs.Runs.{numbers_from};

use mig_base::Seq;
use mig_meaning::Keys;
use std::alloc::{AllocError, Global};

/// The sixteen keys of the call of this number, from 0: those from sixteen times the number on.
pub(crate) fn keys_of(alloc: Global, number: u32) -> Result<Keys, AllocError>
    requires { number ≤ 100000 }
    ensures { IfOk result (λ k. k.keys ≡ numbers_from (16 * number) 16) }
{
    let first = 16 * number as u64;
    let mut keys = Seq::new(alloc);
    for n in 0..16 {
        keys.push(first + n)?;
    }
    Ok(Keys { keys })
}
