// Numbers as the numbers of tables, columns and functions.
ghost use Rattle.std.specs.Prelude.{◌≡◌, ◌≤◌, ◌^◌, IfOk, OnErr};

use std::alloc::AllocError;

/// The number as a u32. A list that is too long for it counts as want of memory: the error comes only at 2^32 or more.
pub fn number(n: usize) -> Result<u32, AllocError>
    ensures ok { IfOk result (λ m. m ≡ n) }
    ensures error { OnErr result (2 ^ 32 ≤ n) }
{
    match u32::try_from(n) {
        Ok(m) => Ok(m),
        Err(_) => Err(AllocError),
    }
}
