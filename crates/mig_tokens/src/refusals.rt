// Faults with their lines and columns.
ghost use Rattle.std.specs.Prelude.{◌≡◌, ◌<◌, ◌⊎◌, length, IfOk};
ghost use Rattle.mig_tokens.specs.declared.fault.Misread.TheVariants as fault;
ghost use Rattle.mig_tokens.specs.Refused as spec;

use crate::fault::{Misread, ReadError};
use crate::place::place_of;
use crate::token::Token;
use std::alloc::{AllocError, Global};

/// A fault with its line and column, in a text of so many tokens, their end included.
fn placed_in(
    alloc: Global,
    bytes: &[u8],
    total: usize,
    error: ReadError,
) -> Result<Misread, AllocError>
    requires { length bytes.now < 2147483648 }
    ensures { IfOk result (λ f. f ≡ spec.placed bytes.now total error) }
{
    match error {
        ReadError::Memory => Ok(Misread::Memory),
        ReadError::At { left } => {
            let (line, column) = place_of(alloc, bytes, total.saturating_sub(left))?;
            Ok(Misread::At { line, column })
        }
        ReadError::Limit { which, left } => {
            let (line, _) = place_of(alloc, bytes, total.saturating_sub(left))?;
            Ok(Misread::Limit { which, line })
        }
    }
}

/// A fault with its line and column in the bytes of these tokens, their end included. Lines and columns count from 1, columns
/// in bytes; where no token is left, it is the place of the end. `Memory` comes where memory runs out or ran out before.
pub fn placed(alloc: Global, bytes: &[u8], tokens: &[Token], error: ReadError) -> Misread
    requires { length bytes.now < 2147483648 }
    ensures { (result ≡ fault.Memory) ⊎ (result ≡ spec.placed bytes.now (length tokens.now) error) }
{
    match placed_in(alloc, bytes, tokens.len(), error) {
        Ok(found) => found,
        Err(_) => Misread::Memory,
    }
}
