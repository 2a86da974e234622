// Where a token stands in its text.
ghost use Rattle.std.specs.Prelude.{◌≡◌, ℕ, ◌+◌, ◌<◌, ◌≤◌, length, IfOk};
ghost use Rattle.mig_tokens.specs.Bytes as class;
ghost use Rattle.mig_tokens.specs.Place as spec;

use crate::bytes::after_gap;
use crate::lex::first_token;
use std::alloc::{AllocError, Global};

/// What follows the token at the front and the gap behind it.
fn next_token(alloc: Global, bytes: &[u8]) -> Result<&[u8], AllocError>
    ensures value { IfOk result (λ x. x.now ≡ class.after_gap (spec.after_first bytes.now)) }
    ensures no_longer { IfOk result (λ x. length x.now ≤ length bytes.now) }
{
    match bytes {
        [b, rest @ ..] => {
            let (_, after) = first_token(alloc, *b, rest, bytes)?;
            Ok(after_gap(after))
        }
        [] => Ok(bytes),
    }
}

/// What follows the first tokens and the gap behind them.
fn behind_tokens(alloc: Global, count: usize, bytes: &[u8]) -> Result<&[u8], AllocError>
    ensures value { IfOk result (λ x. x.now ≡ spec.behind_tokens count bytes.now) }
    ensures no_longer { IfOk result (λ x. length x.now ≤ length bytes.now) }
{
    let mut rest = bytes;
    for _ in 0..count {
        rest = next_token(alloc, rest)?;
    }
    Ok(rest)
}

/// The line and column behind a byte.
fn next_place(line: u32, column: u32, b: u8) -> (u32, u32)
    requires lines { line ≤ 2147483648 }
    requires columns { column ≤ 2147483648 }
    ensures value { result ≡ spec.next_place (line, column) b }
    ensures lines { result.0 ≤ line + 1 }
    ensures columns { result.1 ≤ column + 1 }
{
    if b == b'\n' {
        (line + 1, 1)
    } else {
        (line, column + 1)
    }
}

/// The line and column behind these bytes.
fn place_behind(front: &[u8]) -> (u32, u32)
    requires { length front.now < 2147483648 }
    ensures { result ≡ spec.place_from (1, 1) front.now }
{
    let mut line = 1;
    let mut column = 1;
    for b in front {
        let (next_line, next_column) = next_place(line, column, *b);
        line = next_line;
        column = next_column;
    }
    (line, column)
}

/// The line and column of the token behind the first ones, or of the end of the text.
pub(crate) fn place_of(alloc: Global, bytes: &[u8], count: usize) -> Result<(u32, u32), AllocError>
    requires { length bytes.now < 2147483648 }
    ensures { IfOk result (λ at. at ≡ spec.place count bytes.now) }
{
    let rest = behind_tokens(alloc, count, after_gap(bytes))?;
    Ok(place_behind(&bytes[..bytes.len() - rest.len()]))
}
