// Texts between quotes.
ghost use Rattle.std.specs.Prelude.{◌≡◌, ◌≤◌, ℕ, ◌+◌, length, drop, IfOk, IfSome};
ghost use Rattle.std.specs.Option.{option_map};
ghost use Rattle.std.specs.Str.{is_utf8};
ghost use Rattle.mig_tokens.specs.Tokens as spec;

use crate::token::Token;
use mig_base::{Seq, Txt};
use std::alloc::{AllocError, Global};

/// The byte that a backslash and this byte stand for.
fn unescaped(b: u8) -> Option<u8>
    ensures { result ≡ spec.unescaped b }
{
    match b {
        b'"' => Some(b'"'),
        b'\\' => Some(b'\\'),
        b'n' => Some(b'\n'),
        _ => None,
    }
}

/// What follows the first n bytes.
fn behind(n: usize, bytes: &[u8]) -> &[u8]
    requires { n ≤ length bytes.now }
    ensures value { result.now ≡ drop n bytes.now }
    ensures no_longer { length result.now ≤ length bytes.now }
{
    &bytes[n..]
}

/// What the bytes up to the closing quote say, and the bytes behind it.
fn text_of(alloc: Global, bytes: &[u8]) -> Result<Option<(Txt, &[u8])>, AllocError>
    ensures value { IfOk result (λ x. option_map (λ y. (y.0, y.1.now)) x ≡ spec.text_at bytes.now) }
    ensures no_longer { IfOk result (λ x. IfSome x (λ y. length y.1.now ≤ length bytes.now)) }
{
    let mut text = Vec::new(alloc);
    let mut escaped = false;
    for (i, b) in bytes.iter().enumerate() {
        if escaped {
            match unescaped(*b) {
                Some(meant) => text.push(meant)?,
                None => return Ok(None),
            }
            escaped = false;
        } else if *b == b'"' {
            return Ok(Some((Seq::from_vec(text), behind(i + 1, bytes))));
        } else if *b == b'\n' {
            return Ok(None);
        } else if *b == b'\\' {
            escaped = true;
        } else {
            text.push(*b)?;
        }
    }
    Ok(None)
}

/// Whether bytes are UTF-8. The time is linear in them.
pub fn spells_utf8(bytes: &[u8]) -> bool
    ensures { result ≡ is_utf8 bytes.now }
{
    match std::str::from_utf8(bytes) {
        Ok(_) => true,
        Err(_) => false,
    }
}

/// The token behind an opening quote: a text, or none, and then nothing behind it is read.
pub(crate) fn text_token(alloc: Global, rest: &[u8]) -> Result<(Token, &[u8]), AllocError>
    ensures value { IfOk result (λ x. (x.0, x.1.now) ≡ spec.text_token (spec.text_at rest.now)) }
    ensures no_longer { IfOk result (λ x. length x.1.now ≤ length rest.now) }
{
    match text_of(alloc, rest)? {
        Some((text, after)) => {
            if spells_utf8(text.as_slice()) {
                Ok((Token::Text(text), after))
            } else {
                Ok((Token::Bad, &[]))
            }
        }
        None => Ok((Token::Bad, &[])),
    }
}
