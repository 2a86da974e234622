// The bytes of a text as tokens.
ghost use Rattle.std.specs.Prelude.{◌≡◌, ℕ, ◌<◌, ◌≤◌, ◌∷◌, length, IfOk};
ghost use Rattle.mig_base.specs.Digits.{is_digit};
ghost use Rattle.mig_tokens.specs.Bytes.{first_is};
ghost use Rattle.mig_tokens.specs.Class.{made};
ghost use Rattle.mig_tokens.specs.Tokens as spec;
ghost use Rattle.mig_tokens.specs.Texts.{Lexed};

use crate::bytes::{after_gap, digits_len, is_letter, name_len, sign_len};
use crate::texts::text_token;
use crate::token::Token;
use mig_base::{Seq, Txt, is_digit};
use std::alloc::{AllocError, Global};

/// Whether a digit is first.
fn digit_first(bytes: &[u8]) -> bool
    ensures { result ≡ first_is is_digit bytes.now }
{
    match bytes {
        [b, ..] => is_digit(*b),
        [] => false,
    }
}

/// The classes of tokens that have a text.
#[derive(Clone, Copy)]
enum Class {
    Word,
    Int,
    Sign,
}

/// A token of this class.
fn token_of(class: Class, text: Txt) -> Token
    ensures { result ≡ made class text }
{
    match class {
        Class::Word => Token::Word(text),
        Class::Int => Token::Int(text),
        Class::Sign => Token::Sign(text),
    }
}

/// The first n bytes as a token, and the bytes after it.
fn cut(alloc: Global, class: Class, n: usize, bytes: &[u8]) -> Result<(Token, &[u8]), AllocError>
    requires some { 0 < n }
    requires within { n ≤ length bytes.now }
    ensures value { IfOk result (λ x. (x.0, x.1.now) ≡ spec.cut (made class) n bytes.now) }
    ensures less { IfOk result (λ x. length x.1.now < length bytes.now) }
{
    let (front, rest) = bytes.split_at(n);
    let text = Seq::from_slice(alloc, front)?;
    Ok((token_of(class, text), rest))
}

/// The token at the front, and what follows it.
pub(crate) fn first_token<'a>(
    alloc: Global,
    first: u8,
    rest: &'a [u8],
    bytes: &'a [u8],
) -> Result<(Token, &'a [u8]), AllocError>
    requires { bytes.now ≡ first ∷ rest.now }
    ensures value { IfOk result (λ x. (x.0, x.1.now) ≡ spec.first_token first rest.now) }
    ensures less { IfOk result (λ x. length x.1.now < length bytes.now) }
{
    if is_letter(first) {
        return cut(alloc, Class::Word, name_len(bytes), bytes);
    }
    if is_digit(first) {
        return cut(alloc, Class::Int, digits_len(bytes), bytes);
    }
    if first == b'-' && digit_first(rest) {
        return cut(alloc, Class::Int, digits_len(rest) + 1, bytes);
    }
    if first == b'"' {
        return text_token(alloc, rest);
    }
    match sign_len(first, rest) {
        0 => Ok((Token::Bad, &[])),
        n => cut(alloc, Class::Sign, n, bytes),
    }
}

/// All tokens of the bytes, without the end.
fn tokens(alloc: Global, bytes: &[u8]) -> Result<Vec<Token>, AllocError>
    ensures { IfOk result (λ v. spec.Lexes bytes.now v.items) }
{
    let mut tokens = Vec::new(alloc);
    let mut rest = after_gap(bytes);
    while let [b, more @ ..] = rest {
        let (token, after) = first_token(alloc, *b, more, rest)?;
        tokens.push(token)?;
        rest = after_gap(after);
    }
    Ok(tokens)
}

/// The tokens of the bytes, the longest that fit, and behind them `End`. A byte that begins no token is `Bad`, and nothing
/// behind it is read. The only error is want of memory. The time is linear in the bytes.
pub fn tokens_to_end(alloc: Global, bytes: &[u8]) -> Result<Vec<Token>, AllocError>
    ensures { IfOk result (λ v. Lexed bytes.now v.items) }
{
    let mut found = tokens(alloc, bytes)?;
    match found.push(Token::End) {
        Ok(()) => Ok(found),
        Err(_) => Err(AllocError),
    }
}
