// The bytes of a certificate as pieces.
ghost use Rattle.std.specs.Prelude.{◌≡◌, ℕ, ◌<◌, ◌≤◌, ◌∷◌, [], length, take, drop, true, IfOk};
ghost use Rattle.std.specs.List.{take_while};
ghost use Rattle.mig_tokens.specs.Bytes as class;
ghost use Rattle.mig_tokens.specs.declared.token.Token.TheVariants as token;
ghost use Rattle.mig_reading.specs.Pieces as spec;

use mig_base::{Seq, is_digit};
use mig_tokens::Token;
use std::alloc::{AllocError, Global};

/// What a word begins with: a letter of ASCII or an underscore.
fn is_letter(b: u8) -> bool
    ensures { result ≡ class.is_letter b }
{
    b'a' <= b && b <= b'z' || b'A' <= b && b <= b'Z' || b == b'_'
}

/// What a run goes on with.
fn is_name_byte(b: u8) -> bool
    ensures { result ≡ class.is_name_byte b }
{
    is_letter(b) || is_digit(b)
}

/// How many bytes at the front go on with a run.
fn run_len(bytes: &[u8]) -> usize
    ensures { result ≡ length (take_while class.is_name_byte bytes.now) }
{
    bytes.iter().take_while(|b| is_name_byte(**b)).count()
}

/// Whether a letter or an underscore is first.
fn letter_first(bytes: &[u8]) -> bool
    ensures { result ≡ class.first_is class.is_letter bytes.now }
{
    match bytes {
        [b, ..] => is_letter(*b),
        [] => false,
    }
}

/// A run as a piece.
fn run_of(alloc: Global, run: &[u8]) -> Result<Token, AllocError>
    ensures { IfOk result (λ t. t ≡ spec.run run.now) }
{
    let text = Seq::from_slice(alloc, run)?;
    if letter_first(run) {
        Ok(Token::Word(text))
    } else {
        Ok(Token::Int(text))
    }
}

/// A byte as a piece.
fn sign_of(alloc: Global, b: u8) -> Result<Token, AllocError>
    ensures { IfOk result (λ t. t ≡ token.Sign (b ∷ [])) }
{
    let text = Seq::from_slice(alloc, &[b])?;
    Ok(Token::Sign(text))
}

/// The piece at the front, and what follows it.
fn first_piece<'a>(
    alloc: Global,
    first: u8,
    more: &'a [u8],
    bytes: &'a [u8],
) -> Result<(Token, &'a [u8]), AllocError>
    requires { bytes.now ≡ first ∷ more.now }
    ensures value { IfOk result (λ x. spec.pieces bytes.now ≡ x.0 ∷ spec.pieces x.1.now) }
    ensures less { IfOk result (λ x. length x.1.now < length bytes.now) }
{
    if is_name_byte(first) {
        let (run, rest) = bytes.split_at(run_len(bytes));
        Ok((run_of(alloc, run)?, rest))
    } else {
        Ok((sign_of(alloc, first)?, more))
    }
}

/// All pieces of the bytes.
fn pieces_of(alloc: Global, bytes: &[u8]) -> Result<Vec<Token>, AllocError>
    ensures { IfOk result (λ v. v.items ≡ spec.pieces bytes.now) }
{
    let mut pieces = Vec::new(alloc);
    let mut rest = bytes;
    while let [b, more @ ..] = rest {
        let (piece, after) = first_piece(alloc, *b, more, rest)?;
        pieces.push(piece)?;
        rest = after;
    }
    Ok(pieces)
}

/// The pieces of the bytes, and behind them `End`. The time is linear in the bytes.
pub(crate) fn pieces_to_end(alloc: Global, bytes: &[u8]) -> Result<Vec<Token>, AllocError>
    ensures { IfOk result (λ v. v.items ≡ spec.pieces_to_end bytes.now) }
{
    let mut found = pieces_of(alloc, bytes)?;
    match found.push(Token::End) {
        Ok(()) => Ok(found),
        Err(_) => Err(AllocError),
    }
}
