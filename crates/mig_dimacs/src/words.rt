// The tokens that words are.
ghost use Rattle.std.specs.Prelude.{◌≡◌};
ghost use Rattle.std.specs.Str.{bytes_eq};
ghost use Rattle.mig_dimacs.specs.Words as spec;

use crate::token::{Number, Token};
use mig_base::{all_digits, number_within};

/// What stands between the words of a line.
pub(crate) fn is_blank(b: u8) -> bool
    ensures { result ≡ spec.is_blank b }
{
    matches!(b, b' ' | b'\t' | b'\r')
}

/// Whether the word is this text.
fn is(word: &[u8], text: &str) -> bool
    ensures { result ≡ bytes_eq word.now text.now }
{
    word == text.as_bytes()
}

/// Digits as a number.
fn digits_token(negative: bool, digits: &[u8]) -> Token
    ensures { result ≡ spec.digits_token negative digits.now }
{
    if digits.is_empty() || !all_digits(digits) {
        return Token::Other;
    }
    match number_within(u64::MAX, digits) {
        Some(size) => Token::Number(Number { negative, size }),
        None => Token::Other,
    }
}

/// A number, behind a minus sign or not.
fn number_token(word: &[u8]) -> Token
    ensures { result ≡ spec.number_token word.now }
{
    match word {
        [] => Token::Other,
        [b'-', digits @ ..] => digits_token(true, digits),
        _ => digits_token(false, word),
    }
}

/// The token that a word is.
pub(crate) fn token_of(word: &[u8]) -> Token
    ensures { result ≡ spec.token_of word.now }
{
    if is(word, "p") {
        Token::Problem
    } else if is(word, "cnf") {
        Token::Plain
    } else if is(word, "wcnf") {
        Token::Weighted
    } else {
        number_token(word)
    }
}
