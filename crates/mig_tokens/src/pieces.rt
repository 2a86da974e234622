// Reading of single tokens: each function gives what follows the token.
ghost use Rattle.std.specs.Prelude.{◌≡◌};
ghost use Rattle.mig_tokens.specs.Pieces.{begins_sign, begins_word, word_at, sign_at, name_at, end_at};
ghost use Rattle.mig_tokens.specs.Given.{Gives};

use crate::fault::ReadError;
use crate::limits::{first_of, name_limit};
use crate::token::Token;
use crate::words::{is, is_reserved};
use mig_base::{Exact, Txt};
use mig_schema::Limit;
use std::alloc::Global;

/// Whether the token is this sign.
pub fn is_sign(token: &Token, sign: &str) -> bool
    ensures { result ≡ begins_sign sign.now token.now }
{
    match token {
        Token::Sign(text) => is(text.as_slice(), sign),
        _ => false,
    }
}

/// Whether the token is this word.
pub fn is_word(token: &Token, word: &str) -> bool
    ensures { result ≡ begins_word word.now token.now }
{
    match token {
        Token::Word(text) => is(text.as_slice(), word),
        _ => false,
    }
}

/// What follows this reserved word, which may pass a limit. Both errors stand at the first token: `At` where it is not the
/// word, `Limit` where it is and a limit is given.
#[tactic(auto, unfolding(crate::specs::Reading::token_at, crate::specs::Pieces::word_at))]
pub fn after_word<'a>(
    word: &str,
    limit: Option<Limit>,
    tokens: &'a [Token],
) -> Result<&'a [Token], ReadError>
    ensures { Gives (λ x. (tt, x.now)) result (word_at word.now limit tokens.now) }
{
    match tokens {
        [Token::Word(text), rest @ ..] if is(text.as_slice(), word) => match limit {
            Some(which) => Err(ReadError::Limit {
                which,
                left: tokens.len(),
            }),
            None => Ok(rest),
        },
        _ => Err(ReadError::At { left: tokens.len() }),
    }
}

/// What follows this sign. `At` stands at the first token, where it is not the sign.
#[tactic(auto, unfolding(crate::specs::Reading::token_at, crate::specs::Pieces::sign_at))]
pub fn after_sign<'a>(sign: &str, tokens: &'a [Token]) -> Result<&'a [Token], ReadError>
    ensures { Gives (λ x. (tt, x.now)) result (sign_at sign.now tokens.now) }
{
    match tokens {
        [Token::Sign(text), rest @ ..] if is(text.as_slice(), sign) => Ok(rest),
        _ => Err(ReadError::At { left: tokens.len() }),
    }
}

/// What follows the end of the text. `At` stands at the first token, where it is not `End`.
#[tactic(auto, unfolding(crate::specs::Reading::token_at, crate::specs::Pieces::end_at))]
pub fn after_end(tokens: &[Token]) -> Result<&[Token], ReadError>
    ensures { Gives (λ x. (tt, x.now)) result (end_at tokens.now) }
{
    match tokens {
        [Token::End, rest @ ..] => Ok(rest),
        _ => Err(ReadError::At { left: tokens.len() }),
    }
}

/// A name, and what follows it. `At` stands at the first token, where it is no word or a reserved one; `Limit` where a limit
/// is given, or else where the name has more than 32 bytes. `Memory` comes where the name cannot be copied.
#[tactic(auto, unfolding(crate::specs::Reading::token_at, crate::specs::Pieces::name_at))]
pub fn name_of(
    alloc: Global,
    limit: Option<Limit>,
    tokens: &[Token],
) -> Result<(Txt, &[Token]), ReadError>
    ensures { Gives (λ x. (x.0, x.1.now)) result (name_at limit tokens.now) }
{
    match tokens {
        [Token::Word(text), rest @ ..] => {
            if is_reserved(text.as_slice()) {
                return Err(ReadError::At { left: tokens.len() });
            }
            match first_of(limit, name_limit(text.as_slice())) {
                Some(which) => Err(ReadError::Limit {
                    which,
                    left: tokens.len(),
                }),
                None => Ok((text.twin(alloc)?, rest)),
            }
        }
        _ => Err(ReadError::At { left: tokens.len() }),
    }
}
