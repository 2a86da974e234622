// Reading of scalars, labels and weights.
ghost use Rattle.std.specs.Prelude.{◌≡◌, IfOk};
ghost use Rattle.mig_tokens.specs.Given.{Gives};
ghost use Rattle.mig_grammar.specs.ReadingTokens.{scalar_at, label_at, weight_at};
ghost use Rattle.mig_grammar.specs.ReadingTokens as part;

use crate::marks::{label_limit, scalar_limit, weight_limit};
use crate::tree::ScalarTree;
use mig_base::{Exact, Txt};
use mig_schema::Limit;
use mig_tokens::{ReadError, Token, first_of, is_reserved};
use std::alloc::{AllocError, Global};

/// The scalar that a token is, where it is one.
fn scalar_in(alloc: Global, token: &Token) -> Result<Option<ScalarTree>, AllocError>
    ensures { IfOk result (λ x. x ≡ part.reads_scalar token.now) }
{
    match token {
        Token::Word(text) => {
            if is_reserved(text.as_slice()) {
                Ok(None)
            } else {
                Ok(Some(ScalarTree::Name(text.twin(alloc)?)))
            }
        }
        Token::Int(text) => Ok(Some(ScalarTree::Int(text.twin(alloc)?))),
        Token::Text(text) => Ok(Some(ScalarTree::Text(text.twin(alloc)?))),
        _ => Ok(None),
    }
}

/// A scalar, which may pass a limit.
#[tactic(auto, unfolding(mig_tokens::specs::Reading::token_at, crate::specs::ReadingTokens::scalar_at))]
pub(crate) fn scalar_of(
    alloc: Global,
    limit: Option<Limit>,
    tokens: &[Token],
) -> Result<(ScalarTree, &[Token]), ReadError>
    ensures { Gives (λ x. (x.0, x.1.now)) result (scalar_at limit tokens.now) }
{
    let left = tokens.len();
    match tokens {
        [token, rest @ ..] => {
            let scalar = match scalar_in(alloc, token)? {
                Some(scalar) => scalar,
                None => return Err(ReadError::At { left }),
            };
            match first_of(limit, scalar_limit(&scalar)) {
                Some(which) => Err(ReadError::Limit { which, left }),
                None => Ok((scalar, rest)),
            }
        }
        [] => Err(ReadError::At { left }),
    }
}

/// The label of a fresh key, as it is written.
#[tactic(auto, unfolding(mig_tokens::specs::Reading::token_at, crate::specs::ReadingTokens::label_at))]
pub(crate) fn written_label(alloc: Global, tokens: &[Token]) -> Result<(Txt, &[Token]), ReadError>
    ensures { Gives (λ x. (x.0, x.1.now)) result (label_at tokens.now) }
{
    match tokens {
        [Token::Int(text), rest @ ..] => match label_limit(text.as_slice()) {
            Some(which) => Err(ReadError::Limit {
                which,
                left: tokens.len(),
            }),
            None => Ok((text.twin(alloc)?, rest)),
        },
        _ => Err(ReadError::At { left: tokens.len() }),
    }
}

/// A hint's weight, as it is written.
#[tactic(auto, unfolding(mig_tokens::specs::Reading::token_at, crate::specs::ReadingTokens::weight_at))]
pub(crate) fn written_weight(alloc: Global, tokens: &[Token]) -> Result<(Txt, &[Token]), ReadError>
    ensures { Gives (λ x. (x.0, x.1.now)) result (weight_at tokens.now) }
{
    match tokens {
        [Token::Int(text), rest @ ..] => match weight_limit(text.as_slice()) {
            Some(which) => Err(ReadError::Limit {
                which,
                left: tokens.len(),
            }),
            None => Ok((text.twin(alloc)?, rest)),
        },
        _ => Err(ReadError::At { left: tokens.len() }),
    }
}
