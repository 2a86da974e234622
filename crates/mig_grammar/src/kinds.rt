// Reading of kinds and operators.
ghost use Rattle.std.specs.Prelude.{◌≡◌};
ghost use Rattle.mig_tokens.specs.Given.{Gives};
ghost use Rattle.mig_grammar.specs.ReadingTokens.{op_at, kind_at, param_kind_at};
ghost use Rattle.mig_grammar.specs.ReadingTokens as part;

use crate::marks::kind_limit;
use mig_schema::{Kind, Op};
use mig_tokens::{ReadError, Token, is};

/// The operator that a sign is, where it is one.
fn operator(sign: &[u8]) -> Option<Op>
    ensures { result ≡ part.op_of sign.now }
{
    if is(sign, "=") {
        Some(Op::Eq)
    } else if is(sign, "<>") {
        Some(Op::Ne)
    } else if is(sign, "<") {
        Some(Op::Lt)
    } else if is(sign, "<=") {
        Some(Op::Le)
    } else if is(sign, ">") {
        Some(Op::Gt)
    } else if is(sign, ">=") {
        Some(Op::Ge)
    } else {
        None
    }
}

/// An operator.
#[tactic(auto, unfolding(mig_tokens::specs::Reading::token_at, crate::specs::ReadingTokens::op_at))]
pub(crate) fn op_of(tokens: &[Token]) -> Result<(Op, &[Token]), ReadError>
    ensures { Gives (λ x. (x.0, x.1.now)) result (op_at tokens.now) }
{
    let left = tokens.len();
    match tokens {
        [Token::Sign(text), rest @ ..] => match operator(text.as_slice()) {
            Some(op) => Ok((op, rest)),
            None => Err(ReadError::At { left }),
        },
        _ => Err(ReadError::At { left }),
    }
}

/// The kind that a word says, where it says one.
fn kind_in(word: &[u8]) -> Option<Kind>
    ensures { result ≡ part.kind_of word.now }
{
    if is(word, "key") {
        Some(Kind::Key)
    } else if is(word, "int") {
        Some(Kind::Int)
    } else if is(word, "text") {
        Some(Kind::Text)
    } else {
        None
    }
}

/// The kind of a column, with room for so many keys.
#[tactic(auto, unfolding(mig_tokens::specs::Reading::token_at, crate::specs::ReadingTokens::kind_at))]
pub(crate) fn kind_of(room: usize, tokens: &[Token]) -> Result<(Kind, &[Token]), ReadError>
    ensures { Gives (λ x. (x.0, x.1.now)) result (kind_at room tokens.now) }
{
    let left = tokens.len();
    match tokens {
        [Token::Word(text), rest @ ..] => {
            let kind = match kind_in(text.as_slice()) {
                Some(kind) => kind,
                None => return Err(ReadError::At { left }),
            };
            match kind_limit(room, kind) {
                Some(which) => Err(ReadError::Limit { which, left }),
                None => Ok((kind, rest)),
            }
        }
        _ => Err(ReadError::At { left }),
    }
}

/// The kind of a parameter.
#[tactic(auto, unfolding(mig_tokens::specs::Reading::token_at, crate::specs::ReadingTokens::param_kind_at))]
pub(crate) fn param_kind_of(tokens: &[Token]) -> Result<(Kind, &[Token]), ReadError>
    ensures { Gives (λ x. (x.0, x.1.now)) result (param_kind_at tokens.now) }
{
    match tokens {
        [Token::Word(text), rest @ ..] => {
            let word = text.as_slice();
            if is(word, "int") {
                Ok((Kind::Int, rest))
            } else if is(word, "text") {
                Ok((Kind::Text, rest))
            } else {
                Err(ReadError::At { left: tokens.len() })
            }
        }
        _ => Err(ReadError::At { left: tokens.len() }),
    }
}
