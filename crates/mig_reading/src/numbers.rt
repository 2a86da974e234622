// Reading of numbers.
ghost use Rattle.std.specs.Prelude.{◌≡◌};
ghost use Rattle.mig_tokens.specs.Given.{Gives};
ghost use Rattle.mig_reading.specs.ReadingWords as part;

use itoa::Buffer;
use mig_base::number_within;
use mig_schema::Limit;
use mig_tokens::{ReadError, Token};

/// The number that the bytes spell, where they are its decimal digits and it is below 2^32.
fn number_in(digits: &[u8]) -> Option<u32>
    ensures { result ≡ part.number_in digits.now }
{
    let value = number_within(4294967295, digits)?;
    if Buffer::new().format(value).as_bytes() == digits {
        Some(value as u32)
    } else {
        None
    }
}

/// A number, which may pass a limit.
#[tactic(auto, unfolding(mig_tokens::specs::Reading::token_at, crate::specs::ReadingWords::number_at))]
pub(crate) fn number_of(
    limit: Option<Limit>,
    tokens: &[Token],
) -> Result<(u32, &[Token]), ReadError>
    ensures { Gives (λ x. (x.0, x.1.now)) result (part.number_at limit tokens.now) }
{
    let left = tokens.len();
    match tokens {
        [Token::Int(text), rest @ ..] => {
            let number = match number_in(text.as_slice()) {
                Some(number) => number,
                None => return Err(ReadError::At { left }),
            };
            match limit {
                Some(which) => Err(ReadError::Limit { which, left }),
                None => Ok((number, rest)),
            }
        }
        _ => Err(ReadError::At { left }),
    }
}
