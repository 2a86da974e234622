// Reading of sides, relations and rules.
ghost use Rattle.std.specs.Prelude.{◌≡◌};
ghost use Rattle.mig_tokens.specs.Given.{Gives};
ghost use Rattle.mig_reading.specs.ReadingWords as part;

use crate::tree::Relation;
use mig_rules::Rule;
use mig_schema::{Limit, Side};
use mig_tokens::{ReadError, Token, is};

/// The side that a word says, where it says one.
fn side_in(word: &[u8]) -> Option<Side>
    ensures { result ≡ part.side_of word.now }
{
    if is(word, "old") {
        Some(Side::Old)
    } else if is(word, "new") {
        Some(Side::New)
    } else {
        None
    }
}

/// A side.
#[tactic(auto, unfolding(mig_tokens::specs::Reading::token_at, crate::specs::ReadingWords::side_at))]
pub(crate) fn side_of(tokens: &[Token]) -> Result<(Side, &[Token]), ReadError>
    ensures { Gives (λ x. (x.0, x.1.now)) result (part.side_at tokens.now) }
{
    let left = tokens.len();
    match tokens {
        [Token::Word(text), rest @ ..] => match side_in(text.as_slice()) {
            Some(side) => Ok((side, rest)),
            None => Err(ReadError::At { left }),
        },
        _ => Err(ReadError::At { left }),
    }
}

/// The relation that a word says, where it says one.
fn relation_in(word: &[u8]) -> Option<Relation>
    ensures { result ≡ part.relation_of word.now }
{
    if is(word, "apart") {
        Some(Relation::Apart)
    } else if is(word, "within") {
        Some(Relation::Within)
    } else {
        None
    }
}

/// A relation of two columns, which may pass a limit.
#[tactic(auto, unfolding(mig_tokens::specs::Reading::token_at, crate::specs::ReadingWords::relation_at))]
pub(crate) fn relation_of(
    limit: Option<Limit>,
    tokens: &[Token],
) -> Result<(Relation, &[Token]), ReadError>
    ensures { Gives (λ x. (x.0, x.1.now)) result (part.relation_at limit tokens.now) }
{
    let left = tokens.len();
    match tokens {
        [Token::Word(text), rest @ ..] => {
            let relation = match relation_in(text.as_slice()) {
                Some(relation) => relation,
                None => return Err(ReadError::At { left }),
            };
            match limit {
                Some(which) => Err(ReadError::Limit { which, left }),
                None => Ok((relation, rest)),
            }
        }
        _ => Err(ReadError::At { left }),
    }
}

/// The rule that a word says, where it says one from `alone` on.
fn later_rule_in(word: &[u8]) -> Option<Rule>
    ensures { result ≡ part.later_rule_of word.now }
{
    if is(word, "alone") {
        Some(Rule::Alone)
    } else if is(word, "inside") {
        Some(Rule::Inside)
    } else if is(word, "never") {
        Some(Rule::Never)
    } else if is(word, "merge") {
        Some(Rule::Merge)
    } else if is(word, "apart") {
        Some(Rule::Apart)
    } else if is(word, "lossless") {
        Some(Rule::Lossless)
    } else if is(word, "fold") {
        Some(Rule::Fold)
    } else if is(word, "foldin") {
        Some(Rule::FoldIn)
    } else if is(word, "rejoin") {
        Some(Rule::Rejoin)
    } else {
        None
    }
}

/// The rule that a word says, where it says one.
fn rule_in(word: &[u8]) -> Option<Rule>
    ensures { result ≡ part.rule_of word.now }
{
    if is(word, "stage") {
        Some(Rule::Stage)
    } else if is(word, "stagein") {
        Some(Rule::StageIn)
    } else if is(word, "dead") {
        Some(Rule::Dead)
    } else if is(word, "same") {
        Some(Rule::Same)
    } else if is(word, "implied") {
        Some(Rule::Implied)
    } else if is(word, "lift") {
        Some(Rule::Lift)
    } else if is(word, "split") {
        Some(Rule::Split)
    } else if is(word, "found") {
        Some(Rule::Found)
    } else {
        later_rule_in(word)
    }
}

/// Whether the piece is a rule.
pub(crate) fn is_rule(token: &Token) -> bool
    ensures { result ≡ part.begins_rule token.now }
{
    match token {
        Token::Word(text) => rule_in(text.as_slice()).is_some(),
        _ => false,
    }
}

/// A rule, which may pass a limit.
#[tactic(auto, unfolding(mig_tokens::specs::Reading::token_at, crate::specs::ReadingWords::rule_at))]
pub(crate) fn rule_of(limit: Option<Limit>, tokens: &[Token]) -> Result<(Rule, &[Token]), ReadError>
    ensures { Gives (λ x. (x.0, x.1.now)) result (part.rule_at limit tokens.now) }
{
    let left = tokens.len();
    match tokens {
        [Token::Word(text), rest @ ..] => {
            let rule = match rule_in(text.as_slice()) {
                Some(rule) => rule,
                None => return Err(ReadError::At { left }),
            };
            match limit {
                Some(which) => Err(ReadError::Limit { which, left }),
                None => Ok((rule, rest)),
            }
        }
        _ => Err(ReadError::At { left }),
    }
}
