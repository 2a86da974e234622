// Reading of what is shown of pairs of functions.
ghost use Rattle.std.specs.Prelude.{◌≡◌, codes};
ghost use Rattle.mig_tokens.specs.Forms.{no_room};
ghost use Rattle.mig_tokens.specs.Pieces.{begins_word};
ghost use Rattle.mig_tokens.specs.Given.{Gives};
ghost use Rattle.mig_reading.specs.ReadingPairs.{holds_at, answers_at, claim_at, entry_at, begins_entry, pair_at, pairs_at};

use crate::numbers::number_of;
use crate::tree::Certificates;
use mig_base::Seq;
use mig_certificate::{Claim, Entry, PairProof};
use mig_rules::Step;
use mig_tokens::{Item, ReadError, Token, after_sign, after_word, is_word, many_of, name_of};
use std::alloc::Global;

/// That an invariant holds.
#[tactic(auto, unfolding(crate::specs::ReadingPairs::holds_at))]
fn holds_of(tokens: &[Token]) -> Result<(Claim, &[Token]), ReadError>
    ensures { Gives (λ x. (x.0, x.1.now)) result (holds_at tokens.now) }
{
    let rest = after_word("holds", None, tokens)?;
    let rest = after_sign(" ", rest)?;
    let (invariant, rest) = number_of(None, rest)?;
    Ok((Claim::Holds(invariant), rest))
}

/// That two queries answer alike.
#[tactic(auto, unfolding(crate::specs::ReadingPairs::answers_at))]
fn answers_of(tokens: &[Token]) -> Result<(Claim, &[Token]), ReadError>
    ensures { Gives (λ x. (x.0, x.1.now)) result (answers_at tokens.now) }
{
    let rest = after_word("answers", None, tokens)?;
    Ok((Claim::Answers, rest))
}

/// A claim.
#[tactic(auto, unfolding(mig_tokens::specs::Reading::choice_at))]
fn claim_of(tokens: &[Token]) -> Result<(Claim, &[Token]), ReadError>
    ensures { Gives (λ x. (x.0, x.1.now)) result (claim_at tokens.now) }
{
    match tokens {
        [token, ..] if is_word(token, "holds") => holds_of(tokens),
        _ => answers_of(tokens),
    }
}

impl Item<Certificates> for Entry {
    ghost begun = { begins_entry };

    ghost reads = { entry_at };

    ghost takes = { no_room };

    fn is_begun(token: &Token) -> bool {
        is_word(token, "holds") || is_word(token, "answers")
    }

    fn taken(&self) -> usize {
        0
    }

    #[tactic(auto, unfolding(crate::specs::ReadingPairs::entry_at))]
    fn read(
        alloc: Global,
        _count: usize,
        _room: usize,
        tokens: &[Token],
    ) -> Result<(Entry, &[Token]), ReadError> {
        let (claim, rest) = claim_of(tokens)?;
        let rest = after_sign("\n", rest)?;
        let rest = after_word("old", None, rest)?;
        let rest = after_sign("\n", rest)?;
        let (source, rest) = many_of::<Certificates, Step>(alloc, 0, 0, rest)?;
        let rest = after_word("new", None, rest)?;
        let rest = after_sign("\n", rest)?;
        let (target, rest) = many_of::<Certificates, Step>(alloc, 0, 0, rest)?;
        Ok((
            Entry {
                claim,
                source,
                target,
            },
            rest,
        ))
    }
}

impl Item<Certificates> for PairProof {
    ghost begun = { begins_word (codes "pair") };

    ghost reads = { pair_at };

    ghost takes = { no_room };

    fn is_begun(token: &Token) -> bool {
        is_word(token, "pair")
    }

    fn taken(&self) -> usize {
        0
    }

    #[tactic(auto, unfolding(crate::specs::ReadingPairs::pair_at))]
    fn read(
        alloc: Global,
        _count: usize,
        _room: usize,
        tokens: &[Token],
    ) -> Result<(PairProof, &[Token]), ReadError> {
        let rest = after_word("pair", None, tokens)?;
        let rest = after_sign(" ", rest)?;
        let (name, rest) = name_of(alloc, None, rest)?;
        let rest = after_sign("\n", rest)?;
        let (entries, rest) = many_of::<Certificates, Entry>(alloc, 0, 0, rest)?;
        Ok((PairProof { name, entries }, rest))
    }
}

/// Pairs.
#[tactic(auto, unfolding(crate::specs::ReadingPairs::pairs_at))]
pub(crate) fn pairs_of(
    alloc: Global,
    tokens: &[Token],
) -> Result<(Seq<PairProof>, &[Token]), ReadError>
    ensures { Gives (λ x. (x.0, x.1.now)) result (pairs_at tokens.now) }
{
    many_of::<Certificates, PairProof>(alloc, 0, 0, tokens)
}
