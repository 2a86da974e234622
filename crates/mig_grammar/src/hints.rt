// Reading of hints.
ghost use Rattle.std.specs.Prelude.{◌≡◌, codes};
ghost use Rattle.mig_tokens.specs.Forms.{no_room};
ghost use Rattle.mig_tokens.specs.Pieces.{begins_word};
ghost use Rattle.mig_tokens.specs.Given.{Gives};
ghost use Rattle.mig_grammar.specs.ReadingJobs.{hint_at, some_hints_at, hints_at};

use crate::columns::col_of;
use crate::scalars::written_weight;
use crate::tree::{HintTree, Jobs};
use mig_base::Seq;
use mig_schema::Limit;
use mig_tokens::{Item, ReadError, Token, after_sign, after_word, is_word, many_of, over};
use std::alloc::Global;

impl Item<Jobs> for HintTree {
    ghost begun = { begins_word (codes "hint") };

    ghost reads = { hint_at };

    ghost takes = { no_room };

    fn is_begun(token: &Token) -> bool {
        is_word(token, "hint")
    }

    fn taken(&self) -> usize {
        0
    }

    #[tactic(auto, unfolding(crate::specs::ReadingJobs::hint_at))]
    fn read(
        alloc: Global,
        count: usize,
        _room: usize,
        tokens: &[Token],
    ) -> Result<(HintTree, &[Token]), ReadError> {
        let rest = after_word("hint", over(Limit::Hints, 256, count), tokens)?;
        let (source, rest) = col_of(alloc, None, rest)?;
        let rest = after_sign("->", rest)?;
        let (target, rest) = col_of(alloc, None, rest)?;
        let (weight, rest) = written_weight(alloc, rest)?;
        let rest = after_sign(";", rest)?;
        Ok((
            HintTree {
                source,
                target,
                weight,
            },
            rest,
        ))
    }
}

/// The word `hints`, and hints.
#[tactic(auto, unfolding(crate::specs::ReadingJobs::some_hints_at))]
fn some_hints(
    alloc: Global,
    tokens: &[Token],
) -> Result<(Option<Seq<HintTree>>, &[Token]), ReadError>
    ensures { Gives (λ x. (x.0, x.1.now)) result (some_hints_at tokens.now) }
{
    let rest = after_word("hints", None, tokens)?;
    let (hints, rest) = many_of::<Jobs, HintTree>(alloc, 0, 0, rest)?;
    Ok((Some(hints), rest))
}

/// The hints; none where the word `hints` is left out.
#[tactic(auto, unfolding(mig_tokens::specs::Reading::choice_at))]
pub(crate) fn hints_of(
    alloc: Global,
    tokens: &[Token],
) -> Result<(Option<Seq<HintTree>>, &[Token]), ReadError>
    ensures { Gives (λ x. (x.0, x.1.now)) result (hints_at tokens.now) }
{
    match tokens {
        [token, ..] if is_word(token, "hints") => some_hints(alloc, tokens),
        _ => Ok((None, tokens)),
    }
}
