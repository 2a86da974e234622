// Reading of invariants, a line each.
ghost use Rattle.std.specs.Prelude.{◌≡◌, codes};
ghost use Rattle.mig_tokens.specs.Forms.{no_room};
ghost use Rattle.mig_tokens.specs.Given.{Gives};
ghost use Rattle.mig_reading.specs.ReadingFacts.{views_at, unique_at, columns_at, fact_at, begins_fact, facts_at};

use crate::columns::col_of;
use crate::tree::{Certificates, FactTree};
use crate::views::view_of;
use crate::words::{relation_of, side_of};
use mig_base::Seq;
use mig_schema::Limit;
use mig_tokens::{Item, ReadError, Token, after_sign, after_word, is_word, many_of, over};
use std::alloc::Global;

/// Two views, with `count` invariants before them.
#[tactic(auto, unfolding(crate::specs::ReadingFacts::views_at))]
fn views_of(
    alloc: Global,
    count: usize,
    room: usize,
    tokens: &[Token],
) -> Result<(FactTree, &[Token]), ReadError>
    ensures { Gives (λ x. (x.0, x.1.now)) result (views_at (count, room) tokens.now) }
{
    let rest = after_word("view", over(Limit::Invariants, 4096, count), tokens)?;
    let rest = after_sign(" ", rest)?;
    let (source, rest) = view_of(alloc, rest)?;
    let rest = after_sign(" ", rest)?;
    let rest = after_word("is", None, rest)?;
    let rest = after_sign(" ", rest)?;
    let (target, rest) = view_of(alloc, rest)?;
    let rest = after_sign(";", rest)?;
    let rest = after_sign("\n", rest)?;
    Ok((FactTree::Views { source, target }, rest))
}

/// A column whose values are unique, with `count` invariants before it.
#[tactic(auto, unfolding(crate::specs::ReadingFacts::unique_at))]
fn unique_of(
    alloc: Global,
    count: usize,
    room: usize,
    tokens: &[Token],
) -> Result<(FactTree, &[Token]), ReadError>
    ensures { Gives (λ x. (x.0, x.1.now)) result (unique_at (count, room) tokens.now) }
{
    let rest = after_word("unique", over(Limit::Invariants, 4096, count), tokens)?;
    let rest = after_sign(" ", rest)?;
    let (side, rest) = side_of(rest)?;
    let rest = after_sign(" ", rest)?;
    let (column, rest) = col_of(alloc, None, rest)?;
    let rest = after_sign(";", rest)?;
    let rest = after_sign("\n", rest)?;
    Ok((FactTree::Unique { side, column }, rest))
}

/// Two columns that are related, with `count` invariants before them.
#[tactic(auto, unfolding(crate::specs::ReadingFacts::columns_at))]
fn columns_of(
    alloc: Global,
    count: usize,
    room: usize,
    tokens: &[Token],
) -> Result<(FactTree, &[Token]), ReadError>
    ensures { Gives (λ x. (x.0, x.1.now)) result (columns_at (count, room) tokens.now) }
{
    let (relation, rest) = relation_of(over(Limit::Invariants, 4096, count), tokens)?;
    let rest = after_sign(" ", rest)?;
    let (side, rest) = side_of(rest)?;
    let rest = after_sign(" ", rest)?;
    let (left, rest) = col_of(alloc, None, rest)?;
    let rest = after_sign(" ", rest)?;
    let (right, rest) = col_of(alloc, None, rest)?;
    let rest = after_sign(";", rest)?;
    let rest = after_sign("\n", rest)?;
    Ok((
        FactTree::Columns {
            relation,
            side,
            left,
            right,
        },
        rest,
    ))
}

impl Item<Certificates> for FactTree {
    ghost begun = { begins_fact };

    ghost reads = { fact_at };

    ghost takes = { no_room };

    fn is_begun(token: &Token) -> bool {
        is_word(token, "view")
            || is_word(token, "unique")
            || is_word(token, "apart")
            || is_word(token, "within")
    }

    fn taken(&self) -> usize {
        0
    }

    #[tactic(auto, unfolding(mig_tokens::specs::Reading::choice_at))]
    fn read(
        alloc: Global,
        count: usize,
        room: usize,
        tokens: &[Token],
    ) -> Result<(FactTree, &[Token]), ReadError> {
        match tokens {
            [token, ..] if is_word(token, "view") => views_of(alloc, count, room, tokens),
            [token, ..] if is_word(token, "unique") => unique_of(alloc, count, room, tokens),
            _ => columns_of(alloc, count, room, tokens),
        }
    }
}

/// Invariants.
#[tactic(auto, unfolding(crate::specs::ReadingFacts::facts_at))]
pub(crate) fn facts_of(
    alloc: Global,
    tokens: &[Token],
) -> Result<(Seq<FactTree>, &[Token]), ReadError>
    ensures { Gives (λ x. (x.0, x.1.now)) result (facts_at tokens.now) }
{
    many_of::<Certificates, FactTree>(alloc, 0, 0, tokens)
}
