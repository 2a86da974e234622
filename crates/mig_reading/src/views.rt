// Reading of views.
ghost use Rattle.std.specs.Prelude.{◌≡◌, codes};
ghost use Rattle.mig_tokens.specs.Forms.{no_room};
ghost use Rattle.mig_tokens.specs.Pieces.{begins_sign, begins_word};
ghost use Rattle.mig_tokens.specs.Given.{Gives};
ghost use Rattle.mig_reading.specs.ReadingFacts.{out_at, more_out_at, outs_at, joined_at, view_at};

use crate::columns::col_of;
use crate::tree::{Certificates, ViewTree};
use mig_base::Seq;
use mig_grammar::{ColName, JoinTree, JoinedTree};
use mig_schema::Limit;
use mig_tokens::{
    Item, ReadError, Token, after_sign, after_word, is_sign, is_word, led_of, many_of, name_of,
    over,
};
use std::alloc::Global;

/// An output, with `count` before it.
#[tactic(auto, unfolding(crate::specs::ReadingFacts::out_at))]
fn out_of(
    alloc: Global,
    count: usize,
    room: usize,
    tokens: &[Token],
) -> Result<(ColName, &[Token]), ReadError>
    ensures { Gives (λ x. (x.0, x.1.now)) result (out_at (count, room) tokens.now) }
{
    col_of(alloc, over(Limit::Outs, 256, count), tokens)
}

/// An output behind a comma and a space.
impl Item<Certificates> for ColName {
    ghost begun = { begins_sign (codes ",") };

    ghost reads = { more_out_at };

    ghost takes = { no_room };

    fn is_begun(token: &Token) -> bool {
        is_sign(token, ",")
    }

    fn taken(&self) -> usize {
        0
    }

    #[tactic(auto, unfolding(crate::specs::ReadingFacts::more_out_at))]
    fn read(
        alloc: Global,
        count: usize,
        room: usize,
        tokens: &[Token],
    ) -> Result<(ColName, &[Token]), ReadError> {
        let rest = after_sign(",", tokens)?;
        let rest = after_sign(" ", rest)?;
        out_of(alloc, count, room, rest)
    }
}

/// Outputs: one or more.
#[tactic(auto, unfolding(mig_tokens::specs::Reading::led_at))]
fn outs_of(alloc: Global, tokens: &[Token]) -> Result<(Seq<ColName>, &[Token]), ReadError>
    ensures { Gives (λ x. (x.0, x.1.now)) result (outs_at tokens.now) }
{
    let (first, rest) = out_of(alloc, 0, 0, tokens)?;
    led_of::<Certificates, _>(alloc, 0, first, rest)
}

/// A further table of a join, and the space behind it.
impl Item<Certificates> for JoinedTree {
    ghost begun = { begins_word (codes "join") };

    ghost reads = { joined_at };

    ghost takes = { no_room };

    fn is_begun(token: &Token) -> bool {
        is_word(token, "join")
    }

    fn taken(&self) -> usize {
        0
    }

    #[tactic(auto, unfolding(crate::specs::ReadingFacts::joined_at))]
    fn read(
        alloc: Global,
        count: usize,
        _room: usize,
        tokens: &[Token],
    ) -> Result<(JoinedTree, &[Token]), ReadError> {
        let rest = after_word("join", over(Limit::Joined, 4, count), tokens)?;
        let rest = after_sign(" ", rest)?;
        let (table, rest) = name_of(alloc, None, rest)?;
        let rest = after_sign(" ", rest)?;
        let rest = after_word("on", None, rest)?;
        let rest = after_sign(" ", rest)?;
        let (left, rest) = col_of(alloc, None, rest)?;
        let rest = after_sign(" ", rest)?;
        let rest = after_sign("=", rest)?;
        let rest = after_sign(" ", rest)?;
        let (right, rest) = col_of(alloc, None, rest)?;
        let rest = after_sign(" ", rest)?;
        Ok((JoinedTree { table, left, right }, rest))
    }
}

/// A view.
#[tactic(auto, unfolding(crate::specs::ReadingFacts::view_at))]
pub(crate) fn view_of(alloc: Global, tokens: &[Token]) -> Result<(ViewTree, &[Token]), ReadError>
    ensures { Gives (λ x. (x.0, x.1.now)) result (view_at tokens.now) }
{
    let (first, rest) = name_of(alloc, None, tokens)?;
    let rest = after_sign(" ", rest)?;
    let (more, rest) = many_of::<Certificates, JoinedTree>(alloc, 1, 0, rest)?;
    let rest = after_sign("{", rest)?;
    let rest = after_sign(" ", rest)?;
    let (outs, rest) = outs_of(alloc, rest)?;
    let rest = after_sign(" ", rest)?;
    let rest = after_sign("}", rest)?;
    let join = JoinTree { first, more };
    Ok((ViewTree { join, outs }, rest))
}
