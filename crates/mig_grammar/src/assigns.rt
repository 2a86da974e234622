// Reading of the values of an insert, and of the tables of a delete.
ghost use Rattle.std.specs.Prelude.{◌≡◌, codes};
ghost use Rattle.mig_tokens.specs.Forms.{start, no_room};
ghost use Rattle.mig_tokens.specs.Pieces.{begins_sign, comma_at, listed_at};
ghost use Rattle.mig_grammar.specs.ReadingFunctions.{assign_at, deleted_at};
ghost use Rattle.mig_tokens.specs.Given.{Gives};

use crate::columns::col_of;
use crate::conditions::value_of;
use crate::tree::{AssignTree, Jobs};
use mig_base::{Seq, Txt};
use mig_tokens::{Item, ReadError, Token, after_sign, is_sign, led_of, name_of};
use std::alloc::Global;

/// A column and its value.
#[tactic(auto, unfolding(crate::specs::ReadingFunctions::assign_at))]
fn assign_of(
    alloc: Global,
    count: usize,
    room: usize,
    tokens: &[Token],
) -> Result<(AssignTree, &[Token]), ReadError>
    ensures { Gives (λ x. (x.0, x.1.now)) result (assign_at (count, room) tokens.now) }
{
    let (column, rest) = col_of(alloc, None, tokens)?;
    let rest = after_sign("=", rest)?;
    let (value, rest) = value_of(alloc, rest)?;
    Ok((AssignTree { column, value }, rest))
}

/// A column and its value behind a comma.
impl Item<Jobs> for AssignTree {
    ghost begun = { begins_sign (codes ",") };

    ghost reads = { comma_at assign_at };

    ghost takes = { no_room };

    fn is_begun(token: &Token) -> bool {
        is_sign(token, ",")
    }

    fn taken(&self) -> usize {
        0
    }

    #[tactic(auto, unfolding(mig_tokens::specs::Pieces::comma_at))]
    fn read(
        alloc: Global,
        count: usize,
        room: usize,
        tokens: &[Token],
    ) -> Result<(AssignTree, &[Token]), ReadError> {
        let rest = after_sign(",", tokens)?;
        assign_of(alloc, count, room, rest)
    }
}

/// Columns and their values with commas between them: one or more.
#[tactic(auto, unfolding(mig_tokens::specs::Reading::led_at))]
pub(crate) fn assigns_of(
    alloc: Global,
    tokens: &[Token],
) -> Result<(Seq<AssignTree>, &[Token]), ReadError>
    ensures { Gives (λ x. (x.0, x.1.now)) result (listed_at no_room assign_at start tokens.now) }
{
    let (first, rest) = assign_of(alloc, 0, 0, tokens)?;
    led_of::<Jobs, _>(alloc, 0, first, rest)
}

/// A table that is deleted from.
#[tactic(auto, unfolding(crate::specs::ReadingFunctions::deleted_at))]
fn deleted_of(
    alloc: Global,
    count: usize,
    room: usize,
    tokens: &[Token],
) -> Result<(Txt, &[Token]), ReadError>
    ensures { Gives (λ x. (x.0, x.1.now)) result (deleted_at (count, room) tokens.now) }
{
    name_of(alloc, None, tokens)
}

/// A table that is deleted from, behind a comma.
impl Item<Jobs> for Txt {
    ghost begun = { begins_sign (codes ",") };

    ghost reads = { comma_at deleted_at };

    ghost takes = { no_room };

    fn is_begun(token: &Token) -> bool {
        is_sign(token, ",")
    }

    fn taken(&self) -> usize {
        0
    }

    #[tactic(auto, unfolding(mig_tokens::specs::Pieces::comma_at))]
    fn read(
        alloc: Global,
        count: usize,
        room: usize,
        tokens: &[Token],
    ) -> Result<(Txt, &[Token]), ReadError> {
        let rest = after_sign(",", tokens)?;
        deleted_of(alloc, count, room, rest)
    }
}

/// Tables that are deleted from, with commas between them: one or more.
#[tactic(auto, unfolding(mig_tokens::specs::Reading::led_at))]
pub(crate) fn deleteds_of(
    alloc: Global,
    tokens: &[Token],
) -> Result<(Seq<Txt>, &[Token]), ReadError>
    ensures { Gives (λ x. (x.0, x.1.now)) result (listed_at no_room deleted_at start tokens.now) }
{
    let (first, rest) = deleted_of(alloc, 0, 0, tokens)?;
    led_of::<Jobs, _>(alloc, 0, first, rest)
}
