// Reading of what a query selects.
ghost use Rattle.std.specs.Prelude.{◌≡◌, codes};
ghost use Rattle.mig_tokens.specs.Forms.{start, no_room};
ghost use Rattle.mig_tokens.specs.Pieces.{begins_sign, comma_at, listed_at};
ghost use Rattle.mig_grammar.specs.ReadingFunctions.{selected_at, select_at};
ghost use Rattle.mig_tokens.specs.Given.{Gives};

use crate::columns::col_of;
use crate::joins::rows_of;
use crate::tree::{ColName, Jobs, SelectTree};
use mig_base::Seq;
use mig_schema::Limit;
use mig_tokens::{Item, ReadError, Token, after_sign, after_word, is_sign, led_of, over};
use std::alloc::Global;

/// A selected column, with `count` before it.
#[tactic(auto, unfolding(crate::specs::ReadingFunctions::selected_at))]
fn selected_of(
    alloc: Global,
    count: usize,
    room: usize,
    tokens: &[Token],
) -> Result<(ColName, &[Token]), ReadError>
    ensures { Gives (λ x. (x.0, x.1.now)) result (selected_at (count, room) tokens.now) }
{
    col_of(alloc, over(Limit::Selected, 16, count), tokens)
}

/// A selected column behind a comma.
impl Item<Jobs> for ColName {
    ghost begun = { begins_sign (codes ",") };

    ghost reads = { comma_at selected_at };

    ghost takes = { no_room };

    fn is_begun(token: &Token) -> bool {
        is_sign(token, ",")
    }

    fn taken(&self) -> usize {
        0
    }

    #[tactic(auto, unfolding(mig_tokens::specs::Pieces::comma_at))]
    fn read(
        alloc: Global,
        count: usize,
        room: usize,
        tokens: &[Token],
    ) -> Result<(ColName, &[Token]), ReadError> {
        let rest = after_sign(",", tokens)?;
        selected_of(alloc, count, room, rest)
    }
}

/// Selected columns with commas between them: one or more.
#[tactic(auto, unfolding(mig_tokens::specs::Reading::led_at))]
fn selecteds_of(alloc: Global, tokens: &[Token]) -> Result<(Seq<ColName>, &[Token]), ReadError>
    ensures { Gives (λ x. (x.0, x.1.now)) result (listed_at no_room selected_at start tokens.now) }
{
    let (first, rest) = selected_of(alloc, 0, 0, tokens)?;
    led_of::<Jobs, _>(alloc, 0, first, rest)
}

/// The body of a query.
#[tactic(auto, unfolding(crate::specs::ReadingFunctions::select_at))]
pub(crate) fn select_of(
    alloc: Global,
    tokens: &[Token],
) -> Result<(SelectTree, &[Token]), ReadError>
    ensures { Gives (λ x. (x.0, x.1.now)) result (select_at tokens.now) }
{
    let rest = after_word("select", None, tokens)?;
    let (columns, rest) = selecteds_of(alloc, rest)?;
    let rest = after_word("from", None, rest)?;
    let (rows, rest) = rows_of(alloc, rest)?;
    Ok((SelectTree { columns, rows }, rest))
}
