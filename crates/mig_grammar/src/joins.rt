// Reading of joins, and of the rows that a statement works on.
ghost use Rattle.std.specs.Prelude.{◌≡◌, codes};
ghost use Rattle.mig_tokens.specs.Forms.{no_room};
ghost use Rattle.mig_tokens.specs.Pieces.{begins_word};
ghost use Rattle.mig_grammar.specs.ReadingConditions.{joined_at, join_at, rows_at};
ghost use Rattle.mig_tokens.specs.Given.{Gives};

use crate::columns::col_of;
use crate::conditions::where_of;
use crate::tree::{Jobs, JoinTree, JoinedTree, RowsTree};
use mig_schema::Limit;
use mig_tokens::{Item, ReadError, Token, after_sign, after_word, is_word, many_of, name_of, over};
use std::alloc::Global;

impl Item<Jobs> for JoinedTree {
    ghost begun = { begins_word (codes "join") };

    ghost reads = { joined_at };

    ghost takes = { no_room };

    fn is_begun(token: &Token) -> bool {
        is_word(token, "join")
    }

    fn taken(&self) -> usize {
        0
    }

    #[tactic(auto, unfolding(crate::specs::ReadingConditions::joined_at))]
    fn read(
        alloc: Global,
        count: usize,
        _room: usize,
        tokens: &[Token],
    ) -> Result<(JoinedTree, &[Token]), ReadError> {
        let rest = after_word("join", over(Limit::Joined, 4, count), tokens)?;
        let (table, rest) = name_of(alloc, None, rest)?;
        let rest = after_word("on", None, rest)?;
        let (left, rest) = col_of(alloc, None, rest)?;
        let rest = after_sign("=", rest)?;
        let (right, rest) = col_of(alloc, None, rest)?;
        Ok((JoinedTree { table, left, right }, rest))
    }
}

/// A join.
#[tactic(auto, unfolding(crate::specs::ReadingConditions::join_at))]
pub(crate) fn join_of(alloc: Global, tokens: &[Token]) -> Result<(JoinTree, &[Token]), ReadError>
    ensures { Gives (λ x. (x.0, x.1.now)) result (join_at tokens.now) }
{
    let (first, rest) = name_of(alloc, None, tokens)?;
    let (more, rest) = many_of::<Jobs, JoinedTree>(alloc, 1, 0, rest)?;
    Ok((JoinTree { first, more }, rest))
}

/// A join, a `where` or none, and a semicolon.
#[tactic(auto, unfolding(crate::specs::ReadingConditions::rows_at))]
pub(crate) fn rows_of(alloc: Global, tokens: &[Token]) -> Result<(RowsTree, &[Token]), ReadError>
    ensures { Gives (λ x. (x.0, x.1.now)) result (rows_at tokens.now) }
{
    let (join, rest) = join_of(alloc, tokens)?;
    let (cases, rest) = where_of(alloc, rest)?;
    let rest = after_sign(";", rest)?;
    Ok((RowsTree { join, cases }, rest))
}
