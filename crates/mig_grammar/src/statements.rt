// Reading of statements.
ghost use Rattle.std.specs.Prelude.{◌≡◌, codes};
ghost use Rattle.mig_tokens.specs.Forms.{no_room};
ghost use Rattle.mig_grammar.specs.ReadingFunctions.{begins_stmt, insert_at, delete_at, set_at, stmt_at, stmts_at};
ghost use Rattle.mig_tokens.specs.Given.{Gives};

use crate::assigns::{assigns_of, deleteds_of};
use crate::columns::col_of;
use crate::joins::{join_of, rows_of};
use crate::scalars::scalar_of;
use crate::tree::{Jobs, StmtTree};
use mig_base::Seq;
use mig_schema::Limit;
use mig_tokens::{Item, ReadError, Token, after_sign, after_word, is_word, led_of, over};
use std::alloc::Global;

/// An insert, with `count` statements before it.
#[tactic(auto, unfolding(crate::specs::ReadingFunctions::insert_at))]
fn insert_of(
    alloc: Global,
    count: usize,
    room: usize,
    tokens: &[Token],
) -> Result<(StmtTree, &[Token]), ReadError>
    ensures { Gives (λ x. (x.0, x.1.now)) result (insert_at (count, room) tokens.now) }
{
    let rest = after_word("insert", over(Limit::Statements, 4, count), tokens)?;
    let rest = after_word("into", None, rest)?;
    let (join, rest) = join_of(alloc, rest)?;
    let rest = after_sign("{", rest)?;
    let (values, rest) = assigns_of(alloc, rest)?;
    let rest = after_sign("}", rest)?;
    let rest = after_sign(";", rest)?;
    Ok((StmtTree::Insert { join, values }, rest))
}

/// A delete, with `count` statements before it.
#[tactic(auto, unfolding(crate::specs::ReadingFunctions::delete_at))]
fn delete_of(
    alloc: Global,
    count: usize,
    room: usize,
    tokens: &[Token],
) -> Result<(StmtTree, &[Token]), ReadError>
    ensures { Gives (λ x. (x.0, x.1.now)) result (delete_at (count, room) tokens.now) }
{
    let rest = after_word("delete", over(Limit::Statements, 4, count), tokens)?;
    let (tables, rest) = deleteds_of(alloc, rest)?;
    let rest = after_word("from", None, rest)?;
    let (rows, rest) = rows_of(alloc, rest)?;
    Ok((StmtTree::Delete { tables, rows }, rest))
}

/// A set, with `count` statements before it.
#[tactic(auto, unfolding(crate::specs::ReadingFunctions::set_at))]
fn set_of(
    alloc: Global,
    count: usize,
    room: usize,
    tokens: &[Token],
) -> Result<(StmtTree, &[Token]), ReadError>
    ensures { Gives (λ x. (x.0, x.1.now)) result (set_at (count, room) tokens.now) }
{
    let rest = after_word("set", over(Limit::Statements, 4, count), tokens)?;
    let (column, rest) = col_of(alloc, None, rest)?;
    let rest = after_sign("=", rest)?;
    let (value, rest) = scalar_of(alloc, None, rest)?;
    let rest = after_word("in", None, rest)?;
    let (rows, rest) = rows_of(alloc, rest)?;
    Ok((
        StmtTree::Set {
            column,
            value,
            rows,
        },
        rest,
    ))
}

impl Item<Jobs> for StmtTree {
    ghost begun = { begins_stmt };

    ghost reads = { stmt_at };

    ghost takes = { no_room };

    fn is_begun(token: &Token) -> bool {
        is_word(token, "insert") || is_word(token, "delete") || is_word(token, "set")
    }

    fn taken(&self) -> usize {
        0
    }

    #[tactic(auto, unfolding(mig_tokens::specs::Reading::choice_at))]
    fn read(
        alloc: Global,
        count: usize,
        room: usize,
        tokens: &[Token],
    ) -> Result<(StmtTree, &[Token]), ReadError> {
        match tokens {
            [token, ..] if is_word(token, "insert") => insert_of(alloc, count, room, tokens),
            [token, ..] if is_word(token, "delete") => delete_of(alloc, count, room, tokens),
            _ => set_of(alloc, count, room, tokens),
        }
    }
}

/// The statements of an update: one or more.
#[tactic(auto, unfolding(mig_tokens::specs::Reading::led_at))]
pub(crate) fn stmts_of(
    alloc: Global,
    tokens: &[Token],
) -> Result<(Seq<StmtTree>, &[Token]), ReadError>
    ensures { Gives (λ x. (x.0, x.1.now)) result (stmts_at tokens.now) }
{
    let (first, rest) = StmtTree::read(alloc, 0, 0, tokens)?;
    led_of::<Jobs, _>(alloc, 0, first, rest)
}
