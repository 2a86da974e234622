// Reading of scalars, comparisons and conditions.
ghost use Rattle.std.specs.Prelude.{◌≡◌, codes, length, List};
ghost use Rattle.mig_grammar.specs.declared.tree.CmpTree.{CmpTree};
ghost use Rattle.mig_grammar.specs.Spelling.{one_each};
ghost use Rattle.mig_tokens.specs.Pieces.{begins_word};
ghost use Rattle.mig_grammar.specs.ReadingConditions.{value_at, fresh_at, scalar_value_at, col_behind_at, item_behind_at, item_at, cmp_at, and_at, case_at, or_at, cases_at, where_at};
ghost use Rattle.mig_tokens.specs.Given.{Gives};

use crate::kinds::op_of;
use crate::scalars::{scalar_of, written_label};
use crate::tree::{CmpTree, ColName, ItemTree, Jobs, ScalarTree, ValueTree};
use mig_base::{Seq, Txt};
use mig_schema::Limit;
use mig_tokens::{
    Item, ReadError, Token, after_sign, after_word, full, is_sign, is_word, led_of, name_of, over,
};
use std::alloc::Global;

/// A fresh key.
#[tactic(auto, unfolding(crate::specs::ReadingConditions::fresh_at))]
fn fresh_of(alloc: Global, tokens: &[Token]) -> Result<(ValueTree, &[Token]), ReadError>
    ensures { Gives (λ x. (x.0, x.1.now)) result (fresh_at tokens.now) }
{
    let rest = after_word("fresh", None, tokens)?;
    let (label, rest) = written_label(alloc, rest)?;
    Ok((ValueTree::Fresh(label), rest))
}

/// A scalar as a value.
#[tactic(auto, unfolding(crate::specs::ReadingConditions::scalar_value_at))]
fn scalar_value_of(alloc: Global, tokens: &[Token]) -> Result<(ValueTree, &[Token]), ReadError>
    ensures { Gives (λ x. (x.0, x.1.now)) result (scalar_value_at tokens.now) }
{
    let (scalar, rest) = scalar_of(alloc, None, tokens)?;
    Ok((ValueTree::Scalar(scalar), rest))
}

/// A value for a column.
#[tactic(auto, unfolding(mig_tokens::specs::Reading::choice_at))]
pub(crate) fn value_of(alloc: Global, tokens: &[Token]) -> Result<(ValueTree, &[Token]), ReadError>
    ensures { Gives (λ x. (x.0, x.1.now)) result (value_at tokens.now) }
{
    match tokens {
        [token, ..] if is_word(token, "fresh") => fresh_of(alloc, tokens),
        _ => scalar_value_of(alloc, tokens),
    }
}

/// What stands behind the first name of a column.
#[tactic(auto, unfolding(crate::specs::ReadingConditions::col_behind_at))]
fn col_behind(
    alloc: Global,
    table: Txt,
    tokens: &[Token],
) -> Result<(ItemTree, &[Token]), ReadError>
    ensures { Gives (λ x. (x.0, x.1.now)) result (col_behind_at table tokens.now) }
{
    let rest = after_sign(".", tokens)?;
    let (column, rest) = name_of(alloc, None, rest)?;
    Ok((ItemTree::Col(ColName { table, column }), rest))
}

/// What stands behind the first token of an item.
#[tactic(auto, unfolding(mig_tokens::specs::Reading::choice_at))]
fn item_behind(
    alloc: Global,
    first: ScalarTree,
    tokens: &[Token],
) -> Result<(ItemTree, &[Token]), ReadError>
    ensures { Gives (λ x. (x.0, x.1.now)) result (item_behind_at first tokens.now) }
{
    match first {
        ScalarTree::Name(name) => match tokens {
            [token, ..] if is_sign(token, ".") => col_behind(alloc, name, tokens),
            _ => Ok((ItemTree::Scalar(ScalarTree::Name(name)), tokens)),
        },
        ScalarTree::Int(int) => Ok((ItemTree::Scalar(ScalarTree::Int(int)), tokens)),
        ScalarTree::Text(text) => Ok((ItemTree::Scalar(ScalarTree::Text(text)), tokens)),
    }
}

/// A side of a comparison, which may pass a limit at its first token.
#[tactic(auto, unfolding(crate::specs::ReadingConditions::item_at))]
fn item_of(
    alloc: Global,
    limit: Option<Limit>,
    tokens: &[Token],
) -> Result<(ItemTree, &[Token]), ReadError>
    ensures { Gives (λ x. (x.0, x.1.now)) result (item_at limit tokens.now) }
{
    let (first, rest) = scalar_of(alloc, limit, tokens)?;
    item_behind(alloc, first, rest)
}

/// A comparison, with room for so many in its condition.
#[tactic(auto, unfolding(crate::specs::ReadingConditions::cmp_at))]
fn cmp_of(
    alloc: Global,
    count: usize,
    room: usize,
    tokens: &[Token],
) -> Result<(CmpTree, &[Token]), ReadError>
    ensures { Gives (λ x. (x.0, x.1.now)) result (cmp_at (count, room) tokens.now) }
{
    let (left, rest) = item_of(alloc, full(Limit::Comparisons, room), tokens)?;
    let (op, rest) = op_of(rest)?;
    let (right, rest) = item_of(alloc, None, rest)?;
    Ok((CmpTree { left, op, right }, rest))
}

/// A comparison behind an `and`.
impl Item<Jobs> for CmpTree {
    ghost begun = { begins_word (codes "and") };

    ghost reads = { and_at };

    ghost takes = { one_each };

    fn is_begun(token: &Token) -> bool {
        is_word(token, "and")
    }

    fn taken(&self) -> usize {
        1
    }

    #[tactic(auto, unfolding(crate::specs::ReadingConditions::and_at))]
    fn read(
        alloc: Global,
        count: usize,
        room: usize,
        tokens: &[Token],
    ) -> Result<(CmpTree, &[Token]), ReadError> {
        let rest = after_word("and", None, tokens)?;
        cmp_of(alloc, count, room, rest)
    }
}

/// A case of a condition, which has room for so many comparisons.
#[tactic(auto, unfolding(mig_tokens::specs::Reading::led_at, crate::specs::ReadingConditions::case_at))]
fn case_of(
    alloc: Global,
    count: usize,
    room: usize,
    tokens: &[Token],
) -> Result<(Seq<CmpTree>, &[Token]), ReadError>
    ensures { Gives (λ x. (x.0, x.1.now)) result (case_at (count, room) tokens.now) }
{
    let (first, rest) = cmp_of(alloc, 0, room, tokens)?;
    led_of::<Jobs, _>(alloc, room, first, rest)
}

/// A case behind an `or`.
impl Item<Jobs> for Seq<CmpTree> {
    ghost begun = { begins_word (codes "or") };

    ghost reads = { or_at };

    ghost takes = { length };

    fn is_begun(token: &Token) -> bool {
        is_word(token, "or")
    }

    fn taken(&self) -> usize {
        self.len()
    }

    #[tactic(auto, unfolding(crate::specs::ReadingConditions::or_at))]
    fn read(
        alloc: Global,
        count: usize,
        room: usize,
        tokens: &[Token],
    ) -> Result<(Seq<CmpTree>, &[Token]), ReadError> {
        let rest = after_word("or", over(Limit::Cases, 16, count), tokens)?;
        case_of(alloc, count, room, rest)
    }
}

/// A `where`, with room for 16 comparisons.
#[tactic(auto, unfolding(mig_tokens::specs::Reading::led_at, crate::specs::ReadingConditions::cases_at))]
fn cases_of(alloc: Global, tokens: &[Token]) -> Result<(Seq<Seq<CmpTree>>, &[Token]), ReadError>
    ensures { Gives (λ x. (x.0, x.1.now)) result (cases_at tokens.now) }
{
    let rest = after_word("where", None, tokens)?;
    let (first, rest) = case_of(alloc, 0, 16, rest)?;
    led_of::<Jobs, _>(alloc, 16, first, rest)
}

/// The cases of a `where`; no case where there is none.
#[tactic(auto, unfolding(mig_tokens::specs::Reading::choice_at))]
pub(crate) fn where_of(
    alloc: Global,
    tokens: &[Token],
) -> Result<(Seq<Seq<CmpTree>>, &[Token]), ReadError>
    ensures { Gives (λ x. (x.0, x.1.now)) result (where_at tokens.now) }
{
    match tokens {
        [token, ..] if is_word(token, "where") => cases_of(alloc, tokens),
        _ => Ok((Seq::new(alloc), tokens)),
    }
}
