// Reading of schemas.
ghost use Rattle.std.specs.Prelude.{◌≡◌, codes};
ghost use Rattle.std.specs.List.{count_by};
ghost use Rattle.mig_grammar.specs.Spelling as spell;
ghost use Rattle.mig_grammar.specs.Spelling.{keys_of, key_of};
ghost use Rattle.mig_tokens.specs.Forms.{no_room};
ghost use Rattle.mig_tokens.specs.Pieces.{begins_sign, begins_word, comma_at, listed_at};
ghost use Rattle.mig_grammar.specs.ReadingSchemas.{column_at, link_at, schema_at, table_at};
ghost use Rattle.mig_tokens.specs.Given.{Gives};

use crate::columns::col_of;
use crate::kinds::kind_of;
use crate::marks::is_key_kind;
use crate::tree::{Jobs, LinkTree, SchemaTree};
use mig_base::Seq;
use mig_schema::{Column, Limit, Table};
use mig_tokens::{
    Item, ReadError, Token, after_sign, after_word, is_sign, is_word, led_of, many_of, name_of,
    over,
};
use std::alloc::Global;

/// Whether a column is of kind key.
fn is_key(column: &Column) -> bool
    ensures { result ≡ spell.is_key column.now }
{
    is_key_kind(column.kind)
}

/// The number of key columns among these.
fn keys_among(columns: &[Column]) -> usize
    ensures { result ≡ count_by spell.is_key columns.now }
{
    columns.iter().filter(|c| is_key(*c)).count()
}

/// A column, with `count` before it in its table and room for so many keys in the schema.
#[tactic(auto, unfolding(crate::specs::ReadingSchemas::column_at))]
fn column_of(
    alloc: Global,
    count: usize,
    room: usize,
    tokens: &[Token],
) -> Result<(Column, &[Token]), ReadError>
    ensures { Gives (λ x. (x.0, x.1.now)) result (column_at (count, room) tokens.now) }
{
    let (name, rest) = name_of(alloc, over(Limit::Columns, 12, count), tokens)?;
    let rest = after_sign(":", rest)?;
    let (kind, rest) = kind_of(room, rest)?;
    Ok((Column { name, kind }, rest))
}

/// A column behind a comma.
impl Item<Jobs> for Column {
    ghost begun = { begins_sign (codes ",") };

    ghost reads = { comma_at column_at };

    ghost takes = { key_of };

    fn is_begun(token: &Token) -> bool {
        is_sign(token, ",")
    }

    fn taken(&self) -> usize {
        if is_key(self) { 1 } else { 0 }
    }

    #[tactic(auto, unfolding(mig_tokens::specs::Pieces::comma_at))]
    fn read(
        alloc: Global,
        count: usize,
        room: usize,
        tokens: &[Token],
    ) -> Result<(Column, &[Token]), ReadError> {
        let rest = after_sign(",", tokens)?;
        column_of(alloc, count, room, rest)
    }
}

/// Columns with commas between them: one or more.
#[tactic(auto, unfolding(mig_tokens::specs::Reading::led_at))]
fn columns_of(
    alloc: Global,
    room: usize,
    tokens: &[Token],
) -> Result<(Seq<Column>, &[Token]), ReadError>
    ensures { Gives (λ x. (x.0, x.1.now)) result (listed_at key_of column_at (0, room) tokens.now) }
{
    let (first, rest) = column_of(alloc, 0, room, tokens)?;
    led_of::<Jobs, _>(alloc, room, first, rest)
}

impl Item<Jobs> for Table {
    ghost begun = { begins_word (codes "table") };

    ghost reads = { table_at };

    ghost takes = { keys_of };

    fn is_begun(token: &Token) -> bool {
        is_word(token, "table")
    }

    fn taken(&self) -> usize {
        keys_among(self.columns.as_slice())
    }

    #[tactic(auto, unfolding(crate::specs::ReadingSchemas::table_at))]
    fn read(
        alloc: Global,
        count: usize,
        room: usize,
        tokens: &[Token],
    ) -> Result<(Table, &[Token]), ReadError> {
        let rest = after_word("table", over(Limit::Tables, 16, count), tokens)?;
        let (name, rest) = name_of(alloc, None, rest)?;
        let rest = after_sign("{", rest)?;
        let (columns, rest) = columns_of(alloc, room, rest)?;
        let rest = after_sign("}", rest)?;
        Ok((Table { name, columns }, rest))
    }
}

impl Item<Jobs> for LinkTree {
    ghost begun = { begins_word (codes "link") };

    ghost reads = { link_at };

    ghost takes = { no_room };

    fn is_begun(token: &Token) -> bool {
        is_word(token, "link")
    }

    fn taken(&self) -> usize {
        0
    }

    #[tactic(auto, unfolding(crate::specs::ReadingSchemas::link_at))]
    fn read(
        alloc: Global,
        count: usize,
        _room: usize,
        tokens: &[Token],
    ) -> Result<(LinkTree, &[Token]), ReadError> {
        let rest = after_word("link", over(Limit::Links, 32, count), tokens)?;
        let (left, rest) = col_of(alloc, None, rest)?;
        let rest = after_sign("=", rest)?;
        let (right, rest) = col_of(alloc, None, rest)?;
        let rest = after_sign(";", rest)?;
        Ok((LinkTree { left, right }, rest))
    }
}

/// A schema.
#[tactic(auto, unfolding(crate::specs::ReadingSchemas::schema_at))]
pub(crate) fn schema_of(
    alloc: Global,
    tokens: &[Token],
) -> Result<(SchemaTree, &[Token]), ReadError>
    ensures { Gives (λ x. (x.0, x.1.now)) result (schema_at tokens.now) }
{
    let (tables, rest) = many_of::<Jobs, Table>(alloc, 0, 24, tokens)?;
    let (links, rest) = many_of::<Jobs, LinkTree>(alloc, 0, 0, rest)?;
    Ok((SchemaTree { tables, links }, rest))
}
