// Reading of columns by the names of their tables and of themselves.
ghost use Rattle.std.specs.Prelude.{◌≡◌};
ghost use Rattle.mig_tokens.specs.Given.{Gives};
ghost use Rattle.mig_grammar.specs.ReadingSchemas.{col_at};

use mig_grammar::ColName;
use mig_schema::Limit;
use mig_tokens::{ReadError, Token, after_sign, name_of};
use std::alloc::Global;

/// A column, which may pass a limit at its first name.
#[tactic(auto, unfolding(mig_grammar::specs::ReadingSchemas::col_at))]
pub(crate) fn col_of(
    alloc: Global,
    limit: Option<Limit>,
    tokens: &[Token],
) -> Result<(ColName, &[Token]), ReadError>
    ensures { Gives (λ x. (x.0, x.1.now)) result (col_at limit tokens.now) }
{
    let (table, rest) = name_of(alloc, limit, tokens)?;
    let rest = after_sign(".", rest)?;
    let (column, rest) = name_of(alloc, None, rest)?;
    Ok((ColName { table, column }, rest))
}
