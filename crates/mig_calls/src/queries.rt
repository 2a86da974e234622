// Queries over a store.
ghost use Rattle.std.specs.Prelude.{◌≡◌, ℕ, ◌<◌, true, false, Option, Some, IfOk};
ghost use Rattle.mig_schema.specs.Joins as joins;
ghost use Rattle.mig_meaning.specs.declared.states.State.{State};
ghost use Rattle.mig_meaning.specs.Effect as spec;
ghost use Rattle.mig_meaning.specs.Told.{rows_told};
ghost use Rattle.mig_storage.specs.Meaning.{IsSound, Keeps};
ghost use Rattle.mig_calls.specs.Fits.{CasesFit, JoinFits};
ghost use Rattle.mig_meaning.specs.Told.{given_told};

use crate::meeting::met_rows;
use mig_meaning::{Answer, Given, all_selected};
use mig_schema::{Query, tables_of};
use mig_storage::{Store, StoreFault};
use std::alloc::Global;

/// The answer of a query: the selected columns of each join row that meets the condition.
pub(crate) fn answer<S: Store>(
    alloc: Global,
    store: &mut S,
    given: &Given<'_>,
    query: &Query,
) -> Result<Answer, StoreFault>
    requires join { JoinFits (S.meaning store.old).layout query.now.join }
    requires cases { CasesFit (S.meaning store.old).layout (given_told given.now) (joins.tables_of query.now.join) query.now.cond.cases }
    requires whole { (S.meaning store.old).broken ≡ false }
    ensures sound { IsSound (S.meaning store.old) (S.meaning store.new) result }
    ensures keeps { Keeps (S.meaning store.old) (S.meaning store.new) }
    ensures rows { IfOk result (λ a. (s : State) → (S.meaning store.old).told ≡ Some s → rows_told a.rows ≡ spec.answer (given_told given.now) query.now s) }
{
    let tables = tables_of(alloc, &query.join)?;
    let met = met_rows(
        alloc,
        store,
        given,
        &query.join,
        tables.as_slice(),
        &query.cond,
    )?;
    Ok(all_selected(
        alloc,
        tables.as_slice(),
        met.as_slice(),
        query.columns.as_slice(),
    )?)
}
