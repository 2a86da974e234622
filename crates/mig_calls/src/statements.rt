// Statements over a store. Each reads the state at its own start: a delete and a set find all their rows first.
ghost use Rattle.std.specs.Prelude.{◌≡◌, ℕ, ◌+◌, ◌<◌, ◌^◌, true, false, Option, Some, length};
ghost use Rattle.mig_schema.specs.Joins as joins;
ghost use Rattle.mig_schema.specs.Typed.{stands_twice};
ghost use Rattle.mig_meaning.specs.declared.states.State.{State};
ghost use Rattle.mig_meaning.specs.Conditions as conditions;
ghost use Rattle.mig_meaning.specs.Effect as spec;
ghost use Rattle.mig_meaning.specs.Lists.{Each, total};
ghost use Rattle.mig_storage.specs.Layout.{IsShort};
ghost use Rattle.mig_storage.specs.Meaning.{IsSound};
ghost use Rattle.mig_calls.specs.Fits.{CasesFit, JoinFits, ListedFit, StmtFits, ValueFits};
ghost use Rattle.mig_calls.specs.Making.{AreThere, Makes, without_each};
ghost use Rattle.mig_calls.specs.Rows.{rows_added};
ghost use Rattle.mig_meaning.specs.Told.{given_told};

use crate::changing::{ids_in, remove_all, write_all};
use crate::inserting::insert_rows;
use crate::meeting::met_rows;
use mig_meaning::{Given, JoinRow, scalar_value};
use mig_schema::{ColId, Cond, Join, Scalar, Schema, Stmt, tables_of};
use mig_storage::{Store, StoreFault};
use std::alloc::Global;

/// Removes the rows of the listed tables that take part in these join rows.
fn remove_listed<S: Store>(
    alloc: Global,
    store: &mut S,
    tables: &[u32],
    met: &[JoinRow],
    listed: &[u32],
) -> Result<(), StoreFault>
    requires listed { Each (λ t. t < length (S.meaning store.old).layout) listed.now }
    requires once { stands_twice listed.now ≡ false }
    requires there { (s : State) → (S.meaning store.old).told ≡ Some s → Each (AreThere tables.now met.now s) listed.now }
    requires begun { (S.meaning store.old).begun ≡ true }
    requires whole { (S.meaning store.old).broken ≡ false }
    ensures sound { IsSound (S.meaning store.old) (S.meaning store.new) result }
    ensures makes { Makes (S.meaning store.old) (S.meaning store.new) (without_each tables.now met.now listed.now) result }
{
    for t in listed {
        let ids = ids_in(alloc, tables, met, *t)?;
        remove_all(store, *t, ids.as_slice())?;
    }
    Ok(())
}

/// Removes the rows of the listed tables that take part in a join row which meets the condition.
fn delete<S: Store>(
    alloc: Global,
    store: &mut S,
    given: &Given<'_>,
    listed: &[u32],
    join: &Join,
    cond: &Cond,
) -> Result<(), StoreFault>
    requires join { JoinFits (S.meaning store.old).layout join.now }
    requires cases { CasesFit (S.meaning store.old).layout (given_told given.now) (joins.tables_of join.now) cond.now.cases }
    requires listed { ListedFit (joins.tables_of join.now) listed.now }
    requires begun { (S.meaning store.old).begun ≡ true }
    requires whole { (S.meaning store.old).broken ≡ false }
    ensures sound { IsSound (S.meaning store.old) (S.meaning store.new) result }
    ensures makes { Makes (S.meaning store.old) (S.meaning store.new) (λ s. spec.without_rows (joins.tables_of join.now) (conditions.met_rows (given_told given.now) s join.now cond.now.cases) listed.now s) result }
{
    let tables = tables_of(alloc, join)?;
    let met = met_rows(alloc, store, given, join, tables.as_slice(), cond)?;
    remove_listed(alloc, store, tables.as_slice(), met.as_slice(), listed)
}

/// Writes the value into the column of each row that takes part in a join row which meets the condition.
fn set<S: Store>(
    alloc: Global,
    store: &mut S,
    given: &Given<'_>,
    column: ColId,
    scalar: &Scalar,
    join: &Join,
    cond: &Cond,
) -> Result<(), StoreFault>
    requires join { JoinFits (S.meaning store.old).layout join.now }
    requires cases { CasesFit (S.meaning store.old).layout (given_told given.now) (joins.tables_of join.now) cond.now.cases }
    requires value { ValueFits (S.meaning store.old).layout (joins.tables_of join.now) column (conditions.scalar_value (given_told given.now) scalar.now) }
    requires text { IsShort (conditions.scalar_value (given_told given.now) scalar.now) }
    requires begun { (S.meaning store.old).begun ≡ true }
    requires whole { (S.meaning store.old).broken ≡ false }
    ensures sound { IsSound (S.meaning store.old) (S.meaning store.new) result }
    ensures makes { Makes (S.meaning store.old) (S.meaning store.new) (λ s. spec.with_set (joins.tables_of join.now) (conditions.met_rows (given_told given.now) s join.now cond.now.cases) column (conditions.scalar_value (given_told given.now) scalar.now) s) result }
{
    let tables = tables_of(alloc, join)?;
    let met = met_rows(alloc, store, given, join, tables.as_slice(), cond)?;
    let ids = ids_in(alloc, tables.as_slice(), met.as_slice(), column.table)?;
    let value = scalar_value(alloc, given, scalar)?;
    write_all(alloc, store, column, ids.as_slice(), &value)
}

/// Makes a statement's changes.
fn effect<S: Store>(
    alloc: Global,
    store: &mut S,
    schema: &Schema,
    given: &Given<'_>,
    stmt: &Stmt,
) -> Result<(), StoreFault>
    requires fits { StmtFits (S.meaning store.old).layout schema.now (given_told given.now) stmt.now }
    requires room { (s : State) → (S.meaning store.old).told ≡ Some s → s.next + rows_added stmt.now < 2 ^ 63 }
    requires begun { (S.meaning store.old).begun ≡ true }
    requires whole { (S.meaning store.old).broken ≡ false }
    ensures sound { IsSound (S.meaning store.old) (S.meaning store.new) result }
    ensures makes { Makes (S.meaning store.old) (S.meaning store.new) (spec.effect schema.now (given_told given.now) stmt.now) result }
{
    match stmt {
        Stmt::Insert { join, values } => {
            let tables = tables_of(alloc, join)?;
            insert_rows(
                alloc,
                store,
                schema,
                given,
                join.more.as_slice(),
                values.as_slice(),
                tables.as_slice(),
            )
        }
        Stmt::Delete { tables, join, cond } => {
            delete(alloc, store, given, tables.as_slice(), join, cond)
        }
        Stmt::Set {
            column,
            value,
            join,
            cond,
        } => set(alloc, store, given, *column, value, join, cond),
    }
}

/// Makes the changes of these statements, in order.
pub(crate) fn update<S: Store>(
    alloc: Global,
    store: &mut S,
    schema: &Schema,
    given: &Given<'_>,
    stmts: &[Stmt],
) -> Result<(), StoreFault>
    requires fits { Each (StmtFits (S.meaning store.old).layout schema.now (given_told given.now)) stmts.now }
    requires room { (s : State) → (S.meaning store.old).told ≡ Some s → s.next + total rows_added stmts.now < 2 ^ 63 }
    requires begun { (S.meaning store.old).begun ≡ true }
    requires whole { (S.meaning store.old).broken ≡ false }
    ensures sound { IsSound (S.meaning store.old) (S.meaning store.new) result }
    ensures makes { Makes (S.meaning store.old) (S.meaning store.new) (spec.after_all schema.now (given_told given.now) stmts.now) result }
{
    for stmt in stmts {
        effect(alloc, store, schema, given, stmt)?;
    }
    Ok(())
}
