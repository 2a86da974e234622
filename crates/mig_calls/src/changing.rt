// Changes of several rows of a table.
ghost use Rattle.std.specs.Prelude.{◌≡◌, ℕ, ◌<◌, ◌==◌, true, false, Option, Some, length, IfOk};
ghost use Rattle.std.specs.List.{list_any};
ghost use Rattle.mig_meaning.specs.declared.states.State.{State};
ghost use Rattle.mig_meaning.specs.Lists.{AllDifferent, Each, has};
ghost use Rattle.mig_meaning.specs.Rows.{row_in, rows_of};
ghost use Rattle.mig_meaning.specs.Values.{of_kind};
ghost use Rattle.mig_storage.specs.Changes.{has_id};
ghost use Rattle.mig_storage.specs.Layout.{IsShort, kind_at};
ghost use Rattle.mig_storage.specs.Meaning.{IsSound};
ghost use Rattle.mig_calls.specs.Fits.{IsColumn};
ghost use Rattle.mig_calls.specs.Making.{Makes, removed_all, written_all};

use mig_base::Exact;
use mig_meaning::{JoinRow, id_in};
use mig_schema::{ColId, Value};
use mig_storage::{Store, StoreFault};
use std::alloc::{AllocError, Global};

/// The ids of the rows of table t in these join rows, each once.
pub(crate) fn ids_in(
    alloc: Global,
    tables: &[u32],
    met: &[JoinRow],
    t: u32,
) -> Result<Vec<u64>, AllocError>
    ensures different { IfOk result (λ v. AllDifferent v.items) }
    ensures members { IfOk result (λ v. (id : ℕ) → has v.items id ≡ list_any (λ e. (row_in tables.now e t).id == id) met.now) }
{
    let mut ids = Vec::new(alloc);
    for row in met {
        ids.push(id_in(tables, row.as_slice(), t as usize))?;
    }
    ids.sort_unstable();
    ids.dedup();
    Ok(ids)
}

/// Removes the rows of these ids from a table.
pub(crate) fn remove_all<S: Store>(store: &mut S, table: u32, ids: &[u64]) -> Result<(), StoreFault>
    requires table { table < length (S.meaning store.old).layout }
    requires different { AllDifferent ids.now }
    requires there { (s : State) → (S.meaning store.old).told ≡ Some s → Each (λ id. has_id id (rows_of s table) ≡ true) ids.now }
    requires begun { (S.meaning store.old).begun ≡ true }
    requires whole { (S.meaning store.old).broken ≡ false }
    ensures sound { IsSound (S.meaning store.old) (S.meaning store.new) result }
    ensures makes { Makes (S.meaning store.old) (S.meaning store.new) (removed_all table ids.now) result }
{
    for id in ids {
        store.remove(table, *id)?;
    }
    Ok(())
}

/// Writes the value into the column of the rows of these ids.
pub(crate) fn write_all<S: Store>(
    alloc: Global,
    store: &mut S,
    column: ColId,
    ids: &[u64],
    value: &Value,
) -> Result<(), StoreFault>
    requires column { IsColumn (S.meaning store.old).layout column }
    requires kind { of_kind (kind_at (S.meaning store.old).layout column.table column.column) value.now ≡ true }
    requires text { IsShort value.now }
    requires there { (s : State) → (S.meaning store.old).told ≡ Some s → Each (λ id. has_id id (rows_of s column.table) ≡ true) ids.now }
    requires begun { (S.meaning store.old).begun ≡ true }
    requires whole { (S.meaning store.old).broken ≡ false }
    ensures sound { IsSound (S.meaning store.old) (S.meaning store.new) result }
    ensures makes { Makes (S.meaning store.old) (S.meaning store.new) (written_all column ids.now value.now) result }
{
    for id in ids {
        store.set(column.table, *id, column.column, value.twin(alloc)?)?;
    }
    Ok(())
}
