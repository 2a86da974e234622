// From the rows of a joined table back to those of the first one.
ghost use Rattle.std.specs.Prelude.{◌≡◌, ℕ, ◌<◌, true, false, List, Option, Some, filter, length, IfOk};
ghost use Rattle.mig_schema.specs.declared.programs.Cmp.{Cmp};
ghost use Rattle.mig_schema.specs.Joins as joins;
ghost use Rattle.mig_meaning.specs.declared.states.Placed.{Placed as PlacedRow};
ghost use Rattle.mig_meaning.specs.declared.states.State.{State};
ghost use Rattle.mig_meaning.specs.Conditions.{Given};
ghost use Rattle.mig_meaning.specs.Lists.{Each};
ghost use Rattle.mig_meaning.specs.Rows as placed;
ghost use Rattle.mig_storage.specs.Layout.{kind_at, kinds_at, of_kinds};
ghost use Rattle.mig_storage.specs.Meaning.{IsSound, Keeps};
ghost use Rattle.mig_calls.specs.Fits.{IsColumn, JoinFits};
ghost use Rattle.mig_calls.specs.Leading.{IsCoverAt, is_met_by};

use crate::asked::{rows_with, values_at};
use mig_base::Seq;
use mig_meaning::Placed;
use mig_schema::{Join, Joined};
use mig_storage::{Store, StoreFault};
use std::alloc::Global;

/// The rows of the earlier table of an equality that meet it with one of these rows of the joined table.
fn earlier_rows<S: Store>(
    alloc: Global,
    store: &mut S,
    joined: &Joined,
    rows: &[Placed],
) -> Result<Seq<Placed>, StoreFault>
    requires left { IsColumn (S.meaning store.old).layout joined.now.left }
    requires right { IsColumn (S.meaning store.old).layout joined.now.right }
    requires same { kind_at (S.meaning store.old).layout joined.now.left.table joined.now.left.column ≡ kind_at (S.meaning store.old).layout joined.now.right.table joined.now.right.column }
    requires rows { Each (λ (p : PlacedRow). of_kinds (kinds_at (S.meaning store.old).layout joined.now.right.table) p.row.values ≡ true) rows.now }
    requires whole { (S.meaning store.old).broken ≡ false }
    ensures sound { IsSound (S.meaning store.old) (S.meaning store.new) result }
    ensures keeps { Keeps (S.meaning store.old) (S.meaning store.new) }
    ensures kinds { IfOk result (λ found. Each (λ (p : PlacedRow). of_kinds (kinds_at (S.meaning store.old).layout joined.now.left.table) p.row.values ≡ true) found) }
    ensures found { IfOk result (λ found. (s : State) → (S.meaning store.old).told ≡ Some s → found ≡ filter (is_met_by joined.now rows.now) (placed.rows_of s joined.now.left.table)) }
{
    let values = values_at(alloc, rows, joined.right.column)?;
    let left = joined.left;
    rows_with(alloc, store, left.table, left.column, values.as_slice())
}

/// From rows of a joined table, among which is that of each join row which meets the condition, to such rows of the
/// first table: back from each joined table to the one that its equality names.
pub(crate) fn first_from<S: Store>(
    alloc: Global,
    store: &mut S,
    join: &Join,
    table: u32,
    rows: Seq<Placed>,
) -> Result<Seq<Placed>, StoreFault>
    requires join { JoinFits (S.meaning store.old).layout join.now }
    requires among { joins.is_among table (joins.tables_of join.now) ≡ true }
    requires rows { Each (λ (p : PlacedRow). of_kinds (kinds_at (S.meaning store.old).layout table) p.row.values ≡ true) rows }
    requires whole { (S.meaning store.old).broken ≡ false }
    ensures sound { IsSound (S.meaning store.old) (S.meaning store.new) result }
    ensures keeps { Keeps (S.meaning store.old) (S.meaning store.new) }
    ensures kinds { IfOk result (λ found. Each (λ (p : PlacedRow). of_kinds (kinds_at (S.meaning store.old).layout join.now.first) p.row.values ≡ true) found) }
    ensures cover { IfOk result (λ found. (g : Given) (s : State) (cases : List (List Cmp)) → (S.meaning store.old).told ≡ Some s → IsCoverAt g s join.now cases table rows → IsCoverAt g s join.now cases join.now.first found) }
{
    let mut left = join.more.as_slice();
    let mut at = table;
    let mut rows = rows;
    while let [earlier @ .., last] = left {
        if last.table == at {
            rows = earlier_rows(alloc, store, last, rows.as_slice())?;
            at = last.left.table;
        }
        left = earlier;
    }
    Ok(rows)
}
