// The join rows that meet a condition, read from a store.
ghost use Rattle.std.specs.Prelude.{◌≡◌, ℕ, ◌<◌, ◌∷◌, ◌++◌, [], true, false, map, filter, Option, Some, IfOk, OnOk};
ghost use Rattle.mig_schema.specs.declared.programs.Joined.{Joined as FurtherTable};
ghost use Rattle.mig_schema.specs.Joins as joins;
ghost use Rattle.mig_meaning.specs.declared.states.State.{State};
ghost use Rattle.mig_meaning.specs.Conditions as spec;
ghost use Rattle.mig_storage.specs.Meaning.{IsSound, Keeps};
ghost use Rattle.mig_calls.specs.Fits.{AllJoinedFit, CasesFit, ChoiceFits, JoinFits};
ghost use Rattle.mig_calls.specs.Joining as joining;
ghost use Rattle.mig_meaning.specs.Lists.{Each};
ghost use Rattle.mig_meaning.specs.Told.{given_told};

use crate::joining::{grown, singles};
use crate::pins::first_rows;
use mig_base::Seq;
use mig_meaning::{Given, JoinRow, those_met};
use mig_schema::{Cmp, Cond, Join, Joined};
use mig_storage::{Store, StoreFault};
use std::alloc::Global;

/// Puts the join rows that meet the condition and begin with one of these choices of rows of earlier tables behind the
/// others. One choice after the other is gone through to its end, so no join row is kept that does not meet it.
fn put_met<S: Store>(
    alloc: Global,
    store: &mut S,
    given: &Given<'_>,
    tables: &[u32],
    cases: &[Seq<Cmp>],
    earlier: &[u32],
    left: &[Joined],
    choices: Vec<JoinRow>,
    all: &mut Vec<JoinRow>,
) -> Result<(), StoreFault>
    requires tables { tables.now ≡ earlier.now ++ map (λ (m : FurtherTable). m.table) left.now }
    requires left { AllJoinedFit (S.meaning store.old).layout earlier.now left.now }
    requires choices { Each (ChoiceFits (S.meaning store.old).layout earlier.now) choices.items }
    requires whole { (S.meaning store.old).broken ≡ false }
    ensures sound { IsSound (S.meaning store.old) (S.meaning store.new) result }
    ensures keeps { Keeps (S.meaning store.old) (S.meaning store.new) }
    ensures rows { OnOk result ((s : State) → (S.meaning store.old).told ≡ Some s → all.new.items ≡ all.old.items ++ filter (λ e. spec.cases_true (given_told given.now) tables.now e cases.now) (joining.grown_all s earlier.now left.now choices.items)) }
{
    match left.split_first() {
        None => {
            let mut met = those_met(alloc, given, tables, cases, choices)?;
            all.append(&mut met)?;
            Ok(())
        }
        Some((joined, more)) => {
            let next = &tables[..earlier.len() + 1];
            for choice in choices.as_slice() {
                let longer = grown(alloc, store, earlier, joined, choice)?;
                put_met(alloc, store, given, tables, cases, next, more, longer, all)?;
            }
            Ok(())
        }
    }
}

/// The join rows that meet the condition. `tables` are those of the join.
pub(crate) fn met_rows<S: Store>(
    alloc: Global,
    store: &mut S,
    given: &Given<'_>,
    join: &Join,
    tables: &[u32],
    cond: &Cond,
) -> Result<Vec<JoinRow>, StoreFault>
    requires tables { tables.now ≡ joins.tables_of join.now }
    requires join { JoinFits (S.meaning store.old).layout join.now }
    requires cases { CasesFit (S.meaning store.old).layout (given_told given.now) (joins.tables_of join.now) cond.now.cases }
    requires whole { (S.meaning store.old).broken ≡ false }
    ensures sound { IsSound (S.meaning store.old) (S.meaning store.new) result }
    ensures keeps { Keeps (S.meaning store.old) (S.meaning store.new) }
    ensures rows { IfOk result (λ v. (s : State) → (S.meaning store.old).told ≡ Some s → v.items ≡ spec.met_rows (given_told given.now) s join.now cond.now.cases) }
{
    let first = first_rows(alloc, store, given, join, tables, cond)?;
    let choices = singles(alloc, first)?;
    let cases = cond.cases.as_slice();
    let mut met = Vec::new(alloc);
    put_met(
        alloc,
        store,
        given,
        tables,
        cases,
        &tables[..1],
        join.more.as_slice(),
        choices,
        &mut met,
    )?;
    Ok(met)
}
