// The rows of a join, table after table.
ghost use Rattle.std.specs.Prelude.{◌≡◌, ℕ, ◌<◌, ◌∷◌, ◌++◌, [], true, false, map, Option, Some, IfOk, OnOk};
ghost use Rattle.mig_meaning.specs.declared.states.Placed.{Placed as PlacedRow};
ghost use Rattle.mig_meaning.specs.declared.states.State.{State};
ghost use Rattle.mig_meaning.specs.Lists.{Each};
ghost use Rattle.mig_storage.specs.Meaning.{IsSound, Keeps};
ghost use Rattle.mig_calls.specs.Fits.{ChoiceFits, JoinedFits};
ghost use Rattle.mig_calls.specs.Joining as spec;

use mig_base::{Exact, Seq};
use mig_meaning::{JoinRow, Placed, column_in};
use mig_schema::Joined;
use mig_storage::{Store, StoreFault};
use std::alloc::{AllocError, Global};

/// Puts the choice, with each of these rows behind it, behind the others.
fn put_longer(
    alloc: Global,
    choice: &JoinRow,
    rows: Seq<Placed>,
    all: &mut Vec<JoinRow>,
) -> Result<(), AllocError>
    ensures { OnOk result (all.new.items ≡ all.old.items ++ map (λ (p : PlacedRow). choice.now ++ p ∷ []) rows) }
{
    for row in rows.into_vec() {
        let mut longer = choice.twin(alloc)?;
        longer.push(row)?;
        all.push(longer)?;
    }
    Ok(())
}

/// A choice of rows of earlier tables with each row of a further one that meets its equality.
pub(crate) fn grown<S: Store>(
    alloc: Global,
    store: &mut S,
    earlier: &[u32],
    joined: &Joined,
    choice: &JoinRow,
) -> Result<Vec<JoinRow>, StoreFault>
    requires joined { JoinedFits (S.meaning store.old).layout earlier.now joined.now }
    requires choice { ChoiceFits (S.meaning store.old).layout earlier.now choice.now }
    requires whole { (S.meaning store.old).broken ≡ false }
    ensures sound { IsSound (S.meaning store.old) (S.meaning store.new) result }
    ensures keeps { Keeps (S.meaning store.old) (S.meaning store.new) }
    ensures fit { IfOk result (λ v. Each (ChoiceFits (S.meaning store.old).layout (earlier.now ++ joined.now.table ∷ [])) v.items) }
    ensures rows { IfOk result (λ v. (s : State) → (S.meaning store.old).told ≡ Some s → v.items ≡ spec.grown s earlier.now joined.now (choice.now ∷ [])) }
{
    let mut all = Vec::new(alloc);
    let value = column_in(alloc, earlier, choice.as_slice(), joined.left)?;
    let rows = store.matching(alloc, joined.table, joined.right.column, &value)?;
    put_longer(alloc, choice, rows, &mut all)?;
    Ok(all)
}

/// The choices of one row each.
pub(crate) fn singles(alloc: Global, rows: Seq<Placed>) -> Result<Vec<JoinRow>, AllocError>
    ensures { IfOk result (λ v. v.items ≡ map (λ (p : PlacedRow). p ∷ []) rows) }
{
    let mut all = Vec::new(alloc);
    for row in rows.into_vec() {
        let mut single = Seq::new(alloc);
        single.push(row)?;
        all.push(single)?;
    }
    Ok(all)
}
