// Rows that a store finds by a value are those that a look at all its rows finds, whatever is changed and taken back.
ghost use Rattle.std.specs.Prelude.{◌≡◌, ◌≤◌, ◌<◌, ◌^◌, [], ◌∷◌, true, false, length, Some, OnOk};
ghost use Rattle.mig_schema.specs.declared.tables.Kind.TheVariants as kind;
ghost use Rattle.mig_meaning.specs.declared.states.State.{State};
ghost use Rattle.mig_meaning.specs.Rows.{rows_of};
ghost use Rattle.mig_storage.specs.Changes.{has_id};
ghost use Rattle.mig_storage.specs.Meaning.{Keeps};

use crate::stores::{fill, row, schema, text};
use mig_base::Seq;
use mig_meaning::Placed;
use mig_schema::Value;
use mig_storage::{Store, StoreFault, VecStore};
use std::alloc::{AllocError, Global};
use std::test::Fail;

fn has_text(placed: &Placed, bytes: &[u8]) -> bool {
    matches!(placed.row.values.get(1), Some(Value::Text(text)) if text.as_slice() == bytes)
}

// The ids of the rows with this text, by a look at each row.
fn ids_of(alloc: Global, rows: &[Placed], bytes: &[u8]) -> Result<Seq<u64>, AllocError> {
    let mut ids = Seq::new(alloc);
    for placed in rows {
        if has_text(placed, bytes) {
            ids.push(placed.id)?;
        }
    }
    Ok(ids)
}

// Whether the rows that are found by this text are those with the text.
fn agrees<S: Store>(alloc: Global, store: &mut S, bytes: &[u8]) -> Result<bool, StoreFault>
    requires short { length bytes.now ≤ 65535 }
    requires layout { (S.meaning store.old).layout ≡ (kind.Int ∷ (kind.Text ∷ [])) ∷ [] }
    ensures { Keeps (S.meaning store.old) (S.meaning store.new) }
{
    let all = store.rows(alloc, 0)?;
    let found = store.matching(alloc, 0, 1, &text(alloc, bytes)?)?;
    let want = ids_of(alloc, all.as_slice(), bytes)?;
    let same = found
        .as_slice()
        .iter()
        .zip(want.as_slice().iter())
        .all(|(placed, id)| placed.id == *id);
    Ok(found.len() == want.len() && same)
}

fn both_agree<S: Store>(alloc: Global, store: &mut S) -> Result<bool, StoreFault>
    requires { (S.meaning store.old).layout ≡ (kind.Int ∷ (kind.Text ∷ [])) ∷ [] }
    ensures { Keeps (S.meaning store.old) (S.meaning store.new) }
{
    let first = agrees(alloc, store, b"Ann")?;
    let second = agrees(alloc, store, b"Bob")?;
    Ok(first && second)
}

// Whether both are found after a text is set, and after it is taken back.
fn sets<S: Store>(alloc: Global, store: &mut S) -> Result<bool, StoreFault>
    requires layout { (S.meaning store.old).layout ≡ (kind.Int ∷ (kind.Text ∷ [])) ∷ [] }
    requires rest { (S.meaning store.old).begun ≡ false }
    requires row { (t : State) → (S.meaning store.old).told ≡ Some t → has_id 0 (rows_of t 0) ≡ true }
    ensures layout { (S.meaning store.new).layout ≡ (kind.Int ∷ (kind.Text ∷ [])) ∷ [] }
    ensures rest { OnOk result ((S.meaning store.new).begun ≡ false) }
    ensures row { OnOk result ((t : State) → (S.meaning store.new).told ≡ Some t → has_id 0 (rows_of t 0) ≡ true) }
{
    store.begin()?;
    store.set(0, 0, 1, text(alloc, b"Bob")?)?;
    let set = both_agree(alloc, store)?;
    store.rollback()?;
    let back = both_agree(alloc, store)?;
    Ok(set && back)
}

// Whether both are found after a row is removed, and after it is taken back.
fn removes<S: Store>(alloc: Global, store: &mut S) -> Result<bool, StoreFault>
    requires layout { (S.meaning store.old).layout ≡ (kind.Int ∷ (kind.Text ∷ [])) ∷ [] }
    requires rest { (S.meaning store.old).begun ≡ false }
    requires row { (t : State) → (S.meaning store.old).told ≡ Some t → has_id 0 (rows_of t 0) ≡ true }
    ensures layout { (S.meaning store.new).layout ≡ (kind.Int ∷ (kind.Text ∷ [])) ∷ [] }
    ensures rest { OnOk result ((S.meaning store.new).begun ≡ false) }
    ensures row { OnOk result ((t : State) → (S.meaning store.new).told ≡ Some t → has_id 0 (rows_of t 0) ≡ true) }
{
    store.begin()?;
    store.remove(0, 0)?;
    let removed = both_agree(alloc, store)?;
    store.rollback()?;
    let back = both_agree(alloc, store)?;
    Ok(removed && back)
}

// Whether both are found after a second row is added, taken back, and added again with another text.
fn fills_again<S: Store>(alloc: Global, store: &mut S) -> Result<bool, StoreFault>
    requires layout { (S.meaning store.old).layout ≡ (kind.Int ∷ (kind.Text ∷ [])) ∷ [] }
    requires rest { (S.meaning store.old).begun ≡ false }
    requires room { (t : State) → (S.meaning store.old).told ≡ Some t → t.next < 2 ^ 62 }
{
    store.begin()?;
    store.add(0, row(alloc, 8, b"Bob")?)?;
    let added = both_agree(alloc, store)?;
    store.rollback()?;
    store.begin()?;
    store.add(0, row(alloc, 9, b"Ann")?)?;
    let again = both_agree(alloc, store)?;
    store.commit()?;
    Ok(added && again)
}

#[test]
fn a_search_agrees_with_a_look_at_all_rows(rt: HostRuntime) -> Result<(), Fail> {
    let mut store = VecStore::new(rt.alloc());
    fill(rt.alloc(), &mut store)?;
    assert!(rt; both_agree(rt.alloc(), &mut store)?, "at first");
    assert!(rt; sets(rt.alloc(), &mut store)?, "a set");
    assert!(rt; removes(rt.alloc(), &mut store)?, "a remove");
    assert!(rt; sets(rt.alloc(), &mut store)?, "a second set");
    Ok(())
}

#[test]
fn a_row_that_is_added_again_is_found_by_its_new_text(rt: HostRuntime) -> Result<(), Fail> {
    let mut store = VecStore::new(rt.alloc());
    store.create(&schema(rt.alloc())?)?;
    assert!(rt; fills_again(rt.alloc(), &mut store)?);
    Ok(())
}
