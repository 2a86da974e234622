// Stores keep and take back what they are told, with ample memory; listed calls fail, and those behind them.
ghost use Rattle.std.specs.Prelude.{◌≡◌, ◌≤◌, [], ◌∷◌, true, false, length, Option, Some, IfOk, OnOk};
ghost use Rattle.mig_schema.specs.declared.tables.Kind.TheVariants as kind;
ghost use Rattle.mig_meaning.specs.declared.states.State.{State};
ghost use Rattle.mig_meaning.specs.Lists.{Each};
ghost use Rattle.mig_meaning.specs.Rows.{rows_of};
ghost use Rattle.mig_storage.specs.Changes.{has_id};
ghost use Rattle.mig_storage.specs.Layout.{IsShort, of_kinds};
ghost use Rattle.mig_storage.specs.Meaning.{IsAtRest, Keeps};

use mig_base::Seq;
use mig_meaning::{Placed, Row};
use mig_schema::{Column, Kind, Schema, Table, Value};
use mig_storage::{FaultStore, Store, StoreFault, VecStore};
use std::alloc::{AllocError, Global};
use std::test::Fail;

fn column(alloc: Global, kind: Kind) -> Column
    ensures { result ≡ record { name = []; kind = kind } }
{
    Column {
        name: Seq::new(alloc),
        kind,
    }
}

// One table of an int and a text.
pub(crate) fn schema(alloc: Global) -> Result<Schema, AllocError>
    ensures { IfOk result (λ s. s ≡ record { tables = (record { name = []; columns = (record { name = []; kind = kind.Int }) ∷ ((record { name = []; kind = kind.Text }) ∷ []) }) ∷ []; links = [] }) }
{
    let mut columns = Seq::new(alloc);
    columns.push(column(alloc, Kind::Int))?;
    columns.push(column(alloc, Kind::Text))?;
    let mut tables = Seq::new(alloc);
    tables.push(Table {
        name: Seq::new(alloc),
        columns,
    })?;
    Ok(Schema {
        tables,
        links: Seq::new(alloc),
    })
}

pub(crate) fn text(alloc: Global, bytes: &[u8]) -> Result<Value, AllocError>
    requires { length bytes.now ≤ 65535 }
    ensures short { IfOk result IsShort }
    ensures kind { IfOk result (λ v. of_kinds (kind.Text ∷ []) (v ∷ []) ≡ true) }
{
    Ok(Value::Text(Seq::from_slice(alloc, bytes)?))
}

pub(crate) fn row(alloc: Global, n: i64, bytes: &[u8]) -> Result<Row, AllocError>
    requires { length bytes.now ≤ 65535 }
    ensures texts { IfOk result (λ r. Each IsShort r.values) }
    ensures kinds { IfOk result (λ r. of_kinds (kind.Int ∷ (kind.Text ∷ [])) r.values ≡ true) }
{
    let mut values = Seq::new(alloc);
    values.push(Value::Int(n))?;
    values.push(text(alloc, bytes)?)?;
    Ok(Row { values })
}

// Whether rows have these ids and ints.
fn are(rows: &[Placed], want: &[(u64, i64)]) -> bool {
    rows.len() == want.len()
        && rows.iter().zip(want.iter()).all(|(placed, (id, n))| {
            let first = placed.row.values.get(0);
            placed.id == *id && matches!(first, Some(Value::Int(int)) if *int == *n)
        })
}

// Whether these rows are found by their text.
fn finds<S: Store>(
    alloc: Global,
    store: &mut S,
    bytes: &[u8],
    want: &[(u64, i64)],
) -> Result<bool, StoreFault>
    requires short { length bytes.now ≤ 65535 }
    requires layout { (S.meaning store.old).layout ≡ (kind.Int ∷ (kind.Text ∷ [])) ∷ [] }
    ensures { Keeps (S.meaning store.old) (S.meaning store.new) }
{
    let found = store.matching(alloc, 0, 1, &text(alloc, bytes)?)?;
    Ok(are(found.as_slice(), want))
}

// Whether these are the rows.
fn has<S: Store>(alloc: Global, store: &mut S, want: &[(u64, i64)]) -> Result<bool, StoreFault>
    requires { (S.meaning store.old).layout ≡ (kind.Int ∷ (kind.Text ∷ [])) ∷ [] }
    ensures { Keeps (S.meaning store.old) (S.meaning store.new) }
{
    let rows = store.rows(alloc, 0)?;
    Ok(are(rows.as_slice(), want))
}

// Makes the table with one row.
pub(crate) fn fill<S: Store>(alloc: Global, store: &mut S) -> Result<(), StoreFault>
    requires { IsAtRest (S.meaning store.old) }
    ensures layout { OnOk result ((S.meaning store.new).layout ≡ (kind.Int ∷ (kind.Text ∷ [])) ∷ []) }
    ensures rest { OnOk result ((S.meaning store.new).begun ≡ false) }
    ensures row { OnOk result ((t : State) → (S.meaning store.new).told ≡ Some t → has_id 0 (rows_of t 0) ≡ true) }
{
    store.create(&schema(alloc)?)?;
    store.begin()?;
    store.add(0, row(alloc, 7, b"Ann")?)?;
    store.commit()
}

// Whether a second row is added behind the first, and both are found.
fn two_rows<S: Store>(alloc: Global, store: &mut S) -> Result<bool, StoreFault>
    requires { IsAtRest (S.meaning store.old) }
{
    store.create(&schema(alloc)?)?;
    store.begin()?;
    let first = store.add(0, row(alloc, 7, b"Ann")?)?;
    let second = store.add(0, row(alloc, 8, b"Anna")?)?;
    store.commit()?;
    let both = has(alloc, store, &[(0, 7), (1, 8)])?;
    let one = finds(alloc, store, b"Ann", &[(0, 7)])?;
    Ok(first == 0 && second == 1 && both && one)
}

#[test]
fn rows_are_kept(rt: HostRuntime) -> Result<(), Fail> {
    let mut store = VecStore::new(rt.alloc());
    assert!(rt; two_rows(rt.alloc(), &mut store)?);
    Ok(())
}

// Whether a value is written, and taken back.
fn written<S: Store>(alloc: Global, store: &mut S) -> Result<bool, StoreFault>
    requires layout { (S.meaning store.old).layout ≡ (kind.Int ∷ (kind.Text ∷ [])) ∷ [] }
    requires rest { (S.meaning store.old).begun ≡ false }
    requires row { (t : State) → (S.meaning store.old).told ≡ Some t → has_id 0 (rows_of t 0) ≡ true }
{
    store.begin()?;
    store.set(0, 0, 1, text(alloc, b"Bob")?)?;
    let gone = finds(alloc, store, b"Ann", &[])?;
    store.rollback()?;
    let back = finds(alloc, store, b"Ann", &[(0, 7)])?;
    Ok(gone && back)
}

#[test]
fn a_value_is_written_and_taken_back(rt: HostRuntime) -> Result<(), Fail> {
    let mut store = VecStore::new(rt.alloc());
    fill(rt.alloc(), &mut store)?;
    assert!(rt; written(rt.alloc(), &mut store)?);
    Ok(())
}

// Whether a row is removed, and taken back.
fn removed<S: Store>(alloc: Global, store: &mut S) -> Result<bool, StoreFault>
    requires layout { (S.meaning store.old).layout ≡ (kind.Int ∷ (kind.Text ∷ [])) ∷ [] }
    requires rest { (S.meaning store.old).begun ≡ false }
    requires row { (t : State) → (S.meaning store.old).told ≡ Some t → has_id 0 (rows_of t 0) ≡ true }
{
    store.begin()?;
    store.remove(0, 0)?;
    let gone = has(alloc, store, &[])?;
    store.rollback()?;
    let back = has(alloc, store, &[(0, 7)])?;
    Ok(gone && back)
}

#[test]
fn a_row_is_removed_and_taken_back(rt: HostRuntime) -> Result<(), Fail> {
    let mut store = VecStore::new(rt.alloc());
    fill(rt.alloc(), &mut store)?;
    assert!(rt; removed(rt.alloc(), &mut store)?);
    Ok(())
}

// Whether each of the calls of a transaction fails from the first `add` on, and so does a `create` behind them.
fn all_fail<S: Store>(alloc: Global, store: &mut S) -> Result<bool, StoreFault>
    requires { IsAtRest (S.meaning store.old) }
{
    let schema = schema(alloc)?;
    store.create(&schema)?;
    store.begin()?;
    let add = store.add(0, row(alloc, 7, b"Ann")?).is_err();
    match store.commit() {
        Ok(()) => Ok(false),
        Err(_) => {
            let rollback = store.rollback().is_err();
            Ok(add && rollback && store.create(&schema).is_err())
        }
    }
}

#[test]
fn listed_calls_fail_and_those_behind_them(rt: HostRuntime) -> Result<(), Fail> {
    let fails = Seq::from_slice(rt.alloc(), &[3, 9])?;
    let mut store = FaultStore::new(VecStore::new(rt.alloc()), fails);
    assert!(rt; all_fail(rt.alloc(), &mut store)?);
    Ok(())
}
