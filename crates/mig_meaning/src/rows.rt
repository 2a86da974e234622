// The rows of a join, as choices of one row of each table.
ghost use Rattle.std.specs.Prelude.{◌≡◌, ◌∷◌, ◌++◌, map, IfOk, OnOk};
ghost use Rattle.std.specs.List.{flat_map};
ghost use Rattle.mig_schema.specs.Joins as joins;
ghost use Rattle.mig_meaning.specs.Lists as lists;
ghost use Rattle.mig_meaning.specs.Rows as spec;
ghost use Rattle.mig_meaning.specs.Values as values;

use crate::states::{Placed, State};
use crate::values::value_eq;
use mig_base::{Exact, Seq};
use mig_schema::{ColId, Join, Joined, Value};
use std::alloc::{AllocError, Global};

/// One row of each joined table, in the join's order.
pub type JoinRow = Seq<Placed>;

/// The rows of table t; none where there is no such table.
#[tactic(auto, using(std::proofs::lemmas::Grind::common_steps, std::proofs::lemmas::Option::gets))]
fn rows_of(state: &State, t: u32) -> &[Placed]
    ensures { result.now ≡ spec.rows_of state.now t }
{
    match state.tables.get(t as usize) {
        Some(rows) => rows.as_slice(),
        None => &[],
    }
}

/// A copy of the value of a row's column; the int 0 where there is no such column.
#[tactic(auto, using(std::proofs::lemmas::Grind::common_steps, std::proofs::lemmas::Option::gets))]
pub fn value_at(alloc: Global, row: &Placed, column: u32) -> Result<Value, AllocError>
    ensures { IfOk result (λ v. v ≡ spec.value_at row.now column) }
{
    match row.row.values.get(column as usize) {
        Some(value) => value.twin(alloc),
        None => Ok(Value::Int(0)),
    }
}

/// The first place of a table among these; their number where it is not there.
fn place(tables: &[u32], t: usize) -> usize
    ensures { result ≡ lists.place tables.now t }
{
    for (i, u) in tables.iter().enumerate() {
        if *u as usize == t {
            return i;
        }
    }
    tables.len()
}

/// A copy of the value of a column in a join row of these tables; the int 0 where there is no such column.
#[tactic(auto, using(std::proofs::lemmas::Grind::common_steps, std::proofs::lemmas::Option::gets))]
pub fn column_in(
    alloc: Global,
    tables: &[u32],
    row: &[Placed],
    column: ColId,
) -> Result<Value, AllocError>
    ensures { IfOk result (λ v. v ≡ spec.column_in tables.now row.now column) }
{
    match row.get(place(tables, column.table as usize)) {
        Some(placed) => value_at(alloc, placed, column.column),
        None => Ok(Value::Int(0)),
    }
}

/// The id of the row of table t in a join row of these tables; 0 where none of them is t.
#[tactic(auto, using(std::proofs::lemmas::Grind::common_steps, std::proofs::lemmas::Option::gets))]
pub fn id_in(tables: &[u32], row: &[Placed], t: usize) -> u64
    ensures { result ≡ (spec.row_in tables.now row.now t).id }
{
    match row.get(place(tables, t)) {
        Some(placed) => placed.id,
        None => 0,
    }
}

/// Whether one equality of the join is true.
fn is_equal(
    alloc: Global,
    tables: &[u32],
    joined: &Joined,
    row: &[Placed],
) -> Result<bool, AllocError>
    ensures { IfOk result (λ b. b ≡ values.value_eq (spec.column_in tables.now row.now joined.now.left) (spec.column_in tables.now row.now joined.now.right)) }
{
    let left = column_in(alloc, tables, row, joined.left)?;
    let right = column_in(alloc, tables, row, joined.right)?;
    Ok(value_eq(&left, &right))
}

/// Whether each equality of the join is true.
fn meets(
    alloc: Global,
    tables: &[u32],
    joined: &[Joined],
    row: &[Placed],
) -> Result<bool, AllocError>
    ensures { IfOk result (λ b. b ≡ spec.meets tables.now joined.now row.now) }
{
    match joined {
        [] => Ok(true),
        [m, more @ ..] => {
            Ok(is_equal(alloc, tables, m, row)? && meets(alloc, tables, more, row)?)
        }
    }
}

/// A choice with a row before it.
fn before(alloc: Global, row: &Placed, choice: &JoinRow) -> Result<JoinRow, AllocError>
    ensures { IfOk result (λ c. c ≡ row.now ∷ choice.now) }
{
    let mut longer = Seq::new(alloc);
    longer.push(row.twin(alloc)?)?;
    for placed in choice.as_slice() {
        longer.push(placed.twin(alloc)?)?;
    }
    Ok(longer)
}

/// Puts each choice, with a row before it, behind the others.
fn put_before(
    alloc: Global,
    row: &Placed,
    choices: &[JoinRow],
    all: &mut Vec<JoinRow>,
) -> Result<(), AllocError>
    ensures { OnOk result (all.new.items ≡ all.old.items ++ map (λ c. row.now ∷ c) choices.now) }
{
    for choice in choices {
        all.push(before(alloc, row, choice)?)?;
    }
    Ok(())
}

/// Each row before each choice, the rows slowest.
fn all_before(
    alloc: Global,
    rows: &[Placed],
    choices: &[JoinRow],
) -> Result<Vec<JoinRow>, AllocError>
    ensures { IfOk result (λ v. v.items ≡ flat_map (λ x. map (λ c. x ∷ c) choices.now) rows.now) }
{
    let mut all = Vec::new(alloc);
    for row in rows {
        put_before(alloc, row, choices, &mut all)?;
    }
    Ok(all)
}

/// All choices of one row of each table, the first table slowest.
fn choices(alloc: Global, state: &State, tables: &[u32]) -> Result<Vec<JoinRow>, AllocError>
    ensures { IfOk result (λ v. v.items ≡ lists.product (map (spec.rows_of state.now) tables.now)) }
{
    match tables {
        [] => {
            let mut all = Vec::new(alloc);
            all.push(Seq::new(alloc))?;
            Ok(all)
        }
        [t, more @ ..] => {
            let rest = choices(alloc, state, more)?;
            all_before(alloc, rows_of(state, *t), rest.as_slice())
        }
    }
}

/// The join rows, in product order, the first table slowest. `tables` are those of the join.
pub(crate) fn join_rows(
    alloc: Global,
    state: &State,
    join: &Join,
    tables: &[u32],
) -> Result<Vec<JoinRow>, AllocError>
    requires { tables.now ≡ joins.tables_of join.now }
    ensures { IfOk result (λ v. v.items ≡ spec.join_rows state.now join.now) }
{
    let mut met = Vec::new(alloc);
    for row in choices(alloc, state, tables)? {
        if meets(alloc, tables, join.more.as_slice(), row.as_slice())? {
            met.push(row)?;
        }
    }
    Ok(met)
}
