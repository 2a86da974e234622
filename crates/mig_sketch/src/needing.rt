// The columns that conditions, queries and joins name.
ghost use Rattle.std.specs.Prelude.{◌≡◌, ◌∷◌, ◌++◌, IfOk, OnOk};
ghost use Rattle.mig_schema.specs.Columns.{columns_in};
ghost use Rattle.mig_schema.specs.Joins.{join_columns as spec_join_columns};
ghost use Rattle.mig_schema.specs.Typed.{item_columns};
ghost use Rattle.mig_sketch.specs.Needs.{case_columns, condition_columns};

use mig_base::{Exact, Seq, number};
use mig_schema::{Cmp, ColId, Cond, Item, Join, Query, Schema, columns_of};
use std::alloc::{AllocError, Global};

/// Adds the column that a side of a comparison is.
fn add_item(item: &Item, list: &mut Seq<ColId>) -> Result<(), AllocError>
    ensures { OnOk result (list.new ≡ list.old ++ item_columns item.now) }
{
    match item {
        Item::Col(column) => list.push(*column),
        Item::Scalar(_) => Ok(()),
    }
}

/// Adds the columns of a case.
fn add_case(cmps: &[Cmp], list: &mut Seq<ColId>) -> Result<(), AllocError>
    ensures { OnOk result (list.new ≡ list.old ++ case_columns cmps.now) }
{
    for cmp in cmps {
        add_item(&cmp.left, list)?;
        add_item(&cmp.right, list)?;
    }
    Ok(())
}

/// Adds the columns of a condition.
pub(crate) fn add_condition(test: &Cond, list: &mut Seq<ColId>) -> Result<(), AllocError>
    ensures { OnOk result (list.new ≡ list.old ++ condition_columns test.now) }
{
    for cmps in test.cases.as_slice() {
        add_case(cmps.as_slice(), list)?;
    }
    Ok(())
}

/// Adds the columns of table t.
fn add_columns(schema: &Schema, t: u32, list: &mut Seq<ColId>) -> Result<(), AllocError>
    ensures { OnOk result (list.new ≡ list.old ++ columns_in schema.now t) }
{
    for (n, _) in columns_of(schema, t).iter().enumerate() {
        let column = number(n)?;
        list.push(ColId { table: t, column })?;
    }
    Ok(())
}

/// The columns of a join's tables, in the join's order.
pub(crate) fn join_columns(
    alloc: Global,
    schema: &Schema,
    join: &Join,
) -> Result<Seq<ColId>, AllocError>
    ensures { IfOk result (λ list. list ≡ spec_join_columns schema.now join.now) }
{
    let mut list = Seq::new(alloc);
    add_columns(schema, join.first, &mut list)?;
    for joined in join.more.as_slice() {
        add_columns(schema, joined.table, &mut list)?;
    }
    Ok(list)
}

/// The columns that a query names.
pub(crate) fn query_columns(alloc: Global, query: &Query) -> Result<Seq<ColId>, AllocError>
    ensures { IfOk result (λ list. list ≡ query.now.columns ++ condition_columns query.now.cond) }
{
    let mut list = query.columns.twin(alloc)?;
    add_condition(&query.cond, &mut list)?;
    Ok(list)
}

/// A column, and those that a condition names.
pub(crate) fn set_columns(
    alloc: Global,
    column: ColId,
    test: &Cond,
) -> Result<Seq<ColId>, AllocError>
    ensures { IfOk result (λ list. list ≡ column ∷ condition_columns test.now) }
{
    let mut list = Seq::new(alloc);
    list.push(column)?;
    add_condition(test, &mut list)?;
    Ok(list)
}
