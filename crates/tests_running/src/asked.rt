// Which values are asked for, once each, and the order of the rows that they find.
use crate::texts::values;
use mig_base::Seq;
use mig_calls::{in_order, values_at};
use mig_meaning::{Placed, Row};
use mig_schema::Value;
use mig_storage::value_eq;
use std::alloc::{AllocError, Global};
use std::test::Fail;

fn one_value(alloc: Global, id: u64, value: Value) -> Result<Placed, AllocError> {
    let mut values = Seq::new(alloc);
    values.push(value)?;
    let row = Row { values };
    Ok(Placed { id, row })
}

/// Rows of one value each.
fn rows(alloc: Global, fields: &str) -> Result<Vec<Placed>, AllocError> {
    let mut rows = Vec::new(alloc);
    for value in values(alloc, fields)?.into_vec() {
        rows.push(one_value(alloc, 0, value)?)?;
    }
    Ok(rows)
}

/// Whether two lists have equal values, one by one.
fn are_equal(left: &[Value], right: &[Value]) -> bool {
    left.len() == right.len() && left.iter().zip(right.iter()).all(|(a, b)| value_eq(a, b))
}

/// Whether rows with these values ask for those.
fn ask_for(alloc: Global, given: &str, want: &str) -> Result<bool, AllocError> {
    let rows = rows(alloc, given)?;
    let asked = values_at(alloc, rows.as_slice(), 0)?;
    let want = values(alloc, want)?;
    Ok(are_equal(asked.as_slice(), want.as_slice()))
}

#[test]
fn equal_values_are_asked_once(rt: HostRuntime) -> Result<(), Fail> {
    let right = ask_for(rt.alloc(), "b #7 ab b 7 -1 #7 7", "-1 7 ab b #7")?;
    assert!(rt; right);
    Ok(())
}

/// The ids of rows of these ids, in order.
fn ordered(alloc: Global, ids: &[u64]) -> Result<Vec<u64>, AllocError> {
    let mut rows = Vec::new(alloc);
    for id in ids {
        rows.push(one_value(alloc, *id, Value::Key(*id))?)?;
    }
    let mut ids = Vec::new(alloc);
    for row in in_order(rows).as_slice() {
        ids.push(row.id)?;
    }
    Ok(ids)
}

#[test]
fn rows_come_in_order_of_their_ids_and_once(rt: HostRuntime) -> Result<(), Fail> {
    let ids = ordered(rt.alloc(), &[5, 1, 9, 1, 0, 5, 5])?;
    assert!(rt; ids.as_slice() == [0, 1, 5, 9].as_slice());
    Ok(())
}
