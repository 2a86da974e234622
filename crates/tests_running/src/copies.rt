// A copy is the same as what it was copied from, and not as another value; bags count their rows.
use crate::texts::values;
use mig_base::{Exact, Seq};
use mig_meaning::{
    Answer, Args, Calls, Invariant, Invariants, Invocation, Keys, Placed, Reply, Row, State, View,
    same_bag,
};
use mig_schema::{ColId, Join, Side};
use std::alloc::{AllocError, Global};
use std::test::Fail;

/// Whether the copy of a value is the same as it, and another value is not.
fn is_twin<T: Exact>(alloc: Global, item: &T, other: &T) -> Result<bool, AllocError> {
    let twin = item.twin(alloc)?;
    Ok(item.same(&twin) && !item.same(other))
}

/// A list of one item.
fn one<T: Drop>(alloc: Global, item: T) -> Result<Seq<T>, AllocError> {
    let mut list = Seq::new(alloc);
    list.push(item)?;
    Ok(list)
}

/// A state with one row, of an int and this text.
fn state_of(alloc: Global, fields: &str) -> Result<State, AllocError> {
    let values = values(alloc, fields)?;
    let row = Row { values };
    let table = one(alloc, Placed { id: 3, row })?;
    let tables = one(alloc, table)?;
    Ok(State { tables, next: 4 })
}

/// An answer whose rows have one value each.
fn answer_of(alloc: Global, fields: &str) -> Result<Answer, AllocError> {
    let mut rows = Seq::new(alloc);
    for value in values(alloc, fields)?.into_vec() {
        let values = one(alloc, value)?;
        rows.push(Row { values })?;
    }
    Ok(Answer { rows })
}

/// One call.
fn calls_of(alloc: Global, function: u32, fields: &str) -> Result<Calls, AllocError> {
    let values = values(alloc, fields)?;
    let args = Args { values };
    let calls = one(alloc, Invocation { function, args })?;
    Ok(Calls { calls })
}

fn keys_of(alloc: Global, keys: &[u64]) -> Result<Keys, AllocError> {
    let keys = Seq::from_slice(alloc, keys)?;
    Ok(Keys { keys })
}

fn view_of(alloc: Global, table: u32) -> Result<View, AllocError> {
    let join = Join {
        first: table,
        more: Seq::new(alloc),
    };
    let outs = Seq::from_slice(alloc, &[ColId { table, column: 0 }])?;
    Ok(View { join, outs })
}

fn views(alloc: Global) -> Result<Invariant, AllocError> {
    let source = view_of(alloc, 0)?;
    let target = view_of(alloc, 1)?;
    Ok(Invariant::Views { source, target })
}

/// An invariant of each form.
fn invariants_of(alloc: Global, side: Side) -> Result<Invariants, AllocError> {
    let left = ColId {
        table: 0,
        column: 1,
    };
    let right = ColId {
        table: 1,
        column: 0,
    };
    let mut list = one(alloc, views(alloc)?)?;
    list.push(Invariant::Unique { side, column: left })?;
    list.push(Invariant::Apart { side, left, right })?;
    list.push(Invariant::Within { side, left, right })?;
    Ok(Invariants { list })
}

fn states_are_copied(alloc: Global) -> Result<bool, AllocError> {
    let state = state_of(alloc, "-7 Ann")?;
    is_twin(alloc, &state, &state_of(alloc, "-7 Bob")?)
}

fn calls_are_copied(alloc: Global) -> Result<bool, AllocError> {
    let calls = calls_of(alloc, 2, "#7")?;
    is_twin(alloc, &calls, &calls_of(alloc, 2, "7")?)
}

fn keys_are_copied(alloc: Global) -> Result<bool, AllocError> {
    let keys = keys_of(alloc, &[5, 6])?;
    is_twin(alloc, &keys, &keys_of(alloc, &[6, 5])?)
}

fn replies_are_copied(alloc: Global) -> Result<bool, AllocError> {
    let reply = Reply::Rows(answer_of(alloc, "1")?);
    is_twin(alloc, &reply, &Reply::Done)
}

fn invariants_are_copied(alloc: Global) -> Result<bool, AllocError> {
    let invariants = invariants_of(alloc, Side::Old)?;
    is_twin(alloc, &invariants, &invariants_of(alloc, Side::New)?)
}

#[test]
fn a_twin_is_the_same(rt: HostRuntime) -> Result<(), Fail> {
    assert!(rt; states_are_copied(rt.alloc())?, "states");
    assert!(rt; calls_are_copied(rt.alloc())?, "calls");
    assert!(rt; keys_are_copied(rt.alloc())?, "keys");
    assert!(rt; replies_are_copied(rt.alloc())?, "replies");
    assert!(rt; invariants_are_copied(rt.alloc())?, "invariants");
    Ok(())
}

/// The rows of two answers, and whether they are the same bag.
const BAGS: [(&str, &str, bool); 4] = [
    ("1 2 1", "2 1 1", true),
    ("1 2 1", "1 2 2", false),
    ("1 2 1", "1 2", false),
    ("1 2", "1 2 1", false),
];

fn are_same_bag(alloc: Global, left: &str, right: &str) -> Result<bool, AllocError> {
    let left = answer_of(alloc, left)?;
    let right = answer_of(alloc, right)?;
    Ok(same_bag(&left, &right))
}

#[test]
fn bags_count_their_rows(rt: HostRuntime) -> Result<(), Fail> {
    for (left, right, want) in BAGS {
        let same = are_same_bag(rt.alloc(), left, right)?;
        assert!(rt; same == want, "{left} and {right}");
    }
    Ok(())
}
