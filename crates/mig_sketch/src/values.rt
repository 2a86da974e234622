// The values of an insert over a tree.
ghost use Rattle.std.specs.Prelude.{◌≡◌, ◌<◌, [], ◌++◌, map, IfOk, OnOk};
ghost use Rattle.std.specs.List.{list_all, list_any, flat_map};
ghost use Rattle.mig_schema.specs.Columns.{same_col as spec_same_col};
ghost use Rattle.mig_sketch.specs.Imaging.{carried_to};
ghost use Rattle.mig_sketch.specs.Labels.{new_label as spec_new_label};
ghost use Rattle.mig_sketch.specs.Leading as leading;
ghost use Rattle.mig_sketch.specs.Values as spec;

use crate::images::Imaged;
use crate::labels::new_label;
use crate::needing::join_columns;
use mig_base::{Exact, Seq, same_text};
use mig_invariant::is_key;
use mig_schema::{Assign, ColId, Join, Scalar, Schema, same_col};
use mig_typing::{in_one_class, leader_of};
use std::alloc::{AllocError, Global};

/// Adds the scalar for each of these columns.
fn add_for_each(
    alloc: Global,
    columns: &[ColId],
    value: &Scalar,
    list: &mut Vec<Assign>,
) -> Result<(), AllocError>
    ensures { OnOk result (list.new.items ≡ list.old.items ++ spec.for_each columns.now value.now) }
{
    for column in columns {
        let value = value.twin(alloc)?;
        list.push(Assign {
            column: *column,
            value,
        })?;
    }
    Ok(())
}

/// Adds what a value of the old insert gives to the images of one column.
fn add_given(
    alloc: Global,
    old: &Join,
    one: &Imaged,
    a: &Assign,
    list: &mut Vec<Assign>,
) -> Result<(), AllocError>
    ensures { OnOk result (list.new.items ≡ list.old.items ++ spec.given_to old.now one.now.images one.now.source a.now) }
{
    if in_one_class(old, a.column, one.source) {
        add_for_each(alloc, one.images.as_slice(), &a.value, list)
    } else {
        Ok(())
    }
}

/// Adds what the old insert gives to the images of one column.
fn add_carried(
    alloc: Global,
    old: &Join,
    values: &[Assign],
    one: &Imaged,
    list: &mut Vec<Assign>,
) -> Result<(), AllocError>
    ensures { OnOk result (list.new.items ≡ list.old.items ++ carried_to old.now values.now one.now) }
{
    for a in values {
        add_given(alloc, old, one, a, list)?;
    }
    Ok(())
}

/// What the old insert gives to the images of these columns.
pub(crate) fn carried(
    alloc: Global,
    old: &Join,
    values: &[Assign],
    columns: &[Imaged],
) -> Result<Vec<Assign>, AllocError>
    ensures { IfOk result (λ v. v.items ≡ flat_map (carried_to old.now values.now) columns.now) }
{
    let mut list = Vec::new(alloc);
    for one in columns {
        add_carried(alloc, old, values, one, &mut list)?;
    }
    Ok(list)
}

/// Whether two scalars are the same.
fn same_scalar(left: &Scalar, right: &Scalar) -> bool
    ensures { result ≡ spec.same_scalar left.now right.now }
{
    match (left, right) {
        (Scalar::Param(a), Scalar::Param(b)) => *a == *b,
        (Scalar::Int(a), Scalar::Int(b)) => *a == *b,
        (Scalar::Text(a), Scalar::Text(b)) => same_text(a, b),
        (Scalar::Fresh(a), Scalar::Fresh(b)) => *a == *b,
        _ => false,
    }
}

/// These values, each at the leader of its column's class in the tree.
fn led(alloc: Global, tree: &Join, values: &[Assign]) -> Result<Vec<Assign>, AllocError>
    ensures { IfOk result (λ v. v.items ≡ map (leading.led tree.now) values.now) }
{
    let mut list = Vec::new(alloc);
    for a in values {
        let value = a.value.twin(alloc)?;
        list.push(Assign {
            column: leader_of(tree, a.column),
            value,
        })?;
    }
    Ok(list)
}

/// Whether all scalars for the class that this column leads are the same as this one.
fn all_same(own: ColId, led: &[Assign], value: &Scalar) -> bool
    ensures { result ≡ list_all (leading.is_like own value.now) led.now }
{
    led.iter().all(|a| !same_col(own, a.column) || same_scalar(value, &a.value))
}

/// Whether there is a scalar for the class.
fn is_given(own: ColId, led: &[Assign]) -> bool
    ensures { result ≡ leading.is_given own led.now }
{
    led.iter().any(|a| same_col(own, a.column))
}

/// The value of a class of kind key without a scalar, if there is a label; other classes have none.
fn new_value(key: bool, label: Option<u32>) -> Option<Scalar>
    ensures { result ≡ spec.class_value key label [] }
{
    match label {
        Some(n) if key => Some(Scalar::Fresh(n)),
        _ => None,
    }
}

/// The value of the class that this column leads.
#[tactic(auto, using(crate::proofs::Valued::class_take, crate::proofs::Valued::class_skip))]
fn class_value(
    alloc: Global,
    own: ColId,
    key: bool,
    label: Option<u32>,
    led: &[Assign],
) -> Result<Option<Scalar>, AllocError>
    ensures { IfOk result (λ o. o ≡ spec.class_value key label (leading.scalars_led own led.now)) }
{
    match led {
        [] => Ok(new_value(key, label)),
        [a, rest @ ..] => {
            if !same_col(own, a.column) {
                class_value(alloc, own, key, label, rest)
            } else if all_same(own, rest, &a.value) {
                Ok(Some(a.value.twin(alloc)?))
            } else {
                Ok(None)
            }
        }
    }
}

/// How many new labels are taken after the class that this column leads.
#[tactic(auto, using(crate::proofs::Valued::taken_given))]
fn taken_after(taken: u32, own: ColId, led: &[Assign]) -> u32
    requires { taken < 5 }
    ensures { result ≡ spec.taken_after taken (leading.scalars_led own led.now) }
{
    if is_given(own, led) { taken } else { taken + 1 }
}

/// Whether a column is among these.
fn has_column(columns: &[ColId], column: ColId) -> bool
    ensures { result ≡ list_any (λ c. spec_same_col c column) columns.now }
{
    columns.iter().any(|c| same_col(*c, column))
}

/// The values for the classes of these columns of a tree, where these are given at the leaders of their classes; `None` where a class has none.
fn class_values(
    alloc: Global,
    target: &Schema,
    tree: &Join,
    columns: &[ColId],
    led: &[Assign],
    free: &[u32],
    s: u32,
) -> Result<Option<Seq<Assign>>, AllocError>
    ensures { IfOk result (λ o. o ≡ spec.values_from target.now (leading.scalars_at tree.now led.now) (spec_new_label free.now s) 0 (spec.first_columns tree.now [] columns.now)) }
{
    let mut leaders = Vec::new(alloc);
    let mut values = Seq::new(alloc);
    let mut taken = 0;
    for column in columns {
        let own = leader_of(tree, *column);
        if has_column(leaders.as_slice(), own) {
            continue;
        }
        let label = new_label(free, s, taken);
        let Some(value) = class_value(alloc, own, is_key(target, *column), label, led)? else {
            return Ok(None);
        };
        leaders.push(own)?;
        values.push(Assign {
            column: *column,
            value,
        })?;
        taken = taken_after(taken, own, led);
    }
    Ok(Some(values))
}

/// The values over a tree, of what statement s gives to new columns, where its function does not use these labels; `None` where the tree is refused.
pub(crate) fn insert_values(
    alloc: Global,
    target: &Schema,
    carried: &[Assign],
    free: &[u32],
    s: u32,
    tree: &Join,
) -> Result<Option<Seq<Assign>>, AllocError>
    ensures { IfOk result (λ o. o ≡ spec.insert_values target.now carried.now free.now s tree.now) }
{
    let led = led(alloc, tree, carried)?;
    let columns = join_columns(alloc, target, tree)?;
    class_values(
        alloc,
        target,
        tree,
        columns.as_slice(),
        led.as_slice(),
        free,
        s,
    )
}
