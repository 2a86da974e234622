// Facts of single columns, and of two, that are worth trying.
ghost use Rattle.std.specs.Prelude.{◌≡◌, ◌++◌, filter, IfOk, OnOk};
ghost use Rattle.mig_invariant.specs.Candidates as spec;
ghost use Rattle.mig_invariant.specs.Columns as kinds;

use crate::columns::is_key;
use crate::joining::{are_equated, is_equated};
use mig_base::Seq;
use mig_meaning::Invariant;
use mig_schema::{ColId, Joined, Schema, Side};
use std::alloc::{AllocError, Global};

/// Whether the column is a key, or stands in an equality.
fn is_key_or_equated(schema: &Schema, equalities: &[Joined], c: ColId) -> bool
    ensures { result ≡ spec.is_key_or_equated schema.now equalities.now c }
{
    is_key(schema, c) || is_equated(equalities, c)
}

/// Adds: each of these columns that is a key or stands in an equality is unique.
pub(crate) fn add_uniques(
    side: Side,
    schema: &Schema,
    columns: &[ColId],
    equalities: &[Joined],
    list: &mut Vec<Invariant>,
) -> Result<(), AllocError>
    ensures { OnOk result (list.new.items ≡ list.old.items ++ spec.uniques side schema.now columns.now equalities.now) }
{
    for c in columns {
        if is_key_or_equated(schema, equalities, *c) {
            list.push(Invariant::Unique { side, column: *c })?;
        }
    }
    Ok(())
}

/// Those of the columns that are keys.
fn keys_among(alloc: Global, schema: &Schema, columns: &[ColId]) -> Result<Seq<ColId>, AllocError>
    ensures { IfOk result (λ list. list ≡ filter (kinds.is_key schema.now) columns.now) }
{
    let mut list = Seq::new(alloc);
    for c in columns {
        if is_key(schema, *c) {
            list.push(*c)?;
        }
    }
    Ok(list)
}

/// Whether the left column's table comes before the right one's.
fn is_of_earlier(left: ColId, right: ColId) -> bool
    ensures { result ≡ spec.is_of_earlier left right }
{
    left.table < right.table
}

/// Adds: the column is apart from each of these that stands in a later table.
fn add_aparts_from(
    side: Side,
    columns: &[ColId],
    left: ColId,
    list: &mut Vec<Invariant>,
) -> Result<(), AllocError>
    ensures { OnOk result (list.new.items ≡ list.old.items ++ spec.aparts_from side columns.now left) }
{
    for right in columns {
        if is_of_earlier(left, *right) {
            list.push(Invariant::Apart {
                side,
                left,
                right: *right,
            })?;
        }
    }
    Ok(())
}

/// Adds: of each two of these columns in different tables the earlier is apart from the later.
fn add_aparts_among(
    side: Side,
    columns: &[ColId],
    list: &mut Vec<Invariant>,
) -> Result<(), AllocError>
    ensures { OnOk result (list.new.items ≡ list.old.items ++ spec.aparts_among side columns.now) }
{
    for left in columns {
        add_aparts_from(side, columns, *left, list)?;
    }
    Ok(())
}

/// Adds: of each two of these columns that are keys of different tables the earlier is apart from the later.
pub(crate) fn add_aparts(
    alloc: Global,
    side: Side,
    schema: &Schema,
    columns: &[ColId],
    list: &mut Vec<Invariant>,
) -> Result<(), AllocError>
    ensures { OnOk result (list.new.items ≡ list.old.items ++ spec.aparts side schema.now columns.now) }
{
    let keys = keys_among(alloc, schema, columns)?;
    add_aparts_among(side, keys.as_slice(), list)
}

/// Adds: the column is within each of these with which it is equated.
fn add_withins_from(
    side: Side,
    equalities: &[Joined],
    columns: &[ColId],
    left: ColId,
    list: &mut Vec<Invariant>,
) -> Result<(), AllocError>
    ensures { OnOk result (list.new.items ≡ list.old.items ++ spec.withins_from side equalities.now columns.now left) }
{
    for right in columns {
        if are_equated(equalities, left, *right) {
            list.push(Invariant::Within {
                side,
                left,
                right: *right,
            })?;
        }
    }
    Ok(())
}

/// Adds: of each two of these columns that are equated either is within the other.
pub(crate) fn add_withins(
    side: Side,
    equalities: &[Joined],
    columns: &[ColId],
    list: &mut Vec<Invariant>,
) -> Result<(), AllocError>
    ensures { OnOk result (list.new.items ≡ list.old.items ++ spec.withins side equalities.now columns.now) }
{
    for left in columns {
        add_withins_from(side, equalities, columns, *left, list)?;
    }
    Ok(())
}
