// The classes that a join's equalities make of its columns.
ghost use Rattle.std.specs.Prelude.{◌≡◌, ◌≤◌, ◌^◌, ◌∷◌, cond, Some, None, map};
ghost use Rattle.std.specs.List.{find, flat_map};
ghost use Rattle.mig_schema.specs.declared.tables.ColId.{ColId as Col};
ghost use Rattle.mig_schema.specs.Columns as columns;
ghost use Rattle.mig_schema.specs.Joins as spec;
ghost use Rattle.mig_typing.specs.Classes as classes;

use mig_schema::{ColId, Join, Joined, Schema, columns_of, leader, same_col};

/// One column for each class of a join's columns: two columns are in one class exactly where theirs is the same.
/// It calls itself three times for each further table of the join.
pub fn leader_of(join: &Join, column: ColId) -> ColId
    ensures value { result ≡ spec.leader join.now.more column }
    ensures wide { (c : Col) → 2 ^ 32 ≤ c.column → spec.leader join.now.more c ≡ c }
{
    leader(join.more.as_slice(), column)
}

/// Whether the equalities of a join group two columns into one class.
pub fn in_one_class(join: &Join, left: ColId, right: ColId) -> bool
    ensures { result ≡ spec.in_one_class join.now left right }
{
    same_col(leader_of(join, left), leader_of(join, right))
}

/// Column k of table t, where it is in the class of `column`.
fn in_class(join: &Join, column: ColId, t: u32, k: usize) -> Option<ColId>
    ensures { let c : Col = record { table = t; column = k } in result ≡ cond (spec.in_one_class join.now column c) (Some c) None }
{
    let own = leader_of(join, column);
    match u32::try_from(k) {
        Ok(k) => {
            let other = ColId {
                table: t,
                column: k,
            };
            if same_col(own, leader_of(join, other)) {
                Some(other)
            } else {
                None
            }
        }
        Err(_) => None,
    }
}

/// Whether column k of table t is in the class of `column`.
pub(crate) fn is_in_class(join: &Join, column: ColId, t: u32, k: usize) -> bool
    ensures { result ≡ spec.in_one_class join.now column (record { table = t; column = k }) }
{
    in_class(join, column, t, k).is_some()
}

/// The first column of table t that is in the class of `column`.
fn first_in_table(schema: &Schema, join: &Join, column: ColId, t: u32) -> Option<ColId>
    ensures { result ≡ find (spec.in_one_class join.now column) (columns.columns_in schema.now t) }
{
    for k in 0..columns_of(schema, t).len() {
        let found = in_class(join, column, t, k);
        if found.is_some() {
            return found;
        }
    }
    None
}

/// The first column of these joined tables that is in the class of `column`.
fn first_in_joined(schema: &Schema, join: &Join, column: ColId, joined: &[Joined]) -> Option<ColId>
    ensures { result ≡ find (spec.in_one_class join.now column) (flat_map (columns.columns_in schema.now) (map (λ m. m.table) joined.now)) }
{
    for i in 0..joined.len() {
        match first_in_table(schema, join, column, joined[i].table) {
            Some(first) => return Some(first),
            None => {}
        }
    }
    None
}

/// The first column of a join that is in the class of `column`; `column` itself where none is.
/// Columns stand by the join's tables, in order, then by their numbers.
pub fn first_of_class(schema: &Schema, join: &Join, column: ColId) -> ColId
    ensures { result ≡ classes.first_of_class schema.now join.now column }
{
    match first_in_table(schema, join, column, join.first) {
        Some(first) => first,
        None => first_in_joined(schema, join, column, join.more.as_slice()).unwrap_or(column),
    }
}
