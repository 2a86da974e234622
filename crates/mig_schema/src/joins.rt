// Joins: their tables, the classes that their equalities make, and their shape.
ghost use Rattle.std.specs.Prelude.{◌≡◌, ◌==◌, ◌≤◌, ◌^◌, ◌∷◌, [], map, IfOk};
ghost use Rattle.std.specs.List.{list_any};
ghost use Rattle.mig_schema.specs.declared.tables.ColId.{ColId as Col};
ghost use Rattle.mig_schema.specs.Joins as spec;
ghost use Rattle.mig_schema.specs.Typed.{stands_twice};

use crate::columns::{kind_of, same_col, same_kind};
use crate::programs::{Join, Joined};
use crate::tables::{ColId, Schema};
use std::alloc::{AllocError, Global};

/// The joined tables, in order.
pub fn tables_of(alloc: Global, join: &Join) -> Result<Vec<u32>, AllocError>
    ensures { IfOk result (λ v. v.items ≡ spec.tables_of join.now) }
{
    let mut tables = Vec::new(alloc);
    tables.push(join.first)?;
    for joined in join.more.as_slice() {
        tables.push(joined.table)?;
    }
    Ok(tables)
}

/// One column of the class of `column` under these equalities, the same for all columns of the class.
/// It calls itself three times for each equality.
pub fn leader(joined: &[Joined], column: ColId) -> ColId
    ensures value { result ≡ spec.leader joined.now column }
    // The columns of an equality have numbers of 32 bits, so a greater number stands alone.
    ensures wide { (c : Col) → 2 ^ 32 ≤ c.column → spec.leader joined.now c ≡ c }
{
    match joined {
        [] => column,
        [m, more @ ..] => {
            let own = leader(more, column);
            if same_col(own, leader(more, m.right)) {
                leader(more, m.left)
            } else {
                own
            }
        }
    }
}

/// Whether a table is one of these joined ones.
pub fn is_joined(joined: &[Joined], t: u32) -> bool
    ensures { result ≡ list_any (λ m. m.table == t) joined.now }
{
    joined.iter().any(|m| m.table == t)
}

/// Whether a table is the first one or one of these joined ones.
#[tactic(auto, using(crate::proofs::JoinedTables::joined_listed))]
pub fn is_earlier(first: u32, joined: &[Joined], t: u32) -> bool
    ensures { result ≡ spec.is_among t (first ∷ map (λ m. m.table) joined.now) }
{
    first == t || is_joined(joined, t)
}

/// Whether a table is in a join.
pub fn is_in_join(join: &Join, t: u32) -> bool
    ensures { result ≡ spec.is_among t (spec.tables_of join.now) }
{
    is_earlier(join.first, join.more.as_slice(), t)
}

/// Whether a table stands twice among joined ones.
fn repeats(joined: &[Joined]) -> bool
    ensures { result ≡ spec.twice_among joined.now }
{
    match joined {
        [] => false,
        [m, more @ ..] => is_joined(more, m.table) || repeats(more),
    }
}

/// Whether a table stands twice in a join.
#[tactic(auto, using(crate::proofs::JoinedTables::stands_joined))]
pub fn joins_twice(join: &Join) -> bool
    ensures { result ≡ stands_twice (spec.tables_of join.now) }
{
    let more = join.more.as_slice();
    is_joined(more, join.first) || repeats(more)
}

/// Whether an equality has a column of an earlier table left and one of the joined table right, of one kind.
fn joins_on(schema: &Schema, first: u32, before: &[Joined], joined: &Joined) -> bool
    ensures { result ≡ spec.joins_on schema.now (first ∷ map (λ m. m.table) before.now) joined.now }
{
    is_earlier(first, before, joined.left.table)
        && joined.right.table == joined.table
        && same_kind(kind_of(schema, joined.left), kind_of(schema, joined.right))
}

/// Whether each of these equalities has a column of an earlier table left and one of its own table right, of one kind. The
/// first table and those that are joined before are the earlier ones.
pub fn all_join_on(schema: &Schema, first: u32, joined: &[Joined]) -> bool
    ensures { result ≡ spec.all_join_on schema.now (first ∷ []) joined.now }
{
    for i in 0..joined.len() {
        if !joins_on(schema, first, &joined[..i], &joined[i]) {
            return false;
        }
    }
    true
}
