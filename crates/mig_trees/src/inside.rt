// What a set of tables holds: links, and columns of a need.
ghost use Rattle.std.specs.Prelude.{◌≡◌, IfOk};
ghost use Rattle.mig_schema.specs.Joins as spec_joins;
ghost use Rattle.mig_trees.specs.Inside as spec;

use mig_base::{Seq, number};
use mig_schema::{ColId, Schema};
use std::alloc::{AllocError, Global};

/// Whether the number is among these.
pub(crate) fn is_among(n: u32, ns: &[u32]) -> bool
    ensures { result ≡ spec_joins.is_among n ns.now }
{
    ns.iter().any(|m| *m == n)
}

/// Whether the schema has a link of this number with both ends in the tables.
fn is_inside(schema: &Schema, tables: &[u32], n: usize) -> bool
    ensures { result ≡ spec.is_inside schema.now tables.now n }
{
    match schema.links.get(n) {
        Some(link) => is_among(link.left.table, tables) && is_among(link.right.table, tables),
        None => false,
    }
}

/// The links with both ends in the tables, by their numbers.
pub(crate) fn inside(alloc: Global, schema: &Schema, tables: &[u32]) -> Result<Vec<u32>, AllocError>
    ensures { IfOk result (λ v. v.items ≡ spec.inside schema.now tables.now) }
{
    let mut list = Vec::new(alloc);
    for n in 0..schema.links.len() {
        if is_inside(schema, tables, n) {
            list.push(number(n)?)?;
        }
    }
    Ok(list)
}

/// Whether the tables hold a column of the set.
fn has_one(set: &[ColId], tables: &[u32]) -> bool
    ensures { result ≡ spec.has_one tables.now set.now }
{
    set.iter().any(|c| is_among(c.table, tables))
}

/// Whether the tables hold a column of each set.
pub(crate) fn serves(need: &[Seq<ColId>], tables: &[u32]) -> bool
    ensures { result ≡ spec.serves need.now tables.now }
{
    need.iter().all(|set| has_one(set.as_slice(), tables))
}
