// Tables and links as a join.
ghost use Rattle.std.specs.Prelude.{◌≡◌, IfOk, slice_index_or, slice_get};
ghost use Rattle.mig_trees.specs.Joining as spec;
ghost use Rattle.mig_trees.specs.Making.{tree_of, is_taken, has_joined, covers};

use crate::inside::is_among;
use mig_base::Seq;
use mig_schema::{Join, Joined, Link, Schema};
use std::alloc::{AllocError, Global};

/// The table that the link joins to those taken, the taken table's column left.
fn joining(taken: &[u32], link: &Link) -> Option<Joined>
    ensures { result ≡ spec.joining taken.now link.now }
{
    let left = is_among(link.left.table, taken);
    let right = is_among(link.right.table, taken);
    match (left, right) {
        (true, false) => Some(Joined {
            table: link.right.table,
            left: link.left,
            right: link.right,
        }),
        (false, true) => Some(Joined {
            table: link.left.table,
            left: link.right,
            right: link.left,
        }),
        _ => None,
    }
}

/// The same of the link of this number, if there is one.
fn joining_at(schema: &Schema, taken: &[u32], n: u32) -> Option<Joined>
    ensures { result ≡ spec.joining_at taken.now (slice_get schema.now.links n) }
{
    match schema.links.get(n as usize) {
        Some(link) => joining(taken, link),
        None => None,
    }
}

/// The table that the first of the links joins which joins one.
fn next_joined(schema: &Schema, taken: &[u32], links: &[u32]) -> Option<Joined>
    ensures { result ≡ spec.next_joined schema.now taken.now links.now }
{
    for n in links {
        if let Some(joined) = joining_at(schema, taken, *n) {
            return Some(joined);
        }
    }
    None
}

/// The first of the tables; 0 where there is none.
fn least(tables: &[u32]) -> u32
    ensures { result ≡ slice_index_or tables.now 0 0 }
{
    match tables.first() {
        Some(n) => *n,
        None => 0,
    }
}

/// The join that begins with the first table and takes the first link that joins a table, as often as there are links.
pub(crate) fn written(
    alloc: Global,
    schema: &Schema,
    tables: &[u32],
    links: &[u32],
) -> Result<Join, AllocError>
    ensures { IfOk result (λ j. j ≡ spec.written schema.now (tree_of tables.now links.now)) }
{
    let first = least(tables);
    let mut taken = Vec::new(alloc);
    taken.push(first)?;
    let mut more = Vec::new(alloc);
    for _ in 0..links.len() {
        match next_joined(schema, taken.as_slice(), links) {
            None => {
                return Ok(Join {
                    first,
                    more: Seq::from_vec(more),
                });
            }
            Some(joined) => {
                taken.push(joined.table)?;
                more.push(joined)?;
            }
        }
    }
    Ok(Join {
        first,
        more: Seq::from_vec(more),
    })
}

/// Whether table n is joined.
fn is_taken(n: u32, more: &[Joined]) -> bool
    ensures { result ≡ is_taken n more.now }
{
    more.iter().any(|joined| joined.table == n)
}

/// Whether the join has table n.
fn has_joined(n: u32, join: &Join) -> bool
    ensures { result ≡ has_joined n join.now }
{
    join.first == n || is_taken(n, join.more.as_slice())
}

/// Whether the join has all of the tables.
pub(crate) fn covers(tables: &[u32], join: &Join) -> bool
    ensures { result ≡ covers tables.now join.now }
{
    tables.iter().all(|n| has_joined(*n, join))
}
