// All link trees that serve a need: for each number of links each set of tables, and for it each set of its links.
ghost use Rattle.std.specs.Prelude.{◌≡◌, ◌<◌, ◌++◌, IfOk, OnOk, map, filter};
ghost use Rattle.std.specs.List.{flat_map};
ghost use Rattle.mig_trees.specs.Answer.{AreTrees};
ghost use Rattle.mig_trees.specs.Inside.{serves};
ghost use Rattle.mig_trees.specs.Joining.{written};
ghost use Rattle.mig_trees.specs.Making.{tree_of, is_tree, trees_over, trees_of};

use crate::choosing::{choices, numbers};
use crate::inside::{inside, serves};
use crate::writing::{covers, written};
use mig_base::Seq;
use mig_schema::{ColId, ColSets, Join, Schema, TreeList};
use std::alloc::{AllocError, Global};

/// Adds the trees over these tables with one of these sets of links.
fn add_joined(
    alloc: Global,
    schema: &Schema,
    tables: &[u32],
    sets: &[Seq<u32>],
    list: &mut Vec<Join>,
) -> Result<(), AllocError>
    ensures { OnOk result (list.new.items ≡ list.old.items ++ map (written schema.now) (map (tree_of tables.now) (filter (is_tree schema.now tables.now) sets.now))) }
{
    for links in sets {
        let join = written(alloc, schema, tables, links.as_slice())?;
        if covers(tables, &join) {
            list.push(join)?;
        }
    }
    Ok(())
}

/// Whether the links connect the tables.
fn connects(
    alloc: Global,
    schema: &Schema,
    tables: &[u32],
    links: &[u32],
) -> Result<bool, AllocError>
    ensures { IfOk result (λ b. b ≡ is_tree schema.now tables.now links.now) }
{
    let join = written(alloc, schema, tables, links)?;
    Ok(covers(tables, &join))
}

/// Adds the trees over these tables with so many links.
fn add_over(
    alloc: Global,
    schema: &Schema,
    count: usize,
    tables: &[u32],
    list: &mut Vec<Join>,
) -> Result<(), AllocError>
    ensures { OnOk result (list.new.items ≡ list.old.items ++ map (written schema.now) (trees_over schema.now count tables.now)) }
{
    let pool = inside(alloc, schema, tables)?;
    // Where all links together don't connect the tables, no few of them do: this alone spares most sets of tables.
    if !connects(alloc, schema, tables, pool.as_slice())? {
        return Ok(());
    }
    let sets = choices(alloc, count, pool.as_slice())?;
    add_joined(alloc, schema, tables, sets.as_slice(), list)
}

/// Adds the trees with so many links over those of these sets of tables that serve the need.
fn add_serving(
    alloc: Global,
    schema: &Schema,
    need: &[Seq<ColId>],
    count: usize,
    sets: &[Seq<u32>],
    list: &mut Vec<Join>,
) -> Result<(), AllocError>
    ensures { OnOk result (list.new.items ≡ list.old.items ++ map (written schema.now) (flat_map (trees_over schema.now count) (filter (serves need.now) sets.now))) }
{
    for tables in sets {
        if serves(need, tables.as_slice()) {
            add_over(alloc, schema, count, tables.as_slice(), list)?;
        }
    }
    Ok(())
}

/// Adds the trees with so many links that serve the need.
fn add_sized(
    alloc: Global,
    schema: &Schema,
    need: &[Seq<ColId>],
    count: usize,
    list: &mut Vec<Join>,
) -> Result<(), AllocError>
    requires few { count < 4 }
    ensures { OnOk result (list.new.items ≡ list.old.items ++ map (written schema.now) (trees_of schema.now need.now count)) }
{
    let pool = numbers(alloc, schema.tables.len())?;
    let sets = choices(alloc, count + 1, pool.as_slice())?;
    add_serving(alloc, schema, need, count, sets.as_slice(), list)
}

/// All link trees that hold a column of each set, in order, as joins.
///
/// A link tree has one to four tables, and as many links less one, which connect them. Fewer tables come first, then smaller table numbers, then smaller link numbers. Two equal links give two trees. Where nothing is needed, all link trees of the schema are listed. `AllocError` comes only where memory is wanting, as which a schema of 2^32 tables or links counts.
pub fn trees(alloc: Global, schema: &Schema, need: &ColSets) -> Result<TreeList, AllocError>
    ensures all { IfOk result (λ list. AreTrees schema.now need.now.sets list.joins) }
{
    let mut list = Vec::new(alloc);
    for count in 0..4 {
        add_sized(alloc, schema, need.sets.as_slice(), count, &mut list)?;
    }
    Ok(TreeList {
        joins: Seq::from_vec(list),
    })
}
