// How many link trees the largest schemas have: 32 links between 16 tables.
use mig_base::Seq;
use mig_schema::{ColId, ColSets, Link, Schema, Table};
use mig_trees::trees;
use std::alloc::{AllocError, Global};
use std::test::Fail;

/// How the links join the tables.
#[derive(Clone, Copy)]
enum Shape {
    Star,
    Ring,
    Dense,
    Pair,
}

/// The number of link trees of one, two, three and four tables together. A star has links to its 15 points, three to
/// two of them and two to each other; a ring has two between neighbours; the dense graph joins each table with those 1
/// and 5 further on, so that no three of its links close a ring.
const LARGE: [(&str, Shape, usize); 4] = [
    ("star", Shape::Star, 16 + 32 + 477 + 4394),
    ("ring", Shape::Ring, 16 + 32 + 64 + 128),
    ("dense", Shape::Dense, 16 + 32 + 96 + (64 + 288)),
    ("pair", Shape::Pair, 16 + 32),
];

/// The tables that a link joins.
fn ends(shape: Shape, k: u32) -> (u32, u32) {
    match shape {
        Shape::Star => (0, 1 + k % 15),
        Shape::Ring => (k % 16, (k % 16 + 1) % 16),
        Shape::Dense if k < 16 => (k, (k + 1) % 16),
        Shape::Dense => (k % 16, (k % 16 + 5) % 16),
        Shape::Pair => (0, 1),
    }
}

/// The first column of a table.
fn first(table: u32) -> ColId {
    ColId { table, column: 0 }
}

/// The links, by their numbers.
fn links(alloc: Global, shape: Shape) -> Result<Seq<Link>, AllocError> {
    let mut links = Seq::new(alloc);
    for k in 0..32 {
        let (a, b) = ends(shape, k);
        links.push(Link {
            left: first(a),
            right: first(b),
        })?;
    }
    Ok(links)
}

fn large(alloc: Global, shape: Shape) -> Result<Schema, AllocError> {
    let mut tables = Seq::new(alloc);
    for _ in 0..16 {
        tables.push(Table {
            name: Seq::new(alloc),
            columns: Seq::new(alloc),
        })?;
    }
    let links = links(alloc, shape)?;
    Ok(Schema { tables, links })
}

/// How many link trees there are.
fn count(alloc: Global, shape: Shape) -> Result<usize, AllocError> {
    let need = ColSets {
        sets: Seq::new(alloc),
    };
    let list = trees(alloc, &large(alloc, shape)?, &need)?;
    Ok(list.joins.len())
}

#[test]
fn trees_of_the_largest_schemas(rt: HostRuntime) -> Result<(), Fail> {
    for (name, shape, want) in &LARGE {
        assert!(rt; count(rt.alloc(), *shape)? == *want, "{name}");
    }
    Ok(())
}
