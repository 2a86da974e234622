// How long the link trees of the largest schemas take to be listed: 16 tables and 32 links.
use mig_base::Seq;
use mig_schema::{ColId, ColSets, Column, Kind, Link, Schema, Table};
use mig_trees::trees;
use std::alloc::{AllocError, Global};
use std::io;
use std::rt::Runtime;
use std::time::Instant;

/// How the tables are linked.
#[derive(Clone, Copy)]
pub enum Shape {
    /// Each other table with the first one.
    Star,
    /// Each table with the next one.
    Chain,
    /// Each table with the next one, and the last with the first.
    Ring,
    /// Each table with four others.
    Dense,
    /// The first two tables alone.
    Pair,
    /// The first four tables, each with each.
    Four,
}

/// The tables of link k.
fn ends(shape: Shape, k: u32) -> (u32, u32) {
    match shape {
        Shape::Star => (0, 1 + k % 15),
        Shape::Chain => (k % 15, k % 15 + 1),
        Shape::Ring => (k % 16, (k % 16 + 1) % 16),
        Shape::Dense if k < 16 => (k, (k + 1) % 16),
        Shape::Dense => (k % 16, (k % 16 + 5) % 16),
        Shape::Pair => (0, 1),
        Shape::Four => match k % 6 {
            0 => (0, 1),
            1 => (0, 2),
            2 => (0, 3),
            3 => (1, 2),
            4 => (1, 3),
            _ => (2, 3),
        },
    }
}

/// A table with a key. Its name is not looked at.
fn table(alloc: Global) -> Result<Table, AllocError> {
    let mut columns = Seq::new(alloc);
    columns.push(Column {
        name: Seq::new(alloc),
        kind: Kind::Key,
    })?;
    Ok(Table {
        name: Seq::new(alloc),
        columns,
    })
}

/// A schema of 16 tables and 32 links.
fn schema(alloc: Global, shape: Shape) -> Result<Schema, AllocError> {
    let mut tables = Seq::new(alloc);
    let mut links = Seq::new(alloc);
    for k in 0..32 {
        if k < 16 {
            tables.push(table(alloc)?)?;
        }
        let (a, b) = ends(shape, k);
        links.push(Link {
            left: ColId {
                table: a,
                column: 0,
            },
            right: ColId {
                table: b,
                column: 0,
            },
        })?;
    }
    Ok(Schema { tables, links })
}

/// Lists all link trees of the shape so many times.
pub fn time<R: Runtime + Alloc<A = Global>>(rt: &R, shape: Shape, times: u32) -> io::Result<()> {
    let schema = schema(rt.alloc(), shape)?;
    let need = ColSets {
        sets: Seq::new(rt.alloc()),
    };
    let start = Instant::now(rt)?;
    let mut count = 0;
    for _ in 0..times {
        count = trees(rt.alloc(), &schema, &need)?.joins.len();
    }
    let spent = start.elapsed(rt)?.as_micros();
    println!(rt; "{count} link trees, listed {times} times")?;
    eprintln!(rt; "{spent} microseconds in all")
}
