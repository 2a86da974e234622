// A job of so many tables, whose second texts move to one pool; its program over the new schema, and what holds between the tables.
use crate::completing::{job_of, program_of};
use crate::numbering::put_each;
use crate::obliging::Given;
use mig_algebra::{Invariant, Invariants, View};
use mig_base::{Seq, Txt};
use mig_printing::put;
use mig_schema::{ColId, Join, Joined, Side};
use std::alloc::{AllocError, Global};

const OLD: &str = "table t# { id: int, a: text, b: text }\n";

const NEW: &str = "table t# { id: int, a: text, k: key }\n";

const LINKS: &str = "link t#.k = pool.k;\n";

const FUNCTIONS: &str =
    "update add#(id: int, a: text, b: text) { insert into t# { t#.id = id, t#.a = a, t#.b = b }; }
update del#(id: int) { delete t# from t# where t#.id = id; }
query get#(id: int) { select t#.a, t#.b from t# where t#.id = id; }
";

const MOVED: &str =
    "update add#(id: int, a: text, b: text) { insert into t# join pool on t#.k = pool.k { t#.id = id, t#.a = a, t#.k = fresh 0, pool.b = b }; }
update del#(id: int) { delete t# from t# join pool on t#.k = pool.k where t#.id = id; }
query get#(id: int) { select t#.a, pool.b from t# join pool on t#.k = pool.k where t#.id = id; }
";

/// The text of the job.
pub fn job_text(alloc: Global, tables: u32) -> Result<Txt, AllocError> {
    let mut text = Seq::new(alloc);
    put(&mut text, "old\n")?;
    put_each(&mut text, OLD, tables)?;
    put(&mut text, "new\n")?;
    put_each(&mut text, NEW, tables)?;
    put(&mut text, "table pool { k: key, b: text }\n")?;
    put_each(&mut text, LINKS, tables)?;
    put(&mut text, "program\n")?;
    put_each(&mut text, FUNCTIONS, tables)?;
    Ok(text)
}

/// The text of the program over the new schema.
fn program_text(alloc: Global, tables: u32) -> Result<Txt, AllocError> {
    let mut text = Seq::new(alloc);
    put_each(&mut text, MOVED, tables)?;
    Ok(text)
}

fn column(table: u32, column: u32) -> ColId {
    ColId { table, column }
}

/// A view of a table, or of its join with another one by two columns.
pub fn view(
    alloc: Global,
    first: u32,
    more: Option<Joined>,
    outs: [ColId; 3],
) -> Result<View, AllocError> {
    let mut joined = Seq::new(alloc);
    if let Some(more) = more {
        joined.push(more)?;
    }
    let outs = Seq::from_slice(alloc, &outs)?;
    let join = Join {
        first,
        more: joined,
    };
    Ok(View { join, outs })
}

/// What the rows of an old table are in the new ones.
fn moved(alloc: Global, n: u32, pool: u32) -> Result<Invariant, AllocError> {
    let outs = [column(n, 0), column(n, 1), column(n, 2)];
    let source = view(alloc, n, None, outs)?;
    let more = Joined {
        table: pool,
        left: column(n, 2),
        right: column(pool, 0),
    };
    let outs = [column(n, 0), column(n, 1), column(pool, 1)];
    let target = view(alloc, n, Some(more), outs)?;
    Ok(Invariant::Views { source, target })
}

fn push_views(alloc: Global, list: &mut Seq<Invariant>, tables: u32) -> Result<(), AllocError> {
    for n in 0..tables {
        list.push(moved(alloc, n, tables)?)?;
    }
    Ok(())
}

/// Each key is unique, the pool's too.
fn push_unique(list: &mut Seq<Invariant>, tables: u32) -> Result<(), AllocError> {
    for n in 0..tables {
        let column = column(n, 2);
        list.push(Invariant::Unique {
            side: Side::New,
            column,
        })?;
    }
    list.push(Invariant::Unique {
        side: Side::New,
        column: column(tables, 0),
    })
}

/// The keys of a table are none of those of later ones.
fn push_apart(list: &mut Seq<Invariant>, n: u32, tables: u32) -> Result<(), AllocError> {
    for m in 0..tables {
        if n < m {
            list.push(Invariant::Apart {
                side: Side::New,
                left: column(n, 2),
                right: column(m, 2),
            })?;
        }
    }
    Ok(())
}

fn push_all_apart(list: &mut Seq<Invariant>, tables: u32) -> Result<(), AllocError> {
    for n in 0..tables {
        push_apart(list, n, tables)?;
    }
    Ok(())
}

/// Each key is one of the pool's.
fn push_within(list: &mut Seq<Invariant>, tables: u32) -> Result<(), AllocError> {
    for n in 0..tables {
        list.push(Invariant::Within {
            side: Side::New,
            left: column(n, 2),
            right: column(tables, 0),
        })?;
    }
    Ok(())
}

fn facts(alloc: Global, tables: u32) -> Result<Invariants, AllocError> {
    let mut list = Seq::new(alloc);
    push_views(alloc, &mut list, tables)?;
    push_unique(&mut list, tables)?;
    push_all_apart(&mut list, tables)?;
    push_within(&mut list, tables)?;
    Ok(Invariants { list })
}

/// The job of so many tables, with its program and what holds.
pub fn given(alloc: Global, tables: u32) -> Result<Given, AllocError> {
    let text = job_text(alloc, tables)?;
    let job = job_of(alloc, text.as_slice())?;
    let text = program_text(alloc, tables)?;
    let program = program_of(alloc, &job, text.as_slice())?;
    let invariants = facts(alloc, tables)?;
    Ok(Given {
        job,
        program,
        invariants,
    })
}
