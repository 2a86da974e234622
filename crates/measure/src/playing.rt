// How long files of calls take to be played over a store in memory.
use mig_base::{Bytes, Seq, Txt};
use mig_printing::{put, put_number};
use mig_storage::VecStore;
use mig_store::play;
use mig_syntax::read_job;
use std::alloc::{AllocError, Global};
use std::io;
use std::rt::Runtime;
use std::time::Instant;

/// The tables that calls go through.
#[derive(Clone, Copy)]
pub enum Tables {
    /// Rows are added to one table and looked up there.
    One,
    /// Rows are added to two joined tables, changed, taken away and looked up through their join.
    Joined,
}

const ONE: &str = "old
table t { id: int, v: int }
new
program
update add(id: int, v: int) { insert into t { t.id = id, t.v = v }; }
query get(id: int) { select t.v from t where t.id = id; }
";

const JOINED: &str = "old
table a { id: int, v: int }
table b { id: int, w: int }
new
program
update add(id: int, v: int) { insert into a join b on a.id = b.id { a.id = id, a.v = v, b.w = v }; }
update put(id: int, v: int) { set b.w = v in a join b on a.id = b.id where a.id = id; }
update cut(id: int) { delete a, b from a join b on a.id = b.id where a.id = id; }
query get(id: int) { select a.v, b.w from a join b on a.id = b.id where a.id = id; }
";

/// The record of a call with its number in its file, and with a second argument where the function takes one.
fn put_call(text: &mut Txt, name: &str, id: u32, more: Option<u32>) -> Result<(), AllocError> {
    put(text, name)?;
    put(text, ",")?;
    put_number(text, id)?;
    if let Some(value) = more {
        put(text, ",")?;
        put_number(text, value)?;
    }
    put(text, "\n")
}

/// So many calls: each adds a row, or looks the last one up.
fn one_table_calls(alloc: Global, count: u32) -> Result<Txt, AllocError> {
    let mut text = Seq::new(alloc);
    for n in 0..count / 2 {
        put_call(&mut text, "add", n, Some(n))?;
        put_call(&mut text, "get", n, None)?;
    }
    Ok(text)
}

/// So many calls: a quarter adds a row to each table; then each of these rows is changed, looked up and taken away.
fn joined_calls(alloc: Global, count: u32) -> Result<Txt, AllocError> {
    let mut text = Seq::new(alloc);
    for n in 0..count / 4 {
        put_call(&mut text, "add", n, Some(n))?;
    }
    for n in 0..count / 4 {
        put_call(&mut text, "put", n, Some(1))?;
        put_call(&mut text, "get", n, None)?;
        put_call(&mut text, "cut", n, None)?;
    }
    Ok(text)
}

/// The job with these tables, and so many calls of its functions.
fn files_of(alloc: Global, tables: Tables, count: u32) -> Result<(Bytes, Txt), AllocError> {
    match tables {
        Tables::One => Ok((
            Seq::from_slice(alloc, ONE.as_bytes())?,
            one_table_calls(alloc, count)?,
        )),
        Tables::Joined => Ok((
            Seq::from_slice(alloc, JOINED.as_bytes())?,
            joined_calls(alloc, count)?,
        )),
    }
}

/// How many bytes of answers these calls lead to on an empty store, if the job is one and the calls are its calls.
fn answered(alloc: Global, job: &Bytes, calls: &Txt) -> Option<usize> {
    if job.len() > 262_144 {
        return None;
    }
    let job = read_job(alloc, job.as_slice()).ok()?;
    let mut store = VecStore::new(alloc);
    let text = play(
        alloc,
        &mut store,
        &job.source,
        &job.program,
        calls.as_slice(),
    )
    .ok()?;
    Some(text.len())
}

/// Plays so many calls through these tables; building their texts is not timed.
pub fn time<R: Runtime + Alloc<A = Global>>(rt: &R, tables: Tables, count: u32) -> io::Result<()> {
    let (job, calls) = files_of(rt.alloc(), tables, count)?;
    let start = Instant::now(rt)?;
    let bytes = answered(rt.alloc(), &job, &calls);
    let spent = start.elapsed(rt)?.as_micros();
    match bytes {
        Some(bytes) => println!(rt; "{count} calls: {bytes} bytes of answers")?,
        None => println!(rt; "{count} calls: not played")?,
    }
    eprintln!(rt; "{spent} microseconds in all")
}
