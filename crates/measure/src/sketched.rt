// How long the options of 32 functions take to be listed, and the heaviest correspondences of a job to be found.
use crate::completing::job_of;
use crate::numbering::{put_each, put_with};
use crate::pooling::job_text;
use mig_base::{Seq, Txt};
use mig_corresp::Ranker;
use mig_invariant::{ColPair, Corr};
use mig_printing::put;
use mig_schema::{ColId, Job};
use mig_sketch::{Hole, Made, sketch};
use std::alloc::{AllocError, Global};
use std::io;
use std::rt::Runtime;
use std::time::Instant;

/// What is asked of a job.
#[derive(Clone, Copy)]
pub enum Search {
    /// The sketch of so many functions, so many times.
    Sketch(u32, u32),
    /// Of a job of so many tables whose texts move to one pool, so many correspondences.
    Ranking(u32, u32),
}

const MIDDLE: &str = "old\ntable p { a: int }\n";

const OLD: &str = "table q# { k: int }\n";

const NEW: &str = "table r# { k: int }\n";

const LINK: &str = "link m.k = r#.k;\n";

const QUERY: &str = "() { select p.a, q#.k from p join q# on p.a = q#.k; }\n";

/// The old and the new tables: 14 around one, with 32 links to it.
fn put_star(text: &mut Txt) -> Result<(), AllocError> {
    put(text, MIDDLE)?;
    put_each(text, OLD, 14)?;
    put(text, "new\ntable m { a: int, k: int }\n")?;
    put_each(text, NEW, 14)?;
    put_each(text, LINK, 14)?;
    put_each(text, LINK, 14)?;
    put_each(text, LINK, 4)?;
    put(text, "program\n")
}

/// A query of the middle table and another one.
fn put_query(text: &mut Txt, number: u32) -> Result<(), AllocError> {
    put_with(text, "query f#", number)?;
    put_with(text, QUERY, number % 14)
}

/// The job of a star, with so many queries.
fn star(alloc: Global, functions: u32) -> Result<Txt, AllocError> {
    let mut text = Seq::new(alloc);
    put_star(&mut text)?;
    for n in 0..functions {
        put_query(&mut text, n)?;
    }
    Ok(text)
}

/// The first column of each old table goes to the first one of the new table of its number.
fn straight(alloc: Global) -> Result<Corr, AllocError> {
    let mut pairs = Seq::new(alloc);
    for table in 0..15 {
        let first = ColId { table, column: 0 };
        pairs.push(ColPair {
            source: first,
            target: first,
        })?;
    }
    Ok(Corr { pairs })
}

/// How many options these holes have in all.
fn total(holes: &[Hole]) -> usize {
    let mut total = 0usize;
    for hole in holes {
        total = total.saturating_add(hole.options.len());
    }
    total
}

/// How many options the sketch of a job has, made so many times; 0 where it has none.
fn option_count(alloc: Global, job: &Job, times: u32) -> Result<usize, AllocError> {
    let corr = straight(alloc)?;
    let mut count = 0;
    for _ in 0..times {
        count = match sketch(alloc, job, &corr)? {
            Made::Plan(plan) => total(plan.holes.as_slice()),
            _ => 0,
        };
    }
    Ok(count)
}

/// How many correspondences are given, of so many that are asked for.
fn ranked(alloc: Global, job: &Job, wanted: u32) -> Result<usize, AllocError> {
    let mut ranker = Ranker::new(alloc, job)?;
    let mut given = 0usize;
    for _ in 0..wanted {
        if ranker.next()?.is_some() {
            given = given.saturating_add(1);
        }
    }
    Ok(given)
}

/// The text of the job.
fn text_of(alloc: Global, search: Search) -> Result<Txt, AllocError> {
    match search {
        Search::Sketch(functions, _) => star(alloc, functions),
        Search::Ranking(tables, _) => job_text(alloc, tables),
    }
}

/// Asks about the job; reading it is not timed.
pub fn time<R: Runtime + Alloc<A = Global>>(rt: &R, search: Search) -> io::Result<()> {
    let text = text_of(rt.alloc(), search)?;
    let job = job_of(rt.alloc(), text.as_slice())?;
    let start = Instant::now(rt)?;
    let count = match search {
        Search::Sketch(_, times) => option_count(rt.alloc(), &job, times)?,
        Search::Ranking(_, wanted) => ranked(rt.alloc(), &job, wanted)?,
    };
    let spent = start.elapsed(rt)?.as_micros();
    match search {
        Search::Sketch(functions, times) => println!(rt;
            "{count} options of {functions} functions, listed {times} times"
        )?,
        Search::Ranking(tables, _) => println!(rt; "{count} correspondences of {tables} tables")?,
    }
    eprintln!(rt; "{spent} microseconds in all")
}
