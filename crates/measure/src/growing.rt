// Two sets, each under so many comparisons: an expression that grows by each of them.
use crate::completing::{job_of, program_of};
use crate::numbering::put_with;
use crate::obliging::Given;
use mig_algebra::{Invariant, Invariants, View};
use mig_base::{Seq, Txt};
use mig_printing::put;
use mig_schema::{ColId, Join};
use std::alloc::{AllocError, Global};

const TABLES: &str =
    "old table t { c: int, d: int, e: int, f: int } new table t { c: int, d: int, e: int, f: int } program ";

/// Comparisons with the first numbers.
fn put_comparisons(text: &mut Txt, first: &str, later: &str, count: u32) -> Result<(), AllocError> {
    put(text, first)?;
    for n in 1..count {
        put_with(text, later, n)?;
    }
    Ok(())
}

/// The update, which is the same over both schemas.
fn put_update(text: &mut Txt, c: u32, e: u32) -> Result<(), AllocError> {
    put(text, "update grow(p: int) { ")?;
    put_comparisons(text, "set t.c = p in t where t.d < 0", " and t.d < #", c)?;
    put_comparisons(text, "; set t.e = p in t where t.f < 0", " and t.f < #", e)?;
    put(text, "; }")
}

/// All rows of the table.
fn rows(alloc: Global) -> Result<View, AllocError> {
    let mut outs = Seq::new(alloc);
    for column in 0..4 {
        outs.push(ColId { table: 0, column })?;
    }
    let more = Seq::new(alloc);
    let join = Join { first: 0, more };
    Ok(View { join, outs })
}

/// Both tables have the same rows.
fn facts(alloc: Global) -> Result<Invariants, AllocError> {
    let source = rows(alloc)?;
    let target = rows(alloc)?;
    let mut list = Seq::new(alloc);
    list.push(Invariant::Views { source, target })?;
    Ok(Invariants { list })
}

/// The job of sets under so many comparisons, with its program and what holds.
pub fn given(alloc: Global, c: u32, e: u32) -> Result<Given, AllocError> {
    let mut update = Seq::new(alloc);
    put_update(&mut update, c, e)?;
    let mut text = Seq::from_slice(alloc, TABLES.as_bytes())?;
    text.extend_from_slice(update.as_slice())?;
    let job = job_of(alloc, text.as_slice())?;
    let program = program_of(alloc, &job, update.as_slice())?;
    let invariants = facts(alloc)?;
    Ok(Given {
        job,
        program,
        invariants,
    })
}
