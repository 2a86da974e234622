// How long it takes to bring all that is to be shown of a program to its ends, and what of that goes into making the steps.
ghost use Rattle.std.specs.Prelude.{◌≡◌};

use crate::{growing, pooling};
use mig_algebra::{Expr, Invariants};
use mig_base::{Exact, Seq};
use mig_prover::{Trail, simplify};
use mig_rules::{Facts, Obligation, Pair, Step, answers, apply, holds};
use mig_schema::{Body, Job, Program};
use std::alloc::{AllocError, Global};
use std::io;
use std::rt::Runtime;
use std::time::Instant;

/// Of which program.
#[derive(Clone, Copy)]
pub enum Shown {
    /// Of one over so many tables, whose second texts move to a pool.
    Pool(u32),
    /// Of an update of two sets under so many comparisons.
    Sets(u32, u32),
}

/// A job, a program over its new schema, and what is known before each call.
#[derive(Drop)]
pub struct Given {
    pub job: Job,
    pub program: Program,
    pub invariants: Invariants,
}

/// An expression of a pair of functions, and the steps to its end.
#[derive(Drop)]
struct Way {
    function: usize,
    begin: Expr,
    steps: Seq<Step>,
    literals: usize,
}

/// The functions of this number.
fn pair_at(given: &Given, at: usize) -> Option<Pair<'_>> {
    Some(Pair {
        source: &given.job.source,
        target: &given.job.target,
        source_fn: given.job.program.functions.get(at)?,
        target_fn: given.program.functions.get(at)?,
    })
}

/// How many literals stand in the terms of an expression.
fn literals(expr: &Expr) -> usize {
    let mut count = 0usize;
    for term in expr.terms.as_slice() {
        count = count.saturating_add(term.lits.len());
    }
    count
}

fn push_way(
    alloc: Global,
    facts: &Facts,
    function: usize,
    begin: Expr,
    ways: &mut Vec<Way>,
) -> Result<(), AllocError> {
    let Trail { steps, end } = simplify(alloc, facts, &begin)?;
    let literals = literals(&end);
    ways.push(Way {
        function,
        begin,
        steps,
        literals,
    })?;
    Ok(())
}

fn push_both(
    alloc: Global,
    facts: &Facts,
    function: usize,
    shown: Obligation,
    ways: &mut Vec<Way>,
) -> Result<(), AllocError> {
    let Obligation { source, target } = shown;
    push_way(alloc, facts, function, source, ways)?;
    push_way(alloc, facts, function, target, ways)
}

/// All that is to be shown of a pair of updates.
fn push_held(
    alloc: Global,
    facts: &Facts,
    function: usize,
    ways: &mut Vec<Way>,
) -> Result<(), AllocError> {
    for invariant in facts.invariants.list.as_slice() {
        let shown = holds(alloc, facts.pair, invariant)?;
        push_both(alloc, facts, function, shown, ways)?;
    }
    Ok(())
}

/// All that is to be shown of the functions of a number.
fn push_function(
    alloc: Global,
    given: &Given,
    function: usize,
    ways: &mut Vec<Way>,
) -> Result<(), AllocError> {
    let Some(pair) = pair_at(given, function) else {
        return Err(AllocError);
    };
    let facts = Facts {
        pair: &pair,
        invariants: &given.invariants,
    };
    match pair.source_fn.body {
        Body::Update(_) => push_held(alloc, &facts, function, ways),
        Body::Query(_) => push_both(alloc, &facts, function, answers(alloc, &pair)?, ways),
    }
}

/// All that is to be shown, with the steps to the ends.
fn ways_of(alloc: Global, given: &Given) -> Result<Vec<Way>, AllocError> {
    let mut ways = Vec::new(alloc);
    for function in 0..given.program.functions.len() {
        push_function(alloc, given, function, &mut ways)?;
    }
    Ok(ways)
}

/// What a step leads to.
fn next(alloc: Global, facts: &Facts, step: &Step, expr: &Expr) -> Result<Expr, AllocError> {
    match apply(alloc, facts, step, expr) {
        Ok(next) => Ok(next),
        Err(_) => Err(AllocError),
    }
}

/// The end of an expression, by its steps.
fn end_of(alloc: Global, facts: &Facts, way: &Way) -> Result<Expr, AllocError> {
    let mut expr = way.begin.twin(alloc)?;
    for step in way.steps.as_slice() {
        expr = next(alloc, facts, step, &expr)?;
    }
    Ok(expr)
}

/// Makes the steps of an expression once more.
fn remade(alloc: Global, given: &Given, way: &Way) -> Result<usize, AllocError> {
    let Some(pair) = pair_at(given, way.function) else {
        return Err(AllocError);
    };
    let facts = Facts {
        pair: &pair,
        invariants: &given.invariants,
    };
    let end = end_of(alloc, &facts, way)?;
    Ok(literals(&end))
}

/// Makes all steps once more; the most literals of an end.
fn all_remade(alloc: Global, given: &Given, ways: &[Way]) -> Result<usize, AllocError> {
    let mut most = 0;
    for way in ways {
        most = most.max(remade(alloc, given, way)?);
    }
    Ok(most)
}

/// How many steps there are in all.
fn step_count(ways: &[Way]) -> usize {
    let mut count = 0usize;
    for way in ways {
        count = count.saturating_add(way.steps.len());
    }
    count
}

fn given_by(alloc: Global, shown: Shown) -> Result<Given, AllocError> {
    match shown {
        Shown::Pool(tables) => pooling::given(alloc, tables),
        Shown::Sets(c, e) => growing::given(alloc, c, e),
    }
}

/// Takes all expressions to their ends, and then makes the same steps alone; the job and its program are read before.
pub fn time<R: Runtime + Alloc<A = Global>>(rt: &R, shown: Shown) -> io::Result<()> {
    let given = given_by(rt.alloc(), shown)?;
    let start = Instant::now(rt)?;
    let ways = ways_of(rt.alloc(), &given)?;
    let spent = start.elapsed(rt)?.as_micros();
    let start = Instant::now(rt)?;
    let most = all_remade(rt.alloc(), &given, ways.as_slice())?;
    let making = start.elapsed(rt)?.as_micros();
    let pairs = ways.len() / 2;
    let steps = step_count(ways.as_slice());
    println!(rt; "{pairs} pairs of expressions, {steps} steps, {most} literals at most in an end")?;
    eprintln!(rt; "{spent} microseconds in all, {making} to make the steps once more")
}
