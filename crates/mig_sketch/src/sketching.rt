// The holes of a job's program, function by function.
ghost use Rattle.std.specs.Prelude.{◌≡◌, ℕ, List, [], ◌∷◌, All, IfOk, OnOk, map};
ghost use Rattle.mig_base.specs.Lists.{numbered};
ghost use Rattle.mig_schema.specs.declared.jobs.Job.{Job as Asking};
ghost use Rattle.mig_invariant.specs.declared.corresp.Corr.{Corr as Images};
ghost use Rattle.mig_sketch.specs.declared.plans.Part.{Part as OldPart};
ghost use Rattle.mig_sketch.specs.declared.plans.Part.TheVariants as part;
ghost use Rattle.mig_schema.specs.Within.{IsProgramWithin};
ghost use Rattle.mig_sketch.specs.Asking.{IsRight};
ghost use Rattle.mig_sketch.specs.Completed.{IsSmall};
ghost use Rattle.mig_sketch.specs.Made.{IsMade, place_at, places_in, places_from};
ghost use Rattle.mig_sketch.specs.Making.{IsJudged, Goes};
ghost use Rattle.mig_sketch.specs.Options.{AreOptions};

use crate::asking::Asked;
use crate::labels::free_labels;
use crate::options::{query_options, stmt_options};
use crate::plans::{Hole, Made, Part, Plan};
use mig_base::{Exact, Seq, number};
use mig_invariant::Corr;
use mig_schema::{Body, Function, Job, Query, Stmt};
use std::alloc::{AllocError, Global};

/// A hole may have at most so many options.
const MOST: usize = 4096;

/// What ends a sketch at a hole of the function, which has these options; `None` where it goes on.
fn judged(function: u32, options: &Seq<Part>) -> Option<Made>
    ensures { IsJudged function options.now result }
{
    if options.is_empty() {
        Some(Made::Empty { function })
    } else if options.len() > MOST {
        Some(Made::Wide { function })
    } else {
        None
    }
}

/// Adds a hole with these options, or tells what ends the sketch there.
fn add_hole(
    function: u32,
    statement: u32,
    options: Seq<Part>,
    holes: &mut Seq<Hole>,
) -> Result<Option<Made>, AllocError>
    ensures { IfOk result (λ o. (job : Asking) (corr : Images) (free : List ℕ) (old : OldPart) → AreOptions job corr free statement old options → Goes job corr (place_at function free statement old ∷ []) holes.old holes.new o) }
{
    match judged(function, &options) {
        Some(made) => Ok(Some(made)),
        None => {
            holes.push(Hole {
                function,
                statement,
                options,
            })?;
            Ok(None)
        }
    }
}

/// Adds the hole of statement n of a function that does not use these labels, or tells what ends the sketch there.
fn add_stmt(
    alloc: Global,
    job: &Job,
    corr: &Corr,
    function: u32,
    free: &[u32],
    n: usize,
    stmt: &Stmt,
    asked: &mut Vec<Asked>,
    holes: &mut Seq<Hole>,
) -> Result<Option<Made>, AllocError>
    requires { All (IsRight job.now.target) asked.old.items }
    ensures right { OnOk result (All (IsRight job.now.target) asked.new.items) }
    ensures goes { IfOk result (λ o. Goes job.now corr.now (place_at function free.now n (part.Stmt stmt.now) ∷ []) holes.old holes.new o) }
{
    let statement = number(n)?;
    let options = stmt_options(alloc, job, corr, free, statement, stmt, asked)?;
    add_hole(function, statement, options, holes)
}

/// Adds the holes of these statements of such a function, or tells what ends the sketch there.
fn add_stmts(
    alloc: Global,
    job: &Job,
    corr: &Corr,
    function: u32,
    free: &[u32],
    stmts: &[Stmt],
    asked: &mut Vec<Asked>,
    holes: &mut Seq<Hole>,
) -> Result<Option<Made>, AllocError>
    requires { All (IsRight job.now.target) asked.old.items }
    ensures right { OnOk result (All (IsRight job.now.target) asked.new.items) }
    ensures goes { IfOk result (λ o. Goes job.now corr.now (numbered (place_at function free.now) 0 (map (λ s. part.Stmt s) stmts.now)) holes.old holes.new o) }
{
    for n in 0..stmts.len() {
        match add_stmt(alloc, job, corr, function, free, n, &stmts[n], asked, holes)? {
            Some(made) => return Ok(Some(made)),
            None => {}
        }
    }
    Ok(None)
}

/// Adds the hole of a function's query, or tells what ends the sketch there.
fn add_query(
    alloc: Global,
    job: &Job,
    corr: &Corr,
    function: u32,
    query: &Query,
    asked: &mut Vec<Asked>,
    holes: &mut Seq<Hole>,
) -> Result<Option<Made>, AllocError>
    requires { All (IsRight job.now.target) asked.old.items }
    ensures right { OnOk result (All (IsRight job.now.target) asked.new.items) }
    ensures goes { IfOk result (λ o. (free : List ℕ) → Goes job.now corr.now (place_at function free 0 (part.Query query.now) ∷ []) holes.old holes.new o) }
{
    let options = query_options(alloc, job, corr, query, asked)?;
    add_hole(function, 0, options, holes)
}

/// Adds the holes of a function, or tells what ends the sketch there.
fn add_function(
    alloc: Global,
    job: &Job,
    corr: &Corr,
    function: u32,
    body: &Body,
    asked: &mut Vec<Asked>,
    holes: &mut Seq<Hole>,
) -> Result<Option<Made>, AllocError>
    requires { All (IsRight job.now.target) asked.old.items }
    ensures right { OnOk result (All (IsRight job.now.target) asked.new.items) }
    ensures goes { IfOk result (λ o. Goes job.now corr.now (places_in function body.now) holes.old holes.new o) }
{
    match body {
        Body::Update(stmts) => {
            let free = free_labels(alloc, body)?;
            let stmts = stmts.as_slice();
            add_stmts(
                alloc,
                job,
                corr,
                function,
                free.as_slice(),
                stmts,
                asked,
                holes,
            )
        }
        Body::Query(query) => add_query(alloc, job, corr, function, query, asked, holes),
    }
}

/// Adds the holes of function n, or tells what ends the sketch there.
fn add_numbered(
    alloc: Global,
    job: &Job,
    corr: &Corr,
    n: usize,
    function: &Function,
    asked: &mut Vec<Asked>,
    holes: &mut Seq<Hole>,
) -> Result<Option<Made>, AllocError>
    requires { All (IsRight job.now.target) asked.old.items }
    ensures right { OnOk result (All (IsRight job.now.target) asked.new.items) }
    ensures goes { IfOk result (λ o. Goes job.now corr.now (places_in n function.now.body) holes.old holes.new o) }
{
    add_function(alloc, job, corr, number(n)?, &function.body, asked, holes)
}

/// Adds the holes of these functions, or tells what ends the sketch there.
fn add_functions(
    alloc: Global,
    job: &Job,
    corr: &Corr,
    functions: &[Function],
    asked: &mut Vec<Asked>,
    holes: &mut Seq<Hole>,
) -> Result<Option<Made>, AllocError>
    requires { All (IsRight job.now.target) asked.old.items }
    ensures goes { IfOk result (λ o. Goes job.now corr.now (places_from 0 functions.now) holes.old holes.new o) }
{
    for n in 0..functions.len() {
        match add_numbered(alloc, job, corr, n, &functions[n], asked, holes)? {
            Some(made) => return Ok(Some(made)),
            None => {}
        }
    }
    Ok(None)
}

/// The plan of a job under a correspondence: a hole for each statement and each query of its program, by function, then by
/// statement, with all options of each, in order. Where the first hole that has not 1 to 4,096 options has none, the answer is
/// `Empty`, where it has more, `Wide`, with the number of its function.
///
/// The options are written over the link trees of the new schema that hold the needed columns, as `docs/SEARCH.md` tells. A plan of
/// a program within the limits has fewer than 2^31 options over all holes, as a chooser asks.
/// `AllocError` comes only where memory is wanting, as which 2^32 functions, statements, tables, columns or links count.
pub fn sketch(alloc: Global, job: &Job, corr: &Corr) -> Result<Made, AllocError>
    ensures made { IfOk result (λ m. IsMade job.now corr.now m) }
    ensures small { IfOk result (λ m. IsProgramWithin job.now.program → IsSmall m) }
{
    let mut asked = Vec::new(alloc);
    let mut holes = Seq::new(alloc);
    let functions = job.program.functions.as_slice();
    match add_functions(alloc, job, corr, functions, &mut asked, &mut holes)? {
        Some(made) => Ok(made),
        None => {
            let functions = job.program.functions.twin(alloc)?;
            Ok(Made::Plan(Plan { functions, holes }))
        }
    }
}
