// The program of a choice: each hole has the option that is picked there.
ghost use Rattle.std.specs.Prelude.{◌≡◌, ◌<◌, length, slice_index_or, IfOk};
ghost use Rattle.mig_schema.specs.declared.jobs.Job.{Job as Asking};
ghost use Rattle.mig_invariant.specs.declared.corresp.Corr.{Corr as Images};
ghost use Rattle.mig_sketch.specs.declared.plans.Made.TheVariants as made;
ghost use Rattle.mig_sketch.specs.Choices.{IsChoice, sizes_of};
ghost use Rattle.mig_sketch.specs.Completed.{IsSound, IsCompletion};
ghost use Rattle.mig_sketch.specs.Filling as spec;
ghost use Rattle.mig_sketch.specs.Made.{IsMade};

use crate::plans::{Choice, Hole, Part, Plan};
use mig_base::{Exact, Seq, number};
use mig_schema::{Body, Function, Program, Query, Stmt};
use std::alloc::{AllocError, Global};

/// The statements that are picked at the holes of a function, in order.
fn stmts_at(
    alloc: Global,
    holes: &[Hole],
    picks: &[u32],
    function: u32,
) -> Result<Seq<Stmt>, AllocError>
    requires { IsChoice (sizes_of holes.now) picks.now }
    ensures { IfOk result (λ list. list ≡ spec.stmts_of (spec.picked_parts function holes.now picks.now)) }
{
    let mut list = Seq::new(alloc);
    for h in 0..holes.len() {
        let hole = &holes[h];
        if hole.function == function {
            let options = hole.options.as_slice();
            if let Part::Stmt(stmt) = &options[picks[h] as usize] {
                list.push(stmt.twin(alloc)?)?;
            }
        }
    }
    Ok(list)
}

/// The first query that is picked at the holes of a function; the other one where there is none.
fn query_at(
    alloc: Global,
    holes: &[Hole],
    picks: &[u32],
    function: u32,
    other: &Query,
) -> Result<Query, AllocError>
    requires { IsChoice (sizes_of holes.now) picks.now }
    ensures { IfOk result (λ q. q ≡ spec.query_of other.now (spec.picked_parts function holes.now picks.now)) }
{
    for h in 0..holes.len() {
        let hole = &holes[h];
        if hole.function == function {
            let options = hole.options.as_slice();
            if let Part::Query(query) = &options[picks[h] as usize] {
                return query.twin(alloc);
            }
        }
    }
    other.twin(alloc)
}

/// A function with what is picked at its holes.
fn filled_function(
    alloc: Global,
    holes: &[Hole],
    picks: &[u32],
    number: u32,
    function: &Function,
) -> Result<Function, AllocError>
    requires { IsChoice (sizes_of holes.now) picks.now }
    ensures { IfOk result (λ f. f ≡ spec.filled_function holes.now picks.now number function.now) }
{
    let body = match &function.body {
        Body::Update(_) => Body::Update(stmts_at(alloc, holes, picks, number)?),
        Body::Query(other) => Body::Query(query_at(alloc, holes, picks, number, other)?),
    };
    Ok(Function {
        name: function.name.twin(alloc)?,
        params: function.params.twin(alloc)?,
        body,
    })
}

/// The program that has the picked option in each hole. It asks for one pick for each hole, each the number of an option that the hole has. A hole of a function that the plan has not is passed over, as is a query in an update, and a statement in a query; a plan of `sketch` has none of these.
///
/// Of a plan that `sketch` made of a typed job within the limits, whose new tables have columns, under a correspondence of columns of one kind each, the program is typed over the new schema and within the limits, and keeps what does not depend on the schema.
///
/// `AllocError` comes only where memory is wanting, as which 2^32 functions count.
pub fn fill(alloc: Global, sketch: &Plan, choice: &Choice) -> Result<Program, AllocError>
    requires { IsChoice (sizes_of sketch.now.holes) choice.now.picks }
    ensures filled { IfOk result (λ p. p ≡ spec.filled sketch.now choice.now.picks) }
    ensures completes { (job : Asking) (corr : Images) → IsSound job corr → IsMade job corr (made.Plan sketch.now) → IfOk result (λ p. IsCompletion job p) }
{
    let holes = sketch.holes.as_slice();
    let picks = choice.picks.as_slice();
    let mut functions = Seq::new(alloc);
    for (n, function) in sketch.functions.as_slice().iter().enumerate() {
        functions.push(filled_function(alloc, holes, picks, number(n)?, function)?)?;
    }
    Ok(Program { functions })
}
