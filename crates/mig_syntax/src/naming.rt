// From names to numbers: the job that a tree of names says.
ghost use Rattle.std.specs.Prelude.{◌≡◌, IfOk, map};
ghost use Rattle.mig_syntax.specs.Naming as spec;

use crate::naming::conditions::{cond_of, join_of};
use crate::naming::places::col_of;
use crate::naming::schemas::{all_hints_of, schema_of};
use crate::naming::statements::stmts_of;
use mig_base::{Exact, Seq};
use mig_grammar::{BodyTree, ColName, FunctionTree, JobTree, SelectTree};
use mig_schema::{Body, ColId, Function, Job, Param, Program, Query, Table};
use std::alloc::{AllocError, Global};

mod conditions;
mod places;
mod schemas;
mod statements;

/// Columns, by their numbers.
fn cols_of(alloc: Global, tables: &[Table], names: &[ColName]) -> Result<Vec<ColId>, AllocError>
    ensures { IfOk result (λ v. v.items ≡ map (spec.col_of tables.now) names.now) }
{
    names.iter().map(|c| col_of(tables, c)).collect(alloc)
}

/// A query with numbers.
fn query_of(
    alloc: Global,
    tables: &[Table],
    params: &[Param],
    select: &SelectTree,
) -> Result<Query, AllocError>
    ensures { IfOk result (λ q. q ≡ spec.query_of tables.now params.now select.now) }
{
    let columns = cols_of(alloc, tables, select.columns.as_slice())?;
    let join = join_of(alloc, tables, &select.rows.join)?;
    let cond = cond_of(alloc, tables, params, select.rows.cases.as_slice())?;
    Ok(Query {
        columns: Seq::from_vec(columns),
        join,
        cond,
    })
}

/// A body with numbers.
fn body_of(
    alloc: Global,
    tables: &[Table],
    params: &[Param],
    body: &BodyTree,
) -> Result<Body, AllocError>
    ensures { IfOk result (λ b. b ≡ spec.body_of tables.now params.now body.now) }
{
    match body {
        BodyTree::Update(stmts) => {
            let stmts = stmts_of(alloc, tables, params, stmts.as_slice())?;
            Ok(Body::Update(Seq::from_vec(stmts)))
        }
        BodyTree::Query(select) => Ok(Body::Query(query_of(alloc, tables, params, select)?)),
    }
}

/// A function with numbers.
fn function_of(
    alloc: Global,
    tables: &[Table],
    function: &FunctionTree,
) -> Result<Function, AllocError>
    ensures { IfOk result (λ f. f ≡ spec.function_of tables.now function.now) }
{
    let name = function.name.twin(alloc)?;
    let params = function.params.twin(alloc)?;
    let body = body_of(alloc, tables, function.params.as_slice(), &function.body)?;
    Ok(Function { name, params, body })
}

/// Functions with numbers.
fn functions_of(
    alloc: Global,
    tables: &[Table],
    functions: &[FunctionTree],
) -> Result<Vec<Function>, AllocError>
    ensures { IfOk result (λ v. v.items ≡ map (spec.function_of tables.now) functions.now) }
{
    let mut all = Vec::with_capacity(alloc, functions.len())?;
    for function in functions {
        all.push(function_of(alloc, tables, function)?)?;
    }
    Ok(all)
}

/// A program over these tables, with numbers.
pub(crate) fn program_of(
    alloc: Global,
    tables: &[Table],
    functions: &[FunctionTree],
) -> Result<Program, AllocError>
    ensures { IfOk result (λ p. p ≡ spec.program_of tables.now functions.now) }
{
    let functions = functions_of(alloc, tables, functions)?;
    Ok(Program {
        functions: Seq::from_vec(functions),
    })
}

/// The job that a tree says: each name is replaced by the number of the first table, column or parameter of that name,
/// or by 4294967295 where there is none. A hint's weight is the number that its digits spell, or 0 where that is not
/// 1 to 100; likewise a label that is not 0 to 15, and an int out of the range of i64, are 0. The only error is want of
/// memory.
pub fn job_of_tree(alloc: Global, tree: &JobTree) -> Result<Job, AllocError>
    ensures { IfOk result (λ j. j ≡ spec.job_of tree.now) }
{
    let old = tree.source.tables.as_slice();
    let new = tree.target.tables.as_slice();
    let program = program_of(alloc, old, tree.functions.as_slice())?;
    let hints = all_hints_of(alloc, old, new, &tree.hints)?;
    Ok(Job {
        source: schema_of(alloc, &tree.source)?,
        target: schema_of(alloc, &tree.target)?,
        program,
        hints: Seq::from_vec(hints),
    })
}
