// A variable of a term, or of a body, is unfolded by the statement before its stage.
ghost use Rattle.std.specs.Prelude.{◌≡◌, IfOk};
ghost use Rattle.std.specs.Option.{option_copied};
ghost use Rattle.mig_obligations.specs.Pairs.{sides_of};
ghost use Rattle.mig_obligations.specs.Settings.{statements as spec_statements};
ghost use Rattle.mig_unfolding.specs.Stages as spec;

use crate::unfolding::{Own, unfolded};
use mig_algebra::{Term, Var};
use mig_base::Seq;
use mig_obligations::Pair;
use mig_schema::{Body, Function, Side, Stmt};
use std::alloc::{AllocError, Global};

/// The statements of a function; a query has none.
fn statements(function: &Function) -> &[Stmt]
    ensures { result.now ≡ spec_statements function.now.body }
{
    match &function.body {
        Body::Update(stmts) => stmts.as_slice(),
        Body::Query(_) => &[],
    }
}

/// The function of a side.
fn function_at<'a>(pair: &Pair<'a>, side: Side) -> &'a Function
    ensures { spec_statements result.now.body ≡ spec.statements_at (sides_of pair.now) side }
{
    match side {
        Side::Old => pair.source_fn,
        Side::New => pair.target_fn,
    }
}

/// The statement that leads to a variable's stage; none leads to stage 0.
fn last_statement<'a>(pair: &Pair<'a>, var: &Var) -> Option<&'a Stmt>
    ensures { option_copied result ≡ spec.last_statement (sides_of pair.now) var.now }
{
    let before = var.stage.checked_sub(1)?;
    statements(function_at(pair, var.side)).get(before as usize)
}

/// The hosts that a host becomes where its own variable of number `at` is unfolded, where these stand around it.
pub(crate) fn by_stage(
    alloc: Global,
    pair: &Pair,
    scope: &[Var],
    at: u32,
    host: &Term,
) -> Result<Option<Seq<Term>>, AllocError>
    ensures { IfOk result (λ o. o ≡ spec.by_stage (sides_of pair.now) scope.now at host.now) }
{
    let Some(var) = host.vars.get(at as usize) else {
        return Ok(None);
    };
    match last_statement(pair, var) {
        Some(stmt) => unfolded(alloc, stmt, &Own { scope, at, var }, host),
        None => Ok(None),
    }
}
