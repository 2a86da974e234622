// The joins of a program, and their equalities.
ghost use Rattle.std.specs.Prelude.{◌≡◌, ◌++◌, IfOk, OnOk, map};
ghost use Rattle.mig_invariant.specs.Candidates as spec;

use mig_base::Exact;
use mig_schema::{Body, ColId, Join, Joined, Program, Stmt, same_col};
use std::alloc::{AllocError, Global};

/// The join of a statement.
fn join_of(stmt: &Stmt) -> &Join
    ensures { result.now ≡ spec.join_of stmt.now }
{
    match stmt {
        Stmt::Insert { join, .. } | Stmt::Delete { join, .. } | Stmt::Set { join, .. } => join,
    }
}

/// Adds the joins of these statements.
fn add_statements(alloc: Global, stmts: &[Stmt], list: &mut Vec<Join>) -> Result<(), AllocError>
    ensures { OnOk result (list.new.items ≡ list.old.items ++ map spec.join_of stmts.now) }
{
    for stmt in stmts {
        list.push(join_of(stmt).twin(alloc)?)?;
    }
    Ok(())
}

/// Adds the joins of a function's statements, or that of its query.
fn add_joins(alloc: Global, body: &Body, list: &mut Vec<Join>) -> Result<(), AllocError>
    ensures { OnOk result (list.new.items ≡ list.old.items ++ spec.joins_in body.now) }
{
    match body {
        Body::Update(stmts) => add_statements(alloc, stmts.as_slice(), list),
        Body::Query(query) => {
            list.push(query.join.twin(alloc)?)?;
            Ok(())
        }
    }
}

/// The joins of all functions, in order.
pub(crate) fn joins_of(alloc: Global, program: &Program) -> Result<Vec<Join>, AllocError>
    ensures { IfOk result (λ v. v.items ≡ spec.joins_of program.now) }
{
    let mut list = Vec::new(alloc);
    for f in program.functions.as_slice() {
        add_joins(alloc, &f.body, &mut list)?;
    }
    Ok(list)
}

/// The equalities of these joins.
pub(crate) fn equalities_of(alloc: Global, joins: &[Join]) -> Result<Vec<Joined>, AllocError>
    ensures { IfOk result (λ v. v.items ≡ spec.equalities_of joins.now) }
{
    let mut list = Vec::new(alloc);
    for join in joins {
        list.extend_from_slice(join.more.as_slice())?;
    }
    Ok(list)
}

/// Whether a column stands in one of these equalities.
pub(crate) fn is_equated(equalities: &[Joined], c: ColId) -> bool
    ensures { result ≡ spec.is_equated equalities.now c }
{
    equalities
        .iter()
        .any(|m| same_col(m.left, c) || same_col(m.right, c))
}

/// Whether two columns are those of one of them, either way round.
pub(crate) fn are_equated(equalities: &[Joined], c: ColId, d: ColId) -> bool
    ensures { result ≡ spec.are_equated equalities.now c d }
{
    equalities.iter().any(|m| {
        (same_col(m.left, c) && same_col(m.right, d))
            || (same_col(m.left, d) && same_col(m.right, c))
    })
}
