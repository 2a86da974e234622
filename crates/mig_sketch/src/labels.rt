// The labels that a function does not use.
ghost use Rattle.std.specs.Prelude.{◌≡◌, IfOk};
ghost use Rattle.std.specs.List.{list_any};
ghost use Rattle.mig_sketch.specs.Labels as spec;

use mig_schema::{Assign, Body, Cmp, Cond, Item, Scalar, Stmt};
use std::alloc::{AllocError, Global};

/// Whether a scalar is the fresh key of label n.
fn is_label(n: u32, value: &Scalar) -> bool
    ensures { result ≡ spec.is_label n value.now }
{
    match value {
        Scalar::Fresh(m) => *m == n,
        _ => false,
    }
}

/// Whether a side of a comparison is.
fn item_uses(n: u32, item: &Item) -> bool
    ensures { result ≡ spec.item_uses n item.now }
{
    match item {
        Item::Col(_) => false,
        Item::Scalar(value) => is_label(n, value),
    }
}

/// Whether the label stands in a case.
fn case_uses(n: u32, cmps: &[Cmp]) -> bool
    ensures { result ≡ spec.case_uses n cmps.now }
{
    cmps.iter()
        .any(|cmp| item_uses(n, &cmp.left) || item_uses(n, &cmp.right))
}

/// Whether the label stands in a condition.
fn condition_uses(n: u32, test: &Cond) -> bool
    ensures { result ≡ spec.condition_uses n test.now }
{
    test.cases
        .as_slice()
        .iter()
        .any(|cmps| case_uses(n, cmps.as_slice()))
}

/// Whether the label is one of these values.
fn values_use(n: u32, values: &[Assign]) -> bool
    ensures { result ≡ spec.values_use n values.now }
{
    values.iter().any(|a| is_label(n, &a.value))
}

/// Whether the label stands in a statement.
fn stmt_uses(n: u32, stmt: &Stmt) -> bool
    ensures { result ≡ spec.stmt_uses n stmt.now }
{
    match stmt {
        Stmt::Insert { values, .. } => values_use(n, values.as_slice()),
        Stmt::Delete { cond, .. } => condition_uses(n, cond),
        Stmt::Set { value, cond, .. } => is_label(n, value) || condition_uses(n, cond),
    }
}

/// Whether the label stands in one of these statements.
fn any_uses(n: u32, stmts: &[Stmt]) -> bool
    ensures { result ≡ list_any (spec.stmt_uses n) stmts.now }
{
    stmts.iter().any(|stmt| stmt_uses(n, stmt))
}

/// Whether the label stands in a body.
fn body_uses(n: u32, body: &Body) -> bool
    ensures { result ≡ spec.body_uses n body.now }
{
    match body {
        Body::Update(stmts) => any_uses(n, stmts.as_slice()),
        Body::Query(query) => condition_uses(n, &query.cond),
    }
}

/// The labels from 0 to 15 that do not stand in a body.
pub(crate) fn free_labels(alloc: Global, body: &Body) -> Result<Vec<u32>, AllocError>
    ensures { IfOk result (λ v. v.items ≡ spec.free_labels body.now) }
{
    (0..16).filter(|n| !body_uses(*n, body)).collect(alloc)
}

/// The label of new class i of statement s, if there is one.
pub(crate) fn new_label(free: &[u32], s: u32, i: u32) -> Option<u32>
    ensures { result ≡ spec.new_label free.now s i }
{
    if i <= 3 {
        free.get(4 * s as usize + i as usize).copied()
    } else {
        None
    }
}
