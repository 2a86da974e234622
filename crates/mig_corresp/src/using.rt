// Which columns of the old schema a program uses.
ghost use Rattle.std.specs.Prelude.{◌≡◌, ◌==◌, ◌||◌};
ghost use Rattle.std.specs.List.{list_any};
ghost use Rattle.mig_schema.specs.Columns.{same_col as spec_same};
ghost use Rattle.mig_schema.specs.Typed as typing;
ghost use Rattle.mig_schema.specs.declared.programs.Stmt.TheVariants.{Insert, Delete, Set};
ghost use Rattle.mig_corresp.specs.Used as spec;

use mig_base::Seq;
use mig_invariant::is_key;
use mig_schema::{
    Assign, Body, Cmp, ColId, Cond, Item, Job, Join, Joined, Query, Scalar, Stmt, is_in_join,
    same_col,
};

/// Whether an equality has the column.
fn equates(more: &[Joined], column: ColId) -> bool
    ensures { result ≡ list_any (λ m. spec_same column m.left || spec_same column m.right) more.now }
{
    more.iter()
        .any(|m| same_col(column, m.left) || same_col(column, m.right))
}

/// Whether a value is for the column.
fn assigns(values: &[Assign], column: ColId) -> bool
    ensures { result ≡ list_any (λ a. spec_same column a.column) values.now }
{
    values.iter().any(|a| same_col(column, a.column))
}

/// Whether the column is selected.
fn selects(columns: &[ColId], column: ColId) -> bool
    ensures { result ≡ list_any (spec_same column) columns.now }
{
    columns.iter().any(|c| same_col(column, *c))
}

/// Whether a side of a comparison is the column.
fn is_side(item: &Item, column: ColId) -> bool
    ensures { result ≡ list_any (spec_same column) (typing.item_columns item.now) }
{
    match item {
        Item::Col(c) => same_col(column, *c),
        Item::Scalar(_) => false,
    }
}

/// Whether a comparison of the case has the column.
fn case_compares(case: &[Cmp], column: ColId) -> bool
    ensures { result ≡ list_any (λ c. list_any (spec_same column) (typing.item_columns c.left) || list_any (spec_same column) (typing.item_columns c.right)) case.now }
{
    case.iter()
        .any(|c| is_side(&c.left, column) || is_side(&c.right, column))
}

/// Whether a comparison of one of the cases has the column.
fn cases_compare(cases: &[Seq<Cmp>], column: ColId) -> bool
    ensures { result ≡ list_any (λ case. list_any (λ c. list_any (spec_same column) (typing.item_columns c.left) || list_any (spec_same column) (typing.item_columns c.right)) case) cases.now }
{
    cases
        .iter()
        .any(|case| case_compares(case.as_slice(), column))
}

/// Whether a comparison of the condition has the column.
fn compares(cond: &Cond, column: ColId) -> bool
    ensures { result ≡ list_any (λ c. list_any (spec_same column) (typing.item_columns c.left) || list_any (spec_same column) (typing.item_columns c.right)) (typing.all_cmps cond.now) }
{
    cases_compare(cond.cases.as_slice(), column)
}

/// Whether an insert names the column, or inserts into its table.
fn insert_uses(join: &Join, values: &[Assign], column: ColId) -> bool
    ensures { result ≡ spec.is_used_by column (typing.piece_of (Insert join.now values.now)) }
{
    equates(join.more.as_slice(), column)
        || assigns(values, column)
        || is_in_join(join, column.table)
}

/// Whether a delete names the column.
fn delete_uses(tables: &[u32], join: &Join, cond: &Cond, column: ColId) -> bool
    ensures { result ≡ spec.is_used_by column (typing.piece_of (Delete tables.now join.now cond.now)) }
{
    let _ = tables;
    equates(join.more.as_slice(), column) || compares(cond, column)
}

/// Whether a set names the column.
fn set_uses(written: ColId, value: &Scalar, join: &Join, cond: &Cond, column: ColId) -> bool
    ensures { result ≡ spec.is_used_by column (typing.piece_of (Set written value.now join.now cond.now)) }
{
    let _ = value;
    equates(join.more.as_slice(), column) || same_col(column, written) || compares(cond, column)
}

/// Whether the statement names the column, or inserts into its table.
fn stmt_uses(stmt: &Stmt, column: ColId) -> bool
    ensures { result ≡ spec.is_used_by column (typing.piece_of stmt.now) }
{
    match stmt {
        Stmt::Insert { join, values } => insert_uses(join, values.as_slice(), column),
        Stmt::Delete { tables, join, cond } => delete_uses(tables.as_slice(), join, cond, column),
        Stmt::Set {
            column: written,
            value,
            join,
            cond,
        } => set_uses(*written, value, join, cond, column),
    }
}

/// Whether the query names the column.
fn query_uses(query: &Query, column: ColId) -> bool
    ensures { result ≡ spec.is_used_by column (typing.query_piece query.now) }
{
    equates(query.join.more.as_slice(), column)
        || selects(query.columns.as_slice(), column)
        || compares(&query.cond, column)
}

/// Whether one of the statements does.
fn any_uses(stmts: &[Stmt], column: ColId) -> bool
    ensures { result ≡ list_any (λ s. spec.is_used_by column (typing.piece_of s)) stmts.now }
{
    stmts.iter().any(|stmt| stmt_uses(stmt, column))
}

/// Whether a statement or the query does.
fn body_uses(body: &Body, column: ColId) -> bool
    ensures { result ≡ spec.is_used_in column body.now }
{
    match body {
        Body::Update(stmts) => any_uses(stmts.as_slice(), column),
        Body::Query(query) => query_uses(query, column),
    }
}

/// Whether a function does.
fn is_used(job: &Job, column: ColId) -> bool
    ensures { result ≡ spec.is_used job.now column }
{
    job.program
        .functions
        .as_slice()
        .iter()
        .any(|f| body_uses(&f.body, column))
}

/// Whether the old column must have an image: it is used and no key.
pub fn must_go(job: &Job, column: ColId) -> bool
    ensures { result ≡ spec.must_go job.now column }
{
    is_used(job, column) && !is_key(&job.source, column)
}

/// Whether the new column must be an image: it is no key.
pub fn must_come(job: &Job, column: ColId) -> bool
    ensures { result ≡ spec.must_come job.now column }
{
    !is_key(&job.target, column)
}
