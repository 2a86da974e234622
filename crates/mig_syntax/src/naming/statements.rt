// Statements, from names to numbers.
ghost use Rattle.std.specs.Prelude.{◌≡◌, IfOk, map};
ghost use Rattle.mig_schema.specs.declared.programs.Stmt.TheVariants as stmt;
ghost use Rattle.mig_syntax.specs.Naming as spec;

use crate::naming::conditions::{cond_of, join_of, scalar_of, value_of};
use crate::naming::places::{col_of, table_of};
use mig_base::{Seq, Txt};
use mig_grammar::{AssignTree, ColName, JoinTree, RowsTree, ScalarTree, StmtTree};
use mig_schema::{Assign, Param, Stmt, Table};
use std::alloc::{AllocError, Global};

/// A value for a column, with numbers.
fn assign_of(
    alloc: Global,
    tables: &[Table],
    params: &[Param],
    assign: &AssignTree,
) -> Result<Assign, AllocError>
    ensures { IfOk result (λ a. a ≡ spec.assign_of tables.now params.now assign.now) }
{
    let value = value_of(alloc, params, &assign.value)?;
    Ok(Assign {
        column: col_of(tables, &assign.column),
        value,
    })
}

/// Values for columns, with numbers.
fn assigns_of(
    alloc: Global,
    tables: &[Table],
    params: &[Param],
    assigns: &[AssignTree],
) -> Result<Vec<Assign>, AllocError>
    ensures { IfOk result (λ v. v.items ≡ map (spec.assign_of tables.now params.now) assigns.now) }
{
    let mut all = Vec::with_capacity(alloc, assigns.len())?;
    for assign in assigns {
        all.push(assign_of(alloc, tables, params, assign)?)?;
    }
    Ok(all)
}

/// Tables, by their numbers.
fn tables_of(alloc: Global, tables: &[Table], names: &[Txt]) -> Result<Vec<u32>, AllocError>
    ensures { IfOk result (λ v. v.items ≡ map (spec.table_of tables.now) names.now) }
{
    names.iter().map(|n| table_of(tables, n)).collect(alloc)
}

/// An insert with numbers.
fn insert_of(
    alloc: Global,
    tables: &[Table],
    params: &[Param],
    join: &JoinTree,
    values: &[AssignTree],
) -> Result<Stmt, AllocError>
    ensures { IfOk result (λ s. s ≡ stmt.Insert (spec.join_of tables.now join.now) (map (spec.assign_of tables.now params.now) values.now)) }
{
    let join = join_of(alloc, tables, join)?;
    let values = assigns_of(alloc, tables, params, values)?;
    Ok(Stmt::Insert {
        join,
        values: Seq::from_vec(values),
    })
}

/// A delete with numbers.
fn delete_of(
    alloc: Global,
    tables: &[Table],
    params: &[Param],
    names: &[Txt],
    rows: &RowsTree,
) -> Result<Stmt, AllocError>
    ensures { IfOk result (λ s. s ≡ stmt.Delete (map (spec.table_of tables.now) names.now) (spec.join_of tables.now rows.now.join) (spec.cond_of tables.now params.now rows.now.cases)) }
{
    let deleted = tables_of(alloc, tables, names)?;
    let join = join_of(alloc, tables, &rows.join)?;
    let cond = cond_of(alloc, tables, params, rows.cases.as_slice())?;
    Ok(Stmt::Delete {
        tables: Seq::from_vec(deleted),
        join,
        cond,
    })
}

/// A set with numbers.
fn set_of(
    alloc: Global,
    tables: &[Table],
    params: &[Param],
    column: &ColName,
    value: &ScalarTree,
    rows: &RowsTree,
) -> Result<Stmt, AllocError>
    ensures { IfOk result (λ s. s ≡ stmt.Set (spec.col_of tables.now column.now) (spec.scalar_of params.now value.now) (spec.join_of tables.now rows.now.join) (spec.cond_of tables.now params.now rows.now.cases)) }
{
    let value = scalar_of(alloc, params, value)?;
    let join = join_of(alloc, tables, &rows.join)?;
    let cond = cond_of(alloc, tables, params, rows.cases.as_slice())?;
    Ok(Stmt::Set {
        column: col_of(tables, column),
        value,
        join,
        cond,
    })
}

/// A statement with numbers.
fn stmt_of(
    alloc: Global,
    tables: &[Table],
    params: &[Param],
    stmt: &StmtTree,
) -> Result<Stmt, AllocError>
    ensures { IfOk result (λ s. s ≡ spec.stmt_of tables.now params.now stmt.now) }
{
    match stmt {
        StmtTree::Insert { join, values } => {
            insert_of(alloc, tables, params, join, values.as_slice())
        }
        StmtTree::Delete {
            tables: names,
            rows,
        } => delete_of(alloc, tables, params, names.as_slice(), rows),
        StmtTree::Set {
            column,
            value,
            rows,
        } => set_of(alloc, tables, params, column, value, rows),
    }
}

/// Statements with numbers.
pub(crate) fn stmts_of(
    alloc: Global,
    tables: &[Table],
    params: &[Param],
    stmts: &[StmtTree],
) -> Result<Vec<Stmt>, AllocError>
    ensures { IfOk result (λ v. v.items ≡ map (spec.stmt_of tables.now params.now) stmts.now) }
{
    let mut all = Vec::with_capacity(alloc, stmts.len())?;
    for stmt in stmts {
        all.push(stmt_of(alloc, tables, params, stmt)?)?;
    }
    Ok(all)
}
