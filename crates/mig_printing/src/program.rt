// Writes programs: statements, queries and functions.
ghost use Rattle.std.specs.Prelude.{◌≡◌, ◌++◌, IfOk, OnOk};
ghost use Rattle.std.specs.List.{flat_map};
ghost use Rattle.mig_printing.specs.Printing.{stmt_text, insert_text, values_text, query_text, line_text, body_text, sort_text, function_text, program_text};

use crate::parts::{put_col, put_cols, put_join, put_joined, put_scalar, put_where};
use crate::words::{put, put_bytes};
use mig_base::{Seq, Txt};
use mig_schema::{Assign, Body, Function, Join, Param, Program, Query, Schema, Stmt};
use std::alloc::{AllocError, Global};

fn put_stmt(out: &mut Txt, schema: &Schema, params: &[Param], stmt: &Stmt) -> Result<(), AllocError>
    ensures { OnOk result (out.new ≡ out.old ++ stmt_text schema.now params.now stmt.now) }
{
    match stmt {
        Stmt::Insert { join, values } => {
            put_insert(out, schema, params, join, values.as_slice())
        }
        Stmt::Delete { tables, join, cond } => {
            put(out, "delete ")?;
            put_joined(out, schema, params, ", ", tables.as_slice())?;
            put(out, " from ")?;
            put_join(out, schema, join)?;
            put_where(out, schema, params, cond)
        }
        Stmt::Set {
            column,
            value,
            join,
            cond,
        } => {
            put(out, "set ")?;
            put_col(out, schema, *column)?;
            put(out, " = ")?;
            put_scalar(out, params, value)?;
            put(out, " in ")?;
            put_join(out, schema, join)?;
            put_where(out, schema, params, cond)
        }
    }
}

fn put_insert(
    out: &mut Txt,
    schema: &Schema,
    params: &[Param],
    join: &Join,
    values: &[Assign],
) -> Result<(), AllocError>
    ensures { OnOk result (out.new ≡ out.old ++ insert_text schema.now params.now join.now values.now) }
{
    put(out, "insert into ")?;
    put_join(out, schema, join)?;
    put_values(out, schema, params, values)
}

fn put_values(
    out: &mut Txt,
    schema: &Schema,
    params: &[Param],
    values: &[Assign],
) -> Result<(), AllocError>
    ensures { OnOk result (out.new ≡ out.old ++ values_text schema.now params.now values.now) }
{
    put(out, " { ")?;
    put_joined(out, schema, params, ", ", values)?;
    put(out, " }")
}

fn put_query(
    out: &mut Txt,
    schema: &Schema,
    params: &[Param],
    query: &Query,
) -> Result<(), AllocError>
    ensures { OnOk result (out.new ≡ out.old ++ query_text schema.now params.now query.now) }
{
    put(out, "select ")?;
    put_cols(out, schema, query.columns.as_slice())?;
    put(out, " from ")?;
    put_join(out, schema, &query.join)?;
    put_where(out, schema, params, &query.cond)
}

fn put_lines(
    out: &mut Txt,
    schema: &Schema,
    params: &[Param],
    stmts: &[Stmt],
) -> Result<(), AllocError>
    ensures { OnOk result (out.new ≡ out.old ++ flat_map (λ t. line_text (stmt_text schema.now params.now t)) stmts.now) }
{
    for stmt in stmts {
        put(out, "  ")?;
        put_stmt(out, schema, params, stmt)?;
        put(out, ";\n")?;
    }
    Ok(())
}

fn put_body(out: &mut Txt, schema: &Schema, params: &[Param], body: &Body) -> Result<(), AllocError>
    ensures { OnOk result (out.new ≡ out.old ++ body_text schema.now params.now body.now) }
{
    match body {
        Body::Update(stmts) => put_lines(out, schema, params, stmts.as_slice()),
        Body::Query(query) => {
            put(out, "  ")?;
            put_query(out, schema, params, query)?;
            put(out, ";\n")
        }
    }
}

fn put_sort(out: &mut Txt, body: &Body) -> Result<(), AllocError>
    ensures { OnOk result (out.new ≡ out.old ++ sort_text body.now) }
{
    match body {
        Body::Update(_) => put(out, "update "),
        Body::Query(_) => put(out, "query "),
    }
}

fn put_function(out: &mut Txt, schema: &Schema, function: &Function) -> Result<(), AllocError>
    ensures { OnOk result (out.new ≡ out.old ++ function_text schema.now function.now) }
{
    let params = function.params.as_slice();
    put_sort(out, &function.body)?;
    put_bytes(out, function.name.as_slice())?;
    put(out, "(")?;
    put_joined(out, schema, params, ", ", params)?;
    put(out, ") {\n")?;
    put_body(out, schema, params, &function.body)?;
    put(out, "}\n")
}

/// Appends a program as its canonical text. On want of memory what was appended may be a part of it.
pub fn put_program(out: &mut Txt, schema: &Schema, program: &Program) -> Result<(), AllocError>
    ensures { OnOk result (out.new ≡ out.old ++ program_text schema.now program.now) }
{
    for function in program.functions.as_slice() {
        put_function(out, schema, function)?;
    }
    Ok(())
}

/// The canonical text of a program over this schema. A number that names nothing is written as nothing. Its only error is want of memory.
pub fn print_program(alloc: Global, schema: &Schema, program: &Program) -> Result<Txt, AllocError>
    ensures { IfOk result (λ t. t ≡ program_text schema.now program.now) }
{
    let mut out = Seq::new(alloc);
    put_program(&mut out, schema, program)?;
    Ok(out)
}
