// How long the largest program takes to be typed: 32 updates of four inserts, each of 45 values into a join of four tables of 12 columns.
use mig_base::{Seq, Txt};
use mig_schema::{
    Assign, Body, ColId, Column, Function, Join, Joined, Kind, Param, Program, Scalar, Schema,
    Side, Stmt, Table,
};
use mig_typing::{check_program, check_schema};
use std::alloc::{AllocError, Global};
use std::io;
use std::rt::Runtime;
use std::time::Instant;

/// A name of 32 bytes that differs from that of another number below 256 in its last byte.
fn name(alloc: Global, k: u8) -> Result<Txt, AllocError> {
    let mut name = Seq::from_slice(alloc, b"a_name_as_long_as_a_name_may_be")?;
    name.push(k)?;
    Ok(name)
}

/// A table of 12 columns.
fn table(alloc: Global, k: u8) -> Result<Table, AllocError> {
    let mut columns = Seq::new(alloc);
    for c in 0..12 {
        columns.push(Column {
            name: name(alloc, c)?,
            kind: Kind::Int,
        })?;
    }
    Ok(Table {
        name: name(alloc, k)?,
        columns,
    })
}

/// A schema of 16 tables.
fn schema(alloc: Global) -> Result<Schema, AllocError> {
    let mut tables = Seq::new(alloc);
    for k in 0..16 {
        tables.push(table(alloc, k)?)?;
    }
    Ok(Schema {
        tables,
        links: Seq::new(alloc),
    })
}

/// The first four tables, joined by their first columns.
fn join(alloc: Global) -> Result<Join, AllocError> {
    let mut more = Seq::new(alloc);
    for table in 1..4 {
        more.push(Joined {
            table,
            left: ColId {
                table: table - 1,
                column: 0,
            },
            right: ColId { table, column: 0 },
        })?;
    }
    Ok(Join { first: 0, more })
}

/// An insert with a value for the first column and for each that is not joined.
fn insert(alloc: Global) -> Result<Stmt, AllocError> {
    let mut values = Seq::new(alloc);
    for k in 0..48 {
        let column = ColId {
            table: k / 12,
            column: k % 12,
        };
        if k < 12 || column.column > 0 {
            values.push(Assign {
                column,
                value: Scalar::Param(0),
            })?;
        }
    }
    Ok(Stmt::Insert {
        join: join(alloc)?,
        values,
    })
}

/// An update of four inserts.
fn function(alloc: Global, k: u8) -> Result<Function, AllocError> {
    let mut params = Seq::new(alloc);
    params.push(Param {
        name: name(alloc, 0)?,
        kind: Kind::Int,
    })?;
    let mut stmts = Seq::new(alloc);
    for _ in 0..4 {
        stmts.push(insert(alloc)?)?;
    }
    Ok(Function {
        name: name(alloc, k)?,
        params,
        body: Body::Update(stmts),
    })
}

/// A program of so many updates.
fn program(alloc: Global, size: u8) -> Result<Program, AllocError> {
    let mut functions = Seq::new(alloc);
    for k in 0..size {
        functions.push(function(alloc, k)?)?;
    }
    Ok(Program { functions })
}

/// Whether both are typed.
fn is_typed(alloc: Global, schema: &Schema, program: &Program) -> bool {
    check_schema(alloc, schema, Side::Old).is_ok() && check_program(alloc, schema, program).is_ok()
}

/// Types a schema and a program of so many updates so many times.
pub fn time<R: Runtime + Alloc<A = Global>>(rt: &R, size: u8, times: u32) -> io::Result<()> {
    let schema = schema(rt.alloc())?;
    let program = program(rt.alloc(), size)?;
    let start = Instant::now(rt)?;
    let mut typed = false;
    for _ in 0..times {
        typed = is_typed(rt.alloc(), &schema, &program);
    }
    let spent = start.elapsed(rt)?.as_micros();
    println!(rt; "{size} updates: typed is {typed}, checked {times} times")?;
    eprintln!(rt; "{spent} microseconds in all")
}
