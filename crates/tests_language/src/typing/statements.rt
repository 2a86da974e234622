// One statement for each rule, and statements in which the order of rules decides.
use super::{TABLES, WIDE};
use crate::texts::untyped;
use mig_base::Seq;
use mig_schema::{
    Body, Cmp, Cond, Function, Item, Op, Program, ProgramRule, Query, Scalar, Stmt, TypeFault,
};
use mig_tokens::Misread;
use mig_typing::check_program;
use std::alloc::{AllocError, Global};

/// A statement of a function with an int and a text parameter, and the first rule that it breaks.
type Row = (&'static str, Option<ProgramRule>);

const QUERIES: [Row; 17] = [
    (
        "select a.id from a join b on a.id = b.id where 7 <= 7",
        None,
    ),
    (
        "select a.id from a join c on a.id = c.id where 7 <= 7",
        Some(ProgramRule::UnknownTable),
    ),
    (
        "select c.id from a join b on a.id = b.id where 7 <= 7",
        Some(ProgramRule::UnknownTable),
    ),
    (
        "select a.id from a join b on a.id = c.id where 7 <= 7",
        Some(ProgramRule::UnknownTable),
    ),
    (
        "select a.past from a join b on a.id = b.id where 7 <= 7",
        Some(ProgramRule::UnknownColumn),
    ),
    (
        "select a.id from a join b on a.past = b.id where 7 <= 7",
        Some(ProgramRule::UnknownColumn),
    ),
    (
        "select a.id from a join a on a.id = a.id where 7 <= 7",
        Some(ProgramRule::JoinedTwice),
    ),
    (
        "select a.id from a join b on b.id = a.id where 7 <= 7",
        Some(ProgramRule::OnShape),
    ),
    (
        "select a.id from a join b on a.x = b.y where 7 <= 7",
        Some(ProgramRule::OnShape),
    ),
    (
        "select a.id from a join b on b.y = b.id where 7 <= 7",
        Some(ProgramRule::OnShape),
    ),
    (
        "select a.id from a join b on a.id = b.id where 7 = past",
        Some(ProgramRule::UnknownParameter),
    ),
    (
        "select b.id from a where 7 <= 7",
        Some(ProgramRule::NotJoined),
    ),
    (
        "select a.id from a where b.id = 7",
        Some(ProgramRule::NotJoined),
    ),
    (
        "select a.id from a join b on a.id = b.id where a.id = nick",
        Some(ProgramRule::KindDiffers),
    ),
    (
        "select a.id from a join b on a.id = b.id where a.x < nick",
        Some(ProgramRule::OrderKind),
    ),
    // Different kinds come before their order.
    (
        "select a.id from a join b on a.id = b.id where a.id < nick",
        Some(ProgramRule::KindDiffers),
    ),
    // A column that is not there comes before a table that is joined to itself.
    (
        "select a.past from a join a on a.id = a.id where 7 <= 7",
        Some(ProgramRule::UnknownColumn),
    ),
];

const UPDATES: [Row; 10] = [
    (
        "insert into a join b on a.id = b.id { b.id = id, a.x = nick, b.y = 7 }",
        None,
    ),
    (
        "delete a, b from a join b on a.id = b.id where a.x <> nick",
        None,
    ),
    (
        "set b.y = id in a join b on a.id = b.id where b.id < 7",
        None,
    ),
    (
        "delete a, c from a join b on a.id = b.id where 7 <= 7",
        Some(ProgramRule::UnknownTable),
    ),
    (
        "delete b, b from a join b on a.id = b.id where 7 <= 7",
        Some(ProgramRule::JoinedTwice),
    ),
    (
        "set a.id = past in a join b on a.id = b.id where 7 <= 7",
        Some(ProgramRule::UnknownParameter),
    ),
    (
        "delete a, b from a where 7 <= 7",
        Some(ProgramRule::NotJoined),
    ),
    (
        "insert into a join b on a.id = b.id { a.x = nick, b.y = 7, b.y = 7 }",
        Some(ProgramRule::InsertCover),
    ),
    (
        "insert into a join b on a.id = b.id { a.id = 7, a.x = nick, b.id = 7 }",
        Some(ProgramRule::InsertCover),
    ),
    (
        "insert into a join b on a.id = b.id { a.x = nick, b.y = nick, a.id = 7 }",
        Some(ProgramRule::KindDiffers),
    ),
];

/// The function with the two parameters that each is tested with.
const OWN: &str = "old new program query f(id: int, nick: text) { select a.id from a; }";

/// A program of one function with this body.
fn alone(alloc: Global, body: Body) -> Result<Program, Misread> {
    let job = untyped(alloc, &[OWN])?;
    let mut own = job.program.functions.into_vec();
    let mut functions = Seq::new(alloc);
    if let Some(mut function) = own.pop() {
        function.body = body;
        functions.push(function)?;
    }
    Ok(Program { functions })
}

/// The body of a function with one statement; its names are numbered over wider tables and one parameter more.
fn body(alloc: Global, kind: &str, statement: &str) -> Result<Option<Body>, Misread> {
    let head = " f(id: int, nick: text, past: int) { ";
    let parts = ["old ", WIDE, " new program ", kind, head, statement, "; }"];
    let job = untyped(alloc, &parts)?;
    let mut functions = job.program.functions.into_vec();
    Ok(functions.pop().map(|function| function.body))
}

/// The first fault of a program of one function with this body.
fn fault(alloc: Global, body: Option<Body>) -> Result<Option<TypeFault>, Misread> {
    let tables = untyped(alloc, &["old ", TABLES, " new program"])?;
    match body {
        None => Ok(Some(TypeFault::Memory)),
        Some(body) => {
            let program = alone(alloc, body)?;
            Ok(check_program(alloc, &tables.source, &program).err())
        }
    }
}

/// A fault at the first statement of the first function, or none.
fn at_start(rule: Option<ProgramRule>) -> Option<TypeFault> {
    rule.map(|rule| TypeFault::Program {
        rule,
        function: 0,
        statement: 0,
    })
}

#[test]
fn first_rule_of_a_query(rt: HostRuntime) -> Result<(), Misread> {
    for (statement, want) in &QUERIES {
        let got = fault(rt.alloc(), body(rt.alloc(), "query", statement)?)?;
        assert!(rt; got == at_start(*want), "{statement}");
    }
    Ok(())
}

#[test]
fn first_rule_of_an_update(rt: HostRuntime) -> Result<(), Misread> {
    for (statement, want) in &UPDATES {
        let got = fault(rt.alloc(), body(rt.alloc(), "update", statement)?)?;
        assert!(rt; got == at_start(*want), "{statement}");
    }
    Ok(())
}

/// The body with a fresh key where no text has one: as the value of its first statement, or as both sides of an order that is its condition.
fn with_fresh(alloc: Global, body: Body) -> Result<Body, AllocError> {
    match body {
        Body::Update(stmts) => {
            let mut fresh = Vec::new(alloc);
            for stmt in stmts.into_vec() {
                fresh.push(set_fresh(stmt))?;
            }
            Ok(Body::Update(Seq::from_vec(fresh)))
        }
        Body::Query(query) => Ok(Body::Query(Query {
            columns: query.columns,
            join: query.join,
            cond: fresh_order(alloc)?,
        })),
    }
}

/// The statement, which sets a column to a fresh key where it sets one.
fn set_fresh(stmt: Stmt) -> Stmt {
    match stmt {
        Stmt::Set {
            column,
            join,
            cond,
            ..
        } => Stmt::Set {
            column,
            value: Scalar::Fresh(0),
            join,
            cond,
        },
        other => other,
    }
}

/// A fresh key is at least a fresh key.
fn fresh_order(alloc: Global) -> Result<Cond, AllocError> {
    let mut case = Seq::new(alloc);
    case.push(Cmp {
        op: Op::Ge,
        left: Item::Scalar(Scalar::Fresh(0)),
        right: Item::Scalar(Scalar::Fresh(0)),
    })?;
    let mut cases = Seq::new(alloc);
    cases.push(case)?;
    Ok(Cond { cases })
}

/// Statements in which fresh keys are put, and the first rule that is then broken.
const FRESH: [(&str, &str, ProgramRule); 2] = [
    (
        "update",
        "set a.id = 7 in a join b on a.id = b.id where 7 <= 7",
        ProgramRule::KindDiffers,
    ),
    (
        "query",
        "select a.id from a join b on a.id = b.id where 7 <= 7",
        ProgramRule::OrderKind,
    ),
];

#[test]
fn first_rule_with_fresh_keys(rt: HostRuntime) -> Result<(), Misread> {
    for (kind, statement, want) in &FRESH {
        let body = match body(rt.alloc(), kind, statement)? {
            None => None,
            Some(body) => Some(with_fresh(rt.alloc(), body)?),
        };
        let got = fault(rt.alloc(), body)?;
        assert!(rt; got == at_start(Some(*want)), "{statement}");
    }
    Ok(())
}
