// The order of functions, parameters and statements; and the classes of a join.
use super::{TABLES, WIDE};
use crate::texts::untyped;
use mig_schema::{Body, ColId, Program, ProgramRule, Schema, TypeFault};
use mig_tokens::Misread;
use mig_typing::{check_program, first_of_class, in_one_class, leader_of};
use std::alloc::Global;

/// The name of a second function, the name of its second parameter, the tables that its two statements delete from; and
/// its first broken rule with its statement.
const FUNCTIONS: [([&str; 4], Option<(ProgramRule, u32)>); 6] = [
    (["g", "nick", "a, b", "b, a"], None),
    (
        ["f", "nick", "a, b", "b, a"],
        Some((ProgramRule::FunctionTwice, 0)),
    ),
    (
        ["g", "id", "a, b", "b, a"],
        Some((ProgramRule::ParameterTwice, 0)),
    ),
    (
        ["f", "id", "c, b", "b, a"],
        Some((ProgramRule::FunctionTwice, 0)),
    ),
    (
        ["g", "nick", "a, a", "c, a"],
        Some((ProgramRule::JoinedTwice, 0)),
    ),
    (
        ["g", "nick", "a, b", "c, a"],
        Some((ProgramRule::UnknownTable, 1)),
    ),
];

/// The tables of most cases.
fn tables(alloc: Global) -> Result<Schema, Misread> {
    let job = untyped(alloc, &["old ", TABLES, " new program"])?;
    Ok(job.source)
}

const FIRST: &str =
    " new program query f(id: int, nick: text) { select a.id from a join b on a.id = b.id where 7 <= 7; } update ";

const ROWS: &str = " from a join b on a.id = b.id where 7 <= 7; ";

/// A program of a query and a second function.
fn program(alloc: Global, row: [&str; 4]) -> Result<Program, Misread> {
    let [name, param, first, second] = row;
    let parts = [
        "old ",
        WIDE,
        FIRST,
        name,
        "(id: int, ",
        param,
        ": text) { delete ",
        first,
        ROWS,
        "delete ",
        second,
        ROWS,
        "}",
    ];
    let job = untyped(alloc, &parts)?;
    Ok(job.program)
}

/// A fault of the second function, or none.
fn answer(want: Option<(ProgramRule, u32)>) -> Result<(), TypeFault> {
    match want {
        None => Ok(()),
        Some((rule, statement)) => Err(TypeFault::Program {
            rule,
            function: 1,
            statement,
        }),
    }
}

#[test]
fn first_statement_of_a_program(rt: HostRuntime) -> Result<(), Misread> {
    let schema = tables(rt.alloc())?;
    for (row, want) in &FUNCTIONS {
        let program = program(rt.alloc(), *row)?;
        let got = check_program(rt.alloc(), &schema, &program);
        let [name, param, first, second] = *row;
        assert!(rt; got == answer(*want), "{name} {param} {first} {second}");
    }
    Ok(())
}

const A_ID: ColId = ColId {
    table: 0,
    column: 0,
};

const B_ID: ColId = ColId {
    table: 1,
    column: 0,
};

const B_Y: ColId = ColId {
    table: 1,
    column: 1,
};

/// Whether the classes of the join of a program's one query are right: both ids are in one, and `y` in another.
fn has_classes(schema: &Schema, program: &Program) -> bool {
    let [function] = program.functions.as_slice() else {
        return false;
    };
    let Body::Query(query) = &function.body else {
        return false;
    };
    let join = &query.join;
    in_one_class(join, B_ID, A_ID)
        && !in_one_class(join, B_Y, A_ID)
        && first_of_class(schema, join, B_ID) == A_ID
        && first_of_class(schema, join, B_Y) == B_Y
        && leader_of(join, B_ID) == A_ID
}

#[test]
fn classes_of_a_join(rt: HostRuntime) -> Result<(), Misread> {
    let query = " new program query f() { select a.id from a join b on a.id = b.id; }";
    let job = untyped(rt.alloc(), &["old ", TABLES, query])?;
    assert!(rt; has_classes(&job.source, &job.program));
    Ok(())
}
